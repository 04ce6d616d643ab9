//! The fields of a struct: what they are called, how many there are, and what comes of walking them.

use crate::answer::reported;
use crate::failure::Failure;
use crate::question::Heading;
use std::alloc::{AllocError, Global};
use std::fmt::Write as _;
use syn::data::{Field, Fields, MemberRef, Members};
use syn::item::ItemStruct;
use syn::lower::{Type, TypeTuple};
use syn::punctuated::Punctuated;
use syn::token::Paren;
use syn::{Error, Result, Span};
use syn_test_support::{parsed, printed, span};

/// What is said of the fields of a struct.
#[derive(Clone, Copy)]
enum Said {
    /// What they are called by `members`.
    Members,
    /// The names of those that have one.
    Names,
    /// How many there are, and whether there are none.
    Number,
    /// What each prints, moved out of the struct, with a `;` behind it.
    Prints,
    /// What they print once the type of each is `()`.
    Changed,
    /// What the struct prints then.
    ChangedStruct,
}

impl Said {
    /// What is said in this word.
    fn from_word(word: &str) -> Option<Said> {
        match word {
            "members" => Some(Said::Members),
            "names" => Some(Said::Names),
            "number" => Some(Said::Number),
            "prints" => Some(Said::Prints),
            "changed" => Some(Said::Changed),
            "changed_struct" => Some(Said::ChangedStruct),
            _ => None,
        }
    }
}

/// What is said in this word of the fields of the struct that the text is.
pub(crate) fn fields_as(
    alloc: Global,
    heading: &Heading<'_>,
    word: &str,
    text: &str,
) -> std::result::Result<String, Failure> {
    match Said::from_word(word) {
        Some(said) => reported(alloc, said_of(alloc, said, text)),
        None => Err(Failure::Malformed(heading.line, "no such word of fields")),
    }
}

fn said_of(alloc: Global, said: Said, text: &str) -> Result<String> {
    let mut item: ItemStruct = parsed(alloc, text)?;
    match said {
        Said::Members => members(alloc, &item.fields),
        Said::Names => Ok(names(alloc, &item.fields)?),
        Said::Number => number(alloc, &item.fields),
        Said::Prints => prints(alloc, item.fields),
        Said::Changed => changed(alloc, &mut item.fields),
        Said::ChangedStruct => changed_struct(alloc, &mut item),
    }
}

/// Each member is told by its name, or by its place and where its type begins.
fn members(alloc: Global, fields: &Fields) -> Result<String> {
    if fields.len() > 1000 {
        return Err(Error::new(Span::call_site(), "too many fields"));
    }
    Ok(members_known(alloc, fields.members())?)
}

fn members_known(alloc: Global, members: Members<'_>) -> std::result::Result<String, AllocError> {
    let mut text = String::new(alloc);
    for member in members {
        add_member(&mut text, &member)?;
    }
    Ok(text)
}

fn add_member(text: &mut String, member: &MemberRef<'_>) -> std::result::Result<(), AllocError> {
    match member {
        MemberRef::Named(ident) => write!(text, "{};", ident.text()),
        MemberRef::Unnamed(member) => {
            let Span { start, end } = member.span;
            write!(text, "{}@{start}..{end};", member.index)
        }
    }
}

/// The fields are lent to a loop.
fn names(alloc: Global, fields: &Fields) -> std::result::Result<String, AllocError> {
    let mut text = String::new(alloc);
    for field in fields {
        if let Some(ident) = &field.ident {
            write!(text, "{};", ident.text())?;
        }
    }
    Ok(text)
}

fn number(alloc: Global, fields: &Fields) -> Result<String> {
    let none = if fields.is_empty() { ", none" } else { "" };
    Ok(format!(in alloc; "{}{none}", fields.len())?)
}

fn prints(alloc: Global, fields: Fields) -> Result<String> {
    let mut out = Ok(String::new(alloc));
    for field in fields {
        out = with_printed(alloc, out, &field);
    }
    out
}

/// The text with that of a field behind it, where neither was refused.
fn with_printed(alloc: Global, text: Result<String>, field: &Field) -> Result<String> {
    let mut out = text?;
    add_printed(&mut out, alloc, field)?;
    Ok(out)
}

fn add_printed(out: &mut String, alloc: Global, field: &Field) -> Result<()> {
    out.push_str(printed(alloc, field)?.as_str())?;
    Ok(out.push(';')?)
}

fn changed(alloc: Global, fields: &mut Fields) -> Result<String> {
    for field in &mut *fields {
        field.ty = unit_type(alloc);
    }
    printed(alloc, fields)
}

fn changed_struct(alloc: Global, item: &mut ItemStruct) -> Result<String> {
    for field in item.fields.iter_mut() {
        field.ty = unit_type(alloc);
    }
    printed(alloc, item)
}

/// The type of no values.
fn unit_type(alloc: Global) -> Type {
    Type::Tuple(TypeTuple {
        paren_token: Paren::new(span(0, 1), span(1, 2)),
        elems: Punctuated::new(alloc),
    })
}
