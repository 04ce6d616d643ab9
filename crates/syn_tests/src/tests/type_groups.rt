//! Types in groups without delimiters.
use crate::tests::asserts::{assert_text_of, grouped, value};
use std::alloc::Global;
use std::process::Abort;
use syn::Result;
use syn::lower::Type;
use syn::parse::ParseBuffer;
use syn::reader::token_text;
use syn::token::{Delimiter, Spacing, TokenStream};
use syn_test_support::outline::outline;
use syn_test_support::{fault, push_marks};

/// A type after a mark, in a group without delimiters, and a mark after the group.
fn in_a_group(rt: &impl Abort, alloc: Global, text: &str) -> TokenStream {
    let mut tokens = grouped(rt, alloc, "&", Delimiter::None, text);
    value(rt, push_marks(&mut tokens, ";", Spacing::Alone));
    tokens
}

/// What shows the type in a group after a reference; nothing where this is none.
fn content_shown(alloc: Global, ty: &Type) -> Result<String> {
    if let Type::Reference(reference) = ty
        && let Type::Group(group) = &*reference.elem
    {
        return Ok(outline(alloc, &*group.elem)?);
    }
    Ok(String::new(alloc))
}

/// What is left of the input.
fn left(input: &mut ParseBuffer<'_>) -> Result<String> {
    token_text(&input.rest()?)
}

const GROUPS: &[(&str, &str)] = &[
    ("T", "Type Path T@0..1"),
    (
        "&'a [A<B>]",
        "Type Reference &@0..1 '@1..2 a@2..3 Type Slice [@4..5 Type Path A@5..6 Arguments <@6..7 Type Path B@7..8 >@8..9 ]@9..10",
    ),
];

/// A group without delimiters is a type of its own, and holds nothing but a type.
#[test]
fn groups(rt: HostRuntime) {
    for (text, want) in GROUPS {
        let tokens = in_a_group(&rt, rt.alloc(), text);
        let mut input = ParseBuffer::new(&tokens);
        let ty: Type = value(&rt, input.parse());
        assert_text_of(&rt, text, content_shown(rt.alloc(), &ty), want);
        assert_text_of(&rt, text, left(&mut input), ";");
    }
}

#[test]
fn refused_groups(rt: HostRuntime) {
    for (text, words) in [
        ("", "expected identifier"),
        ("T U", "unexpected token"),
        ("dyn T", "expected identifier"),
    ] {
        let tokens = in_a_group(&rt, rt.alloc(), text);
        let missed = value(&rt, fault(ParseBuffer::new(&tokens).parse::<Type>()));
        assert!(rt; missed.text == words, "{text}");
    }
}
