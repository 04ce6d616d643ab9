//! The lines that are written of a derive input.

use std::alloc::{AllocError, Global};
use std::fmt::Write as _;
use syn::deferred::DeferredExpr;
use syn::punctuated::Punctuated;
use syn::reader::token_text;
use syn::token::{Comma, Eq, TokenStream, TokenTreeRef};
use syn::{
    Data, DataEnum, DeriveInput, Error, Expr, Field, Fields, FieldsNamed, GenericParam, Generics,
    MemberRef, Members, Span, ToTokens, Variant,
};

/// Adds the lines of a struct, an enum or a union.
pub(crate) fn add_input(lines: &mut String, input: &DeriveInput, alloc: Global) -> syn::Result<()> {
    writeln!(lines, "{} {}", kind_of(&input.shape), input.ident.text())?;
    add_generics(lines, &input.generics, alloc)?;
    match &input.shape {
        Data::Struct(data) => add_fields(lines, "", &data.fields, alloc),
        Data::Enum(data) => add_variants(lines, data, alloc),
        Data::Union(data) => add_named_fields(lines, &data.fields, alloc),
    }
}

/// The word for its kind.
fn kind_of(shape: &Data) -> &'static str {
    match shape {
        Data::Struct(_) => "struct",
        Data::Enum(_) => "enum",
        Data::Union(_) => "union",
    }
}

/// Adds a line with the parameters, and one for each predicate of the where clause.
fn add_generics(lines: &mut String, generics: &Generics, alloc: Global) -> syn::Result<()> {
    add_params(lines, &generics.params, alloc)?;
    if let Some(clause) = &generics.where_clause {
        for predicate in clause.predicates.iter() {
            writeln!(lines, "where: {}", text_of(predicate, alloc)?.as_str())?;
        }
    }
    Ok(())
}

/// Adds a line with the parameters, with commas between them, where there are any.
fn add_params(
    lines: &mut String,
    params: &Punctuated<GenericParam, Comma>,
    alloc: Global,
) -> syn::Result<()> {
    let mut is_first = true;
    for param in params.iter() {
        lines.push_str(if is_first { "generics: " } else { ", " })?;
        lines.push_str(text_of(param, alloc)?.as_str())?;
        is_first = false;
    }
    if !params.is_empty() {
        lines.push('\n')?;
    }
    Ok(())
}

/// Adds the lines of the variants of an enum.
fn add_variants(lines: &mut String, data: &DataEnum, alloc: Global) -> syn::Result<()> {
    for variant in data.variants.iter() {
        add_variant(lines, variant, alloc)?;
    }
    Ok(())
}

/// Adds the line of a variant, and those of its fields.
fn add_variant(lines: &mut String, variant: &Variant, alloc: Global) -> syn::Result<()> {
    write!(lines, "variant {}", variant.ident.text())?;
    add_value(lines, &variant.discriminant, alloc)?;
    lines.push('\n')?;
    add_fields(lines, "  ", &variant.fields, alloc)
}

/// Adds the lines of the fields of a struct or a variant.
fn add_fields(lines: &mut String, indent: &str, fields: &Fields, alloc: Global) -> syn::Result<()> {
    for (member, field) in members(fields)?.zip(fields.iter()) {
        add_field(lines, indent, &member, field, alloc)?;
    }
    Ok(())
}

/// What the fields are called. The library counts up to 2^32 - 1 of them, so more are refused.
fn members(fields: &Fields) -> syn::Result<Members<'_>> {
    if fields.len() > 0xffff_ffff {
        return Err(Error::new(Span::call_site(), "too many fields"));
    }
    Ok(fields.members())
}

/// Adds the lines of the fields of a union.
fn add_named_fields(lines: &mut String, fields: &FieldsNamed, alloc: Global) -> syn::Result<()> {
    for field in fields.named.iter() {
        if let Some(ident) = &field.ident {
            add_field(lines, "", &MemberRef::Named(ident), field, alloc)?;
        }
    }
    Ok(())
}

/// Adds the line of a field: what it is called, its type, its span, and its default.
fn add_field(
    lines: &mut String,
    indent: &str,
    member: &MemberRef<'_>,
    field: &Field,
    alloc: Global,
) -> syn::Result<()> {
    lines.push_str(indent)?;
    add_member(lines, member)?;
    add_type(lines, &tokens_of(&field.ty, alloc)?)?;
    add_value(lines, &field.default, alloc)?;
    Ok(lines.push('\n')?)
}

/// Adds a field's name, or its place among the fields.
fn add_member(lines: &mut String, member: &MemberRef<'_>) -> Result<(), AllocError> {
    match member {
        MemberRef::Named(ident) => lines.push_str(ident.text()),
        MemberRef::Unnamed(place) => write!(lines, "{}", place.index),
    }
}

/// Adds the text of a type's tokens, and their spans.
fn add_type(lines: &mut String, ty: &TokenStream) -> syn::Result<()> {
    let Span { start, end } = place_of(ty);
    write!(lines, ": {} at {start}..{end}", token_text(ty)?.as_str())?;
    Ok(())
}

/// Adds a default or a discriminant, where there is one. It is a constant, and deferred: it is kept verbatim, and is a tree once
/// it is opened.
fn add_value(
    lines: &mut String,
    value: &Option<(Eq, DeferredExpr)>,
    alloc: Global,
) -> syn::Result<()> {
    if let Some((_, deferred)) = value {
        let expr: Expr = deferred.open()?;
        write!(lines, " = {}", text_of(&expr, alloc)?.as_str())?;
    }
    Ok(())
}

/// The text of a tree's tokens.
fn text_of<T: ToTokens>(tree: &T, alloc: Global) -> syn::Result<String> {
    token_text(&tokens_of(tree, alloc)?)
}

/// The tokens of a tree.
fn tokens_of<T: ToTokens>(tree: &T, alloc: Global) -> syn::Result<TokenStream> {
    let mut tokens = TokenStream::new(alloc);
    tree.to_tokens(&mut tokens)?;
    Ok(tokens)
}

/// From where the first of these tokens begins to where the last one ends; 0 to 0 where there are none.
fn place_of(tokens: &TokenStream) -> Span {
    let mut trees = tokens.iter();
    let Some(first) = trees.next() else {
        return Span::call_site();
    };
    let start = first.span().start;
    let mut end = end_of(&first);
    for tree in trees {
        end = end_of(&tree);
    }
    Span { start, end }
}

/// Where a tree ends; a group where its closing delimiter does.
fn end_of(tree: &TokenTreeRef<'_>) -> usize {
    match tree {
        TokenTreeRef::Group(group) => group.closing.end,
        TokenTreeRef::Ident(_) | TokenTreeRef::Literal(_) | TokenTreeRef::Punct(_) => {
            tree.span().end
        }
    }
}
