//! How a line writes a token stream.

use crate::failure::Failure;
use std::alloc::Global;
use syn::token::{
    Delimiter, Ident, LitKind, Literal, Punct, Spacing, Span, StreamBuilder, TokenStream,
};

/// The stream that these words stand for. The span of each token is its place among the words.
pub(crate) fn stream_of(alloc: Global, words: &str) -> Result<TokenStream, Failure> {
    let mut out = StreamBuilder::new(alloc);
    let mut start = 0_usize;
    for word in words.split(' ') {
        let end = start.saturating_add(1);
        add_word(alloc, word, Span { start, end }, &mut out)?;
        start = end;
    }
    Ok(out.finish()?)
}

/// Adds what the word stands for; an empty one stands for nothing.
fn add_word(alloc: Global, word: &str, span: Span, out: &mut StreamBuilder) -> Result<(), Failure> {
    match word {
        "" => {}
        "(" => out.open(Delimiter::Paren, span)?,
        "{" => out.open(Delimiter::Brace, span)?,
        "[" => out.open(Delimiter::Bracket, span)?,
        "<" => out.open(Delimiter::None, span)?,
        ")" => out.close(Delimiter::Paren, span)?,
        "}" => out.close(Delimiter::Brace, span)?,
        "]" => out.close(Delimiter::Bracket, span)?,
        ">" => out.close(Delimiter::None, span)?,
        _ => add_token(alloc, word, span, out)?,
    }
    Ok(())
}

/// Adds a token that is no sign of a group.
fn add_token(
    alloc: Global,
    word: &str,
    span: Span,
    out: &mut StreamBuilder,
) -> Result<(), Failure> {
    if let Some(mark) = word.strip_prefix("+") {
        return add_mark(mark, Spacing::Joint, span, out);
    }
    if let Some(mark) = word.strip_prefix("-") {
        return add_mark(mark, Spacing::Alone, span, out);
    }
    let (kind, digits) = word.split_once(':').ok_or(Failure::Broken)?;
    let text = text_of(alloc, digits)?;
    if kind == "Ident" {
        out.add_ident(Ident::new(alloc, text.as_str(), span)?)?;
    } else {
        let kind = literal_kind(kind).ok_or(Failure::Broken)?;
        out.add_literal(Literal::new(alloc, kind, text.as_str(), span)?)?;
    }
    Ok(())
}

/// Adds a mark of one character.
fn add_mark(
    mark: &str,
    spacing: Spacing,
    span: Span,
    out: &mut StreamBuilder,
) -> Result<(), Failure> {
    let mut characters = mark.chars();
    let (Some(character), None) = (characters.next(), characters.next()) else {
        return Err(Failure::Broken);
    };
    if !Punct::is_punct_character(character) {
        return Err(Failure::Broken);
    }
    Ok(out.add_punct(character, spacing, span)?)
}

/// The text whose bytes these hex digits are.
fn text_of(alloc: Global, digits: &str) -> Result<String, Failure> {
    String::from_utf8(hex::decode(alloc, digits)?).map_err(|_| Failure::Broken)
}

/// The kind of literals that the word names.
fn literal_kind(word: &str) -> Option<LitKind> {
    match word {
        "Str" => Some(LitKind::Str),
        "ByteStr" => Some(LitKind::ByteStr),
        "CStr" => Some(LitKind::CStr),
        "Byte" => Some(LitKind::Byte),
        "Char" => Some(LitKind::Char),
        "Int" => Some(LitKind::Int),
        "Float" => Some(LitKind::Float),
        _ => None,
    }
}
