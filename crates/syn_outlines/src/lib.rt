//! Texts that show token streams whole, each token with its spans: what tests compare.
#![tactic(auto)]

use std::alloc::{AllocError, Global};
use syn_tokens::delimiter::Delimiter;
use syn_tokens::literal::literal_ref::LiteralRef;
use syn_tokens::punct::{Punct, Spacing};
use syn_tokens::span::Span;
use syn_tokens::stream::TokenStream;
use syn_tokens::stream::entry::{Entry, Token};

/// The text that shows the tokens of a stream, in their order: an identifier as `a@0..1`; the character of a mark as `:@3..4`, or
/// as `:+@3..4` where it is Joint; a literal with its kind before it, as `Int1@0..1`; and the two delimiters of a group as
/// `(@0..1` and `)@4..5`, those of an invisible one as `<<@0..0` and `>>@4..4`.
pub fn stream_shown(alloc: Global, tokens: &TokenStream) -> Result<String, AllocError> {
    let mut out = String::new(alloc);
    add_stream(&mut out, tokens)?;
    Ok(out)
}

/// Adds what shows the tokens of a stream.
pub fn add_stream(out: &mut String, tokens: &TokenStream) -> Result<(), AllocError> {
    for entry in tokens.entries() {
        add_entry(out, entry)?;
    }
    Ok(())
}

/// Adds a word, after a space where something is before it.
pub fn add_word(out: &mut String, word: &str) -> Result<(), AllocError> {
    if !out.is_empty() {
        out.push(' ')?;
    }
    out.push_str(word)
}

/// Adds a span.
pub fn add_place(out: &mut String, span: Span) -> Result<(), AllocError> {
    let (start, end) = (span.start, span.end);
    write!(out, "@{start}..{end}")?;
    Ok(())
}

/// Adds a word with its span.
pub fn add_token(out: &mut String, word: &str, span: Span) -> Result<(), AllocError> {
    add_word(out, word)?;
    add_place(out, span)
}

fn add_entry(out: &mut String, entry: &Entry) -> Result<(), AllocError> {
    match entry.token() {
        Token::Ident(ident) => add_token(out, ident.text(), ident.span),
        Token::Literal(literal) => add_literal(out, &literal),
        Token::Punct(punct) => add_punct(out, &punct),
        Token::Open(open) => add_token(out, signs(open.delimiter).0, open.span),
        Token::Close(close) => add_token(out, signs(close.delimiter).1, close.span),
    }
}

fn add_literal(out: &mut String, literal: &LiteralRef<'_>) -> Result<(), AllocError> {
    let kind = literal.kind();
    add_word(out, "")?;
    write!(out, "{kind:?}")?;
    out.push_str(literal.text())?;
    add_place(out, literal.span)
}

fn add_punct(out: &mut String, punct: &Punct) -> Result<(), AllocError> {
    add_word(out, "")?;
    out.push(punct.character())?;
    if punct.spacing == Spacing::Joint {
        out.push('+')?;
    }
    add_place(out, punct.span)
}

fn signs(delimiter: Delimiter) -> (&'static str, &'static str) {
    match delimiter {
        Delimiter::Paren => ("(", ")"),
        Delimiter::Brace => ("{", "}"),
        Delimiter::Bracket => ("[", "]"),
        Delimiter::None => ("<<", ">>"),
    }
}
