//! The line of one text.

use crate::failure::Failure;
use std::alloc::{AllocError, Global};
use syn_reader::reader::{read_tokens, token_text};
use syn_tokens::delimiter::Delimiter;
use syn_tokens::error::Error;
use syn_tokens::ident::ident_ref::IdentRef;
use syn_tokens::literal::literal_ref::LiteralRef;
use syn_tokens::punct::Punct;
use syn_tokens::span::Span;
use syn_tokens::stream::TokenStream;
use syn_tokens::stream::entry::Token;

/// Adds the line of the text with these hex digits.
pub(crate) fn add_line(alloc: Global, digits: &str, out: &mut String) -> Result<(), Failure> {
    let bytes = hex::decode(alloc, digits)?;
    let text = String::from_utf8(bytes).map_err(|_| Failure::Broken)?;
    match read_tokens(alloc, text.as_str()) {
        Ok(tokens) => add_tokens(alloc, &tokens, out)?,
        Err(error) => add_refusal(error, out)?,
    }
    out.push('\n')?;
    Ok(())
}

fn add_refusal(error: Error, out: &mut String) -> Result<(), Failure> {
    if error.is_memory() {
        return Err(Failure::OutOfMemory);
    }
    let start = error.span().start;
    write!(out, "refused at {start}: {error}")?;
    Ok(())
}

fn add_tokens(alloc: Global, tokens: &TokenStream, out: &mut String) -> Result<(), Failure> {
    let text = token_text(tokens)?;
    add_entries(alloc, tokens, out)?;
    let digits = hex::encode(alloc, text.as_bytes())?;
    write!(out, "\t{digits}")?;
    Ok(())
}

fn add_entries(alloc: Global, tokens: &TokenStream, out: &mut String) -> Result<(), AllocError> {
    for entry in tokens.entries() {
        match entry.token() {
            Token::Ident(ident) => add_ident(alloc, &ident, out)?,
            Token::Literal(literal) => add_literal(alloc, &literal, out)?,
            Token::Punct(punct) => add_punct(&punct, out)?,
            Token::Open(open) => add(out, delimiters_of(open.delimiter).0, open.span)?,
            Token::Close(close) => add(out, delimiters_of(close.delimiter).1, close.span)?,
        }
    }
    Ok(())
}

fn delimiters_of(delimiter: Delimiter) -> (&'static str, &'static str) {
    match delimiter {
        Delimiter::Paren => ("(", ")"),
        Delimiter::Brace => ("{", "}"),
        Delimiter::Bracket => ("[", "]"),
        Delimiter::None => ("<", ">"),
    }
}

fn add_ident(alloc: Global, ident: &IdentRef<'_>, out: &mut String) -> Result<(), AllocError> {
    add(out, "Ident", ident.span)?;
    add_hex(alloc, ident.text(), out)
}

fn add_literal(
    alloc: Global,
    literal: &LiteralRef<'_>,
    out: &mut String,
) -> Result<(), AllocError> {
    let kind = literal.kind();
    let word = format!(in alloc; "{kind:?}")?;
    add(out, word.as_str(), literal.span)?;
    add_hex(alloc, literal.text(), out)
}

fn add_punct(punct: &Punct, out: &mut String) -> Result<(), AllocError> {
    let (character, spacing) = (punct.character() as u32, punct.spacing);
    add(out, "Punct", punct.span)?;
    write!(out, ":{character:02x}:{spacing:?}")?;
    Ok(())
}

/// Adds a word and its span, after a blank unless it is the first of the line.
fn add(out: &mut String, word: &str, span: Span) -> Result<(), AllocError> {
    if !out.is_empty() {
        out.push(' ')?;
    }
    write!(out, "{word}:{}:{}", span.start, span.end)?;
    Ok(())
}

fn add_hex(alloc: Global, text: &str, out: &mut String) -> Result<(), AllocError> {
    let digits = hex::encode(alloc, text.as_bytes())?;
    write!(out, ":{digits}")?;
    Ok(())
}
