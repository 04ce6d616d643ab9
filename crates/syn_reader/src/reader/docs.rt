//! Doc comments.
ghost use Rattle.std.specs.Prelude.{◌≡◌, ◌++◌, IfOk, MatchOption, string_bytes};
ghost use Rattle.std.specs.Str.{chars};
ghost use Rattle.syn_reader.specs.Docs.{IsDoc, IsNoDoc, escaped, quoted};

use std::alloc::{AllocError, Global};

/// The content of a doc comment.
#[derive(Drop)]
pub(super) struct Doc<'a> {
    /// Whether it documents the enclosing item, rather than the next one.
    pub(super) inner: bool,
    /// The text after the opening delimiter, and before `*/`.
    pub(super) text: &'a str,
}

/// The content of the comment, if it is a doc comment: `///` but not `////`, `//!`, `/** */` but not `/***` and not `/**/`, or
/// `/*! */`.
pub(super) fn doc_of(comment: &str) -> Option<Doc<'_>>
    ensures { MatchOption result (IsNoDoc comment.now) (λ d. IsDoc comment.now d.inner d.text.now) }
{
    if let Some(text) = comment.strip_prefix("//!") {
        return Some(Doc { inner: true, text });
    }
    if let Some(text) = comment.strip_prefix("/*!") {
        let text = text.strip_suffix("*/")?;
        return Some(Doc { inner: true, text });
    }
    if comment.starts_with("////") || comment.starts_with("/***") {
        return None;
    }
    if let Some(text) = comment.strip_prefix("///") {
        return Some(Doc { inner: false, text });
    }
    let text = comment.strip_prefix("/**")?;
    let text = text.strip_suffix("*/")?;
    Some(Doc { inner: false, text })
}

/// The text as a string literal of Rust, with `\`, `"`, newline, carriage return and tab escaped.
pub(super) fn quoted(alloc: Global, text: &str) -> Result<String, AllocError>
    ensures { IfOk result (λ literal. string_bytes literal ≡ quoted (chars text.now)) }
{
    let mut literal = String::new(alloc);
    literal.push('"')?;
    for character in text.chars() {
        push_escaped(&mut literal, character)?;
    }
    literal.push('"')?;
    Ok(literal)
}

/// Appends a character, escaped as in a string literal.
#[tactic(auto, unfolding(crate::specs::Docs::escaped))]
fn push_escaped(literal: &mut String, character: char) -> Result<(), AllocError>
    ensures { IfOk result (λ _. string_bytes literal.new ≡ string_bytes literal.old ++ escaped character) }
{
    match character {
        '\\' => literal.push_str("\\\\"),
        '"' => literal.push_str("\\\""),
        '\n' => literal.push_str("\\n"),
        '\r' => literal.push_str("\\r"),
        '\t' => literal.push_str("\\t"),
        _ => literal.push(character),
    }
}
