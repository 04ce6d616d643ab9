//! What the tests share: streams from texts, texts that show streams, and what a refusal says.
//!
//! Each test is proved, and a proof grows with every way out of a function and with what is alive there. So a test takes its
//! stream from `stream`, which ends it where memory is refused, and asserts what a small function returns by yes or no, or calls
//! a function that asserts and returns nothing.
use std::alloc::Global;
use std::process::Abort;
use syn_outlines::stream_shown;
use syn_parse::buffer::ParseBuffer;
use syn_parse::parse::Parse;
use syn_parse::read::Peek;
use syn_tokens::delimiter::Delimiter;
use syn_tokens::error::{Error, Result};
use syn_tokens::ident::Ident;
use syn_tokens::literal::{LitKind, Literal};
use syn_tokens::print::ToTokens;
use syn_tokens::punct::{Punct, Spacing};
use syn_tokens::span::Span;
use syn_tokens::stream::TokenStream;
use syn_tokens::stream::builder::StreamBuilder;

/// One byte of a text.
pub fn at(start: usize) -> Span {
    Span {
        start,
        end: start.saturating_add(1),
    }
}

/// The stream of these parts, with spaces between them: identifiers, numbers, characters as `'x'`, delimiters, and the
/// characters of marks, of which all but the last, and each `'`, are Joint. Each token and each delimiter has one byte, the
/// first one at 0.
pub fn tokens(alloc: Global, text: &str) -> Result<TokenStream> {
    tokens_from(alloc, text, 0)
}

/// The same, from this byte on.
pub fn tokens_from(alloc: Global, text: &str, start: usize) -> Result<TokenStream> {
    let mut builder = StreamBuilder::new(alloc);
    let mut place = start;
    for part in text.split_whitespace() {
        add_part(&mut builder, part, place)?;
        place = place.saturating_add(tokens_of(part));
    }
    builder.finish()
}

/// The same as `tokens`, which ends the test where it is refused.
pub fn stream(rt: &impl Abort, alloc: Global, text: &str) -> TokenStream {
    tokens(alloc, text).expect(rt, "a stream")
}

fn is_mark(part: &str) -> bool {
    part.chars().all(Punct::is_punct_character)
}

/// How many tokens a part is.
fn tokens_of(part: &str) -> usize {
    if is_mark(part) { part.len() } else { 1 }
}

fn add_part(out: &mut StreamBuilder, part: &str, place: usize) -> Result<()> {
    match part {
        "(" => out.open(Delimiter::Paren, at(place))?,
        ")" => out.close(Delimiter::Paren, at(place))?,
        "{" => out.open(Delimiter::Brace, at(place))?,
        "}" => out.close(Delimiter::Brace, at(place))?,
        "[" => out.open(Delimiter::Bracket, at(place))?,
        "]" => out.close(Delimiter::Bracket, at(place))?,
        _ if is_mark(part) => add_marks(out, part, place)?,
        _ => add_leaf(out, part, at(place))?,
    }
    Ok(())
}

fn add_marks(out: &mut StreamBuilder, part: &str, place: usize) -> Result<()> {
    for (offset, character) in part.char_indices() {
        let is_last = offset.saturating_add(1) == part.len();
        let spacing = if is_last && character != '\'' {
            Spacing::Alone
        } else {
            Spacing::Joint
        };
        add_mark(out, character, spacing, at(place.saturating_add(offset)))?;
    }
    Ok(())
}

fn add_mark(out: &mut StreamBuilder, character: char, spacing: Spacing, span: Span) -> Result<()> {
    if Punct::is_punct_character(character) {
        out.add_punct(character, spacing, span)?;
    }
    Ok(())
}

/// Adds a character, a number, or an identifier.
fn add_leaf(out: &mut StreamBuilder, part: &str, span: Span) -> Result<()> {
    let kind = match part.chars().next() {
        Some('\'') => LitKind::Char,
        Some('0'..='9') => LitKind::Int,
        _ => {
            out.add_ident(Ident::new(out.alloc(), part, span)?)?;
            return Ok(());
        }
    };
    out.add_literal(Literal::new(out.alloc(), kind, part, span)?)?;
    Ok(())
}

/// What shows each token and each delimiter with its span.
pub fn shown(alloc: Global, stream: &TokenStream) -> Result<String> {
    Ok(stream_shown(alloc, stream)?)
}

/// Whether the error has just this fault, from this byte on.
pub fn reports(error: &Error, start: usize, text: &str) -> bool {
    match error.faults() {
        [fault] => fault.span.start == start && fault.text == text,
        _ => false,
    }
}

/// Whether the call was refused with just this fault, from this byte on.
pub fn refused<T>(answer: &Result<T>, start: usize, text: &str) -> bool {
    match answer {
        Ok(_) => false,
        Err(error) => reports(error, start, text),
    }
}

/// Whether this text shows the stream.
pub fn is_shown(stream: &TokenStream, want: &str) -> bool {
    matches!(shown(stream.alloc(), stream), Ok(text) if text.as_str() == want)
}

/// Fails where this text doesn't show the stream.
pub fn assert_shown(rt: &impl Abort, stream: &TokenStream, want: &str) {
    assert!(rt; is_shown(stream, want), "{want}");
}

/// What the value prints.
pub fn printed<T: ToTokens>(alloc: Global, value: &T) -> Result<TokenStream> {
    let mut out = TokenStream::new(alloc);
    value.to_tokens(&mut out)?;
    Ok(out)
}

/// Whether what the value prints is shown by this text.
fn is_printed<T: ToTokens>(alloc: Global, value: &T, want: &str) -> bool {
    matches!(printed(alloc, value), Ok(out) if is_shown(&out, want))
}

/// Whether such a value is seen and parsed at the front of the buffer, and what it prints is shown by this text.
fn is_parsed<T: Peek + Parse + ToTokens + Drop>(input: &mut ParseBuffer<'_>, want: &str) -> bool {
    let alloc = input.alloc();
    let seen = input.peek::<T>();
    matches!(input.parse::<T>(), Ok(value) if seen && is_printed(alloc, &value, want))
}

/// Fails where that isn't so.
pub fn assert_parsed<T: Peek + Parse + ToTokens + Drop>(
    rt: &impl Abort,
    input: &mut ParseBuffer<'_>,
    want: &str,
) {
    assert!(rt; is_parsed::<T>(input, want), "{want}");
}

/// Whether the result is a refusal with just this fault, there.
fn is_refused_at<T>(answer: &Result<T>, span: Span, text: &str) -> bool {
    match answer {
        Ok(_) => false,
        Err(error) => error.span() == span && reports(error, span.start, text),
    }
}

/// Whether such a value is neither seen nor parsed, with a fault at the first token, and nothing of the buffer is read.
pub fn is_left<T: Peek + Parse + Drop>(input: &mut ParseBuffer<'_>, text: &str) -> bool {
    let before = input.span();
    let seen = input.peek::<T>();
    !seen && is_refused_at(&input.parse::<T>(), before, text) && input.span() == before
}
