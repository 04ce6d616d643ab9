//! How a token is spelled: as one text and as no other.
use crate::tests::support::{is_left, is_shown, printed, shown, tokens};
use std::alloc::Global;
use std::process::Abort;
use syn_parse::buffer::ParseBuffer;
use syn_parse::parse::Parse;
use syn_parse::read::Peek;
use syn_tokens::error::Result;
use syn_tokens::print::ToTokens;
use syn_tokens::stream::TokenStream;

/// Whether such a token is seen and parsed as the whole stream.
fn is_whole<T: Peek + Parse + ToTokens + Drop>(stream: &TokenStream) -> Result<bool> {
    let mut input = ParseBuffer::new(stream);
    let seen = input.peek::<T>();
    let out = printed(stream.alloc(), &input.parse::<T>()?)?;
    let want = shown(stream.alloc(), stream)?;
    Ok(seen && input.is_empty() && out == *stream && is_shown(&out, want.as_str()))
}

/// Whether such a token is seen and parsed as the whole text, and printed as it.
fn is_read<T: Peek + Parse + ToTokens + Drop>(alloc: Global, text: &str) -> Result<bool> {
    is_whole::<T>(&tokens(alloc, text)?)
}

/// Whether such a token is neither seen nor parsed at the front of the text, with this fault.
fn is_refused<T: Peek + Parse + Drop>(alloc: Global, text: &str, fault: &str) -> Result<bool> {
    let stream = tokens(alloc, text)?;
    Ok(is_left::<T>(&mut ParseBuffer::new(&stream), fault))
}

/// Whether none of the texts is such a token, with a fault that names the one that is.
fn is_no_other<T: Peek + Parse + Drop>(alloc: Global, text: &str, row: &str) -> Result<bool> {
    let fault = format!(in alloc; "expected `{text}`")?;
    for other in row.split(" not ").skip(1) {
        if !is_refused::<T>(alloc, other, fault.as_str())? {
            return Ok(false);
        }
    }
    Ok(true)
}

/// Whether the first text of the row is such a token, and none of those that follow it, each after a ` not `, is.
fn is_spelled<T: Peek + Parse + ToTokens + Drop>(alloc: Global, row: &str) -> Result<bool> {
    match row.split(" not ").next() {
        Some(text) => Ok(is_read::<T>(alloc, text)? && is_no_other::<T>(alloc, text, row)?),
        None => Ok(false),
    }
}

/// Fails where that isn't so.
pub fn assert_spelled<T: Peek + Parse + ToTokens + Drop>(
    rt: &impl Abort,
    alloc: Global,
    row: &str,
) {
    assert!(rt; matches!(is_spelled::<T>(alloc, row), Ok(true)), "{row}");
}
