//! How the tests write down what a text is read as, and what it is refused for.
use crate::tests::asserts::assert_text_of;
use std::alloc::Global;
use std::process::Abort;
use syn_outlines::stream_shown;
use syn_reader::reader::read_tokens;
use syn_tokens::error::Result;
use syn_tokens::stream::TokenStream;

/// A text, and its tokens with their spans: an identifier as `a@0..1`; a mark's character as `:@0..1`, or as `:+@0..1` where
/// it is Joint; a literal with its kind before it, as `Int1@0..1` or `Str"a"@0..3`; and the two delimiters of a group as `(@0..1`
/// and `)@1..2`.
pub type Read = (&'static str, &'static str);

/// A text that is refused, from which byte, and why.
pub type Refused = (&'static str, usize, &'static str);

/// The tokens of the text with their spans, in the words of `Read`.
pub fn shown(alloc: Global, text: &str) -> Result<String> {
    Ok(stream_shown(alloc, &read_tokens(alloc, text)?)?)
}

/// The stream made again of its trees.
fn made_again(tokens: &TokenStream) -> Result<TokenStream> {
    let mut again = TokenStream::new(tokens.alloc());
    for place in 0..tokens.len() {
        if let Some(tree) = tokens.get(place)? {
            again.push(tree)?;
        }
    }
    Ok(again)
}

/// The same, where the stream is made again of its trees before.
fn shown_by_trees(alloc: Global, text: &str) -> Result<String> {
    let again = made_again(&read_tokens(alloc, text)?)?;
    Ok(stream_shown(alloc, &again)?)
}

/// Fails where one of the texts isn't read as these tokens.
pub fn are_read(rt: &impl Abort, alloc: Global, table: &[Read]) -> Result<()> {
    for (text, tokens) in table {
        assert_text_of(rt, text, shown(alloc, text)?.as_str(), tokens);
        assert_text_of(rt, text, shown_by_trees(alloc, text)?.as_str(), tokens);
    }
    Ok(())
}

/// Where the text is refused and why, where it is for one fault.
fn only_fault(alloc: Global, text: &str) -> Result<Option<(usize, &'static str)>> {
    let Err(error) = read_tokens(alloc, text) else {
        return Ok(None);
    };
    if error.is_memory() {
        return Err(error);
    }
    Ok(match error.faults() {
        [fault] => Some((fault.span.start, fault.text)),
        _ => None,
    })
}

/// Fails where one of the texts isn't refused from that byte, with that one fault.
pub fn are_refused(rt: &impl Abort, alloc: Global, table: &[Refused]) -> Result<()> {
    for (text, start, why) in table {
        assert_eq!(rt;
            only_fault(alloc, text)?,
            Some((*start, *why)),
            "of {text:?}"
        );
    }
    Ok(())
}
