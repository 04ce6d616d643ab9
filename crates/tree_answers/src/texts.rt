//! The texts, one behind another.

use crate::by_kind::compare_as_each;
use crate::case::Case;
use crate::failure::Failure;
use crate::tally::Tally;
use std::alloc::Global;
use syn::reader::read_tokens;
use syn::token::TokenStream;

/// Compares what is answered about each text.
pub(crate) fn compare_texts(alloc: Global, source: &str, tally: &mut Tally) -> Result<(), Failure> {
    let mut before = TokenStream::new(alloc);
    let mut number = 0_usize;
    for line in source.lines() {
        number = number.saturating_add(1);
        if let Some(tokens) = compare_line(alloc, number, line, &before, tally)? {
            before = tokens;
        }
    }
    Ok(())
}

/// Compares what is answered about the text of the line with this number, and gives its tokens, if it has some.
fn compare_line(
    alloc: Global,
    number: usize,
    line: &str,
    before: &TokenStream,
    tally: &mut Tally,
) -> Result<Option<TokenStream>, Failure> {
    let (digits, words) = line.split_once(' ').unwrap_or((line, ""));
    let bytes = hex::decode(alloc, digits)?;
    let text = String::from_utf8(bytes).map_err(|_| Failure::Broken)?;
    let Some(tokens) = tokens_of(alloc, text.as_str())? else {
        tally.count_unread();
        return Ok(None);
    };
    let case = Case {
        alloc,
        line: number,
        words,
        text: text.as_str(),
        tokens: &tokens,
        before,
    };
    compare_as_each(&case, tally)?;
    tally.count_text();
    Ok(Some(tokens))
}

/// The tokens of the text, if the reader of text reads it.
fn tokens_of(alloc: Global, text: &str) -> Result<Option<TokenStream>, Failure> {
    match read_tokens(alloc, text) {
        Ok(tokens) => Ok(Some(tokens)),
        Err(error) if error.is_memory() => Err(Failure::OutOfMemory),
        Err(_) => Ok(None),
    }
}
