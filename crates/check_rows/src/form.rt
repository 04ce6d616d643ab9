//! What comes of a text by its canonical print.

use crate::answer::{fault_known, reported};
use crate::failure::Failure;
use crate::question::FormQuestion;
use crate::row::Row;
use std::alloc::Global;
use syn::canon::{Canonical, canonical, same_form};
use syn::reader::{read_tokens, token_text};
use syn::{Error, Result, Span};
use syn_test_support::fault;

/// The result of the row as a `T`.
pub(crate) fn form<T: Canonical + Drop>(
    alloc: Global,
    question: FormQuestion,
    row: &Row<'_>,
) -> std::result::Result<String, Failure> {
    let found = match question {
        FormQuestion::Canonical => canonical_twice::<T>(alloc, row.text),
        FormQuestion::Refused => refusal::<T>(alloc, row.text),
        FormQuestion::Compared => compared::<T>(alloc, row),
    };
    reported(alloc, found)
}

/// The canonical print of the text. It is refused where that print has another one.
fn canonical_twice<T: Canonical + Drop>(alloc: Global, text: &str) -> Result<String> {
    let print = canonical_text::<T>(alloc, text)?;
    if canonical_text::<T>(alloc, print.as_str())?.as_str() == print.as_str() {
        Ok(print)
    } else {
        Err(Error::new(Span::call_site(), "its print has another print"))
    }
}

/// The canonical print of the text.
fn canonical_text<T: Canonical + Drop>(alloc: Global, text: &str) -> Result<String> {
    token_text(&canonical::<T>(read_tokens(alloc, text)?)?)
}

/// The bytes at which the text is refused, and in which words.
fn refusal<T: Canonical + Drop>(alloc: Global, text: &str) -> Result<String> {
    fault_known(alloc, &fault(canonical_text::<T>(alloc, text))?)
}

/// `alike` or `unlike`; `unsure` where that depends on the order.
fn compared<T: Canonical + Drop>(alloc: Global, row: &Row<'_>) -> Result<String> {
    let first = is_alike::<T>(alloc, row.text, row.want)?;
    let second = is_alike::<T>(alloc, row.want, row.text)?;
    let verdict = match (first, second) {
        (true, true) => "alike",
        (false, false) => "unlike",
        _ => "unsure",
    };
    Ok(String::from_str(alloc, verdict)?)
}

/// Whether two texts have the same form.
fn is_alike<T: Canonical + Drop>(alloc: Global, left: &str, right: &str) -> Result<bool> {
    same_form::<T>(read_tokens(alloc, left)?, read_tokens(alloc, right)?)
}
