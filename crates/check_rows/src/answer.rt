//! What comes of a text as a kind of trees.

use crate::compared::{compared, is_copied};
use crate::failure::Failure;
use crate::question::TreeQuestion;
use crate::row::Row;
use std::alloc::Global;
use syn::parse::{Parse, ParseBuffer};
use syn::reader::{read_tokens, token_text};
use syn::{Error, Fault, Result, Span, ToTokens, TryClone};
use syn_test_support::outline::{Outlined, outline};
use syn_test_support::{fault, parsed, printed, refused};
use syn_tokens::syntactic::compare::Compared;

/// What comes of the row as a `T`. What is refused where a tree was asked for is told by its fault.
pub(crate) fn answer<T: Parse + ToTokens + Outlined + TryClone + Compared + PartialEq + Drop>(
    alloc: Global,
    question: TreeQuestion,
    row: &Row<'_>,
) -> std::result::Result<String, Failure> {
    let found = match question {
        TreeQuestion::Tree => shown::<T>(alloc, row.text),
        TreeQuestion::Print => reprinted::<T>(alloc, row.text),
        TreeQuestion::Refused => refusal::<T>(alloc, row.text),
        TreeQuestion::Left => left::<T>(alloc, row.text),
        TreeQuestion::LeftRefused => left_refused::<T>(alloc, row.text),
        TreeQuestion::Compared => compared_texts::<T>(alloc, row),
    };
    reported(alloc, found)
}

/// An error but that of memory is told by its byte and words.
pub(crate) fn reported(
    alloc: Global,
    found: Result<String>,
) -> std::result::Result<String, Failure> {
    let error = match found {
        Ok(text) => return Ok(text),
        Err(error) => error,
    };
    if error.is_memory() || error.is_too_deep() {
        return Err(Failure::OutOfMemory);
    }
    let start = error.span().start;
    Ok(format!(in alloc; "error at {start}: {error}")?)
}

/// The bytes of a fault, and its words.
pub(crate) fn fault_known(alloc: Global, fault: &Fault) -> Result<String> {
    let Span { start, end } = fault.span;
    Ok(format!(in alloc; "{start}..{end}: {}", fault.text)?)
}

/// What shows a tree. It is refused where the tree's copy isn't equal to it, or is shown otherwise.
pub(crate) fn tree_shown<T: Outlined + TryClone + Compared + PartialEq + Drop>(
    alloc: Global,
    tree: &T,
) -> Result<String> {
    let text: String = outline(alloc, tree)?;
    if is_copied(alloc, tree)? && copy_shown(alloc, tree)?.as_str() == text.as_str() {
        Ok(text)
    } else {
        Err(Error::new(Span::call_site(), "its copy is another tree"))
    }
}

/// What shows a copy of the tree.
fn copy_shown<T: Outlined + TryClone + Drop>(alloc: Global, tree: &T) -> Result<String> {
    let copy = tree.try_clone(alloc)?;
    Ok(outline(alloc, &copy)?)
}

/// What shows the tree that the whole text is parsed as.
fn shown<T: Parse + Outlined + TryClone + Compared + PartialEq + Drop>(
    alloc: Global,
    text: &str,
) -> Result<String> {
    let tree: T = parsed(alloc, text)?;
    tree_shown(alloc, &tree)
}

/// What that tree prints. It is refused where its copy prints something else.
fn reprinted<T: Parse + ToTokens + TryClone + Drop>(alloc: Global, text: &str) -> Result<String> {
    let tree: T = parsed(alloc, text)?;
    tree_printed(alloc, &tree)
}

/// The same of a tree.
fn tree_printed<T: ToTokens + TryClone + Drop>(alloc: Global, tree: &T) -> Result<String> {
    let text = printed(alloc, tree)?;
    if copy_printed(alloc, tree)?.as_str() == text.as_str() {
        Ok(text)
    } else {
        Err(Error::new(Span::call_site(), "its copy prints something else"))
    }
}

/// What a copy of the tree prints.
fn copy_printed<T: ToTokens + TryClone + Drop>(alloc: Global, tree: &T) -> Result<String> {
    let copy = tree.try_clone(alloc)?;
    printed(alloc, &copy)
}

/// The bytes at which the whole text is refused as a `T`, and in which words.
fn refusal<T: Parse + Drop>(alloc: Global, text: &str) -> Result<String> {
    fault_known(alloc, &refused::<T>(alloc, text)?)
}

/// What a `T` that is parsed from the front of the text leaves.
fn left<T: Parse + Drop>(alloc: Global, text: &str) -> Result<String> {
    let tokens = read_tokens(alloc, text)?;
    let mut input = ParseBuffer::new(&tokens);
    let _tree: T = input.parse()?;
    token_text(&input.rest()?)
}

/// What is left where no `T` could be parsed from the front of the text.
fn left_refused<T: Parse + Drop>(alloc: Global, text: &str) -> Result<String> {
    let tokens = read_tokens(alloc, text)?;
    let mut input = ParseBuffer::new(&tokens);
    let _fault = fault(input.parse::<T>())?;
    token_text(&input.rest()?)
}

/// What comes of comparing what the two texts of the row are parsed as.
fn compared_texts<T: Parse + TryClone + Compared + PartialEq + Drop>(
    alloc: Global,
    row: &Row<'_>,
) -> Result<String> {
    let left: T = parsed(alloc, row.text)?;
    let right: T = parsed(alloc, row.want)?;
    compared(alloc, &left, &right)
}
