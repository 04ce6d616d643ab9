//! What comes of a text by a call that reads a tree at its front.

use crate::answer::{fault_known, reported, tree_shown};
use crate::call::Call;
use crate::compared::compared;
use crate::failure::Failure;
use crate::question::TreeQuestion;
use crate::row::Row;
use std::alloc::Global;
use syn::parse::ParseBuffer;
use syn::reader::{read_tokens, token_text};
use syn::token::TokenStream;
use syn::{Error, Result, Span, TryClone};
use syn_test_support::fault;

/// What comes of the row by this call.
pub(crate) fn called<C: Call>(
    alloc: Global,
    question: TreeQuestion,
    row: &Row<'_>,
) -> std::result::Result<String, Failure> {
    let found = match question {
        TreeQuestion::Tree => shown::<C>(alloc, row.text),
        TreeQuestion::Print => printed::<C>(alloc, row.text),
        TreeQuestion::Refused => refusal::<C>(alloc, row.text),
        TreeQuestion::Left => left::<C>(alloc, row.text),
        TreeQuestion::LeftRefused => left_refused::<C>(alloc, row.text),
        TreeQuestion::Compared => compared_texts::<C>(alloc, row),
    };
    reported(alloc, found)
}

/// The tree at the front of the text.
fn read<C: Call>(alloc: Global, text: &str) -> Result<C::Tree> {
    let tokens = read_tokens(alloc, text)?;
    C::read(&mut ParseBuffer::new(&tokens))
}

fn shown<C: Call>(alloc: Global, text: &str) -> Result<String> {
    let tree = read::<C>(alloc, text)?;
    tree_shown(alloc, &tree)
}

fn printed<C: Call>(alloc: Global, text: &str) -> Result<String> {
    let tree = read::<C>(alloc, text)?;
    printed_twice::<C>(alloc, &tree)
}

/// What the tree prints. It is refused where the tree's copy prints something else.
fn printed_twice<C: Call>(alloc: Global, tree: &C::Tree) -> Result<String> {
    let copy = tree.try_clone(alloc)?;
    let text = tree_printed::<C>(alloc, tree)?;
    if tree_printed::<C>(alloc, &copy)?.as_str() == text.as_str() {
        Ok(text)
    } else {
        Err(Error::new(Span::call_site(), "its copy prints something else"))
    }
}

fn tree_printed<C: Call>(alloc: Global, tree: &C::Tree) -> Result<String> {
    let mut tokens = TokenStream::new(alloc);
    C::print(tree, &mut tokens)?;
    token_text(&tokens)
}

/// The bytes at which the call is refused, and in which words.
fn refusal<C: Call>(alloc: Global, text: &str) -> Result<String> {
    fault_known(alloc, &fault(read::<C>(alloc, text))?)
}

/// What is left behind the tree.
fn left<C: Call>(alloc: Global, text: &str) -> Result<String> {
    let tokens = read_tokens(alloc, text)?;
    let mut input = ParseBuffer::new(&tokens);
    let _tree = C::read(&mut input)?;
    token_text(&input.rest()?)
}

/// What is left where the call is refused.
fn left_refused<C: Call>(alloc: Global, text: &str) -> Result<String> {
    let tokens = read_tokens(alloc, text)?;
    let mut input = ParseBuffer::new(&tokens);
    let _fault = fault(C::read(&mut input))?;
    token_text(&input.rest()?)
}

/// What comes of comparing the trees of the two texts of the row.
fn compared_texts<C: Call>(alloc: Global, row: &Row<'_>) -> Result<String> {
    let left = read::<C>(alloc, row.text)?;
    let right = read::<C>(alloc, row.want)?;
    compared(alloc, &left, &right)
}
