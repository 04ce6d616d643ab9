//! The trees of a stream, gone through by their iterator.
use crate::tests::support::stream;
use std::alloc::{AllocError, Global};
use syn_tokens::stream::TokenStream;
use syn_tokens::stream::cursor::TokenTreeRef;
use syn_tokens::stream::iter::Iter;

/// One byte each.
const SAMPLE: &str = "a ( 1 [ ] ) ' b";

/// What shows the trees of the sample, the content of the group left out.
const SHOWN: &str = "a@0;Paren@1-5;' Joint@6;b@7;";

/// Adds what a tree is, in a few characters.
fn add_tree(out: &mut String, tree: &TokenTreeRef<'_>) -> Result<(), AllocError> {
    let start = tree.span().start;
    match tree {
        TokenTreeRef::Ident(ident) => write!(out, "{}@{start};", ident.text())?,
        TokenTreeRef::Literal(literal) => write!(out, "{}@{start};", literal.text())?,
        TokenTreeRef::Punct(punct) => {
            write!(out, "{} {:?}@{start};", punct.character(), punct.spacing)?
        }
        TokenTreeRef::Group(group) => {
            write!(
                out,
                "{:?}@{start}-{};",
                group.delimiter, group.closing.start
            )?
        }
    }
    Ok(())
}

/// All trees of an iterator.
fn reported(alloc: Global, trees: Iter<'_>) -> Result<String, AllocError> {
    let mut out = String::new(alloc);
    for tree in trees {
        add_tree(&mut out, &tree)?;
    }
    Ok(out)
}

/// Whether this text shows the trees.
fn are_known(alloc: Global, trees: Iter<'_>, want: &str) -> bool {
    matches!(reported(alloc, trees), Ok(text) if text.as_str() == want)
}

/// Whether the stream, gone through by itself, has so many trees, each before this byte.
fn has_trees(stream: &TokenStream, count: usize, end: usize) -> bool {
    let mut seen = 0usize;
    for tree in stream {
        if tree.span().start >= end {
            return false;
        }
        seen = seen.saturating_add(1);
    }
    seen == count
}

#[test]
fn in_order(rt: HostRuntime) {
    let sample = stream(&rt, rt.alloc(), SAMPLE);
    assert!(rt; are_known(rt.alloc(), sample.iter(), SHOWN));
    assert!(rt; sample.iter().count() == sample.len() && has_trees(&sample, 4, 8));
    assert!(rt; TokenStream::new(rt.alloc()).iter().count() == 0);
}

/// How many groups there are, where this text shows the trees of each.
fn groups(stream: &TokenStream, want: &str) -> Option<usize> {
    let mut count = 0usize;
    for tree in stream {
        if let TokenTreeRef::Group(group) = tree {
            if !are_known(stream.alloc(), group.content.iter(), want) {
                return None;
            }
            count = count.saturating_add(1);
        }
    }
    Some(count)
}

#[test]
fn into_groups(rt: HostRuntime) {
    let sample = stream(&rt, rt.alloc(), SAMPLE);
    assert!(rt; groups(&sample, "1@2;Bracket@3-4;") == Some(1));
}

/// Whether there are so many trees left, and none after them.
fn ends_after(trees: &mut Iter<'_>, count: usize) -> bool {
    for _ in 0..count {
        if trees.next().is_none() {
            return false;
        }
    }
    trees.next().is_none() && trees.next().is_none()
}

/// A copy of an iterator stays where it was.
#[test]
fn nothing_after_the_end(rt: HostRuntime) {
    let sample = stream(&rt, rt.alloc(), SAMPLE);
    let mut trees = sample.iter();
    let again = trees.clone().expect(&rt, "a copy");
    assert!(rt; ends_after(&mut trees, 4) && are_known(rt.alloc(), again, SHOWN));
}
