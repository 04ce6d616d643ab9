//! Streams: what they hold, copies and equality.
use crate::tests::support::{assert_shown, at, is_shown, stream, tokens, tokens_from};
use std::alloc::Global;
use syn_tokens::delimiter::Delimiter;
use syn_tokens::error::Result;
use syn_tokens::literal::LitKind;
use syn_tokens::span::Span;
use syn_tokens::stream::TokenStream;
use syn_tokens::stream::tree::{Group, TokenTree};

const SAMPLE: &str = "a = { 1 } b";

#[test]
fn lengths(rt: HostRuntime) {
    let empty = TokenStream::new(rt.alloc());
    assert!(rt; empty.is_empty() && empty.len() == 0);
    let sample = stream(&rt, rt.alloc(), SAMPLE);
    assert!(rt; !sample.is_empty() && sample.len() == 4);
}

/// Whether the group is `{ 1 }`, from this byte on.
fn is_group(group: &Group, start: usize) -> bool {
    group.delimiter == Delimiter::Brace
        && group.opening == at(start)
        && group.closing == at(start.saturating_add(2))
        && group.stream.len() == 1
}

/// Whether the tree is what the sample has at this place.
fn is_tree(tree: &TokenTree, place: usize) -> bool {
    match tree {
        TokenTree::Ident(ident) if place == 0 => ident.text() == "a" && tree.span() == at(0),
        TokenTree::Ident(ident) if place == 3 => ident.text() == "b" && tree.span() == at(5),
        TokenTree::Punct(punct) => punct.character() == '=' && tree.span() == at(1) && place == 1,
        TokenTree::Group(group) => is_group(group, 2) && tree.span() == at(2) && place == 2,
        _ => false,
    }
}

/// Whether the tree that is got at this place is what the sample has there.
fn is_got(stream: &TokenStream, place: usize) -> bool {
    matches!(stream.get(place), Ok(Some(tree)) if is_tree(&tree, place))
}

#[test]
fn places(rt: HostRuntime) {
    let sample = stream(&rt, rt.alloc(), SAMPLE);
    for place in 0..4 {
        assert!(rt; is_got(&sample, place), "{place}");
    }
    assert!(rt; matches!(sample.get(4), Ok(None)));
}

#[test]
fn shorter_ones(rt: HostRuntime) {
    let mut sample = stream(&rt, rt.alloc(), SAMPLE);
    sample.truncate(9);
    assert_shown(&rt, &sample, "a@0..1 =@1..2 {@2..3 Int1@3..4 }@4..5 b@5..6");
    sample.truncate(1);
    assert_shown(&rt, &sample, "a@0..1");
}

/// One tree of the sample, and after it the sample from byte 20 on.
fn longer(alloc: Global) -> Result<TokenStream> {
    let mut stream = tokens(alloc, SAMPLE)?;
    stream.truncate(1);
    stream.append(tokens_from(alloc, SAMPLE, 20)?)?;
    Ok(stream)
}

#[test]
fn longer_ones(rt: HostRuntime) {
    let stream = longer(rt.alloc()).expect(&rt, "a stream");
    assert!(rt; stream.len() == 5);
    assert_shown(
        &rt,
        &stream,
        "a@0..1 a@20..21 =@21..22 {@22..23 Int1@23..24 }@24..25 b@25..26",
    );
}

/// Whether both are the same, by each way to ask that.
fn are_same(left: &TokenStream, right: &TokenStream) -> bool {
    left == right && right == left
}

/// Spans are ignored.
#[test]
fn same(rt: HostRuntime) {
    for text in ["", SAMPLE, "a == { 1 } b", "( [ { } ] )"] {
        let left = stream(&rt, rt.alloc(), text);
        let right = tokens_from(rt.alloc(), text, 50).expect(&rt, "a stream");
        assert!(rt; are_same(&left, &right), "{text}");
    }
}

/// Whether no way to ask says that both are the same.
fn are_different(left: &TokenStream, right: &TokenStream) -> bool {
    left != right && right != left
}

/// Spacing counts, and so does what is left out.
#[test]
fn different(rt: HostRuntime) {
    for (left, right) in [
        ("a == { 1 } b", "a = = { 1 } b"),
        (SAMPLE, "a = { 1 }"),
        (SAMPLE, "a = { } b"),
        (SAMPLE, "a = { 1 b }"),
        (SAMPLE, "a = ( 1 ) b"),
        (SAMPLE, "a = { 2 } b"),
        (SAMPLE, "a ! { 1 } b"),
    ] {
        let left = stream(&rt, rt.alloc(), left);
        let right_stream = stream(&rt, rt.alloc(), right);
        assert!(rt; are_different(&left, &right_stream), "{right}");
    }
}

/// Whether the tree at a place of one is equal to the one at a place of the other.
fn are_equal_trees(left: (&TokenStream, usize), right: (&TokenStream, usize)) -> Result<bool> {
    Ok(left.0.get(left.1)? == right.0.get(right.1)?)
}

#[test]
fn trees(rt: HostRuntime) {
    let stream = stream(&rt, rt.alloc(), SAMPLE);
    let elsewhere = tokens_from(rt.alloc(), SAMPLE, 50).expect(&rt, "a stream");
    for (left, right) in [(0, 0), (2, 2), (2, 1), (0, 3), (3, 4), (4, 4)] {
        let answer = are_equal_trees((&stream, left), (&elsewhere, right));
        assert!(rt;
            matches!(answer, Ok(are_equal) if are_equal == (left == right)),
            "{left} {right}"
        );
    }
}

/// Whether the tree and its copy are equal and are at the same place.
fn is_tree_copied(tree: &TokenTree, alloc: Global) -> bool {
    matches!(tree.try_clone(alloc), Ok(copy) if copy == *tree && copy.span() == tree.span())
}

#[test]
fn copied_trees(rt: HostRuntime) {
    let stream = tokens_from(rt.alloc(), "a = { 1 } 2", 7).expect(&rt, "a stream");
    for place in 0..4 {
        let tree = stream.get(place);
        assert!(rt;
            matches!(&tree, Ok(Some(tree)) if is_tree_copied(tree, rt.alloc())),
            "{place}"
        );
    }
}

/// A copy of the sample from byte 7 on.
fn copied(alloc: Global) -> Result<TokenStream> {
    tokens_from(alloc, SAMPLE, 7)?.try_clone(alloc)
}

/// Whether the tree is this number, there.
fn is_number(tree: &TokenTree, text: &str, span: Span) -> bool {
    match tree {
        TokenTree::Literal(literal) => {
            literal.text() == text && literal.kind() == LitKind::Int && literal.span == span
        }
        _ => false,
    }
}

/// Whether the first tree of the group is this number, there.
fn has_number(group: &Group, text: &str, span: Span) -> bool {
    matches!(group.stream.get(0), Ok(Some(tree)) if is_number(&tree, text, span))
}

/// Whether it is a group with that number.
fn is_group_with(tree: &TokenTree, text: &str, span: Span) -> bool {
    match tree {
        TokenTree::Group(group) => has_number(group, text, span),
        _ => false,
    }
}

#[test]
fn copies_have_their_spans(rt: HostRuntime) {
    let copy = copied(rt.alloc()).expect(&rt, "a copy");
    assert!(rt; copy == stream(&rt, rt.alloc(), SAMPLE));
    assert!(rt; is_shown(&copy, "a@7..8 =@8..9 {@9..10 Int1@10..11 }@11..12 b@12..13"));
    assert!(rt; matches!(copy.get(2), Ok(Some(tree)) if is_group_with(&tree, "1", at(10))));
}
