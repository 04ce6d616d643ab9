//! Receivers where none is accepted.
use crate::faults::Fault;
use crate::faults::context::{Before, Context, Place};
use crate::faults::marks::{after_attributes, after_lifetime, is_at, is_at_both};
use crate::names::after_mut;
use syn_tokens::ident::ident_ref::IdentRef;
use syn_tokens::span::Span;
use syn_tokens::stream::cursor::Cursor;

/// The tokens after `&` and a lifetime, if they are next.
fn after_reference<'a>(trees: &Cursor<'a>) -> Cursor<'a> {
    if !is_at('&', trees) {
        return trees.fork();
    }
    let Some((_and, following)) = trees.split() else {
        return trees.fork();
    };
    match after_lifetime(&following) {
        Some(following) => following,
        None => following,
    }
}

/// The `self` of what looks like a receiver, if one is next, and the tokens after it.
fn split_self<'a>(trees: &Cursor<'a>) -> Option<(IdentRef<'a>, Cursor<'a>)> {
    let (ident, following) = after_mut(&after_reference(trees)).split_ident()?;
    if ident.is("self") {
        Some((ident, following))
    } else {
        None
    }
}

/// The span of the `self` of the receiver that is next. A `self` before `::` is none.
fn receiver(trees: &Cursor<'_>) -> Option<Span> {
    let (ident, following) = split_self(trees)?;
    if is_at_both(':', ':', &following) {
        None
    } else {
        Some(ident.span)
    }
}

/// The error of a receiver after other arguments.
pub(crate) fn late_receiver(place: &Place<'_>) -> Option<Fault> {
    let Context::Arguments(arguments) = &place.context else {
        return None;
    };
    if place.before != Before::Comma {
        return None;
    }
    let span = receiver(&place.trees)?;
    let text = match receiver(&after_attributes(arguments)) {
        Some(_) => "unexpected second method receiver",
        None => "unexpected method receiver",
    };
    Some(Fault { span, text })
}

/// The error of a `::` at this byte, after the `self` of a stream that should be a receiver.
pub(crate) fn path_in_place_of_receiver(byte: usize, trees: &Cursor<'_>) -> Option<Fault> {
    let (_word, following) = split_self(trees)?;
    let (colon, _) = following.split_punct()?;
    if is_at_both(':', ':', &following) && colon.span.start == byte {
        Some(Fault {
            span: colon.span,
            text: "expected `:`",
        })
    } else {
        None
    }
}
