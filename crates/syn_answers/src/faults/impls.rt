//! Impls whose trait is no path, and negative impls without a trait.
use crate::faults::Fault;
use crate::faults::angles::Angles;
use crate::faults::context::{Context, Place};
use crate::faults::marks::{after_lifetime, is_at, is_at_both, is_at_word};
use syn_tokens::delimiter::Delimiter;
use syn_tokens::punct::Punct;
use syn_tokens::stream::cursor::{Cursor, TokenTreeRef};

/// Whether generics are next, where a type may be too.
fn is_at_generics(trees: &Cursor<'_>) -> bool {
    if !is_at('<', trees) {
        return false;
    }
    match trees.split() {
        Some((_less, following)) => is_at('>', &following) || is_at_parameter(&following),
        None => false,
    }
}

/// Whether a generic parameter is next: `#`, a lifetime, `const`, or an identifier after which no type continues.
fn is_at_parameter(trees: &Cursor<'_>) -> bool {
    if is_at('#', trees) || after_lifetime(trees).is_some() || is_at_word("const", trees) {
        return true;
    }
    match trees.split_ident() {
        Some((ident, following)) => !ident.is_keyword() && !is_at_type_rest(&following),
        None => false,
    }
}

/// Whether the next token continues a type after an identifier: `::`, `<` and not `<=`, a group in parentheses, or `as`.
fn is_at_type_rest(trees: &Cursor<'_>) -> bool {
    is_at_both(':', ':', trees)
        || (is_at('<', trees) && !is_at_both('<', '=', trees))
        || trees.is_at_group(Delimiter::Paren)
        || is_at_word("as", trees)
}

/// The tokens after the generics, if they are next.
fn after_generics<'a>(trees: &Cursor<'a>) -> Cursor<'a> {
    let mut rest = trees.fork();
    if !is_at_generics(trees) {
        return rest;
    }
    let mut angles = Angles::none();
    for _tree in 0..trees.len() {
        let Some((tree, following)) = rest.split() else {
            return rest;
        };
        angles.pass(&tree);
        rest = following;
        if angles.are_closed() {
            return rest;
        }
    }
    rest
}

/// The `!` before the first type of an impl, and the tokens from the type on. A `!` before the members is itself the type.
#[derive(Drop)]
struct Header<'a> {
    bang: Option<Punct>,
    ty: Cursor<'a>,
}

/// The header after the generics of an impl.
fn header_after<'a>(after_impl: &Cursor<'a>) -> Header<'a> {
    let ty = after_generics(after_impl);
    match ty.split_punct() {
        Some((punct, following)) => {
            if punct.character() == '!' && !following.is_at_group(Delimiter::Brace) {
                Header {
                    bang: Some(punct),
                    ty: following,
                }
            } else {
                Header { bang: None, ty }
            }
        }
        None => Header { bang: None, ty },
    }
}

/// The error of a negative impl without a trait, where `for` is missing.
pub(crate) fn negative_inherent(place: &Place<'_>) -> Option<Fault> {
    let Context::Impl(following) = &place.context else {
        return None;
    };
    negative(header_after(following).bang)
}

/// The error of this `!`.
fn negative(bang: Option<Punct>) -> Option<Fault> {
    let bang = bang?;
    Some(Fault {
        span: bang.span,
        text: "inherent impls cannot be negative",
    })
}

/// The error of a type in place of a trait, at the `for` after it.
pub(crate) fn no_trait(place: &Place<'_>) -> Option<Fault> {
    let Context::Impl(following) = &place.context else {
        return None;
    };
    if is_at_word("for", &place.trees) {
        no_trait_at(&header_after(following).ty)
    } else {
        None
    }
}

/// The error of this type.
fn no_trait_at(ty: &Cursor<'_>) -> Option<Fault> {
    let (first, _) = ty.split()?;
    Some(Fault {
        span: first.span(),
        text: "expected trait path",
    })
}

/// The error of a negative impl at its first type, where that is no path.
pub(crate) fn negative_of_type(place: &Place<'_>) -> Option<Fault> {
    let Context::Impl(following) = &place.context else {
        return None;
    };
    let header = header_after(following);
    if header.bang.is_none()
        || header.ty.len() != place.trees.len()
        || !is_at_other_type(&header.ty)
    {
        return None;
    }
    if is_before_for(&header.ty) {
        no_trait_at(&header.ty)
    } else {
        negative(header.bang)
    }
}

/// Whether the next token begins a type that is no path.
fn is_at_other_type(trees: &Cursor<'_>) -> bool {
    is_at('&', trees)
        || is_at('*', trees)
        || is_at('!', trees)
        || is_at('<', trees)
        || trees.is_at_group(Delimiter::Paren)
        || trees.is_at_group(Delimiter::Bracket)
}

/// Whether `for` follows the type that is next, before the first group in braces, `where` or `;`.
fn is_before_for(ty: &Cursor<'_>) -> bool {
    let mut rest = ty.fork();
    let mut angles = Angles::none();
    for _tree in 0..ty.len() {
        if angles.are_closed() && is_at_word("for", &rest) {
            return true;
        }
        let Some((tree, following)) = rest.split() else {
            return false;
        };
        if angles.are_closed() && ends_type(&tree) {
            return false;
        }
        angles.pass(&tree);
        rest = following;
    }
    false
}

/// Whether the tree ends a type: it follows types, and is in none.
fn ends_type(tree: &TokenTreeRef<'_>) -> bool {
    match tree {
        TokenTreeRef::Ident(ident) => ident.is("where"),
        TokenTreeRef::Literal(_) => false,
        TokenTreeRef::Punct(punct) => punct.character() == ';',
        TokenTreeRef::Group(group) => group.delimiter == Delimiter::Brace,
    }
}
