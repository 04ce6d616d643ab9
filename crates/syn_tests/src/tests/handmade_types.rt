//! Prints of types that no text gives: a qualified path whose position isn't one of its words', a tuple of one type without its
//! comma, a pointer with both words or none.
use crate::tests::asserts::{assert_printed, tree_of, value};
use std::alloc::Global;
use std::process::Abort;
use syn::lower::{Type, TypePath, TypePtr, TypeTuple};
use syn::punctuated::Punctuated;
use syn::token::{As, Const, Mut, Paren, Star};
use syn_test_support::span;

/// A qualified path with another position, and with `as` or without.
fn placed(rt: &impl Abort, alloc: Global, position: usize, as_token: Option<As>) -> TypePath {
    let mut ty: TypePath = tree_of(rt, alloc, "<T as a::B>::C");
    if let Some(qself) = &mut ty.qself {
        qself.position = position;
        qself.as_token = as_token;
    }
    ty
}

/// So many words are in the `< >`; a position after the last word counts as that, and without a word inside no `as` is printed.
#[test]
fn positions(rt: HostRuntime) {
    for (position, want) in [
        (0, "< T > a :: B :: C"),
        (1, "< T as a > :: B :: C"),
        (2, "< T as a :: B > :: C"),
        (3, "< T as a :: B :: C >"),
        (4, "< T as a :: B :: C >"),
        (7, "< T as a :: B :: C >"),
    ] {
        let ty = placed(&rt, rt.alloc(), position, Some(As::default()));
        assert_printed(&rt, rt.alloc(), ty, want);
    }
}

/// `as` is printed where the tree holds one.
#[test]
fn without_as(rt: HostRuntime) {
    for (position, want) in [(0, "< T > a :: B :: C"), (2, "< T a :: B > :: C")] {
        let ty = placed(&rt, rt.alloc(), position, None);
        assert_printed(&rt, rt.alloc(), ty, want);
    }
}

/// A tuple of one type, without a comma after it.
fn lone(rt: &impl Abort, alloc: Global) -> TypeTuple {
    let mut elems = Punctuated::new(alloc);
    value(rt, elems.push_value(tree_of(rt, alloc, "T")));
    TypeTuple {
        paren_token: Paren::default(),
        elems,
    }
}

/// After one type alone a comma is printed: without it the print would be a type in parentheses.
#[test]
fn lone_comma(rt: HostRuntime) {
    let alloc = rt.alloc();
    assert_printed(&rt, alloc, lone(&rt, alloc), "( T , )");
    assert_printed(&rt, alloc, Type::Tuple(lone(&rt, alloc)), "( T , )");
}

/// A pointer prints the words that it holds.
#[test]
fn words_of_pointers(rt: HostRuntime) {
    let alloc = rt.alloc();
    for (const_token, mutability, want) in [
        (None, None, "* T"),
        (Some(Const::default()), None, "* const T"),
        (None, Some(Mut::default()), "* mut T"),
        (
            Some(Const::default()),
            Some(Mut::default()),
            "* const mut T",
        ),
    ] {
        let pointer = TypePtr {
            star_token: Star::new([span(0, 1)]),
            const_token,
            mutability,
            elem: value(&rt, Box::new(alloc, tree_of(&rt, alloc, "T"))),
        };
        assert_printed(&rt, alloc, pointer, want);
    }
}
