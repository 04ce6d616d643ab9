//! Prints and equality of generics that no text gives: without signs, or with signs alone.
use crate::tests::asserts::{assert_equality, assert_printed, tree_of, value};
use std::alloc::Global;
use std::process::Abort;
use syn::lower::{Generics, Path, TraitBound, TraitBoundModifier, TypeParam, TypeParamBound};
use syn::punctuated::Punctuated;
use syn::token::{Colon, Eq, Gt, Ident, Lt};
use syn_test_support::span;

/// A type's parameter, made by hand: with this bound, this default, and no signs.
fn without_signs(rt: &impl Abort, alloc: Global, bound: TypeParamBound) -> TypeParam {
    let mut bounds = Punctuated::new(alloc);
    value(rt, bounds.push_value(bound));
    TypeParam {
        attrs: Vec::new(alloc),
        ident: value(rt, Ident::new(alloc, "T", span(0, 1))),
        colon_token: None,
        bounds,
        eq_token: None,
        default: Some(tree_of(rt, alloc, "u8")),
    }
}

/// A bound that is a path without words.
fn wordless(alloc: Global) -> TypeParamBound {
    TypeParamBound::Trait(TraitBound {
        paren_token: None,
        modifier: TraitBoundModifier::None,
        lifetimes: None,
        path: Path {
            leading_colon: None,
            segments: Punctuated::new(alloc),
        },
    })
}

/// The colon before bounds is printed though there is none, and also before bounds that print nothing; a `=` isn't.
#[test]
fn params_by_hand(rt: HostRuntime) {
    let alloc = rt.alloc();
    let param = without_signs(&rt, alloc, tree_of(&rt, alloc, "A"));
    assert_printed(&rt, alloc, param, "T : A u8");
    let param = without_signs(&rt, alloc, wordless(alloc));
    assert_printed(&rt, alloc, param, "T : u8");
}

/// A parameter with a `=` alone prints it.
#[test]
fn signs_alone(rt: HostRuntime) {
    let alloc = rt.alloc();
    let param = TypeParam {
        attrs: Vec::new(alloc),
        ident: value(&rt, Ident::new(alloc, "T", span(0, 1))),
        colon_token: Some(Colon::new([span(1, 2)])),
        bounds: Punctuated::new(alloc),
        eq_token: Some(Eq::new([span(2, 3)])),
        default: None,
    };
    assert_printed(&rt, alloc, param, "T =");
}

/// These parameters, with `<` and `>` or without them, and a where clause, which is not printed with them.
fn with_signs(rt: &impl Abort, alloc: Global, text: &str, lt: bool, gt: bool) -> Generics {
    let mut generics: Generics = tree_of(rt, alloc, text);
    generics.lt_token = if lt {
        Some(Lt::new([span(0, 1)]))
    } else {
        None
    };
    generics.gt_token = if gt {
        Some(Gt::new([span(0, 1)]))
    } else {
        None
    };
    generics.where_clause = Some(tree_of(rt, alloc, "where T: A"));
    generics
}

/// Signs are printed where they are and some parameter is. With both the generics are equal to those with both, and to no others.
#[test]
fn generics_by_hand(rt: HostRuntime) {
    let alloc = rt.alloc();
    for (text, lt, gt, want) in [
        ("<T, 'a>", true, true, "< 'a , T , >"),
        ("<T, 'a>", false, true, "'a , T , >"),
        ("<T, 'a>", true, false, "< 'a , T ,"),
        ("<T>", false, false, "T"),
        ("", true, true, ""),
        ("<>", false, true, ""),
    ] {
        let generics = with_signs(&rt, alloc, text, lt, gt);
        assert_printed(&rt, alloc, generics, want);
        let generics = with_signs(&rt, alloc, text, lt, gt);
        let with_both = with_signs(&rt, alloc, text, true, true);
        assert_equality(&rt, generics, with_both, lt && gt);
    }
}
