//! Canonical prints of streams, token by token, and where it is refused to compare two.
use crate::tests::asserts::{assert_text, tokens_of, value};
use std::alloc::Global;
use std::process::Abort;
use syn::canon::{canonical, join_items, same_form};
use syn::derive::DeriveInput;
use syn::reader::token_text;
use syn::restriction::Visibility;
use syn::token::{Delimiter, Spacing, TokenStream};
use syn_test_support::outline::outline;
use syn_test_support::{fault, push_group, push_ident, push_marks};

const READ: &str =
    "struct@0..6 S@7..8 (@8..9 a@9..10 ,+@10..11 :+@11..12 :@12..13 b@13..14 )@14..15 ;@15..16";

const PRINTED: &str =
    "struct@0..6 S@7..8 (@8..9 a@9..10 ,@10..11 :+@11..12 :@12..13 b@13..14 )@14..15 ;@15..16";

/// Tokens keep their places. The `,` is Joint in the text, and the last character of each mark is Alone in the print.
#[test]
fn spans_and_spacing(rt: HostRuntime) {
    let tokens = tokens_of(&rt, rt.alloc(), "struct S(a,::b);");
    assert_text(&rt, outline(rt.alloc(), &tokens), READ);
    let print = value(&rt, canonical::<DeriveInput>(tokens));
    assert_text(&rt, outline(rt.alloc(), &print), PRINTED);
}

/// `pub ( in a :: b )`, with this spacing of the second `:`.
fn restricted(rt: &impl Abort, alloc: Global, spacing: Spacing) -> TokenStream {
    let mut content = tokens_of(rt, alloc, "in a");
    value(rt, push_marks(&mut content, ":", Spacing::Joint));
    value(rt, push_marks(&mut content, ":", spacing));
    value(rt, push_ident(&mut content, "b"));
    let mut tokens = tokens_of(rt, alloc, "pub");
    value(rt, push_group(&mut tokens, Delimiter::Paren, content));
    tokens
}

/// The canonical print of that, whichever spacing, is the one that is Alone.
#[test]
fn joint_ends(rt: HostRuntime) {
    for spacing in [Spacing::Joint, Spacing::Alone] {
        let tokens = restricted(&rt, rt.alloc(), spacing);
        let print = value(&rt, canonical::<Visibility>(tokens));
        assert!(rt; print == restricted(&rt, rt.alloc(), Spacing::Alone));
        assert_text(&rt, token_text(&print), "pub ( in a :: b )");
    }
}

/// The two spacings are two streams of one form.
#[test]
fn forms_without_spacing(rt: HostRuntime) {
    let joint = restricted(&rt, rt.alloc(), Spacing::Joint);
    let alone = restricted(&rt, rt.alloc(), Spacing::Alone);
    assert!(rt; joint != alone);
    assert!(rt; value(&rt, same_form::<Visibility>(joint, alone)));
}

/// Items, one a piece, are joined in order.
#[test]
fn joined_items(rt: HostRuntime) {
    let alloc = rt.alloc();
    let pieces = [
        tokens_of(&rt, alloc, "struct A<>;"),
        tokens_of(&rt, alloc, "fn f();"),
    ];
    let joined = value(&rt, join_items(alloc, &pieces));
    assert_text(&rt, token_text(&joined), "struct A ; fn f ( ) ;");
}

/// It is refused to compare two forms where either is refused.
#[test]
fn refused_forms(rt: HostRuntime) {
    for (left, right, at) in [
        ("struct S", "struct S;", 8),
        ("struct S;", "struct S", 8),
        ("struct S", "struct", 8),
        ("struct S;", "struct S;;", 9),
    ] {
        let left = tokens_of(&rt, rt.alloc(), left);
        let right = tokens_of(&rt, rt.alloc(), right);
        let missed = value(&rt, fault(same_form::<DeriveInput>(left, right)));
        assert!(rt; missed.span.start == at, "not {at}");
    }
}
