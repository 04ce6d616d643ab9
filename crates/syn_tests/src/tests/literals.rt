//! Literals and expressions that are made by hand.
use crate::tests::asserts::{assert_equality, assert_printed, assert_text, tree_of, value};
use crate::tests::attributes::outer;
use std::alloc::Global;
use std::process::Abort;
use syn::lower::{Lit, LitByteStr, LitCStr, LitFloat, LitInt, LitStr};
use syn::{Expr, ExprLit, LitKind, Literal};
use syn_test_support::outline::outline;
use syn_test_support::span;

/// The kind of the token decides what it is as a literal, and not its text.
#[test]
fn from_tokens(rt: HostRuntime) {
    for (kind, want) in [
        (LitKind::Str, "LitStr Str0@2..3"),
        (LitKind::ByteStr, "LitByteStr ByteStr0@2..3"),
        (LitKind::CStr, "LitCStr CStr0@2..3"),
        (LitKind::Byte, "LitByte Byte0@2..3"),
        (LitKind::Char, "LitChar Char0@2..3"),
        (LitKind::Int, "LitInt Int0@2..3"),
        (LitKind::Float, "LitFloat Float0@2..3"),
    ] {
        let token = value(&rt, Literal::new(rt.alloc(), kind, "0", span(2, 3)));
        assert_text(&rt, outline(rt.alloc(), &Lit::new(token)), want);
    }
}

/// A whole number, by hand.
fn int(rt: &impl Abort, alloc: Global, text: &str, start: usize) -> LitInt {
    value(rt, LitInt::new(alloc, text, span(start, 9)))
}

#[test]
fn by_hand(rt: HostRuntime) {
    let alloc = rt.alloc();
    let one = int(&rt, alloc, "1", 3);
    assert!(rt; one.token().kind() == LitKind::Int && one.span().start == 3);
    assert_equality(&rt, one, int(&rt, alloc, "1", 4), true);
    assert_equality(
        &rt,
        int(&rt, alloc, "1", 3),
        int(&rt, alloc, "1u8", 4),
        false,
    );
}

/// What is made of a text prints that text.
#[test]
fn prints(rt: HostRuntime) {
    let alloc = rt.alloc();
    let place = span(0, 1);
    let text = value(&rt, LitStr::new(alloc, "\"a\"", place));
    assert_printed(&rt, alloc, text, "\"a\"");
    let bytes = value(&rt, LitByteStr::new(alloc, "b\"b\"", place));
    assert_printed(&rt, alloc, bytes, "b\"b\"");
    let c_text = value(&rt, LitCStr::new(alloc, "c\"c\"", place));
    assert_printed(&rt, alloc, c_text, "c\"c\"");
    let float = value(&rt, LitFloat::new(alloc, "1.5", place));
    assert_printed(&rt, alloc, float, "1.5");
}

/// Attributes that a literal holds as an expression are printed before it.
#[test]
fn attributes_of_expressions(rt: HostRuntime) {
    let expr = Expr::Lit(ExprLit {
        attrs: outer(&rt, rt.alloc(), "#[a] #[b(c)]"),
        lit: tree_of(&rt, rt.alloc(), "1"),
    });
    assert_printed(&rt, rt.alloc(), expr, "# [ a ] # [ b ( c ) ] 1");
}
