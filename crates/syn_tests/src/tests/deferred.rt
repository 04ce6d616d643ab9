//! Deferred trees: made by hand, of the rest of a group, and of a type that leads back to itself.
use crate::tests::asserts::{assert_printed, tokens_of, tree_of, value};
use std::alloc::Global;
use std::process::Abort;
use syn::deferred::{DeferredConstant, DeferredExpr, read_deferred_rest};
use syn::lower::Type;
use syn::parse::ParseBuffer;
use syn::{Error, Expr, Result, Span};
use syn_test_support::fault;

/// The text's expression as a constant; of a block the attributes are left out by hand.
fn constant(rt: &impl Abort, alloc: Global, text: &str) -> Result<DeferredConstant> {
    let mut expr: Expr = tree_of(rt, alloc, text);
    if let Expr::Block(block) = &mut expr {
        block.attrs = Vec::new(alloc);
    }
    DeferredConstant::new(&expr, alloc)
}

/// What the constant represents.
fn opened(rt: &impl Abort, constant: Result<DeferredConstant>) -> Expr {
    value(rt, value(rt, constant).open())
}

/// A tree that was made by hand is deferred where its print is read as a whole.
#[test]
fn made_by_hand(rt: HostRuntime) {
    let alloc = rt.alloc();
    for (text, want) in [
        ("#[a] { b + 1 }", "{ b + 1 }"),
        (" 1u8", "1u8"),
        ("true", "true"),
    ] {
        let expr = opened(&rt, constant(&rt, alloc, text));
        assert_printed(&rt, alloc, expr, want);
    }
    for (text, byte) in [("a + b", 0), ("(1)", 0), ("1 + b", 2), (" 'a: { 1 }", 1)] {
        let missed = value(&rt, fault(constant(&rt, alloc, text)));
        assert!(rt; missed.span.start == byte, "of {text:?}");
    }
}

/// The content of the text's parentheses as an expression, which has to be all of it.
fn inside(rt: &impl Abort, alloc: Global, text: &str) -> Result<DeferredExpr> {
    let tokens = tokens_of(rt, alloc, text);
    let (_, mut content) = value(rt, ParseBuffer::new(&tokens).parenthesized());
    let answer = read_deferred_rest(&mut content);
    assert!(rt; answer.is_err() || content.finish().is_ok(), "of {text:?}");
    Ok(answer?)
}

/// All that is left of a group has to be the tree.
#[test]
fn rests(rt: HostRuntime) {
    let expr = value(&rt, inside(&rt, rt.alloc(), "(1 + 2) c"));
    assert_printed(&rt, rt.alloc(), expr, "1 + 2");
    for (text, byte) in [("(1 + 2, b)", 6), ("(1 +)", 4), ("()", 1)] {
        let missed = value(&rt, fault(inside(&rt, rt.alloc(), text)));
        assert!(rt; missed.span.start == byte, "of {text:?}");
    }
}

/// The length of an array, opened.
fn length(ty: &Type) -> Result<Expr> {
    match ty {
        Type::Array(array) => array.len.open(),
        _ => Err(Error::new(Span::call_site(), "no array")),
    }
}

/// The length of the array that is in this expression, after `as`.
fn cast_length(expr: &Expr) -> Result<Expr> {
    match expr {
        Expr::Cast(cast) => length(&cast.ty),
        _ => Err(Error::new(Span::call_site(), "no cast")),
    }
}

/// Types lead back to themselves: a length is an expression, and that may hold a type.
#[test]
fn leads_back(rt: HostRuntime) {
    let ty: Type = tree_of(&rt, rt.alloc(), "[u8; a as [u8; b + 2]]");
    let outer = value(&rt, length(&ty));
    let inner = value(&rt, cast_length(&outer));
    assert_printed(&rt, rt.alloc(), inner, "b + 2");
}
