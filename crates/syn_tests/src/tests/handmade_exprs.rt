//! Expressions, blocks and statements made by hand: their prints, copies and comparisons, also of a tree that no text gives.
use crate::tests::asserts::{
    assert_copy_printed, assert_equality, assert_equals_copy, assert_printed, tree_of, value,
};
use std::alloc::Global;
use std::process::Abort;
use syn::lower::TypePath;
use syn::token::{Brace, Else, Eq, If, Let, Lt, Minus, Not, Plus, Semi, ShlEq};
use syn_expr::expr::{ExprBinary, ExprIf, ExprPath, ExprUnary};
use syn_expr::op::{BinOp, UnOp};
use syn_expr::stmt::{Local, LocalInit, LocalModifiers};
use syn_expr::{Block, Expr, Stmt};

/// A name as an expression.
fn named(rt: &impl Abort, alloc: Global, name: &str) -> Box<Expr> {
    let TypePath { qself, path } = tree_of(rt, alloc, name);
    let expr = Expr::Path(ExprPath {
        attrs: Vec::new(alloc),
        qself,
        path,
    });
    value(rt, Box::new(alloc, expr))
}

/// `a` and `b` with this operator between them.
fn binary(rt: &impl Abort, alloc: Global, op: BinOp) -> Expr {
    Expr::Binary(ExprBinary {
        attrs: Vec::new(alloc),
        left: named(rt, alloc, "a"),
        op,
        right: named(rt, alloc, "b"),
    })
}

/// An operator is printed between its operands, the left one first.
#[test]
fn operators(rt: HostRuntime) {
    let alloc = rt.alloc();
    let sum = binary(&rt, alloc, BinOp::Add(Plus::default()));
    assert_printed(&rt, alloc, sum, "a + b");
    let shift = binary(&rt, alloc, BinOp::ShlAssign(ShlEq::default()));
    assert_printed(&rt, alloc, shift, "a <<= b");
}

/// `a < b`
fn less(rt: &impl Abort, alloc: Global) -> Expr {
    binary(rt, alloc, BinOp::Lt(Lt::default()))
}

/// Expressions are equal where their operators are.
#[test]
fn compared(rt: HostRuntime) {
    let alloc = rt.alloc();
    assert_equality(&rt, less(&rt, alloc), less(&rt, alloc), true);
    let difference = binary(&rt, alloc, BinOp::Sub(Minus::default()));
    assert_equality(&rt, less(&rt, alloc), difference, false);
}

/// A sign before a name.
fn signed(rt: &impl Abort, alloc: Global) -> Expr {
    Expr::Unary(ExprUnary {
        attrs: Vec::new(alloc),
        op: UnOp::Not(Not::default()),
        expr: named(rt, alloc, "a"),
    })
}

/// `if`, with a name after `else`, which no text gives.
fn branched(rt: &impl Abort, alloc: Global) -> Expr {
    Expr::If(ExprIf {
        attrs: Vec::new(alloc),
        if_token: If::default(),
        cond: named(rt, alloc, "a"),
        then_branch: Block {
            brace_token: Brace::default(),
            stmts: Vec::new(alloc),
        },
        else_branch: Some((Else::default(), named(rt, alloc, "b"))),
    })
}

/// A copy prints as what was copied. What follows `else` and is no block is printed in braces.
#[test]
fn copied(rt: HostRuntime) {
    let alloc = rt.alloc();
    assert_copy_printed(&rt, alloc, signed(&rt, alloc), "! a");
    assert_copy_printed(&rt, alloc, branched(&rt, alloc), "if a { } else { b }");
}

/// `let c = a;`
fn local(rt: &impl Abort, alloc: Global) -> Stmt {
    Stmt::Local(Local {
        attrs: Vec::new(alloc),
        let_token: Let::default(),
        modifiers: LocalModifiers::default(),
        pat: tree_of(rt, alloc, "c"),
        init: Some(LocalInit {
            eq_token: Eq::default(),
            expr: named(rt, alloc, "a"),
            diverge: None,
        }),
        semi_token: Semi::default(),
    })
}

/// A block with a local, and an expression with `;`.
fn block(rt: &impl Abort, alloc: Global) -> Block {
    let mut stmts = Vec::new(alloc);
    value(rt, stmts.push(local(rt, alloc)));
    let sign = Stmt::Expr(signed(rt, alloc), Some(Semi::default()));
    value(rt, stmts.push(sign));
    Block {
        brace_token: Brace::default(),
        stmts,
    }
}

/// A block is printed with its statements in order, and equals its copy.
#[test]
fn statements(rt: HostRuntime) {
    let alloc = rt.alloc();
    assert_printed(&rt, alloc, block(&rt, alloc), "{ let c = a ; ! a ; }");
    assert_equals_copy(&rt, alloc, block(&rt, alloc));
}
