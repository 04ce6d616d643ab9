//! What follows `else`: a block or `if`, and anything else in braces.
ghost use Rattle.std.specs.Prelude.{◌≡◌, ◌≤◌, ℕ, OnOk};
ghost use Rattle.syn_grammar.specs.Grammar.{Both, print};
ghost use Rattle.syn_tokens.specs.Building.{added};
ghost use Rattle.syn_tokens.specs.Kinds.{else_syntax};
ghost use Rattle.syn_tokens.specs.Leaves.{maybe};
ghost use Rattle.syn_lower.specs.Sizes.{tree_size};
ghost use Rattle.syn_expr.specs.Expressions.{after_else, block_after_else, in_braces, is_block, is_if, syntax_of_Expr};

use crate::Expr;
use crate::nested::print::PrintOf;
use std::alloc::AllocError;
use syn_tokens::print::Print;
use syn_tokens::stream::builder::StreamBuilder;
use syn_tokens::token::{Brace, Else};

/// Whether an expression is a block.
fn is_block(expr: &Expr) -> bool
    ensures { result ≡ is_block (syntax_of_Expr expr.now) }
{
    match expr {
        Expr::Block(_) => true,
        _ => false,
    }
}

/// Whether an expression is an `if`.
fn is_if(expr: &Expr) -> bool
    ensures { result ≡ is_if (syntax_of_Expr expr.now) }
{
    match expr {
        Expr::If(_) => true,
        _ => false,
    }
}

/// An expression in braces.
#[tactic(auto, using(syn_tokens::proofs::Prints::groups))]
fn print_in_braces<N: PrintOf<Expr>>(
    nested: &N,
    expr: &Expr,
    out: &mut StreamBuilder,
) -> Result<(), AllocError>
    requires { N.may nested.now (tree_size (syntax_of_Expr expr.now)) }
    ensures prints { OnOk result (out.new ≡ added out.old (print (in_braces (syntax_of_Expr expr.now)))) }
    ensures begins { out.new.before ≡ out.old.before }
{
    let braces: Brace = Brace::default();
    braces.open(out)?;
    nested.print_one(expr, out)?;
    braces.close(out)
}

/// A block; anything else in braces.
#[tactic(auto, using(crate::proofs::Else::print_block, crate::proofs::Else::print_braces))]
fn print_block_after<N: PrintOf<Expr>>(
    nested: &N,
    expr: &Expr,
    out: &mut StreamBuilder,
) -> Result<(), AllocError>
    requires { N.may nested.now (tree_size (syntax_of_Expr expr.now)) }
    ensures prints { OnOk result (out.new ≡ added out.old (print (block_after_else (syntax_of_Expr expr.now)))) }
    ensures begins { out.new.before ≡ out.old.before }
{
    if is_block(expr) {
        nested.print_one(expr, out)
    } else {
        print_in_braces(nested, expr, out)
    }
}

/// A block or `if`; anything else in braces.
#[tactic(auto, using(crate::proofs::Else::print_if, crate::proofs::Else::print_no_if))]
fn print_after<N: PrintOf<Expr>>(
    nested: &N,
    expr: &Expr,
    out: &mut StreamBuilder,
) -> Result<(), AllocError>
    requires { N.may nested.now (tree_size (syntax_of_Expr expr.now)) }
    ensures prints { OnOk result (out.new ≡ added out.old (print (after_else (syntax_of_Expr expr.now)))) }
    ensures begins { out.new.before ≡ out.old.before }
{
    if is_if(expr) {
        nested.print_one(expr, out)
    } else {
        print_block_after(nested, expr, out)
    }
}

/// `else` of an `if` and what follows it, if there is one.
#[tactic(auto, using(syn_tokens::proofs::Prints::prints, crate::proofs::Else::else_smaller))]
pub fn print_else<N: PrintOf<Expr>>(
    nested: &N,
    branch: &Option<(Else, Box<Expr>)>,
    out: &mut StreamBuilder,
) -> Result<(), AllocError>
    requires { (n : ℕ) → n ≤ tree_size (maybe (λ p. Both (else_syntax p.0) (after_else (syntax_of_Expr p.1.value))) branch.now) → N.may nested.now n }
    ensures prints { OnOk result (out.new ≡ added out.old (print (maybe (λ p. Both (else_syntax p.0) (after_else (syntax_of_Expr p.1.value))) branch.now))) }
    ensures begins { out.new.before ≡ out.old.before }
{
    match branch {
        Some((else_token, expr)) => {
            else_token.print_in(out)?;
            print_after(nested, expr, out)
        }
        None => Ok(()),
    }
}

/// `else` of a local and what follows it, if there is one.
#[tactic(auto, using(syn_tokens::proofs::Prints::prints, crate::proofs::Else::block_smaller))]
pub fn print_diverging<N: PrintOf<Expr>>(
    nested: &N,
    branch: &Option<(Else, Box<Expr>)>,
    out: &mut StreamBuilder,
) -> Result<(), AllocError>
    requires { (n : ℕ) → n ≤ tree_size (maybe (λ p. Both (else_syntax p.0) (block_after_else (syntax_of_Expr p.1.value))) branch.now) → N.may nested.now n }
    ensures prints { OnOk result (out.new ≡ added out.old (print (maybe (λ p. Both (else_syntax p.0) (block_after_else (syntax_of_Expr p.1.value))) branch.now))) }
    ensures begins { out.new.before ≡ out.old.before }
{
    match branch {
        Some((else_token, expr)) => {
            else_token.print_in(out)?;
            print_block_after(nested, expr, out)
        }
        None => Ok(()),
    }
}
