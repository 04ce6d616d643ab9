//! Where the copies of expressions lead back to each other.
ghost use Rattle.std.specs.Prelude.{◌≡◌, ◌≤◌, ◌<◌, ℕ, IfOk};
ghost use Rattle.syn_tokens.specs.Kinds.{comma_syntax, else_syntax};
ghost use Rattle.syn_tokens.specs.Leaves.{maybe};
ghost use Rattle.syn_tokens.specs.Listing.{list_of};
ghost use Rattle.syn_lower.specs.Sizes.{tree_size, values_size};
ghost use Rattle.syn_grammar.specs.Grammar.{Both};
ghost use Rattle.syn_expr.specs.Expressions.{after_else, block_after_else, syntax_of_Expr, whole};
ghost use Rattle.syn_expr.specs.Statements.{statements_syntax};

use crate::nested::copy::{CopyNested, CopyOf, Knot, copied, copy_boxed, copy_each, copy_list};
use crate::{Expr, Stmt};
use std::alloc::{AllocError, Global};
use syn_tokens::punctuated::Punctuated;
use syn_tokens::token::{Comma, Else};

/// A copy of an expression in its box. This is no generic function, so callers don't write out what an expression is.
pub fn copy_operand<N: CopyOf<Expr>>(
    nested: &N,
    expr: &Box<Expr>,
    alloc: Global,
) -> Result<Box<Expr>, AllocError>
    requires { N.may nested.now (tree_size (syntax_of_Expr expr.now.value)) }
    ensures copy { IfOk result (λ copy. syntax_of_Expr copy.value ≡ syntax_of_Expr expr.now.value) }
{
    copy_boxed(nested, expr, alloc)
}

/// A copy of the expressions of a list and its commas.
#[tactic(auto, using(crate::proofs::Lists::copied_whole, crate::proofs::Lists::whole_larger))]
pub fn copy_exprs<N: CopyOf<Expr>>(
    nested: &N,
    list: &Punctuated<Expr, Comma>,
    alloc: Global,
) -> Result<Punctuated<Expr, Comma>, AllocError>
    requires { (n : ℕ) → n ≤ values_size whole list.now.pairs list.now.last → N.may nested.now n }
    ensures copy { IfOk result (λ copy. list_of whole comma_syntax copy.pairs copy.last ≡ list_of whole comma_syntax list.now.pairs list.now.last) }
{
    copy_list(nested, list, alloc)
}

/// A copy of an expression, if there is one.
pub fn copy_maybe<N: CopyOf<Expr>>(
    nested: &N,
    value: &Option<Box<Expr>>,
    alloc: Global,
) -> Result<Option<Box<Expr>>, AllocError>
    requires { (n : ℕ) → n ≤ tree_size (maybe (λ e. whole e.value) value.now) → N.may nested.now n }
    ensures copy { IfOk result (λ copy. maybe (λ e. whole e.value) copy ≡ maybe (λ e. whole e.value) value.now) }
{
    match value {
        Some(expr) => Ok(Some(copy_operand(nested, expr, alloc)?)),
        None => Ok(None),
    }
}

/// A copy of what follows `else`, if anything does, with that word.
pub fn copy_else<N: CopyOf<Expr>>(
    nested: &N,
    branch: &Option<(Else, Box<Expr>)>,
    alloc: Global,
) -> Result<Option<(Else, Box<Expr>)>, AllocError>
    requires { (n : ℕ) → n ≤ tree_size (maybe (λ p. syntax_of_Expr p.1.value) branch.now) → N.may nested.now n }
    ensures branch { IfOk result (λ copy. maybe (λ p. Both (else_syntax p.0) (after_else (syntax_of_Expr p.1.value))) copy ≡ maybe (λ p. Both (else_syntax p.0) (after_else (syntax_of_Expr p.1.value))) branch.now) }
    ensures diverging { IfOk result (λ copy. maybe (λ p. Both (else_syntax p.0) (block_after_else (syntax_of_Expr p.1.value))) copy ≡ maybe (λ p. Both (else_syntax p.0) (block_after_else (syntax_of_Expr p.1.value))) branch.now) }
{
    match branch {
        Some((else_token, expr)) => {
            let copy = copy_operand(nested, expr, alloc)?;
            Ok(Some((*else_token, copy)))
        }
        None => Ok(None),
    }
}

/// A copy of statements.
#[tactic(auto, using(crate::proofs::Lists::copied_statements, crate::proofs::Lists::statements_larger))]
pub fn copy_statements<N: CopyOf<Expr>>(
    nested: &N,
    stmts: &Vec<Stmt>,
    alloc: Global,
) -> Result<Vec<Stmt>, AllocError>
    requires { (n : ℕ) → n ≤ tree_size (statements_syntax stmts.now.items) → N.may nested.now n }
    ensures copy { IfOk result (λ copy. statements_syntax copy.items ≡ statements_syntax stmts.now.items) }
{
    copy_each(nested, stmts, alloc)
}

/// An expression, by what it is.
fn copy_variant<N: CopyOf<Expr>>(nested: &N, expr: &Expr, alloc: Global) -> Result<Expr, AllocError>
    requires { (n : ℕ) → n < tree_size (syntax_of_Expr expr.now) → N.may nested.now n }
    ensures copy { IfOk result (λ copy. syntax_of_Expr copy ≡ syntax_of_Expr expr.now) }
{
    match expr {
        Expr::Array(value) => Ok(Expr::Array(value.copy_nested(nested, alloc)?)),
        Expr::Assign(value) => Ok(Expr::Assign(value.copy_nested(nested, alloc)?)),
        Expr::Binary(value) => Ok(Expr::Binary(value.copy_nested(nested, alloc)?)),
        Expr::Block(value) => Ok(Expr::Block(value.copy_nested(nested, alloc)?)),
        Expr::Break(value) => Ok(Expr::Break(copied(value, alloc)?)),
        Expr::Call(value) => Ok(Expr::Call(value.copy_nested(nested, alloc)?)),
        Expr::Cast(value) => Ok(Expr::Cast(value.copy_nested(nested, alloc)?)),
        Expr::Continue(value) => Ok(Expr::Continue(copied(value, alloc)?)),
        Expr::Field(value) => Ok(Expr::Field(value.copy_nested(nested, alloc)?)),
        Expr::ForLoop(value) => Ok(Expr::ForLoop(value.copy_nested(nested, alloc)?)),
        Expr::Group(value) => Ok(Expr::Group(value.copy_nested(nested, alloc)?)),
        Expr::If(value) => Ok(Expr::If(value.copy_nested(nested, alloc)?)),
        Expr::Index(value) => Ok(Expr::Index(value.copy_nested(nested, alloc)?)),
        Expr::Lit(value) => Ok(Expr::Lit(copied(value, alloc)?)),
        Expr::Loop(value) => Ok(Expr::Loop(value.copy_nested(nested, alloc)?)),
        Expr::Macro(value) => Ok(Expr::Macro(copied(value, alloc)?)),
        Expr::MethodCall(value) => Ok(Expr::MethodCall(value.copy_nested(nested, alloc)?)),
        Expr::Paren(value) => Ok(Expr::Paren(value.copy_nested(nested, alloc)?)),
        Expr::Path(value) => Ok(Expr::Path(copied(value, alloc)?)),
        Expr::Reference(value) => Ok(Expr::Reference(value.copy_nested(nested, alloc)?)),
        Expr::Repeat(value) => Ok(Expr::Repeat(value.copy_nested(nested, alloc)?)),
        Expr::Return(value) => Ok(Expr::Return(value.copy_nested(nested, alloc)?)),
        Expr::Struct(value) => Ok(Expr::Struct(value.copy_nested(nested, alloc)?)),
        Expr::Try(value) => Ok(Expr::Try(value.copy_nested(nested, alloc)?)),
        Expr::Tuple(value) => Ok(Expr::Tuple(value.copy_nested(nested, alloc)?)),
        Expr::Unary(value) => Ok(Expr::Unary(value.copy_nested(nested, alloc)?)),
        Expr::Unsafe(value) => Ok(Expr::Unsafe(value.copy_nested(nested, alloc)?)),
        Expr::Verbatim(tokens) => Ok(Expr::Verbatim(copied(tokens, alloc)?)),
        Expr::While(value) => Ok(Expr::While(value.copy_nested(nested, alloc)?)),
    }
}

/// The copy of an expression.
#[cycle(copy_expressions)]
pub fn copy_expr(expr: &Expr, alloc: Global) -> Result<Expr, AllocError>
    ensures copy { IfOk result (λ copy. syntax_of_Expr copy ≡ syntax_of_Expr expr.now) }
{
    copy_variant(&Knot { copy: copy_expr }, expr, alloc)
}
