//! Statements in order.
ghost use Rattle.std.specs.Prelude.{◌≡◌, ◌≤◌, ℕ, OnOk};
ghost use Rattle.syn_grammar.specs.Grammar.{print};
ghost use Rattle.syn_tokens.specs.Building.{added};
ghost use Rattle.syn_lower.specs.Sizes.{tree_size};
ghost use Rattle.syn_expr.specs.Prints.{statements_row};
ghost use Rattle.syn_expr.specs.Statements.{statements_syntax};

use crate::nested::print::{PrintNested, PrintOf};
use crate::{Expr, Stmt};
use std::alloc::AllocError;
use syn_tokens::stream::builder::StreamBuilder;

/// Statements in order.
#[tactic(auto, using(crate::proofs::Lists::print_statements))]
pub fn print_statements<N: PrintOf<Expr>>(
    nested: &N,
    stmts: &Vec<Stmt>,
    out: &mut StreamBuilder,
) -> Result<(), AllocError>
    requires { (n : ℕ) → n ≤ tree_size (statements_syntax stmts.now.items) → N.may nested.now n }
    ensures prints { OnOk result (out.new ≡ added out.old (print (statements_syntax stmts.now.items))) }
    ensures begins { out.new.before ≡ out.old.before }
{
    print_statements_row(nested, stmts, out)
}

/// The same, where the clause says only in which order.
#[tactic(auto, using(syn_tokens::proofs::Prints::prints, crate::proofs::Lists::statement_step, crate::proofs::Lists::statements_done, crate::proofs::Lists::statement_smaller))]
fn print_statements_row<N: PrintOf<Expr>>(
    nested: &N,
    stmts: &Vec<Stmt>,
    out: &mut StreamBuilder,
) -> Result<(), AllocError>
    requires { (n : ℕ) → n ≤ tree_size (statements_syntax stmts.now.items) → N.may nested.now n }
    ensures row { OnOk result (out.new ≡ added out.old (statements_row stmts.now.items)) }
    ensures begins { out.new.before ≡ out.old.before }
{
    for stmt in stmts {
        stmt.print_nested(nested, out)?;
    }
    Ok(())
}
