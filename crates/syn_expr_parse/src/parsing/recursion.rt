//! What is read of expressions inside of others.
ghost use Rattle.syn_grammar.specs.Rules as rules;
ghost use Rattle.syn_grammar.specs.Grammar.{Node};
ghost use Rattle.syn_lower.specs.Parsing.{MayBelow, MayHere, MayParse, Parses, IsSyntax};
ghost use Rattle.syn_expr_parse.specs.Parsers.{rule_of};
ghost use Rattle.syn_expr_parse.specs.Parts.{statements_of};

use crate::parsing::blocks::if_expression;
use crate::parsing::levels::whole_expression;
use crate::parsing::nested::{Expr, Nested, Rung, Stmt};
use crate::parsing::stmts::statements;
use crate::parsing::unary::unary;
use syn_parse::buffer::ParseBuffer;
use syn_parse::read::refusal::Parsed;

/// An expression of this rung.
fn expression<N: Nested>(
    nested: &N,
    rung: Rung,
    input: &mut ParseBuffer<'_>,
) -> Parsed<Box<Expr<N>>>
    requires { MayBelow N.may nested.now input.old }
    ensures parses { Parses IsSyntax (λ e. Node (N.Trees.expr_syntax e.value)) (rule_of rung) input.old result input.new }
{
    match rung {
        Rung::Whole(spot) => whole_expression(spot, nested, input),
        Rung::Unary(spot) => unary(spot, nested, input),
        Rung::If => if_expression(nested, input),
    }
}

/// An expression of this rung that is left so many KiB of stack.
pub fn expression_within<N: Nested>(
    kib: u32,
    nested: &N,
    rung: Rung,
    input: &mut ParseBuffer<'_>,
) -> Parsed<Box<Expr<N>>>
    requires { MayBelow N.may nested.now input.old }
    ensures parses { Parses IsSyntax (λ e. Node (N.Trees.expr_syntax e.value)) (rule_of rung) input.old result input.new }
{
    let mut inside = input.with_stack_left(kib);
    let answer = expression(nested, rung, &mut inside);
    input.advance_to(&inside);
    answer
}

/// Statements to the end that are left so many KiB of stack.
pub fn statements_within<N: Nested>(
    kib: u32,
    nested: &N,
    input: &mut ParseBuffer<'_>,
) -> Parsed<Vec<Stmt<N>>>
    requires { MayHere N.may nested.now input.old }
    ensures parses { MayParse IsSyntax (λ v. statements_of N.Trees.stmt_syntax v.items) rules.statements input.old result input.new }
{
    let mut inside = input.with_stack_left(kib);
    let answer = statements(nested, &mut inside);
    input.advance_to(&inside);
    answer
}
