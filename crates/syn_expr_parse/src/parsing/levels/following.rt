//! What follows an expression and isn't a chain of operators: casts, what it is compared with, what is assigned to it.
ghost use Rattle.std.specs.Prelude.{◌≡◌};
ghost use Rattle.syn_grammar.specs.Rules as rules;
ghost use Rattle.syn_grammar.specs.Shape.{Cast};
ghost use Rattle.syn_grammar.specs.Grammar.{Both, Node};
ghost use Rattle.syn_grammar.specs.Promises.{OrMemory};
ghost use Rattle.syn_grammar.specs.Run.{wrap};
ghost use Rattle.syn_grammar.specs.Values.{core, new, onto};
ghost use Rattle.syn_tokens.specs.Kinds.{as_syntax};
ghost use Rattle.syn_lower.specs.Types.{syntax_of_Type};
ghost use Rattle.syn_lower.specs.Parsing.{parse_rule, Computes, Kept, MayBelow, Parses, IsSyntax};
ghost use Rattle.syn_expr_parse.specs.Levels.{assignment_operators, first_operator, continuing_once};
ghost use Rattle.syn_expr_parse.specs.Spots.{within};

use super::looks::at_equals_operator;
use super::operators::{assignment_operator, comparison_operator};
use super::read_level;
use super::rows::BitOrs;
use crate::parsing::nested::{Expr, Nested, Rung, Spot};
use crate::parsing::unary::unary;
use crate::trees::Trees;
use std::alloc::Global;
use syn_lower::Type;
use syn_parse::buffer::ParseBuffer;
use syn_parse::read::refusal::Parsed;
use syn_tokens::token::As;

/// A unary level and its casts.
#[tactic(auto, using(crate::proofs::Levels::cast_are))]
pub(super) fn cast<N: Nested>(
    spot: Spot,
    nested: &N,
    input: &mut ParseBuffer<'_>,
) -> Parsed<Box<Expr<N>>>
    requires { MayBelow N.may nested.now input.old }
    ensures parses { Parses IsSyntax (λ e. Node (N.Trees.expr_syntax e.value)) (within spot rules.cast) input.old result input.new }
{
    let first = unary(spot, nested, input)?;
    casts::<N>(first, input)
}

/// `as` and a type after an expression, any number of times.
#[tactic(auto, using(crate::proofs::Levels::casts_step))]
pub(super) fn casts<N: Nested>(
    left: Box<Expr<N>>,
    input: &mut ParseBuffer<'_>,
) -> Parsed<Box<Expr<N>>>
    ensures reads { Computes IsSyntax (λ e. N.Trees.expr_syntax e.value) (wrap (onto (core (N.Trees.expr_syntax left.value))) (parse_rule rules.casts input.old)) result input.new }
    ensures kept { Kept input.old result input.new }
{
    let mut all = left;
    'casts: while input.peek::<As>() {
        let as_token = input.read()?;
        let ty = input.read()?;
        all = N::Trees::expr_cast(all, as_token, ty, input.alloc())?;
    }
    Ok(all)
}

/// A comparison: an operand, or two with an operator between them.
#[tactic(auto, using(crate::proofs::Levels::comparison_are))]
pub(super) fn comparison<N: Nested>(
    spot: Spot,
    nested: &N,
    input: &mut ParseBuffer<'_>,
) -> Parsed<Box<Expr<N>>>
    requires { MayBelow N.may nested.now input.old }
    ensures parses { Parses IsSyntax (λ e. Node (N.Trees.expr_syntax e.value)) (within spot rules.comparison) input.old result input.new }
{
    let first = read_level::<BitOrs, N>(spot, nested, input)?;
    compared(spot, nested, first, input)
}

/// What an expression is compared with, once at most.
#[tactic(auto, using(crate::proofs::Levels::compared_step))]
pub(super) fn compared<N: Nested>(
    spot: Spot,
    nested: &N,
    left: Box<Expr<N>>,
    input: &mut ParseBuffer<'_>,
) -> Parsed<Box<Expr<N>>>
    requires { MayBelow N.may nested.now input.old }
    ensures reads { Computes IsSyntax (λ e. N.Trees.expr_syntax e.value) (wrap (onto (core (N.Trees.expr_syntax left.value))) (parse_rule (within spot rules.compared) input.old)) result input.new }
    ensures kept { Kept input.old result input.new }
{
    match comparison_operator(input)? {
        Some(op) => {
            let right = read_level::<BitOrs, N>(spot, nested, input)?;
            N::Trees::expr_binary(left, op, right, input.alloc())
        }
        None => Ok(left),
    }
}

/// What is assigned to an expression, by `=` or an operator with `=`, once at most: any expression, which may assign too.
#[tactic(auto, using(crate::proofs::Levels::assigned_step))]
pub(super) fn assigned<N: Nested>(
    spot: Spot,
    nested: &N,
    left: Box<Expr<N>>,
    input: &mut ParseBuffer<'_>,
) -> Parsed<Box<Expr<N>>>
    requires { MayBelow N.may nested.now input.old }
    ensures reads { Computes IsSyntax (λ e. N.Trees.expr_syntax e.value) (wrap (onto (core (N.Trees.expr_syntax left.value))) (parse_rule (within spot rules.assigned) input.old)) result input.new }
    ensures kept { Kept input.old result input.new }
{
    if !at_equals_operator(input) {
        return assigned_by_operator(spot, nested, left, input);
    }
    let eq_token = input.read()?;
    let right = nested.expr(Rung::Whole(spot), input)?;
    N::Trees::expr_assign(left, eq_token, right, input.alloc())
}

/// What is assigned to an expression by an operator with `=`, once at most.
fn assigned_by_operator<N: Nested>(
    spot: Spot,
    nested: &N,
    left: Box<Expr<N>>,
    input: &mut ParseBuffer<'_>,
) -> Parsed<Box<Expr<N>>>
    requires { MayBelow N.may nested.now input.old }
    ensures reads { Computes IsSyntax (λ e. N.Trees.expr_syntax e.value) (continuing_once (core (N.Trees.expr_syntax left.value)) input.old (first_operator assignment_operators input.old) (parse_rule (within spot rules.whole_expression))) result input.new }
    ensures kept { Kept input.old result input.new }
{
    match assignment_operator(input)? {
        Some(op) => {
            let right = nested.expr(Rung::Whole(spot), input)?;
            N::Trees::expr_binary(left, op, right, input.alloc())
        }
        None => Ok(left),
    }
}
