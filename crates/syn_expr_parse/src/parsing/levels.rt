//! Levels of operators, from casts up to whole expressions.
ghost use Rattle.std.specs.Prelude.{◌≡◌, List};
ghost use Rattle.syn_grammar.specs.Rules as rules;
ghost use Rattle.syn_grammar.specs.Rules.{Rule};
ghost use Rattle.syn_grammar.specs.Shape.{Binary};
ghost use Rattle.syn_grammar.specs.Tokens.{Stream};
ghost use Rattle.syn_grammar.specs.Grammar.{Both, Node, Syntax};
ghost use Rattle.syn_grammar.specs.Run.{wrap};
ghost use Rattle.syn_grammar.specs.Values.{core, new, onto};
ghost use Rattle.syn_grammar.specs.Promises.{OrMemory};
ghost use Rattle.syn_lower.specs.Parsing.{parse_rule, Computes, Kept, MayBelow, MayHere, Parses, IsSyntax};
ghost use Rattle.syn_expr_parse.specs.Levels.{IsLevel, Operator, ReadsOperator, Steps};
ghost use Rattle.syn_expr_parse.specs.Operators.{syntax_of_BinOp};
ghost use Rattle.syn_expr_parse.specs.Spots.{within};

mod following;
mod looks;
mod operators;
mod rows;

use crate::op::BinOp;
use crate::parsing::nested::{Expr, Nested, Spot};
use crate::parsing::postfix::postfixes;
use crate::trees::Trees;
use following::{assigned, casts, compared};
use rows::{BitAnds, BitOrs, BitXors, Conjunctions, Disjunctions, Products, Shifts, Sums};
use std::alloc::Global;
use syn_parse::buffer::ParseBuffer;
use syn_parse::read::refusal::Parsed;
use syn_recognize::expression_looks::at_unfinished;

/// A level whose operators group from the left: operands with operators between them.
trait Level {
    /// The rule of an operand.
    ghost operand_rule: { Rule };

    /// The operators.
    ghost operators: { List Operator };

    /// The rule of what follows an operand.
    ghost chain_rule: { Rule };

    /// The rule of the level: an operand and what follows it.
    ghost level_rule: { Rule };

    /// Reads an operand.
    fn operand<N: Nested>(
        spot: Spot,
        nested: &N,
        input: &mut ParseBuffer<'_>,
    ) -> Parsed<Box<Expr<N>>>
        requires { MayBelow N.may nested.now input.old }
        ensures parses { Parses IsSyntax (λ e. Node (N.Trees.expr_syntax e.value)) (within spot operand_rule) input.old result input.new };

    /// Reads an operator, where one is next.
    fn operator(input: &mut ParseBuffer<'_>) -> Parsed<Option<BinOp>>
        ensures operator { ReadsOperator IsSyntax syntax_of_BinOp operators input.old result input.new };

    /// What follows the expression `a`, by the operator that is next.
    ghost step: { Steps operators operand_rule chain_rule };

    /// The level, by its first operand.
    ghost level: { IsLevel operand_rule chain_rule level_rule };
}

/// What follows an operand on a level: while an operator is next, all before it is its left operand.
fn chain<L: Level, N: Nested>(
    spot: Spot,
    nested: &N,
    left: Box<Expr<N>>,
    input: &mut ParseBuffer<'_>,
) -> Parsed<Box<Expr<N>>>
    requires { MayBelow N.may nested.now input.old }
    ensures reads { Computes IsSyntax (λ e. N.Trees.expr_syntax e.value) (wrap (onto (core (N.Trees.expr_syntax left.value))) (parse_rule (within spot L.chain_rule) input.old)) result input.new }
    ensures kept { Kept input.old result input.new }
{
    let mut all = left;
    'operators: while let Some(op) = L::operator(input)? {
        let right = L::operand(spot, nested, input)?;
        all = N::Trees::expr_binary(all, op, right, input.alloc())?;
    }
    Ok(all)
}

/// A level: an operand, and what follows it.
fn read_level<L: Level, N: Nested>(
    spot: Spot,
    nested: &N,
    input: &mut ParseBuffer<'_>,
) -> Parsed<Box<Expr<N>>>
    requires { MayBelow N.may nested.now input.old }
    ensures parses { Parses IsSyntax (λ e. Node (N.Trees.expr_syntax e.value)) (within spot L.level_rule) input.old result input.new }
{
    let first = L::operand(spot, nested, input)?;
    chain::<L, N>(spot, nested, first, input)
}

/// Any expression: a disjunction, and what is assigned to it. Refused where a postfix or a comparison follows it.
#[tactic(auto, using(crate::proofs::Levels::whole_are))]
pub(super) fn whole_expression<N: Nested>(
    spot: Spot,
    nested: &N,
    input: &mut ParseBuffer<'_>,
) -> Parsed<Box<Expr<N>>>
    requires { MayBelow N.may nested.now input.old }
    ensures parses { Parses IsSyntax (λ e. Node (N.Trees.expr_syntax e.value)) (within spot rules.whole_expression) input.old result input.new }
{
    let first = read_level::<Disjunctions, N>(spot, nested, input)?;
    let all = assigned(spot, nested, first, input)?;
    if at_unfinished(input) {
        return Err(input.refusal("unexpected token"));
    }
    Ok(all)
}

/// What follows the first operand of an expression that was read without its level: postfixes, casts and operators of each
/// level.
#[tactic(auto, using(crate::proofs::Levels::rest_are))]
pub(super) fn operand_rest<N: Nested>(
    nested: &N,
    left: Box<Expr<N>>,
    input: &mut ParseBuffer<'_>,
) -> Parsed<Box<Expr<N>>>
    requires { MayBelow N.may nested.now input.old }
    ensures reads { Computes IsSyntax (λ e. N.Trees.expr_syntax e.value) (wrap (onto (core (N.Trees.expr_syntax left.value))) (parse_rule rules.operand_rest input.old)) result input.new }
    ensures kept { Kept input.old result input.new }
{
    let all = postfixes(nested, left, input)?;
    let all = casts::<N>(all, input)?;
    let all = chain::<Products, N>(Spot::Anywhere, nested, all, input)?;
    let all = chain::<Sums, N>(Spot::Anywhere, nested, all, input)?;
    let all = chain::<Shifts, N>(Spot::Anywhere, nested, all, input)?;
    let all = chain::<BitAnds, N>(Spot::Anywhere, nested, all, input)?;
    let all = chain::<BitXors, N>(Spot::Anywhere, nested, all, input)?;
    let all = chain::<BitOrs, N>(Spot::Anywhere, nested, all, input)?;
    let all = compared(Spot::Anywhere, nested, all, input)?;
    let all = chain::<Conjunctions, N>(Spot::Anywhere, nested, all, input)?;
    let all = chain::<Disjunctions, N>(Spot::Anywhere, nested, all, input)?;
    assigned(Spot::Anywhere, nested, all, input)
}
