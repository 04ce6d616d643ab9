//! Parsers of unary levels, and attributes before an expression.
ghost use Rattle.std.specs.Prelude.{◌≡◌, true, IfOk};
ghost use Rattle.syn_grammar.specs.Rules as rules;
ghost use Rattle.syn_grammar.specs.Grammar.{Both, Node};
ghost use Rattle.syn_grammar.specs.Shape.{Reference, Unary};
ghost use Rattle.syn_grammar.specs.Values as values;
ghost use Rattle.syn_grammar.specs.Values.{attributes_before, new};
ghost use Rattle.syn_grammar.specs.Run.{wrap};
ghost use Rattle.syn_grammar.specs.Promises.{OrMemory};
ghost use Rattle.syn_lower.specs.Attributes.{all_attributes_syntax, attributes_syntax};
ghost use Rattle.syn_lower.specs.Parsing.{parse_rule, parse_form, Computes, Parses, Moved, MayBelow, MayHere, IsSyntax};
ghost use Rattle.syn_lower.specs.Bodies.{attributes_before_body, attributes_in_body};
ghost use Rattle.syn_expr_parse.specs.Operators.{syntax_of_UnOp};
ghost use Rattle.syn_expr_parse.specs.Spots.{within};
ghost use Rattle.syn_expr_parse.specs.Unary as unaries;
ghost use Rattle.syn_expr_parse.specs.Unary.{all_shown, own_shown, reference_form};

use crate::op::UnOp;
use crate::parsing::nested::{Expr, Nested, Rung, Spot};
use crate::parsing::postfix::postfixes;
use crate::parsing::primary::primary;
use crate::trees::Trees;
use std::alloc::Global;
use syn_lower::Attribute;
use syn_lower::attr::outer_attributes;
use syn_parse::buffer::ParseBuffer;
use syn_parse::read::refusal::{Parsed, Refusal};
use syn_tokens::token::{And, Minus, Not, Star};

/// A unary level: attributes, which belong to all of it; and a sign before another, or an expression with what continues it.
#[tactic(auto, using(crate::proofs::Unary::unary_are, crate::proofs::Unary::unary_shown))]
pub(super) fn unary<N: Nested>(
    spot: Spot,
    nested: &N,
    input: &mut ParseBuffer<'_>,
) -> Parsed<Box<Expr<N>>>
    requires { MayBelow N.may nested.now input.old }
    ensures parses { Parses IsSyntax (λ e. Node (N.Trees.expr_syntax e.value)) (within spot rules.unary) input.old result input.new }
{
    let attrs = outer_attributes(input)?;
    let expr = bare_unary(spot, nested, input)?;
    N::Trees::with_attributes(attrs, expr)
}

/// A unary level without attributes: `-`, `!`, `*`, `&` or `&mut` before another, or an expression with what continues it.
fn bare_unary<N: Nested>(
    spot: Spot,
    nested: &N,
    input: &mut ParseBuffer<'_>,
) -> Parsed<Box<Expr<N>>>
    requires { MayBelow N.may nested.now input.old }
    ensures reads { Computes IsSyntax (λ e. N.Trees.expr_syntax e.value) (unaries.bare_unary spot input.old) result input.new }
    ensures moved { Moved input.old result input.new }
{
    if input.peek::<Minus>() {
        let op = UnOp::Neg(input.read()?);
        return signed(spot, nested, op, input);
    }
    if input.peek::<Not>() {
        let op = UnOp::Not(input.read()?);
        return signed(spot, nested, op, input);
    }
    if input.peek::<Star>() {
        let op = UnOp::Deref(input.read()?);
        return signed(spot, nested, op, input);
    }
    if input.peek::<And>() {
        return reference(spot, nested, input);
    }
    let operand = primary(spot, nested, input)?;
    postfixes(nested, operand, input)
}

/// A unary level after a sign.
fn signed<N: Nested>(
    spot: Spot,
    nested: &N,
    op: UnOp,
    input: &mut ParseBuffer<'_>,
) -> Parsed<Box<Expr<N>>>
    requires { MayHere N.may nested.now input.old }
    ensures reads { Computes IsSyntax (λ e. N.Trees.expr_syntax e.value) (wrap (new Unary) (wrap (Both (syntax_of_UnOp op)) (parse_rule (within spot rules.unary) input.old))) result input.new }
    ensures moved { Moved input.old result input.new }
{
    let expr = nested.expr(Rung::Unary(spot), input)?;
    N::Trees::expr_unary(op, expr, input.alloc())
}

/// `&`, perhaps `mut`, and a unary level.
fn reference<N: Nested>(spot: Spot, nested: &N, input: &mut ParseBuffer<'_>) -> Parsed<Box<Expr<N>>>
    requires { MayBelow N.may nested.now input.old }
    ensures reads { Computes IsSyntax (λ e. N.Trees.expr_syntax e.value) (wrap (new Reference) (parse_form (reference_form spot) input.old)) result input.new }
    ensures moved { Moved input.old result input.new }
{
    let and_token = input.read()?;
    let mutability = input.read()?;
    let expr = nested.expr(Rung::Unary(spot), input)?;
    N::Trees::expr_reference(and_token, mutability, expr, input.alloc())
}
