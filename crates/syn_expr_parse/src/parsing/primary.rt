//! Parsers of primary expressions: those without attributes, signs before them and what continues them.
ghost use Rattle.syn_grammar.specs.Grammar.{Node};
ghost use Rattle.syn_grammar.specs.Rules as rules;
ghost use Rattle.syn_grammar.specs.Shape.{Break, Continue, Macro, Path, Return};
ghost use Rattle.syn_grammar.specs.Values.{new};
ghost use Rattle.syn_grammar.specs.Run.{wrap};
ghost use Rattle.syn_lower.specs.Parsing.{parse_rule, parse_form, Computes, Parses, Moved, MayBelow, IsSyntax};
ghost use Rattle.syn_expr_parse.specs.Primary.{after_path, break_form, continue_form, path_out, return_form};
ghost use Rattle.syn_expr_parse.specs.Primary as primaries;
ghost use Rattle.syn_expr_parse.specs.Spots.{within};
ghost use Rattle.syn_expr_parse.specs.Then.{then_by};

use crate::parsing::blocks::{block_like, else_block};
use crate::parsing::groups::{bracketed, in_invisible_group, parenthesized};
use crate::parsing::literals::struct_literal;
use crate::parsing::nested::{Expr, Nested, Rung, Spot};
use crate::trees::Trees;
use syn_lower::Lit;
use syn_parse::buffer::ParseBuffer;
use syn_parse::read::refusal::Parsed;
use syn_pat::parsing::{macro_invocation, path_as_expression};
use syn_recognize::expression_looks::{at_block_like, at_whole_expression};
use syn_recognize::looks::at_macro;
use syn_tokens::token::{Brace, Bracket, Break, Continue, Group, Paren, Return};

/// A primary expression, by the token that it begins with.
#[tactic(auto, using(crate::proofs::Primary::primary_are))]
pub(super) fn primary<N: Nested>(
    spot: Spot,
    nested: &N,
    input: &mut ParseBuffer<'_>,
) -> Parsed<Box<Expr<N>>>
    requires { MayBelow N.may nested.now input.old }
    ensures parses { Parses IsSyntax (λ e. Node (N.Trees.expr_syntax e.value)) (within spot rules.primary) input.old result input.new }
{
    if !input.peek::<Lit>() {
        return no_literal(spot, nested, input);
    }
    let lit = input.read()?;
    N::Trees::expr_lit(lit, input.alloc())
}

/// A constant, as an expression: a block, a literal, `true` or `false`.
#[tactic(auto, using(crate::proofs::Primary::constant_are))]
pub fn constant<N: Nested>(nested: &N, input: &mut ParseBuffer<'_>) -> Parsed<Box<Expr<N>>>
    requires { MayBelow N.may nested.now input.old }
    ensures parses { Parses IsSyntax (λ e. Node (N.Trees.expr_syntax e.value)) rules.constant input.old result input.new }
{
    if input.peek::<Brace>() {
        return else_block(nested, input);
    }
    let lit = input.read()?;
    N::Trees::expr_lit(lit, input.alloc())
}

/// A primary expression that is no literal.
fn no_literal<N: Nested>(
    spot: Spot,
    nested: &N,
    input: &mut ParseBuffer<'_>,
) -> Parsed<Box<Expr<N>>>
    requires { MayBelow N.may nested.now input.old }
    ensures reads { Computes IsSyntax (λ e. N.Trees.expr_syntax e.value) (primaries.no_literal spot input.old) result input.new }
    ensures moved { Moved input.old result input.new }
{
    if at_macro(input) {
        in_macro::<N>(input)
    } else if input.peek::<Paren>() {
        parenthesized(nested, input)
    } else if input.peek::<Bracket>() {
        bracketed(nested, input)
    } else if input.peek::<Group>() {
        in_invisible_group(nested, input)
    } else if at_block_like(input) {
        block_like(nested, input)
    } else {
        jump_or_path(spot, nested, input)
    }
}

/// A macro.
fn in_macro<N: Nested>(input: &mut ParseBuffer<'_>) -> Parsed<Box<Expr<N>>>
    ensures reads { Computes IsSyntax (λ e. N.Trees.expr_syntax e.value) (wrap (new Macro) (parse_rule rules.macro_invocation input.old)) result input.new }
    ensures moved { Moved input.old result input.new }
{
    let mac = macro_invocation(input)?;
    N::Trees::expr_macro(mac, input.alloc())
}

/// `return`, `break` or `continue`, with what belongs to it, or a path.
fn jump_or_path<N: Nested>(
    spot: Spot,
    nested: &N,
    input: &mut ParseBuffer<'_>,
) -> Parsed<Box<Expr<N>>>
    requires { MayBelow N.may nested.now input.old }
    ensures reads { Computes IsSyntax (λ e. N.Trees.expr_syntax e.value) (primaries.jump_or_path spot input.old) result input.new }
    ensures moved { Moved input.old result input.new }
{
    if input.peek::<Return>() {
        return_value(spot, nested, input)
    } else if input.peek::<Break>() {
        break_loop::<N>(input)
    } else if input.peek::<Continue>() {
        continue_loop::<N>(input)
    } else {
        path(spot, nested, input)
    }
}

/// `return`, and an expression where one may begin.
fn return_value<N: Nested>(
    spot: Spot,
    nested: &N,
    input: &mut ParseBuffer<'_>,
) -> Parsed<Box<Expr<N>>>
    requires { MayBelow N.may nested.now input.old }
    ensures reads { Computes IsSyntax (λ e. N.Trees.expr_syntax e.value) (wrap (new Return) (parse_form (return_form spot) input.old)) result input.new }
    ensures moved { Moved input.old result input.new }
{
    let return_token = input.read()?;
    if !at_whole_expression(input) {
        return N::Trees::expr_return(return_token, None, input.alloc());
    }
    let value = nested.expr(Rung::Whole(spot), input)?;
    N::Trees::expr_return(return_token, Some(value), input.alloc())
}

/// `break`, perhaps followed by a lifetime. No expression may begin.
fn break_loop<N: Nested>(input: &mut ParseBuffer<'_>) -> Parsed<Box<Expr<N>>>
    ensures reads { Computes IsSyntax (λ e. N.Trees.expr_syntax e.value) (wrap (new Break) (parse_form break_form input.old)) result input.new }
    ensures moved { Moved input.old result input.new }
{
    let break_token = input.read()?;
    let label = input.read()?;
    if at_whole_expression(input) {
        return Err(input.refusal("unexpected token"));
    }
    N::Trees::expr_break(break_token, label, input.alloc())
}

/// `continue`, perhaps with a lifetime.
fn continue_loop<N: Nested>(input: &mut ParseBuffer<'_>) -> Parsed<Box<Expr<N>>>
    ensures reads { Computes IsSyntax (λ e. N.Trees.expr_syntax e.value) (wrap (new Continue) (parse_form continue_form input.old)) result input.new }
    ensures moved { Moved input.old result input.new }
{
    let continue_token = input.read()?;
    let label = input.read()?;
    N::Trees::expr_continue(continue_token, label, input.alloc())
}

/// A path, and the braces of a struct literal after it, where they are allowed.
fn path<N: Nested>(spot: Spot, nested: &N, input: &mut ParseBuffer<'_>) -> Parsed<Box<Expr<N>>>
    requires { MayBelow N.may nested.now input.old }
    ensures reads { Computes IsSyntax (λ e. N.Trees.expr_syntax e.value) (path_out spot input.old) result input.new }
    ensures moved { Moved input.old result input.new }
{
    match spot {
        Spot::Anywhere => path_or_literal(nested, input),
        Spot::Head => lone_path::<N>(input),
    }
}

/// A path alone.
fn lone_path<N: Nested>(input: &mut ParseBuffer<'_>) -> Parsed<Box<Expr<N>>>
    ensures reads { Computes IsSyntax (λ e. N.Trees.expr_syntax e.value) (wrap (new Path) (parse_rule rules.path_as_expression input.old)) result input.new }
    ensures moved { Moved input.old result input.new }
{
    let (qself, path) = path_as_expression(input)?;
    N::Trees::expr_path(qself, path, input.alloc())
}

/// A path, followed by the braces of a struct literal or without them.
fn path_or_literal<N: Nested>(nested: &N, input: &mut ParseBuffer<'_>) -> Parsed<Box<Expr<N>>>
    requires { MayBelow N.may nested.now input.old }
    ensures reads { Computes IsSyntax (λ e. N.Trees.expr_syntax e.value) (then_by (parse_rule rules.path_as_expression input.old) after_path) result input.new }
    ensures moved { Moved input.old result input.new }
{
    let (qself, path) = path_as_expression(input)?;
    if !input.peek::<Brace>() {
        return N::Trees::expr_path(qself, path, input.alloc());
    }
    struct_literal(qself, path, nested, input)
}
