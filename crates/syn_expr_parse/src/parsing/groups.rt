//! Parsers of expressions in groups, and of what groups hold.
ghost use Rattle.std.specs.Prelude.{◌≡◌, [], Some};
ghost use Rattle.syn_grammar.specs.Grammar.{Node};
ghost use Rattle.syn_grammar.specs.Rules as rules;
ghost use Rattle.syn_grammar.specs.Tokens as grammar;
ghost use Rattle.syn_grammar.specs.Shape.{Grouped, Tuple, bracketed as brackets};
ghost use Rattle.syn_grammar.specs.Values.{new, shape};
ghost use Rattle.syn_grammar.specs.Run.{wrap};
ghost use Rattle.syn_grammar.specs.Promises.{OrMemory};
ghost use Rattle.syn_tokens.specs.Kinds.{comma_syntax};
ghost use Rattle.syn_lower.specs.Parsing.{parse_rule, parse_form, Computes, MayParse, Moved, Kept, MayBelow, MayHere, Parses, IsSyntax, list_of};
ghost use Rattle.syn_lower.specs.Parts.{group_syntax};
ghost use Rattle.syn_lower.specs.Types.{tuple_elements};
ghost use Rattle.syn_expr_parse.specs.Parts.{array_elements};
ghost use Rattle.syn_expr_parse.specs.Arrays.{syntax_of_ArrayContent, array_rest, array_rest_form};
ghost use Rattle.syn_expr_parse.specs.Postfixes.{arguments_form};
ghost use Rattle.syn_expr_parse.specs.Primary.{bracketed_of, brackets_form, group_form};

use crate::parsing::nested::{Expr, Nested, Rung, Spot};
use crate::trees::Trees;
use std::alloc::Global;
use syn_parse::buffer::ParseBuffer;
use syn_parse::read::refusal::Parsed;
use syn_tokens::punctuated::Punctuated;
use syn_tokens::token::{Bracket, Comma, Paren, Semi, kind};

/// What the brackets of an array hold.
#[derive(Drop)]
enum ArrayContent<E: Drop> {
    /// Expressions with commas between them.
    Elements(Punctuated<E, Comma>),
    /// An expression, `;` and the number of its copies.
    Copies(Box<E>, Semi, Box<E>),
}

/// Expressions with commas between them, up to the end.
#[tactic(auto, using(crate::proofs::Groups::expressions_end, crate::proofs::Groups::expressions_refused))]
pub(super) fn expressions<N: Nested>(
    nested: &N,
    input: &mut ParseBuffer<'_>,
) -> Parsed<Punctuated<Expr<N>, Comma>>
    requires { MayHere N.may nested.now input.old }
    ensures reads { Computes IsSyntax (λ l. list_of (λ e. Node (N.Trees.expr_syntax e)) comma_syntax l.pairs l.last) (parse_rule rules.expressions input.old) result input.new }
    ensures kept { Kept input.old result input.new }
{
    let mut list = Punctuated::new(input.alloc());
    'elements: while !input.is_empty() {
        let value = N::Trees::unboxed(nested.expr(Rung::Whole(Spot::Anywhere), input)?);
        if !input.peek::<Comma>() {
            list.push_value(value)?;
            return Ok(list);
        }
        let comma = input.read()?;
        list.push_pair(value, comma)?;
    }
    Ok(list)
}

/// Expressions in parentheses.
#[tactic(auto, unfolding(syn_grammar::specs::Take::is_end))]
pub(super) fn arguments<N: Nested>(
    nested: &N,
    input: &mut ParseBuffer<'_>,
) -> Parsed<(Paren, Punctuated<Expr<N>, Comma>)>
    requires { MayBelow N.may nested.now input.old }
    ensures reads { Computes IsSyntax (λ p. group_syntax grammar.Paren p.0 (list_of (λ e. Node (N.Trees.expr_syntax e)) comma_syntax p.1.pairs p.1.last)) (parse_form arguments_form input.old) result input.new }
    ensures moved { Moved input.old result input.new }
{
    let (paren_token, mut content) = input.read_group::<kind::Paren>()?;
    let args = expressions(nested, &mut content)?;
    content.read_end()?;
    Ok((paren_token, args))
}

/// An expression in parentheses, or a tuple.
pub(super) fn parenthesized<N: Nested>(
    nested: &N,
    input: &mut ParseBuffer<'_>,
) -> Parsed<Box<Expr<N>>>
    requires { MayBelow N.may nested.now input.old }
    ensures reads { Computes IsSyntax (λ e. N.Trees.expr_syntax e.value) (bracketed_of (parse_form arguments_form input.old)) result input.new }
    ensures moved { Moved input.old result input.new }
{
    let (paren_token, elems) = arguments(nested, input)?;
    paren_or_tuple::<N>(input.alloc(), paren_token, elems)
}

/// One expression without a comma is an expression in parentheses; any others are a tuple.
#[tactic(auto, using(crate::proofs::Groups::tuple_shape))]
fn paren_or_tuple<N: Nested>(
    alloc: Global,
    paren_token: Paren,
    elems: Punctuated<Expr<N>, Comma>,
) -> Parsed<Box<Expr<N>>>
    ensures { OrMemory IsSyntax result (λ e. N.Trees.expr_syntax e.value ≡ shape brackets (group_syntax grammar.Paren paren_token (list_of (λ e. Node (N.Trees.expr_syntax e)) comma_syntax elems.pairs elems.last))) }
{
    match elems.into_lone() {
        Ok(expr) => paren::<N>(alloc, paren_token, expr),
        Err(elems) => tuple::<N>(alloc, paren_token, elems),
    }
}

/// An expression in parentheses.
fn paren<N: Nested>(alloc: Global, paren_token: Paren, expr: Box<Expr<N>>) -> Parsed<Box<Expr<N>>>
    ensures { OrMemory IsSyntax result (λ e. N.Trees.expr_syntax e.value ≡ shape brackets (group_syntax grammar.Paren paren_token (list_of (λ e. Node (N.Trees.expr_syntax e)) comma_syntax [] (Some expr.value)))) }
{
    N::Trees::expr_paren(paren_token, expr, alloc)
}

/// A tuple.
fn tuple<N: Nested>(
    alloc: Global,
    paren_token: Paren,
    elems: Punctuated<Expr<N>, Comma>,
) -> Parsed<Box<Expr<N>>>
    ensures { OrMemory IsSyntax result (λ e. N.Trees.expr_syntax e.value ≡ new Tuple (group_syntax grammar.Paren paren_token (tuple_elements (list_of (λ e. Node (N.Trees.expr_syntax e)) comma_syntax elems.pairs elems.last)))) }
{
    N::Trees::expr_tuple(paren_token, elems, alloc)
}

/// An array in brackets.
#[tactic(auto, unfolding(syn_grammar::specs::Take::is_end))]
pub(super) fn bracketed<N: Nested>(nested: &N, input: &mut ParseBuffer<'_>) -> Parsed<Box<Expr<N>>>
    requires { MayBelow N.may nested.now input.old }
    ensures reads { Computes IsSyntax (λ e. N.Trees.expr_syntax e.value) (bracketed_of (parse_form brackets_form input.old)) result input.new }
    ensures moved { Moved input.old result input.new }
{
    let (bracket_token, mut content) = input.read_group::<kind::Bracket>()?;
    let held = array_content(nested, &mut content)?;
    content.read_end()?;
    array::<N>(input.alloc(), bracket_token, held)
}

/// Elements, or copies of one.
fn array<N: Nested>(
    alloc: Global,
    bracket_token: Bracket,
    held: ArrayContent<Expr<N>>,
) -> Parsed<Box<Expr<N>>>
    ensures { OrMemory IsSyntax result (λ e. N.Trees.expr_syntax e.value ≡ shape brackets (group_syntax grammar.Bracket bracket_token (syntax_of_ArrayContent (λ e. Node (N.Trees.expr_syntax e)) held))) }
{
    match held {
        ArrayContent::Elements(elems) => N::Trees::expr_array(bracket_token, elems, alloc),
        ArrayContent::Copies(expr, semi_token, len) => {
            N::Trees::expr_repeat(bracket_token, expr, semi_token, len, alloc)
        }
    }
}

/// Nothing; an expression, `;` and the number of its copies; or expressions with commas between them.
#[tactic(auto, using(syn_grammar::proofs::Each::array_content_is))]
fn array_content<N: Nested>(
    nested: &N,
    input: &mut ParseBuffer<'_>,
) -> Parsed<ArrayContent<Expr<N>>>
    requires { MayHere N.may nested.now input.old }
    ensures parses { MayParse IsSyntax (syntax_of_ArrayContent (λ e. Node (N.Trees.expr_syntax e))) rules.array_content input.old result input.new }
{
    if input.is_empty() {
        return Ok(ArrayContent::Elements(Punctuated::new(input.alloc())));
    }
    let first = nested.expr(Rung::Whole(Spot::Anywhere), input)?;
    if !input.peek::<Semi>() {
        return Ok(ArrayContent::Elements(elements(nested, first, input)?));
    }
    let semi_token = input.read()?;
    let len = nested.expr(Rung::Whole(Spot::Anywhere), input)?;
    Ok(ArrayContent::Copies(first, semi_token, len))
}

/// This element of an array, and after a comma the others.
fn elements<N: Nested>(
    nested: &N,
    first: Box<Expr<N>>,
    input: &mut ParseBuffer<'_>,
) -> Parsed<Punctuated<Expr<N>, Comma>>
    requires { MayHere N.may nested.now input.old }
    ensures reads { Computes IsSyntax (λ l. array_elements (list_of (λ e. Node (N.Trees.expr_syntax e)) comma_syntax l.pairs l.last)) (array_rest (Node (N.Trees.expr_syntax first.value)) (parse_form array_rest_form input.old)) result input.new }
    ensures kept { Kept input.old result input.new }
{
    let mut elems = Punctuated::new(input.alloc());
    if !input.peek::<Comma>() {
        elems.push_value(N::Trees::unboxed(first))?;
        return Ok(elems);
    }
    elems.push_pair(N::Trees::unboxed(first), input.read()?)?;
    elems.append(expressions(nested, input)?)?;
    Ok(elems)
}

/// An expression in a group without delimiters.
#[tactic(auto, unfolding(syn_grammar::specs::Take::is_end))]
pub(super) fn in_invisible_group<N: Nested>(
    nested: &N,
    input: &mut ParseBuffer<'_>,
) -> Parsed<Box<Expr<N>>>
    requires { MayBelow N.may nested.now input.old }
    ensures reads { Computes IsSyntax (λ e. N.Trees.expr_syntax e.value) (wrap (new Grouped) (parse_form group_form input.old)) result input.new }
    ensures moved { Moved input.old result input.new }
{
    let (group_token, mut content) = input.read_group::<kind::Group>()?;
    let expr = nested.expr(Rung::Whole(Spot::Anywhere), &mut content)?;
    content.read_end()?;
    N::Trees::expr_group(group_token, expr, input.alloc())
}
