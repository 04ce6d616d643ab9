//! Parsers of what continues an expression: calls, indices, `?` and members.
ghost use Rattle.std.specs.Prelude.{◌≡◌, true};
ghost use Rattle.syn_grammar.specs.Rules as rules;
ghost use Rattle.syn_grammar.specs.Table as table;
ghost use Rattle.syn_grammar.specs.Words.{question};
ghost use Rattle.syn_grammar.specs.Forms.{punctuation};
ghost use Rattle.syn_grammar.specs.Grammar.{Left, Right};
ghost use Rattle.syn_grammar.specs.Shape.{Call, Index as Indexing, Try, after_it, dotted};
ghost use Rattle.syn_grammar.specs.Values.{core, onto};
ghost use Rattle.syn_grammar.specs.Run.{wrap};
ghost use Rattle.syn_tokens.specs.Kinds.{dot_syntax};
ghost use Rattle.syn_tokens.specs.Leaves.{syntax_of_ident};
ghost use Rattle.syn_lower.specs.Parsing.{sees, parse_rule, parse_form, Computes, Moved, Kept, MayBelow, MayHere, IsSyntax};
ghost use Rattle.syn_expr_parse.specs.Postfixes.{arguments_form, after_dot, after_name, generic_call_form, index_form, linked, member_form, named_form};

use crate::parsing::groups::arguments;
use crate::parsing::nested::{Expr, Nested, Rung, Spot};
use crate::trees::Trees;
use syn_lower::Member;
use syn_parse::buffer::ParseBuffer;
use syn_parse::read::refusal::Parsed;
use syn_recognize::expression_looks::at_dot;
use syn_tokens::ident::Ident;
use syn_tokens::literal::Literal;
use syn_tokens::token::{Bracket, Dot, Paren, PathSep, Question, kind};

/// What continues an expression, any number of times: the arguments of a call, an index, `?`, or `.` and a member.
#[tactic(auto, using(crate::proofs::Postfixes::postfixes_step))]
pub(super) fn postfixes<N: Nested>(
    nested: &N,
    first: Box<Expr<N>>,
    input: &mut ParseBuffer<'_>,
) -> Parsed<Box<Expr<N>>>
    requires { MayBelow N.may nested.now input.old }
    ensures reads { Computes IsSyntax (λ e. N.Trees.expr_syntax e.value) (wrap (onto (core (N.Trees.expr_syntax first.value))) (parse_rule rules.postfixes input.old)) result input.new }
    ensures kept { Kept input.old result input.new }
{
    let mut left = first;
    'links: loop {
        if input.peek::<Paren>() {
            left = called(nested, left, input)?;
        } else if input.peek::<Bracket>() {
            left = indexed(nested, left, input)?;
        } else if input.peek::<Question>() {
            left = tried::<N>(left, input)?;
        } else if at_dot(input) {
            left = member(nested, left, input)?;
        } else {
            return Ok(left);
        }
    }
}

/// A call of this expression: arguments in parentheses.
fn called<N: Nested>(
    nested: &N,
    func: Box<Expr<N>>,
    input: &mut ParseBuffer<'_>,
) -> Parsed<Box<Expr<N>>>
    requires { MayBelow N.may nested.now input.old }
    ensures reads { Computes IsSyntax (λ e. N.Trees.expr_syntax e.value) (linked (after_it Call) (N.Trees.expr_syntax func.value) (parse_form arguments_form input.old)) result input.new }
    ensures moved { Moved input.old result input.new }
{
    let (paren_token, args) = arguments(nested, input)?;
    N::Trees::expr_call(func, paren_token, args, input.alloc())
}

/// An index of this expression: another in brackets.
#[tactic(auto, unfolding(syn_grammar::specs::Take::is_end))]
fn indexed<N: Nested>(
    nested: &N,
    expr: Box<Expr<N>>,
    input: &mut ParseBuffer<'_>,
) -> Parsed<Box<Expr<N>>>
    requires { MayBelow N.may nested.now input.old }
    ensures reads { Computes IsSyntax (λ e. N.Trees.expr_syntax e.value) (linked (after_it Indexing) (N.Trees.expr_syntax expr.value) (parse_form index_form input.old)) result input.new }
    ensures moved { Moved input.old result input.new }
{
    let (bracket_token, mut content) = input.read_group::<kind::Bracket>()?;
    let index = nested.expr(Rung::Whole(Spot::Anywhere), &mut content)?;
    content.read_end()?;
    N::Trees::expr_index(expr, bracket_token, index, input.alloc())
}

/// This expression and `?`.
fn tried<N: Nested>(expr: Box<Expr<N>>, input: &mut ParseBuffer<'_>) -> Parsed<Box<Expr<N>>>
    ensures reads { Computes IsSyntax (λ e. N.Trees.expr_syntax e.value) (linked (after_it Try) (N.Trees.expr_syntax expr.value) (parse_form (punctuation question) input.old)) result input.new }
    ensures moved { Moved input.old result input.new }
{
    let question_token = input.read()?;
    N::Trees::expr_try(expr, question_token, input.alloc())
}

/// A member of this expression: `.`, and the number of a field, or a name.
#[tactic(auto, using(crate::proofs::Postfixes::number_member, crate::proofs::Postfixes::named_member))]
fn member<N: Nested>(
    nested: &N,
    base: Box<Expr<N>>,
    input: &mut ParseBuffer<'_>,
) -> Parsed<Box<Expr<N>>>
    requires { MayBelow N.may nested.now input.old }
    ensures reads { Computes IsSyntax (λ e. N.Trees.expr_syntax e.value) (linked dotted (N.Trees.expr_syntax base.value) (parse_form member_form input.old)) result input.new }
    ensures moved { Moved input.old result input.new }
{
    let dot_token = input.read()?;
    if !input.peek::<Literal>() {
        return named_member(nested, base, dot_token, input);
    }
    let index = input.read()?;
    N::Trees::expr_field(base, dot_token, Member::Unnamed(index), input.alloc())
}

/// The name of a field, or of a method with its arguments.
fn named_member<N: Nested>(
    nested: &N,
    base: Box<Expr<N>>,
    dot_token: Dot,
    input: &mut ParseBuffer<'_>,
) -> Parsed<Box<Expr<N>>>
    requires { MayHere N.may nested.now input.old }
    ensures reads { Computes IsSyntax (λ e. N.Trees.expr_syntax e.value) (after_dot (N.Trees.expr_syntax base.value) (dot_syntax dot_token) (wrap Right (parse_form named_form input.old))) result input.new }
    ensures moved { Moved input.old result input.new }
{
    let name: Ident = input.read()?;
    if input.peek::<PathSep>() {
        return generic_call(nested, base, dot_token, name, input);
    }
    if input.peek::<Paren>() {
        return method_call(nested, base, dot_token, name, input);
    }
    N::Trees::expr_field(base, dot_token, Member::Named(name), input.alloc())
}

/// A call of the method with this name: `::` and generic arguments, and arguments in parentheses.
#[tactic(auto, using(crate::proofs::Postfixes::generic_call_is, crate::proofs::Postfixes::no_generic_call, crate::proofs::Postfixes::generic_variant))]
fn generic_call<N: Nested>(
    nested: &N,
    receiver: Box<Expr<N>>,
    dot_token: Dot,
    method: Ident,
    input: &mut ParseBuffer<'_>,
) -> Parsed<Box<Expr<N>>>
    requires may { MayBelow N.may nested.now input.old }
    requires colons { sees table.at_colons input.old ≡ true }
    ensures reads { Computes IsSyntax (λ e. N.Trees.expr_syntax e.value) (after_name (N.Trees.expr_syntax receiver.value) (dot_syntax dot_token) (syntax_of_ident method) (wrap Left (parse_form generic_call_form input.old))) result input.new }
    ensures moved { Moved input.old result input.new }
{
    let turbofish = Some(input.read()?);
    let (paren_token, args) = arguments(nested, input)?;
    N::Trees::expr_method_call(
        receiver,
        dot_token,
        method,
        turbofish,
        paren_token,
        args,
        input.alloc(),
    )
}

/// A call of the method with this name: arguments in parentheses.
fn method_call<N: Nested>(
    nested: &N,
    receiver: Box<Expr<N>>,
    dot_token: Dot,
    method: Ident,
    input: &mut ParseBuffer<'_>,
) -> Parsed<Box<Expr<N>>>
    requires { MayBelow N.may nested.now input.old }
    ensures reads { Computes IsSyntax (λ e. N.Trees.expr_syntax e.value) (after_name (N.Trees.expr_syntax receiver.value) (dot_syntax dot_token) (syntax_of_ident method) (wrap Right (wrap Left (parse_form arguments_form input.old)))) result input.new }
    ensures moved { Moved input.old result input.new }
{
    let (paren_token, args) = arguments(nested, input)?;
    N::Trees::expr_method_call(
        receiver,
        dot_token,
        method,
        None,
        paren_token,
        args,
        input.alloc(),
    )
}
