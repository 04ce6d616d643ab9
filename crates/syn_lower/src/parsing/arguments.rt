//! Parsers of the arguments of a path's word.
ghost use Rattle.syn_grammar.specs.Rules as rules;
ghost use Rattle.syn_grammar.specs.Shape.{untagged};
ghost use Rattle.syn_grammar.specs.Grammar.{Left, Node, Right, Shaped};
ghost use Rattle.syn_grammar.specs.Run.{rows, wrap};
ghost use Rattle.syn_tokens.specs.Kinds.{comma_syntax};
ghost use Rattle.syn_tokens.specs.Ordered.{member_of};
ghost use Rattle.syn_lower.specs.Ordered.{ordered_of};
ghost use Rattle.syn_lower.specs.Parsing.{parse_rule, parse_form, Computes, Parses, MayParse, Moved, Kept, MayBelow, MayHere, itself, IsSyntax, list_of};
ghost use Rattle.syn_lower.specs.Paths.{is_lifetime, syntax_of_GenericArgument, syntax_of_PathArguments, syntax_of_ReturnType};
ghost use Rattle.syn_lower.specs.TypeForms.{angle_bracketed_form, argument_form, arguments_form, association_form, parenthesized_form};

use super::Nested;
use super::ty::types;
use crate::looks::at_constant;
use crate::{
    AngleBracketedGenericArguments, AssocType, GenericArgument, ParenthesizedGenericArguments,
    PathArguments, ReturnType,
};
use syn_parse::buffer::ParseBuffer;
use syn_parse::read::lists::punctuated_list;
use syn_parse::read::refusal::Parsed;
use syn_recognize::looks::{at_arguments, at_association};
use syn_tokens::lifetime::Lifetime;
use syn_tokens::punctuated::Punctuated;
use syn_tokens::token::{Comma, Gt, Paren, RArrow, kind};

/// The arguments of a word, where they are next.
pub(super) fn arguments<N: Nested>(nested: &N, input: &mut ParseBuffer<'_>) -> Parsed<PathArguments>
    requires { MayHere N.may nested.now input.old }
    ensures reads { Computes IsSyntax syntax_of_PathArguments (parse_form arguments_form input.old) result input.new }
    ensures kept { Kept input.old result input.new }
{
    if at_arguments(input) {
        some_arguments(nested, input)
    } else {
        Ok(PathArguments::None)
    }
}

/// Types in parentheses and a return type; or generic arguments in `< >`.
#[tactic(auto, using(syn_grammar::proofs::Each::type_arguments_is))]
pub(super) fn some_arguments<N: Nested>(
    nested: &N,
    input: &mut ParseBuffer<'_>,
) -> Parsed<PathArguments>
    requires { MayBelow N.may nested.now input.old }
    ensures reads { Computes IsSyntax syntax_of_PathArguments (wrap (Shaped untagged) (parse_rule rules.type_arguments input.old)) result input.new }
    ensures moved { Moved input.old result input.new }
{
    if input.peek::<Paren>() {
        Ok(PathArguments::Parenthesized(parenthesized(nested, input)?))
    } else {
        Ok(PathArguments::AngleBracketed(angle_bracketed(nested, input)?))
    }
}

/// Types in parentheses, and a return type.
#[tactic(auto, unfolding(syn_grammar::specs::Take::is_end))]
fn parenthesized<N: Nested>(
    nested: &N,
    input: &mut ParseBuffer<'_>,
) -> Parsed<ParenthesizedGenericArguments>
    requires { MayBelow N.may nested.now input.old }
    ensures reads { Computes IsSyntax itself (parse_form parenthesized_form input.old) result input.new }
    ensures moved { Moved input.old result input.new }
{
    let (paren_token, mut content) = input.read_group::<kind::Paren>()?;
    let inputs = types(nested, &mut content)?;
    content.read_end()?;
    Ok(ParenthesizedGenericArguments {
        paren_token,
        inputs,
        output: return_type(nested, input)?,
    })
}

/// `->` and a type, or nothing.
#[tactic(auto, using(syn_grammar::proofs::Each::return_type_is))]
pub(super) fn return_type<N: Nested>(nested: &N, input: &mut ParseBuffer<'_>) -> Parsed<ReturnType>
    requires { MayBelow N.may nested.now input.old }
    ensures parses { MayParse IsSyntax syntax_of_ReturnType rules.return_type input.old result input.new }
{
    if input.peek::<RArrow>() {
        let arrow = input.read()?;
        let ty = Box::new(input.alloc(), nested.ty(input)?)?;
        Ok(ReturnType::Ty(arrow, ty))
    } else {
        Ok(ReturnType::Default)
    }
}

/// Generic arguments in `< >`, with `::` before them or without it.
#[tactic(auto, using(syn_grammar::proofs::Each::generic_arguments_is))]
pub(super) fn angle_bracketed<N: Nested>(
    nested: &N,
    input: &mut ParseBuffer<'_>,
) -> Parsed<AngleBracketedGenericArguments>
    requires { MayBelow N.may nested.now input.old }
    ensures reads { Computes IsSyntax itself (parse_form angle_bracketed_form input.old) result input.new }
    ensures moved { Moved input.old result input.new }
{
    Ok(AngleBracketedGenericArguments {
        colon2_token: input.read()?,
        lt_token: input.read()?,
        args: generic_arguments(nested, input)?,
        gt_token: input.read()?,
    })
}

/// Generic arguments up to `>`, with commas between them.
fn generic_arguments<N: Nested>(
    nested: &N,
    input: &mut ParseBuffer<'_>,
) -> Parsed<Punctuated<GenericArgument, Comma>>
    requires { MayHere N.may nested.now input.old }
    ensures reads { Computes IsSyntax (λ l. ordered_of is_lifetime (list_of syntax_of_GenericArgument comma_syntax l.pairs l.last)) (rows (parse_form argument_form) input.old) result input.new }
    ensures kept { Kept input.old result input.new }
{
    punctuated_list::<Gt, Comma, _, _>(input, |next| argument(nested, next))
}

/// A generic argument: a lifetime, or one that isn't.
#[tactic(auto, using(syn_grammar::proofs::Looks::sees_lifetime))]
fn argument<N: Nested>(nested: &N, input: &mut ParseBuffer<'_>) -> Parsed<GenericArgument>
    requires { MayHere N.may nested.now input.old }
    ensures reads { Computes IsSyntax (λ a. member_of is_lifetime (syntax_of_GenericArgument a)) (parse_form argument_form input.old) result input.new }
    ensures moved { Moved input.old result input.new }
{
    if input.peek::<Lifetime>() {
        Ok(GenericArgument::Lifetime(input.read()?))
    } else {
        other_argument(nested, input)
    }
}

/// A generic argument that isn't a lifetime: a name, `=` and a type; a constant; or a type.
#[tactic(auto, using(syn_grammar::proofs::Each::generic_argument_is))]
fn other_argument<N: Nested>(nested: &N, input: &mut ParseBuffer<'_>) -> Parsed<GenericArgument>
    requires { MayHere N.may nested.now input.old }
    ensures reads { Computes IsSyntax (λ a. member_of is_lifetime (syntax_of_GenericArgument a)) (wrap Right (parse_rule rules.generic_argument input.old)) result input.new }
    ensures moved { Moved input.old result input.new }
{
    if at_association(input) {
        Ok(GenericArgument::AssocType(association(nested, input)?))
    } else if at_constant(input) {
        Ok(GenericArgument::Const(input.read()?))
    } else {
        Ok(GenericArgument::Ty(nested.ty(input)?))
    }
}

/// A name, `=` and a type.
fn association<N: Nested>(nested: &N, input: &mut ParseBuffer<'_>) -> Parsed<AssocType>
    requires { MayBelow N.may nested.now input.old }
    ensures reads { Computes IsSyntax itself (parse_form association_form input.old) result input.new }
    ensures moved { Moved input.old result input.new }
{
    Ok(AssocType {
        ident: input.read()?,
        eq_token: input.read()?,
        ty: nested.ty(input)?,
    })
}
