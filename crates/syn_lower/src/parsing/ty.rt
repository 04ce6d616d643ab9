//! Parsers of types.
ghost use Rattle.std.specs.Prelude.{◌≡◌};
ghost use Rattle.syn_grammar.specs.Rules as rules;
ghost use Rattle.syn_grammar.specs.Tokens as grammar;
ghost use Rattle.syn_tokens.specs.Kinds.{comma_syntax, const_syntax, mut_syntax};
ghost use Rattle.syn_tokens.specs.Leaves.{maybe};
ghost use Rattle.syn_lower.specs.Parsing.{rule, inside, parse_rule, parse_form, Computes, Parses, Moved, Kept, MayBelow, MayHere, itself, IsSyntax, list_of};
ghost use Rattle.syn_lower.specs.Parts.{group_syntax};
ghost use Rattle.syn_lower.specs.Types.{pointer_words, syntax_of_Type};
ghost use Rattle.syn_lower.specs.TypeForms.{brackets_form, in_brackets, in_parentheses, of_parentheses, pointer_form, pointer_words_form, reference_form};

use super::Nested;
use super::path::path_as_type;
use crate::{
    Type, TypeArray, TypeGroup, TypeNever, TypeParen, TypePtr, TypeReference, TypeSlice, TypeTuple,
};
use syn_parse::buffer::ParseBuffer;
use syn_parse::read::End;
use syn_parse::read::lists::punctuated_list;
use syn_parse::read::refusal::Parsed;
use syn_tokens::punctuated::Punctuated;
use syn_tokens::token::{And, Bracket, Comma, Const, Group, Mut, Not, Paren, Semi, Star, kind};

/// A type, by the token that it begins with.
#[tactic(auto, using(syn_grammar::proofs::Each::type_is))]
pub(crate) fn ty<N: Nested>(nested: &N, input: &mut ParseBuffer<'_>) -> Parsed<Type>
    requires { MayBelow N.may nested.now input.old }
    ensures parses { Parses IsSyntax syntax_of_Type rules.type input.old result input.new }
{
    if input.peek::<And>() {
        Ok(Type::Reference(reference(nested, input)?))
    } else if input.peek::<Star>() {
        Ok(Type::Ptr(pointer(nested, input)?))
    } else if input.peek::<Paren>() {
        parenthesized(nested, input)
    } else if input.peek::<Bracket>() {
        bracketed(nested, input)
    } else if input.peek::<Not>() {
        Ok(Type::Never(TypeNever {
            bang_token: input.read()?,
        }))
    } else if input.peek::<Group>() {
        Ok(Type::Group(in_invisible_group(nested, input)?))
    } else {
        Ok(Type::Path(path_as_type(nested, input)?))
    }
}

/// `&`, perhaps a lifetime, perhaps `mut`, and a type.
fn reference<N: Nested>(nested: &N, input: &mut ParseBuffer<'_>) -> Parsed<TypeReference>
    requires { MayBelow N.may nested.now input.old }
    ensures reads { Computes IsSyntax itself (parse_form reference_form input.old) result input.new }
    ensures moved { Moved input.old result input.new }
{
    Ok(TypeReference {
        and_token: input.read()?,
        lifetime: input.read()?,
        mutability: input.read()?,
        elem: Box::new(input.alloc(), nested.ty(input)?)?,
    })
}

/// `*`, `const` or `mut`, and a type.
fn pointer<N: Nested>(nested: &N, input: &mut ParseBuffer<'_>) -> Parsed<TypePtr>
    requires { MayBelow N.may nested.now input.old }
    ensures reads { Computes IsSyntax itself (parse_form pointer_form input.old) result input.new }
    ensures moved { Moved input.old result input.new }
{
    let star_token = input.read()?;
    let (const_token, mutability) = const_or_mut(input)?;
    Ok(TypePtr {
        star_token,
        const_token,
        mutability,
        elem: Box::new(input.alloc(), nested.ty(input)?)?,
    })
}

/// `const` or `mut`.
fn const_or_mut(input: &mut ParseBuffer<'_>) -> Parsed<(Option<Const>, Option<Mut>)>
    ensures reads { Computes IsSyntax (λ p. pointer_words (maybe const_syntax p.0) (maybe mut_syntax p.1)) (parse_form pointer_words_form input.old) result input.new }
    ensures moved { Moved input.old result input.new }
{
    if input.peek::<Const>() {
        Ok((Some(input.read()?), None))
    } else {
        Ok((None, Some(input.read()?)))
    }
}

/// Types in parentheses.
#[tactic(auto, unfolding(syn_grammar::specs::Take::is_end))]
fn parenthesized<N: Nested>(nested: &N, input: &mut ParseBuffer<'_>) -> Parsed<Type>
    requires { MayBelow N.may nested.now input.old }
    ensures reads { Computes IsSyntax syntax_of_Type (in_parentheses (parse_form (inside grammar.Paren (rule rules.types)) input.old)) result input.new }
    ensures moved { Moved input.old result input.new }
{
    let (paren_token, mut content) = input.read_group::<kind::Paren>()?;
    let elems = types(nested, &mut content)?;
    content.read_end()?;
    Ok(paren_or_tuple(paren_token, elems))
}

/// One type without a comma is a type in parentheses; any others are a tuple.
#[tactic(auto, using(crate::proofs::Tuples::tuple_list))]
fn paren_or_tuple(paren_token: Paren, elems: Punctuated<Type, Comma>) -> Type
    ensures { syntax_of_Type result ≡ of_parentheses (group_syntax grammar.Paren paren_token (list_of syntax_of_Type comma_syntax elems.pairs elems.last)) }
{
    match elems.into_lone() {
        Ok(elem) => Type::Paren(TypeParen { paren_token, elem }),
        Err(elems) => Type::Tuple(TypeTuple { paren_token, elems }),
    }
}

/// A type in brackets, with `;` and a length after it or without them.
#[tactic(auto, unfolding(syn_grammar::specs::Take::is_end))]
fn bracketed<N: Nested>(nested: &N, input: &mut ParseBuffer<'_>) -> Parsed<Type>
    requires { MayBelow N.may nested.now input.old }
    ensures reads { Computes IsSyntax syntax_of_Type (in_brackets (parse_form brackets_form input.old)) result input.new }
    ensures moved { Moved input.old result input.new }
{
    let (bracket_token, mut content) = input.read_group::<kind::Bracket>()?;
    let elem = Box::new(content.alloc(), nested.ty(&mut content)?)?;
    if !content.peek::<Semi>() {
        content.read_end()?;
        return Ok(Type::Slice(TypeSlice {
            bracket_token,
            elem,
        }));
    }
    let array = TypeArray {
        bracket_token,
        elem,
        semi_token: content.read()?,
        len: content.read()?,
    };
    content.read_end()?;
    Ok(Type::Array(array))
}

/// A type in a group without delimiters.
#[tactic(auto, unfolding(syn_grammar::specs::Take::is_end))]
fn in_invisible_group<N: Nested>(nested: &N, input: &mut ParseBuffer<'_>) -> Parsed<TypeGroup>
    requires { MayBelow N.may nested.now input.old }
    ensures reads { Computes IsSyntax itself (parse_form (inside grammar.None (rule rules.type)) input.old) result input.new }
    ensures moved { Moved input.old result input.new }
{
    let (group_token, mut content) = input.read_group::<kind::Group>()?;
    let elem = Box::new(content.alloc(), nested.ty(&mut content)?)?;
    content.read_end()?;
    Ok(TypeGroup { group_token, elem })
}

/// Types with commas between them, up to the end.
pub(super) fn types<N: Nested>(
    nested: &N,
    input: &mut ParseBuffer<'_>,
) -> Parsed<Punctuated<Type, Comma>>
    requires { MayHere N.may nested.now input.old }
    ensures reads { Computes IsSyntax (λ l. list_of syntax_of_Type comma_syntax l.pairs l.last) (parse_rule rules.types input.old) result input.new }
    ensures kept { Kept input.old result input.new }
{
    punctuated_list::<End, Comma, _, _>(input, |next| nested.ty(next))
}
