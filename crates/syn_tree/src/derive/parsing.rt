//! Parsers of what follows an item's attributes and visibility, where the item is a struct, an enum or a union.
ghost use Rattle.syn_grammar.specs.Rules as rules;
ghost use Rattle.syn_grammar.specs.Tokens as grammar;
ghost use Rattle.syn_grammar.specs.Promises.{itself};
ghost use Rattle.syn_tokens.specs.Kinds.{comma_syntax};
ghost use Rattle.syn_lower.specs.Parsing.{inside, rule, parse_rule, parse_form, Computes, Moved, IsSyntax, list_of};
ghost use Rattle.syn_lower.specs.Parts.{group_syntax};
ghost use Rattle.syn_tree.specs.Derive.{body_syntax, enum_body_form, enum_body_syntax, enumeration_form, enumeration_syntax, shape_form, shape_syntax, structure_form, structure_syntax, union_body_form, union_body_syntax, union_form, union_item_syntax};

use crate::comma_lists::variants;
use crate::data::{Fields, FieldsNamed, Variant};
use crate::derive::{Data, DataEnum, DataStruct, DataUnion};
use syn_lower::where_clause::where_clause;
use syn_lower::{Generics, WhereClause};
use syn_parse::buffer::ParseBuffer;
use syn_parse::read::refusal::Parsed;
use syn_tokens::ident::Ident;
use syn_tokens::punctuated::Punctuated;
use syn_tokens::token::{Brace, Comma, Enum, Paren, Semi, Struct, Union, kind};

/// A struct, an enum or a union.
#[tactic(auto, using(crate::proofs::Inputs::no_union))]
pub(crate) fn shape(input: &mut ParseBuffer<'_>) -> Parsed<(Ident, Generics, Data)>
    ensures reads { Computes IsSyntax shape_syntax (parse_form shape_form input.old) result input.new }
    ensures moved { Moved input.old result input.new }
{
    if input.peek::<Struct>() {
        let (ident, generics, data) = structure(input)?;
        Ok((ident, generics, Data::Struct(data)))
    } else if input.peek::<Enum>() {
        let (ident, generics, data) = enumeration(input)?;
        Ok((ident, generics, Data::Enum(data)))
    } else if input.peek::<Union>() {
        let (ident, generics, data) = union_item(input)?;
        Ok((ident, generics, Data::Union(data)))
    } else {
        Err(input.refusal("expected one of: `struct`, `enum`, `union`"))
    }
}

/// `struct`, a name, generics, and fields in braces, in parentheses or none.
pub(crate) fn structure(input: &mut ParseBuffer<'_>) -> Parsed<(Ident, Generics, DataStruct)>
    ensures reads { Computes IsSyntax structure_syntax (parse_form structure_form input.old) result input.new }
    ensures moved { Moved input.old result input.new }
{
    let struct_token = input.read()?;
    let ident = input.read()?;
    let generics = Generics::read_params(input)?;
    let (where_clause, fields, semi_token) = data_struct(input)?;
    Ok((
        ident,
        generics.with_where(where_clause),
        DataStruct {
            struct_token,
            fields,
            semi_token,
        },
    ))
}

/// Fields in parentheses, a where clause and `;`; or a where clause, and fields in braces or `;`.
#[tactic(auto, using(syn_grammar::proofs::Each::structure_body_is))]
fn data_struct(input: &mut ParseBuffer<'_>) -> Parsed<(Option<WhereClause>, Fields, Option<Semi>)>
    ensures reads { Computes IsSyntax body_syntax (parse_rule rules.structure_body input.old) result input.new }
    ensures moved { Moved input.old result input.new }
{
    if input.peek::<Paren>() {
        let fields = input.read()?;
        let clause = where_clause(input)?;
        let semi_token = input.read()?;
        return Ok((clause, Fields::Unnamed(fields), Some(semi_token)));
    }
    let clause = where_clause(input)?;
    if input.peek::<Brace>() {
        Ok((clause, Fields::Named(input.read()?), None))
    } else {
        Ok((clause, Fields::Unit, Some(input.read()?)))
    }
}

/// `enum`, a name, generics, and variants in braces.
pub(crate) fn enumeration(input: &mut ParseBuffer<'_>) -> Parsed<(Ident, Generics, DataEnum)>
    ensures reads { Computes IsSyntax enumeration_syntax (parse_form enumeration_form input.old) result input.new }
    ensures moved { Moved input.old result input.new }
{
    let enum_token = input.read()?;
    let ident = input.read()?;
    let generics = Generics::read_params(input)?;
    let (where_clause, brace_token, variants) = data_enum(input)?;
    Ok((
        ident,
        generics.with_where(where_clause),
        DataEnum {
            enum_token,
            brace_token,
            variants,
        },
    ))
}

/// A where clause, and variants in braces.
fn data_enum(
    input: &mut ParseBuffer<'_>,
) -> Parsed<(Option<WhereClause>, Brace, Punctuated<Variant, Comma>)>
    ensures reads { Computes IsSyntax enum_body_syntax (parse_form enum_body_form input.old) result input.new }
    ensures moved { Moved input.old result input.new }
{
    let clause = where_clause(input)?;
    let (brace_token, variants) = braced_variants(input)?;
    Ok((clause, brace_token, variants))
}

/// Variants in braces.
#[tactic(auto, unfolding(syn_grammar::specs::Take::is_end))]
fn braced_variants(input: &mut ParseBuffer<'_>) -> Parsed<(Brace, Punctuated<Variant, Comma>)>
    ensures reads { Computes IsSyntax (λ p. group_syntax grammar.Brace p.0 (list_of itself comma_syntax p.1.pairs p.1.last)) (parse_form (inside grammar.Brace (rule rules.variants)) input.old) result input.new }
    ensures moved { Moved input.old result input.new }
{
    let (brace_token, mut content) = input.read_group::<kind::Brace>()?;
    let variants = variants(&mut content)?;
    content.read_end()?;
    Ok((brace_token, variants))
}

/// `union`, a name, generics, and fields in braces.
pub(crate) fn union_item(input: &mut ParseBuffer<'_>) -> Parsed<(Ident, Generics, DataUnion)>
    ensures reads { Computes IsSyntax union_item_syntax (parse_form union_form input.old) result input.new }
    ensures moved { Moved input.old result input.new }
{
    let union_token = input.read()?;
    let ident = input.read()?;
    let generics = Generics::read_params(input)?;
    let (where_clause, fields) = data_union(input)?;
    Ok((
        ident,
        generics.with_where(where_clause),
        DataUnion {
            union_token,
            fields,
        },
    ))
}

/// A where clause, and fields in braces.
fn data_union(input: &mut ParseBuffer<'_>) -> Parsed<(Option<WhereClause>, FieldsNamed)>
    ensures reads { Computes IsSyntax union_body_syntax (parse_form union_body_form input.old) result input.new }
    ensures moved { Moved input.old result input.new }
{
    Ok((where_clause(input)?, input.read()?))
}
