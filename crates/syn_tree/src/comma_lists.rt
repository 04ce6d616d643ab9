//! Written by tools/kinds.py; edits are lost.
//!
//! The rules of the grammar that are comma lists to the end of a group.
ghost use Rattle.syn_grammar.specs.Rules as rules;
ghost use Rattle.syn_lower.specs.Parsing.{parse_rule, Computes, Kept, IsSyntax, list_of};
ghost use Rattle.syn_tokens.specs.Kinds.{comma_syntax};
ghost use Rattle.syn_grammar.specs.Promises.{itself};

use crate::data::{Field, Variant};
use syn_parse::buffer::ParseBuffer;
use syn_parse::read::lists::punctuated_list;
use syn_parse::read::refusal::Parsed;
use syn_parse::read::{End, Read};
use syn_tokens::punctuated::Punctuated;
use syn_tokens::token::Comma;

/// Fields without names: none, or one followed optionally by a comma and the others. A trailing comma is allowed.
pub(crate) fn unnamed_fields(input: &mut ParseBuffer<'_>) -> Parsed<Punctuated<Field, Comma>>
    ensures reads { Computes IsSyntax (λ l. list_of itself comma_syntax l.pairs l.last) (parse_rule rules.unnamed_fields input.old) result input.new }
    ensures moved { Kept input.old result input.new }
{
    punctuated_list::<End, Comma, _, _>(input, |next| Field::read_unnamed(next))
}

/// Variants, separated by commas; a trailing comma is allowed.
pub(crate) fn variants(input: &mut ParseBuffer<'_>) -> Parsed<Punctuated<Variant, Comma>>
    ensures reads { Computes IsSyntax (λ l. list_of itself comma_syntax l.pairs l.last) (parse_rule rules.variants input.old) result input.new }
    ensures moved { Kept input.old result input.new }
{
    punctuated_list::<End, Comma, _, _>(input, |next| next.read())
}
