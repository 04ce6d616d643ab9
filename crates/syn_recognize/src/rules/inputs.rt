//! Written by tools/recognizers.py; edits are lost.
//!
//! Structs, enums, unions, and the input of a derive.
ghost use Rattle.std.specs.Prelude.{◌≡◌};
ghost use Rattle.syn_grammar.specs.Run.{parse_form};
ghost use Rattle.syn_grammar.specs.Table.{table};
ghost use Rattle.syn_recognize.specs.Forms.{grammar_of};
ghost use Rattle.syn_recognize.specs.Names.{inputs_rule};
ghost use Rattle.syn_recognize.specs.Parts.{inputs_part};

use crate::form::Form;
use crate::look::Look;
use crate::plan::Planned;
use crate::rules::{Part, Rule};
use crate::token::Token;
use crate::words::{Mark, Word};
use syn_tokens::delimiter::Delimiter;

/// A struct with its attributes.
static STRUCTURE: Form = Form::Then(
    &Form::Rule(Rule::ATTRIBUTES),
    &Form::Rule(Rule::STRUCTURE_REST),
);

/// A struct after its attributes: a visibility, `struct`, a name, generics and a body.
static STRUCTURE_REST: Form = Form::Then(
    &Form::Rule(Rule::VISIBILITY),
    &Form::Then(
        &Form::Token(Token::Word(Word::Struct)),
        &Form::Then(
            &Form::Token(Token::Name),
            &Form::Then(
                &Form::Rule(Rule::GENERICS),
                &Form::Rule(Rule::STRUCTURE_BODY),
            ),
        ),
    ),
);

/// The part of a struct after its generics: fields in parentheses, a where clause and `;`; or a where clause, then
/// fields in braces or `;` alone. A semicolon that a tree built by hand has after braces is not printed.
static STRUCTURE_BODY: Form = Form::When(
    Look::Group(Delimiter::Paren),
    &Form::Then(
        &Form::Rule(Rule::FIELDS_UNNAMED),
        &Form::Then(&Form::Rule(Rule::WHERE_CLAUSE), &Form::Mark(Mark::Semi)),
    ),
    &Form::Part(Part::STRUCTURE_BODY_1),
);

/// A part of `structure_body`.
static STRUCTURE_BODY_1: Form = Form::Then(
    &Form::Rule(Rule::WHERE_CLAUSE),
    &Form::When(
        Look::Group(Delimiter::Brace),
        &Form::Then(&Form::Unshown, &Form::Rule(Rule::FIELDS_NAMED)),
        &Form::Mark(Mark::Semi),
    ),
);

/// An enum with its attributes.
static ENUMERATION: Form = Form::Then(
    &Form::Rule(Rule::ATTRIBUTES),
    &Form::Rule(Rule::ENUMERATION_REST),
);

/// An enum after its attributes: a visibility, `enum`, a name, generics, a where clause, and its variants in braces.
static ENUMERATION_REST: Form = Form::Then(
    &Form::Rule(Rule::VISIBILITY),
    &Form::Part(Part::ENUMERATION_REST_1),
);

/// A part of `enumeration_rest`.
static ENUMERATION_REST_1: Form = Form::Then(
    &Form::Token(Token::Word(Word::Enum)),
    &Form::Then(
        &Form::Token(Token::Name),
        &Form::Then(
            &Form::Rule(Rule::GENERICS),
            &Form::Then(
                &Form::Rule(Rule::WHERE_CLAUSE),
                &Form::Inside(Delimiter::Brace, &Form::Rule(Rule::VARIANTS)),
            ),
        ),
    ),
);

/// A union with its attributes.
static UNION_ITEM: Form = Form::Then(
    &Form::Rule(Rule::ATTRIBUTES),
    &Form::Rule(Rule::UNION_ITEM_REST),
);

/// A union after its attributes: a visibility, `union`, a name, generics, a where clause, and its fields in braces.
static UNION_ITEM_REST: Form = Form::Then(
    &Form::Rule(Rule::VISIBILITY),
    &Form::Then(
        &Form::Token(Token::Word(Word::Union)),
        &Form::Then(
            &Form::Token(Token::Name),
            &Form::Then(
                &Form::Rule(Rule::GENERICS),
                &Form::Then(
                    &Form::Rule(Rule::WHERE_CLAUSE),
                    &Form::Rule(Rule::FIELDS_NAMED),
                ),
            ),
        ),
    ),
);

/// The input of a derive: a struct, an enum or a union.
static DERIVE_INPUT: Form = Form::Planned(Planned::DeriveInput);

/// The form of the rule at this place.
#[tactic(auto, using(std::proofs::lemmas::List::get_or_past), unfolding(crate::specs::Names::rule_of, crate::specs::Parts::part_form))]
pub(super) fn form_at(place: u8) -> &'static Form
    ensures { parse_form (grammar_of result.now) ≡ parse_form (table (inputs_rule place)) }
{
    match place {
        0 => &STRUCTURE,
        1 => &STRUCTURE_REST,
        2 => &STRUCTURE_BODY,
        3 => &ENUMERATION,
        4 => &ENUMERATION_REST,
        5 => &UNION_ITEM,
        6 => &UNION_ITEM_REST,
        _ => &DERIVE_INPUT,
    }
}

/// The form of the part at this place.
#[tactic(auto, using(std::proofs::lemmas::List::get_or_past), unfolding(crate::specs::Names::rule_of, crate::specs::Parts::part_form))]
pub(super) fn part_at(place: u8) -> &'static Form
    ensures { parse_form (grammar_of result.now) ≡ parse_form (inputs_part place) }
{
    match place {
        0 => &STRUCTURE_BODY_1,
        _ => &ENUMERATION_REST_1,
    }
}
