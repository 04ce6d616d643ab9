//! Written by tools/recognizers.py; edits are lost.
//!
//! Fields and variants.
ghost use Rattle.std.specs.Prelude.{◌≡◌};
ghost use Rattle.syn_grammar.specs.Run.{parse_form};
ghost use Rattle.syn_grammar.specs.Table.{table};
ghost use Rattle.syn_recognize.specs.Forms.{grammar_of};
ghost use Rattle.syn_recognize.specs.Names.{fields_rule};
ghost use Rattle.syn_recognize.specs.Parts.{fields_part};

use crate::fault::Fault;
use crate::form::Form;
use crate::look::Look;
use crate::rules::{Part, Rule};
use crate::shape::Shape;
use crate::token::Token;
use crate::words::{Mark, Word};
use syn_tokens::delimiter::Delimiter;

/// Fields with names, in braces.
static FIELDS_NAMED: Form = Form::Inside(Delimiter::Brace, &Form::Rule(Rule::NAMED_FIELDS));

/// Fields with names, separated by commas; a trailing comma is allowed.
static NAMED_FIELDS: Form = Form::When(
    Look::Ended,
    &Form::Empty,
    &Form::Then(
        &Form::Rule(Rule::NAMED_FIELD),
        &Form::When(
            Look::Mark(Mark::Comma),
            &Form::Then(&Form::Mark(Mark::Comma), &Form::Rule(Rule::NAMED_FIELDS)),
            &Form::Empty,
        ),
    ),
);

/// A field with a name: attributes, a visibility, a name or `_`, a colon and a type; and an optional `=` with a default
/// value.
static NAMED_FIELD: Form = Form::Then(
    &Form::Rule(Rule::ATTRIBUTES),
    &Form::Then(
        &Form::Rule(Rule::VISIBILITY),
        &Form::Then(
            &Form::Part(Part::NAMED_FIELD_2),
            &Form::When(
                Look::Mark(Mark::Eq),
                &Form::Then(&Form::Mark(Mark::Eq), &Form::Rule(Rule::WHOLE_EXPRESSION)),
                &Form::Empty,
            ),
        ),
    ),
);

/// A part of `named_field`.
static NAMED_FIELD_1: Form = Form::Then(
    &Form::Token(Token::Word(Word::Underscore)),
    &Form::Then(
        &Form::Mark(Mark::Colon),
        &Form::Shaped(
            Shape::Untagged,
            &Form::When(
                Look::NamelessFields,
                &Form::Rule(Rule::NAMELESS_FIELDS),
                &Form::Rule(Rule::TYPE),
            ),
        ),
    ),
);

/// A part of `named_field`.
static NAMED_FIELD_2: Form = Form::Shaped(
    Shape::Untagged,
    &Form::When(
        Look::Word(Word::Underscore),
        &Form::Part(Part::NAMED_FIELD_1),
        &Form::Then(
            &Form::Token(Token::Name),
            &Form::Then(
                &Form::Mark(Mark::Colon),
                &Form::Shaped(Shape::Untagged, &Form::Rule(Rule::TYPE)),
            ),
        ),
    ),
);

/// The fields of a field named `_`: `struct` or `union` and fields in braces, stored verbatim. (A field parses this
/// only before `struct`, or before `union` followed by braces.)
static NAMELESS_FIELDS: Form = Form::Captured(&Form::Then(
    &Form::When(
        Look::Word(Word::Struct),
        &Form::Token(Token::Word(Word::Struct)),
        &Form::Token(Token::Word(Word::Union)),
    ),
    &Form::Rule(Rule::FIELDS_NAMED),
));

/// A field without a name: attributes, a visibility and a type. A `=` after it is refused. A colon that a tree built by
/// hand has is not printed.
static UNNAMED_FIELD: Form = Form::Then(
    &Form::Rule(Rule::ATTRIBUTES),
    &Form::Then(
        &Form::Rule(Rule::VISIBILITY),
        &Form::Then(
            &Form::Unshown,
            &Form::Then(
                &Form::Rule(Rule::TYPE),
                &Form::When(
                    Look::Mark(Mark::Eq),
                    &Form::Never(Fault::DefaultValue),
                    &Form::Empty,
                ),
            ),
        ),
    ),
);

/// Fields without names: none, or one followed optionally by a comma and the others. A trailing comma is allowed.
static UNNAMED_FIELDS: Form = Form::When(
    Look::Ended,
    &Form::Empty,
    &Form::Then(
        &Form::Rule(Rule::UNNAMED_FIELD),
        &Form::When(
            Look::Mark(Mark::Comma),
            &Form::Then(&Form::Mark(Mark::Comma), &Form::Rule(Rule::UNNAMED_FIELDS)),
            &Form::Empty,
        ),
    ),
);

/// The fields of a tuple struct, in parentheses.
static FIELDS_UNNAMED: Form = Form::Inside(Delimiter::Paren, &Form::Rule(Rule::UNNAMED_FIELDS));

/// A variant of an enum: attributes, a visibility, which is never printed, a name, fields in braces, in parentheses or
/// none; and an optional `=` with a value.
static VARIANT: Form = Form::Then(&Form::Rule(Rule::ATTRIBUTES), &Form::Part(Part::VARIANT_2));

/// A part of `variant`.
static VARIANT_1: Form = Form::Then(
    &Form::When(
        Look::Group(Delimiter::Brace),
        &Form::Rule(Rule::FIELDS_NAMED),
        &Form::When(
            Look::Group(Delimiter::Paren),
            &Form::Rule(Rule::FIELDS_UNNAMED),
            &Form::Empty,
        ),
    ),
    &Form::When(
        Look::Mark(Mark::Eq),
        &Form::Then(&Form::Mark(Mark::Eq), &Form::Rule(Rule::WHOLE_EXPRESSION)),
        &Form::Empty,
    ),
);

/// A part of `variant`.
static VARIANT_2: Form = Form::Then(
    &Form::Hidden(
        &Look::Or(&Look::Word(Word::Pub), &Look::EmptyGroup),
        &Form::When(
            Look::Word(Word::Pub),
            &Form::Rule(Rule::VISIBILITY),
            &Form::Inside(Delimiter::None, &Form::Empty),
        ),
    ),
    &Form::Then(&Form::Token(Token::Name), &Form::Part(Part::VARIANT_1)),
);

/// Variants, separated by commas; a trailing comma is allowed.
static VARIANTS: Form = Form::When(
    Look::Ended,
    &Form::Empty,
    &Form::Then(
        &Form::Rule(Rule::VARIANT),
        &Form::When(
            Look::Mark(Mark::Comma),
            &Form::Then(&Form::Mark(Mark::Comma), &Form::Rule(Rule::VARIANTS)),
            &Form::Empty,
        ),
    ),
);

/// The form of the rule at this place.
#[tactic(auto, using(std::proofs::lemmas::List::get_or_past), unfolding(crate::specs::Names::rule_of, crate::specs::Parts::part_form))]
pub(super) fn form_at(place: u8) -> &'static Form
    ensures { parse_form (grammar_of result.now) ≡ parse_form (table (fields_rule place)) }
{
    match place {
        0 => &FIELDS_NAMED,
        1 => &NAMED_FIELDS,
        2 => &NAMED_FIELD,
        3 => &NAMELESS_FIELDS,
        4 => &UNNAMED_FIELD,
        5 => &UNNAMED_FIELDS,
        6 => &FIELDS_UNNAMED,
        7 => &VARIANT,
        _ => &VARIANTS,
    }
}

/// The form of the part at this place.
#[tactic(auto, using(std::proofs::lemmas::List::get_or_past), unfolding(crate::specs::Names::rule_of, crate::specs::Parts::part_form))]
pub(super) fn part_at(place: u8) -> &'static Form
    ensures { parse_form (grammar_of result.now) ≡ parse_form (fields_part place) }
{
    match place {
        0 => &NAMED_FIELD_1,
        1 => &NAMED_FIELD_2,
        2 => &VARIANT_1,
        _ => &VARIANT_2,
    }
}
