//! Written by tools/recognizers.py; edits are lost.
//!
//! Lists of expressions.
ghost use Rattle.std.specs.Prelude.{◌≡◌};
ghost use Rattle.syn_grammar.specs.Run.{parse_form};
ghost use Rattle.syn_grammar.specs.Table.{table};
ghost use Rattle.syn_recognize.specs.Forms.{grammar_of};
ghost use Rattle.syn_recognize.specs.Names.{lists_rule};
ghost use Rattle.syn_recognize.specs.Parts.{lists_part};

use crate::form::Form;
use crate::look::Look;
use crate::rules::{Part, Rule};
use crate::words::Mark;

/// Expressions, separated by commas; a trailing comma is allowed.
static EXPRESSIONS: Form = Form::When(
    Look::Ended,
    &Form::Empty,
    &Form::Then(
        &Form::Rule(Rule::WHOLE_EXPRESSION),
        &Form::When(
            Look::Mark(Mark::Comma),
            &Form::Then(&Form::Mark(Mark::Comma), &Form::Rule(Rule::EXPRESSIONS)),
            &Form::Empty,
        ),
    ),
);

/// The content of an array's brackets: nothing; an expression, `;` and the number of its copies; or expressions,
/// separated by commas; a trailing comma is allowed.
static ARRAY_CONTENT: Form = Form::When(
    Look::Ended,
    &Form::Empty,
    &Form::Part(Part::ARRAY_CONTENT_1),
);

/// A part of `array_content`.
static ARRAY_CONTENT_1: Form = Form::Then(
    &Form::Rule(Rule::WHOLE_EXPRESSION),
    &Form::When(
        Look::Mark(Mark::Semi),
        &Form::Then(&Form::Mark(Mark::Semi), &Form::Rule(Rule::WHOLE_EXPRESSION)),
        &Form::When(
            Look::Mark(Mark::Comma),
            &Form::Then(&Form::Mark(Mark::Comma), &Form::Rule(Rule::EXPRESSIONS)),
            &Form::Empty,
        ),
    ),
);

/// The form of the rule at this place.
#[tactic(auto, using(std::proofs::lemmas::List::get_or_past), unfolding(crate::specs::Names::rule_of, crate::specs::Parts::part_form))]
pub(super) fn form_at(place: u8) -> &'static Form
    ensures { parse_form (grammar_of result.now) ≡ parse_form (table (lists_rule place)) }
{
    match place {
        0 => &EXPRESSIONS,
        _ => &ARRAY_CONTENT,
    }
}

/// The form of the part at this place.
#[tactic(auto, using(std::proofs::lemmas::List::get_or_past), unfolding(crate::specs::Names::rule_of, crate::specs::Parts::part_form))]
pub(super) fn part_at(_place: u8) -> &'static Form
    ensures { parse_form (grammar_of result.now) ≡ parse_form (lists_part _place) }
{
    &ARRAY_CONTENT_1
}
