//! Written by tools/recognizers.py; edits are lost.
//!
//! Prefixes and postfixes of expressions.
ghost use Rattle.std.specs.Prelude.{◌≡◌};
ghost use Rattle.syn_grammar.specs.Run.{parse_form};
ghost use Rattle.syn_grammar.specs.Table.{table};
ghost use Rattle.syn_recognize.specs.Forms.{grammar_of};
ghost use Rattle.syn_recognize.specs.Names.{postfixes_rule};
ghost use Rattle.syn_recognize.specs.Parts.{postfixes_part};

use crate::form::Form;
use crate::left_out::Place;
use crate::look::Look;
use crate::rules::{Part, Rule};
use crate::shape::{Shape, Variant};
use crate::token::Token;
use crate::words::{Mark, Word};
use syn_tokens::delimiter::Delimiter;

/// Any number of postfixes: the arguments of a call, an index, `?`, or `.` and a member.
static POSTFIXES: Form = Form::When(
    Look::Group(Delimiter::Paren),
    &Form::Then(
        &Form::Shaped(
            Shape::AfterIt(Variant::Call),
            &Form::Inside(Delimiter::Paren, &Form::Rule(Rule::EXPRESSIONS)),
        ),
        &Form::Rule(Rule::POSTFIXES),
    ),
    &Form::Part(Part::POSTFIXES_3),
);

/// A part of `postfixes`.
static POSTFIXES_1: Form = Form::When(
    Look::But(&Look::Mark(Mark::Dot), &Look::Mark(Mark::DotDot)),
    &Form::Then(
        &Form::Shaped(
            Shape::Dotted,
            &Form::Then(&Form::Mark(Mark::Dot), &Form::Rule(Rule::MEMBER)),
        ),
        &Form::Rule(Rule::POSTFIXES),
    ),
    &Form::Empty,
);

/// A part of `postfixes`.
static POSTFIXES_2: Form = Form::When(
    Look::Mark(Mark::Question),
    &Form::Then(
        &Form::Shaped(Shape::AfterIt(Variant::Try), &Form::Mark(Mark::Question)),
        &Form::Rule(Rule::POSTFIXES),
    ),
    &Form::Part(Part::POSTFIXES_1),
);

/// A part of `postfixes`.
static POSTFIXES_3: Form = Form::When(
    Look::Group(Delimiter::Bracket),
    &Form::Then(
        &Form::Shaped(
            Shape::AfterIt(Variant::Index),
            &Form::Inside(Delimiter::Bracket, &Form::Rule(Rule::WHOLE_EXPRESSION)),
        ),
        &Form::Rule(Rule::POSTFIXES),
    ),
    &Form::Part(Part::POSTFIXES_2),
);

/// A member: the number or the name of a field; or the name of a method, optionally `::` with generic arguments, and
/// arguments in parentheses.
static MEMBER: Form = Form::When(
    Look::Integer,
    &Form::Token(Token::Index),
    &Form::Part(Part::MEMBER_2),
);

/// A part of `member`.
static MEMBER_1: Form = Form::When(
    Look::Mark(Mark::PathSep),
    &Form::Then(
        &Form::Mark(Mark::PathSep),
        &Form::Then(
            &Form::Rule(Rule::GENERIC_ARGUMENTS),
            &Form::Inside(Delimiter::Paren, &Form::Rule(Rule::EXPRESSIONS)),
        ),
    ),
    &Form::When(
        Look::Group(Delimiter::Paren),
        &Form::Inside(Delimiter::Paren, &Form::Rule(Rule::EXPRESSIONS)),
        &Form::Empty,
    ),
);

/// A part of `member`.
static MEMBER_2: Form = Form::Then(
    &Form::TokenAt(Token::Name, Place::Member),
    &Form::Part(Part::MEMBER_1),
);

/// A unary level: attributes, which belong to all of it; then `-`, `!`, `*`, `&` or `&mut` and another unary level, or
/// an expression with its postfixes.
static UNARY: Form = Form::Shaped(
    Shape::Leading,
    &Form::Then(&Form::Rule(Rule::ATTRIBUTES), &Form::Part(Part::UNARY_3)),
);

/// A part of `unary`.
static UNARY_1: Form = Form::Shaped(
    Shape::Operand(Variant::Reference),
    &Form::Then(
        &Form::Mark(Mark::And),
        &Form::Then(
            &Form::When(
                Look::Word(Word::Mut),
                &Form::Token(Token::Word(Word::Mut)),
                &Form::Empty,
            ),
            &Form::Rule(Rule::UNARY),
        ),
    ),
);

/// A part of `unary`.
static UNARY_2: Form = Form::When(
    Look::Mark(Mark::Star),
    &Form::Shaped(
        Shape::Operand(Variant::Unary),
        &Form::Then(&Form::Mark(Mark::Star), &Form::Rule(Rule::UNARY)),
    ),
    &Form::When(
        Look::Mark(Mark::And),
        &Form::Part(Part::UNARY_1),
        &Form::Shaped(
            Shape::Chain,
            &Form::Then(&Form::Rule(Rule::PRIMARY), &Form::Rule(Rule::POSTFIXES)),
        ),
    ),
);

/// A part of `unary`.
static UNARY_3: Form = Form::When(
    Look::Mark(Mark::Minus),
    &Form::Shaped(
        Shape::Operand(Variant::Unary),
        &Form::Then(&Form::Mark(Mark::Minus), &Form::Rule(Rule::UNARY)),
    ),
    &Form::When(
        Look::Mark(Mark::Not),
        &Form::Shaped(
            Shape::Operand(Variant::Unary),
            &Form::Then(&Form::Mark(Mark::Not), &Form::Rule(Rule::UNARY)),
        ),
        &Form::Part(Part::UNARY_2),
    ),
);

/// The form of the rule at this place.
#[tactic(auto, using(std::proofs::lemmas::List::get_or_past), unfolding(crate::specs::Names::rule_of, crate::specs::Parts::part_form))]
pub(super) fn form_at(place: u8) -> &'static Form
    ensures { parse_form (grammar_of result.now) ≡ parse_form (table (postfixes_rule place)) }
{
    match place {
        0 => &POSTFIXES,
        1 => &MEMBER,
        _ => &UNARY,
    }
}

/// The form of the part at this place.
#[tactic(auto, using(std::proofs::lemmas::List::get_or_past), unfolding(crate::specs::Names::rule_of, crate::specs::Parts::part_form))]
pub(super) fn part_at(place: u8) -> &'static Form
    ensures { parse_form (grammar_of result.now) ≡ parse_form (postfixes_part place) }
{
    match place {
        0 => &POSTFIXES_1,
        1 => &POSTFIXES_2,
        2 => &POSTFIXES_3,
        3 => &MEMBER_1,
        4 => &MEMBER_2,
        5 => &UNARY_1,
        6 => &UNARY_2,
        _ => &UNARY_3,
    }
}
