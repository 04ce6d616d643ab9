//! Written by tools/recognizers.py; edits are lost.
//!
//! Operators, and whole expressions.
ghost use Rattle.std.specs.Prelude.{◌≡◌};
ghost use Rattle.syn_grammar.specs.Run.{parse_form};
ghost use Rattle.syn_grammar.specs.Table.{table};
ghost use Rattle.syn_recognize.specs.Forms.{grammar_of};
ghost use Rattle.syn_recognize.specs.Names.{operators_rule};
ghost use Rattle.syn_recognize.specs.Parts.{operators_part};

use crate::fault::Fault;
use crate::form::Form;
use crate::look::Look;
use crate::rules::{Part, Rule};
use crate::shape::{Shape, Variant};
use crate::token::Token;
use crate::words::{Mark, Word};

/// Casts, any number of them: `as` and a type.
static CASTS: Form = Form::When(
    Look::Word(Word::As),
    &Form::Then(
        &Form::Shaped(
            Shape::Operator(Variant::Cast),
            &Form::Then(&Form::Token(Token::Word(Word::As)), &Form::Rule(Rule::TYPE)),
        ),
        &Form::Rule(Rule::CASTS),
    ),
    &Form::Empty,
);

/// A unary level and its casts.
static CAST: Form = Form::Shaped(
    Shape::Chain,
    &Form::Then(&Form::Rule(Rule::UNARY), &Form::Rule(Rule::CASTS)),
);

/// The operators `*`, `/` and `%` after an operand, each with its right operand, any number of times.
static PRODUCTS: Form = Form::When(
    Look::But(&Look::Mark(Mark::Star), &Look::Mark(Mark::StarEq)),
    &Form::Then(
        &Form::Shaped(
            Shape::Operator(Variant::Binary),
            &Form::Then(&Form::Mark(Mark::Star), &Form::Rule(Rule::CAST)),
        ),
        &Form::Rule(Rule::PRODUCTS),
    ),
    &Form::Part(Part::PRODUCTS_2),
);

/// A part of `products`.
static PRODUCTS_1: Form = Form::When(
    Look::But(&Look::Mark(Mark::Percent), &Look::Mark(Mark::PercentEq)),
    &Form::Then(
        &Form::Shaped(
            Shape::Operator(Variant::Binary),
            &Form::Then(&Form::Mark(Mark::Percent), &Form::Rule(Rule::CAST)),
        ),
        &Form::Rule(Rule::PRODUCTS),
    ),
    &Form::Empty,
);

/// A part of `products`.
static PRODUCTS_2: Form = Form::When(
    Look::But(&Look::Mark(Mark::Slash), &Look::Mark(Mark::SlashEq)),
    &Form::Then(
        &Form::Shaped(
            Shape::Operator(Variant::Binary),
            &Form::Then(&Form::Mark(Mark::Slash), &Form::Rule(Rule::CAST)),
        ),
        &Form::Rule(Rule::PRODUCTS),
    ),
    &Form::Part(Part::PRODUCTS_1),
);

/// A product: casts with `*`, `/` and `%` between them, grouped from the left.
static PRODUCT: Form = Form::Shaped(
    Shape::Chain,
    &Form::Then(&Form::Rule(Rule::CAST), &Form::Rule(Rule::PRODUCTS)),
);

/// The operators `+` and `-` after an operand, each with its right operand, any number of times.
static SUMS: Form = Form::When(
    Look::But(&Look::Mark(Mark::Plus), &Look::Mark(Mark::PlusEq)),
    &Form::Then(
        &Form::Shaped(
            Shape::Operator(Variant::Binary),
            &Form::Then(&Form::Mark(Mark::Plus), &Form::Rule(Rule::PRODUCT)),
        ),
        &Form::Rule(Rule::SUMS),
    ),
    &Form::Part(Part::SUMS_1),
);

/// A part of `sums`.
static SUMS_1: Form = Form::When(
    Look::But(&Look::Mark(Mark::Minus), &Look::Mark(Mark::MinusEq)),
    &Form::Then(
        &Form::Shaped(
            Shape::Operator(Variant::Binary),
            &Form::Then(&Form::Mark(Mark::Minus), &Form::Rule(Rule::PRODUCT)),
        ),
        &Form::Rule(Rule::SUMS),
    ),
    &Form::Empty,
);

/// A sum: products with `+` and `-` between them, grouped from the left.
static SUM: Form = Form::Shaped(
    Shape::Chain,
    &Form::Then(&Form::Rule(Rule::PRODUCT), &Form::Rule(Rule::SUMS)),
);

/// The operators `<<` and `>>` after an operand, each with its right operand, any number of times.
static SHIFTS: Form = Form::When(
    Look::But(&Look::Mark(Mark::Shl), &Look::Mark(Mark::ShlEq)),
    &Form::Then(
        &Form::Shaped(
            Shape::Operator(Variant::Binary),
            &Form::Then(&Form::Mark(Mark::Shl), &Form::Rule(Rule::SUM)),
        ),
        &Form::Rule(Rule::SHIFTS),
    ),
    &Form::Part(Part::SHIFTS_1),
);

/// A part of `shifts`.
static SHIFTS_1: Form = Form::When(
    Look::But(&Look::Mark(Mark::Shr), &Look::Mark(Mark::ShrEq)),
    &Form::Then(
        &Form::Shaped(
            Shape::Operator(Variant::Binary),
            &Form::Then(&Form::Mark(Mark::Shr), &Form::Rule(Rule::SUM)),
        ),
        &Form::Rule(Rule::SHIFTS),
    ),
    &Form::Empty,
);

/// A shift: sums with `<<` and `>>` between them, grouped from the left.
static SHIFT: Form = Form::Shaped(
    Shape::Chain,
    &Form::Then(&Form::Rule(Rule::SUM), &Form::Rule(Rule::SHIFTS)),
);

/// The operator `&` after an operand, with its right operand, any number of times.
static BIT_ANDS: Form = Form::When(
    Look::But(
        &Look::Mark(Mark::And),
        &Look::Or(&Look::Mark(Mark::AndAnd), &Look::Mark(Mark::AndEq)),
    ),
    &Form::Then(
        &Form::Shaped(
            Shape::Operator(Variant::Binary),
            &Form::Then(&Form::Mark(Mark::And), &Form::Rule(Rule::SHIFT)),
        ),
        &Form::Rule(Rule::BIT_ANDS),
    ),
    &Form::Empty,
);

/// Shifts with `&` between them, grouped from the left.
static BIT_AND: Form = Form::Shaped(
    Shape::Chain,
    &Form::Then(&Form::Rule(Rule::SHIFT), &Form::Rule(Rule::BIT_ANDS)),
);

/// The operator `^` after an operand, with its right operand, any number of times.
static BIT_XORS: Form = Form::When(
    Look::But(&Look::Mark(Mark::Caret), &Look::Mark(Mark::CaretEq)),
    &Form::Then(
        &Form::Shaped(
            Shape::Operator(Variant::Binary),
            &Form::Then(&Form::Mark(Mark::Caret), &Form::Rule(Rule::BIT_AND)),
        ),
        &Form::Rule(Rule::BIT_XORS),
    ),
    &Form::Empty,
);

/// Operands of the form `bit_and` with `^` between them, grouped from the left.
static BIT_XOR: Form = Form::Shaped(
    Shape::Chain,
    &Form::Then(&Form::Rule(Rule::BIT_AND), &Form::Rule(Rule::BIT_XORS)),
);

/// The operator `|` after an operand, with its right operand, any number of times.
static BIT_ORS: Form = Form::When(
    Look::But(
        &Look::Mark(Mark::Or),
        &Look::Or(&Look::Mark(Mark::OrOr), &Look::Mark(Mark::OrEq)),
    ),
    &Form::Then(
        &Form::Shaped(
            Shape::Operator(Variant::Binary),
            &Form::Then(&Form::Mark(Mark::Or), &Form::Rule(Rule::BIT_XOR)),
        ),
        &Form::Rule(Rule::BIT_ORS),
    ),
    &Form::Empty,
);

/// Operands of the form `bit_xor` with `|` between them, grouped from the left.
static BIT_OR: Form = Form::Shaped(
    Shape::Chain,
    &Form::Then(&Form::Rule(Rule::BIT_XOR), &Form::Rule(Rule::BIT_ORS)),
);

/// A comparison operator after an operand, with its right operand, at most once.
static COMPARED: Form = Form::When(
    Look::Mark(Mark::EqEq),
    &Form::Shaped(
        Shape::Operator(Variant::Binary),
        &Form::Then(&Form::Mark(Mark::EqEq), &Form::Rule(Rule::BIT_OR)),
    ),
    &Form::When(
        Look::Mark(Mark::Ne),
        &Form::Shaped(
            Shape::Operator(Variant::Binary),
            &Form::Then(&Form::Mark(Mark::Ne), &Form::Rule(Rule::BIT_OR)),
        ),
        &Form::Part(Part::COMPARED_3),
    ),
);

/// A part of `compared`.
static COMPARED_1: Form = Form::When(
    Look::Mark(Mark::Le),
    &Form::Shaped(
        Shape::Operator(Variant::Binary),
        &Form::Then(&Form::Mark(Mark::Le), &Form::Rule(Rule::BIT_OR)),
    ),
    &Form::When(
        Look::Mark(Mark::Ge),
        &Form::Shaped(
            Shape::Operator(Variant::Binary),
            &Form::Then(&Form::Mark(Mark::Ge), &Form::Rule(Rule::BIT_OR)),
        ),
        &Form::Empty,
    ),
);

/// A part of `compared`.
static COMPARED_2: Form = Form::When(
    Look::But(
        &Look::Mark(Mark::Gt),
        &Look::Or(&Look::Mark(Mark::Ge), &Look::Mark(Mark::Shr)),
    ),
    &Form::Shaped(
        Shape::Operator(Variant::Binary),
        &Form::Then(&Form::Mark(Mark::Gt), &Form::Rule(Rule::BIT_OR)),
    ),
    &Form::Part(Part::COMPARED_1),
);

/// A part of `compared`.
static COMPARED_3: Form = Form::When(
    Look::But(
        &Look::Mark(Mark::Lt),
        &Look::Or(&Look::Mark(Mark::Le), &Look::Mark(Mark::Shl)),
    ),
    &Form::Shaped(
        Shape::Operator(Variant::Binary),
        &Form::Then(&Form::Mark(Mark::Lt), &Form::Rule(Rule::BIT_OR)),
    ),
    &Form::Part(Part::COMPARED_2),
);

/// A comparison: one operand, or two with `==`, `!=`, `<`, `>`, `<=` or `>=` between them.
static COMPARISON: Form = Form::Shaped(
    Shape::Chain,
    &Form::Then(&Form::Rule(Rule::BIT_OR), &Form::Rule(Rule::COMPARED)),
);

/// The operator `&&` after an operand, with its right operand, any number of times.
static CONJUNCTIONS: Form = Form::When(
    Look::Mark(Mark::AndAnd),
    &Form::Then(
        &Form::Shaped(
            Shape::Operator(Variant::Binary),
            &Form::Then(&Form::Mark(Mark::AndAnd), &Form::Rule(Rule::COMPARISON)),
        ),
        &Form::Rule(Rule::CONJUNCTIONS),
    ),
    &Form::Empty,
);

/// Comparisons with `&&` between them, grouped from the left.
static CONJUNCTION: Form = Form::Shaped(
    Shape::Chain,
    &Form::Then(
        &Form::Rule(Rule::COMPARISON),
        &Form::Rule(Rule::CONJUNCTIONS),
    ),
);

/// The operator `||` after an operand, with its right operand, any number of times.
static DISJUNCTIONS: Form = Form::When(
    Look::Mark(Mark::OrOr),
    &Form::Then(
        &Form::Shaped(
            Shape::Operator(Variant::Binary),
            &Form::Then(&Form::Mark(Mark::OrOr), &Form::Rule(Rule::CONJUNCTION)),
        ),
        &Form::Rule(Rule::DISJUNCTIONS),
    ),
    &Form::Empty,
);

/// Operands of the form `conjunction` with `||` between them, grouped from the left.
static DISJUNCTION: Form = Form::Shaped(
    Shape::Chain,
    &Form::Then(
        &Form::Rule(Rule::CONJUNCTION),
        &Form::Rule(Rule::DISJUNCTIONS),
    ),
);

/// An assignment after an operand, by `=` or a compound operator such as `+=`, with its right operand; it groups from
/// the right.
static ASSIGNED: Form = Form::When(
    Look::But(&Look::Mark(Mark::Eq), &Look::Mark(Mark::EqEq)),
    &Form::Shaped(
        Shape::Operator(Variant::Assign),
        &Form::Then(&Form::Mark(Mark::Eq), &Form::Rule(Rule::WHOLE_EXPRESSION)),
    ),
    &Form::Part(Part::ASSIGNED_5),
);

/// A part of `assigned`.
static ASSIGNED_1: Form = Form::When(
    Look::Mark(Mark::ShlEq),
    &Form::Shaped(
        Shape::Operator(Variant::Binary),
        &Form::Then(
            &Form::Mark(Mark::ShlEq),
            &Form::Rule(Rule::WHOLE_EXPRESSION),
        ),
    ),
    &Form::When(
        Look::Mark(Mark::ShrEq),
        &Form::Shaped(
            Shape::Operator(Variant::Binary),
            &Form::Then(
                &Form::Mark(Mark::ShrEq),
                &Form::Rule(Rule::WHOLE_EXPRESSION),
            ),
        ),
        &Form::Empty,
    ),
);

/// A part of `assigned`.
static ASSIGNED_2: Form = Form::When(
    Look::Mark(Mark::AndEq),
    &Form::Shaped(
        Shape::Operator(Variant::Binary),
        &Form::Then(
            &Form::Mark(Mark::AndEq),
            &Form::Rule(Rule::WHOLE_EXPRESSION),
        ),
    ),
    &Form::When(
        Look::Mark(Mark::OrEq),
        &Form::Shaped(
            Shape::Operator(Variant::Binary),
            &Form::Then(&Form::Mark(Mark::OrEq), &Form::Rule(Rule::WHOLE_EXPRESSION)),
        ),
        &Form::Part(Part::ASSIGNED_1),
    ),
);

/// A part of `assigned`.
static ASSIGNED_3: Form = Form::When(
    Look::Mark(Mark::PercentEq),
    &Form::Shaped(
        Shape::Operator(Variant::Binary),
        &Form::Then(
            &Form::Mark(Mark::PercentEq),
            &Form::Rule(Rule::WHOLE_EXPRESSION),
        ),
    ),
    &Form::When(
        Look::Mark(Mark::CaretEq),
        &Form::Shaped(
            Shape::Operator(Variant::Binary),
            &Form::Then(
                &Form::Mark(Mark::CaretEq),
                &Form::Rule(Rule::WHOLE_EXPRESSION),
            ),
        ),
        &Form::Part(Part::ASSIGNED_2),
    ),
);

/// A part of `assigned`.
static ASSIGNED_4: Form = Form::When(
    Look::Mark(Mark::StarEq),
    &Form::Shaped(
        Shape::Operator(Variant::Binary),
        &Form::Then(
            &Form::Mark(Mark::StarEq),
            &Form::Rule(Rule::WHOLE_EXPRESSION),
        ),
    ),
    &Form::When(
        Look::Mark(Mark::SlashEq),
        &Form::Shaped(
            Shape::Operator(Variant::Binary),
            &Form::Then(
                &Form::Mark(Mark::SlashEq),
                &Form::Rule(Rule::WHOLE_EXPRESSION),
            ),
        ),
        &Form::Part(Part::ASSIGNED_3),
    ),
);

/// A part of `assigned`.
static ASSIGNED_5: Form = Form::When(
    Look::Mark(Mark::PlusEq),
    &Form::Shaped(
        Shape::Operator(Variant::Binary),
        &Form::Then(
            &Form::Mark(Mark::PlusEq),
            &Form::Rule(Rule::WHOLE_EXPRESSION),
        ),
    ),
    &Form::When(
        Look::Mark(Mark::MinusEq),
        &Form::Shaped(
            Shape::Operator(Variant::Binary),
            &Form::Then(
                &Form::Mark(Mark::MinusEq),
                &Form::Rule(Rule::WHOLE_EXPRESSION),
            ),
        ),
        &Form::Part(Part::ASSIGNED_4),
    ),
);

/// Any expression. No postfix and no comparison operator may follow it: after a cast, or after a comparison, these are
/// refused.
static WHOLE_EXPRESSION: Form = Form::Shaped(
    Shape::Chain,
    &Form::Then(
        &Form::Rule(Rule::DISJUNCTION),
        &Form::Then(
            &Form::Rule(Rule::ASSIGNED),
            &Form::When(
                Look::Unfinished,
                &Form::Never(Fault::Unexpected),
                &Form::Empty,
            ),
        ),
    ),
);

/// The form of the rule at this place.
#[tactic(auto, using(std::proofs::lemmas::List::get_or_past), unfolding(crate::specs::Names::rule_of, crate::specs::Parts::part_form))]
pub(super) fn form_at(place: u8) -> &'static Form
    ensures { parse_form (grammar_of result.now) ≡ parse_form (table (operators_rule place)) }
{
    match place {
        0 => &CASTS,
        1 => &CAST,
        2 => &PRODUCTS,
        3 => &PRODUCT,
        4 => &SUMS,
        5 => &SUM,
        6 => &SHIFTS,
        7 => &SHIFT,
        8 => &BIT_ANDS,
        9 => &BIT_AND,
        10 => &BIT_XORS,
        11 => &BIT_XOR,
        12 => &BIT_ORS,
        13 => &BIT_OR,
        14 => &COMPARED,
        15 => &COMPARISON,
        16 => &CONJUNCTIONS,
        17 => &CONJUNCTION,
        18 => &DISJUNCTIONS,
        19 => &DISJUNCTION,
        20 => &ASSIGNED,
        _ => &WHOLE_EXPRESSION,
    }
}

/// The form of the part at this place.
#[tactic(auto, using(std::proofs::lemmas::List::get_or_past), unfolding(crate::specs::Names::rule_of, crate::specs::Parts::part_form))]
pub(super) fn part_at(place: u8) -> &'static Form
    ensures { parse_form (grammar_of result.now) ≡ parse_form (operators_part place) }
{
    match place {
        0 => &PRODUCTS_1,
        1 => &PRODUCTS_2,
        2 => &SUMS_1,
        3 => &SHIFTS_1,
        4 => &COMPARED_1,
        5 => &COMPARED_2,
        6 => &COMPARED_3,
        7 => &ASSIGNED_1,
        8 => &ASSIGNED_2,
        9 => &ASSIGNED_3,
        10 => &ASSIGNED_4,
        _ => &ASSIGNED_5,
    }
}
