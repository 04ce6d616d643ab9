//! Written by tools/recognizers.py; edits are lost.
//!
//! Expressions in the heads of `if`, `while` and `for`.
ghost use Rattle.std.specs.Prelude.{◌≡◌};
ghost use Rattle.syn_grammar.specs.Run.{parse_form};
ghost use Rattle.syn_grammar.specs.Table.{table};
ghost use Rattle.syn_recognize.specs.Forms.{grammar_of};
ghost use Rattle.syn_recognize.specs.Names.{heads_rule};
ghost use Rattle.syn_recognize.specs.Parts.{heads_part};

use crate::fault::Fault;
use crate::form::Form;
use crate::look::Look;
use crate::rules::{Part, Rule};
use crate::shape::{Shape, Variant};
use crate::token::Token;
use crate::words::{Mark, Word};
use syn_tokens::delimiter::Delimiter;

/// The same as `primary`, in the head of an `if`, a `while` or a `for`: there a path takes no braces.
static PRIMARY_HEAD: Form = Form::Shaped(
    Shape::Choice,
    &Form::When(
        Look::Word(Word::True),
        &Form::Shaped(
            Shape::Operand(Variant::Lit),
            &Form::Token(Token::Word(Word::True)),
        ),
        &Form::When(
            Look::Word(Word::False),
            &Form::Shaped(
                Shape::Operand(Variant::Lit),
                &Form::Token(Token::Word(Word::False)),
            ),
            &Form::Part(Part::PRIMARY_HEAD_5),
        ),
    ),
);

/// A part of `primary_head`.
static PRIMARY_HEAD_1: Form = Form::Shaped(
    Shape::Operand(Variant::Break),
    &Form::Then(
        &Form::Token(Token::Word(Word::Break)),
        &Form::Then(
            &Form::When(Look::Lifetime, &Form::Lifetime, &Form::Empty),
            &Form::When(
                Look::WholeExpression,
                &Form::Never(Fault::BreakValue),
                &Form::Empty,
            ),
        ),
    ),
);

/// A part of `primary_head`.
static PRIMARY_HEAD_2: Form = Form::When(
    Look::Word(Word::Break),
    &Form::Part(Part::PRIMARY_HEAD_1),
    &Form::When(
        Look::Word(Word::Continue),
        &Form::Shaped(
            Shape::Operand(Variant::Continue),
            &Form::Then(
                &Form::Token(Token::Word(Word::Continue)),
                &Form::When(Look::Lifetime, &Form::Lifetime, &Form::Empty),
            ),
        ),
        &Form::Shaped(
            Shape::Operand(Variant::Path),
            &Form::Rule(Rule::PATH_AS_EXPRESSION),
        ),
    ),
);

/// A part of `primary_head`.
static PRIMARY_HEAD_3: Form = Form::When(
    Look::BlockLike,
    &Form::Rule(Rule::BLOCK_LIKE),
    &Form::When(
        Look::Word(Word::Return),
        &Form::Shaped(
            Shape::Operand(Variant::Return),
            &Form::Then(
                &Form::Token(Token::Word(Word::Return)),
                &Form::When(
                    Look::WholeExpression,
                    &Form::Rule(Rule::WHOLE_EXPRESSION_HEAD),
                    &Form::Empty,
                ),
            ),
        ),
        &Form::Part(Part::PRIMARY_HEAD_2),
    ),
);

/// A part of `primary_head`.
static PRIMARY_HEAD_4: Form = Form::When(
    Look::Group(Delimiter::Bracket),
    &Form::Shaped(
        Shape::Bracketed,
        &Form::Inside(Delimiter::Bracket, &Form::Rule(Rule::ARRAY_CONTENT)),
    ),
    &Form::When(
        Look::Group(Delimiter::None),
        &Form::Shaped(
            Shape::Operand(Variant::Grouped),
            &Form::Inside(Delimiter::None, &Form::Rule(Rule::WHOLE_EXPRESSION)),
        ),
        &Form::Part(Part::PRIMARY_HEAD_3),
    ),
);

/// A part of `primary_head`.
static PRIMARY_HEAD_5: Form = Form::When(
    Look::AnyLiteral,
    &Form::Shaped(Shape::Operand(Variant::Lit), &Form::Token(Token::Literal)),
    &Form::When(
        Look::Macro,
        &Form::Shaped(
            Shape::Operand(Variant::Macro),
            &Form::Rule(Rule::MACRO_INVOCATION),
        ),
        &Form::When(
            Look::Group(Delimiter::Paren),
            &Form::Shaped(
                Shape::Bracketed,
                &Form::Inside(Delimiter::Paren, &Form::Rule(Rule::EXPRESSIONS)),
            ),
            &Form::Part(Part::PRIMARY_HEAD_4),
        ),
    ),
);

/// The same as `unary`, in the head of an `if`, a `while` or a `for`: there a path takes no braces.
static UNARY_HEAD: Form = Form::Shaped(
    Shape::Leading,
    &Form::Then(
        &Form::Rule(Rule::ATTRIBUTES),
        &Form::Part(Part::UNARY_HEAD_3),
    ),
);

/// A part of `unary_head`.
static UNARY_HEAD_1: Form = Form::Shaped(
    Shape::Operand(Variant::Reference),
    &Form::Then(
        &Form::Mark(Mark::And),
        &Form::Then(
            &Form::When(
                Look::Word(Word::Mut),
                &Form::Token(Token::Word(Word::Mut)),
                &Form::Empty,
            ),
            &Form::Rule(Rule::UNARY_HEAD),
        ),
    ),
);

/// A part of `unary_head`.
static UNARY_HEAD_2: Form = Form::When(
    Look::Mark(Mark::Star),
    &Form::Shaped(
        Shape::Operand(Variant::Unary),
        &Form::Then(&Form::Mark(Mark::Star), &Form::Rule(Rule::UNARY_HEAD)),
    ),
    &Form::When(
        Look::Mark(Mark::And),
        &Form::Part(Part::UNARY_HEAD_1),
        &Form::Shaped(
            Shape::Chain,
            &Form::Then(
                &Form::Rule(Rule::PRIMARY_HEAD),
                &Form::Rule(Rule::POSTFIXES),
            ),
        ),
    ),
);

/// A part of `unary_head`.
static UNARY_HEAD_3: Form = Form::When(
    Look::Mark(Mark::Minus),
    &Form::Shaped(
        Shape::Operand(Variant::Unary),
        &Form::Then(&Form::Mark(Mark::Minus), &Form::Rule(Rule::UNARY_HEAD)),
    ),
    &Form::When(
        Look::Mark(Mark::Not),
        &Form::Shaped(
            Shape::Operand(Variant::Unary),
            &Form::Then(&Form::Mark(Mark::Not), &Form::Rule(Rule::UNARY_HEAD)),
        ),
        &Form::Part(Part::UNARY_HEAD_2),
    ),
);

/// The same as `cast`, in the head of an `if`, a `while` or a `for`: there a path takes no braces.
static CAST_HEAD: Form = Form::Shaped(
    Shape::Chain,
    &Form::Then(&Form::Rule(Rule::UNARY_HEAD), &Form::Rule(Rule::CASTS)),
);

/// The same as `products`, in the head of an `if`, a `while` or a `for`: there a path takes no braces.
static PRODUCTS_HEAD: Form = Form::When(
    Look::But(&Look::Mark(Mark::Star), &Look::Mark(Mark::StarEq)),
    &Form::Then(
        &Form::Shaped(
            Shape::Operator(Variant::Binary),
            &Form::Then(&Form::Mark(Mark::Star), &Form::Rule(Rule::CAST_HEAD)),
        ),
        &Form::Rule(Rule::PRODUCTS_HEAD),
    ),
    &Form::Part(Part::PRODUCTS_HEAD_2),
);

/// A part of `products_head`.
static PRODUCTS_HEAD_1: Form = Form::When(
    Look::But(&Look::Mark(Mark::Percent), &Look::Mark(Mark::PercentEq)),
    &Form::Then(
        &Form::Shaped(
            Shape::Operator(Variant::Binary),
            &Form::Then(&Form::Mark(Mark::Percent), &Form::Rule(Rule::CAST_HEAD)),
        ),
        &Form::Rule(Rule::PRODUCTS_HEAD),
    ),
    &Form::Empty,
);

/// A part of `products_head`.
static PRODUCTS_HEAD_2: Form = Form::When(
    Look::But(&Look::Mark(Mark::Slash), &Look::Mark(Mark::SlashEq)),
    &Form::Then(
        &Form::Shaped(
            Shape::Operator(Variant::Binary),
            &Form::Then(&Form::Mark(Mark::Slash), &Form::Rule(Rule::CAST_HEAD)),
        ),
        &Form::Rule(Rule::PRODUCTS_HEAD),
    ),
    &Form::Part(Part::PRODUCTS_HEAD_1),
);

/// The same as `product`, in the head of an `if`, a `while` or a `for`: there a path takes no braces.
static PRODUCT_HEAD: Form = Form::Shaped(
    Shape::Chain,
    &Form::Then(
        &Form::Rule(Rule::CAST_HEAD),
        &Form::Rule(Rule::PRODUCTS_HEAD),
    ),
);

/// The same as `sums`, in the head of an `if`, a `while` or a `for`: there a path takes no braces.
static SUMS_HEAD: Form = Form::When(
    Look::But(&Look::Mark(Mark::Plus), &Look::Mark(Mark::PlusEq)),
    &Form::Then(
        &Form::Shaped(
            Shape::Operator(Variant::Binary),
            &Form::Then(&Form::Mark(Mark::Plus), &Form::Rule(Rule::PRODUCT_HEAD)),
        ),
        &Form::Rule(Rule::SUMS_HEAD),
    ),
    &Form::Part(Part::SUMS_HEAD_1),
);

/// A part of `sums_head`.
static SUMS_HEAD_1: Form = Form::When(
    Look::But(&Look::Mark(Mark::Minus), &Look::Mark(Mark::MinusEq)),
    &Form::Then(
        &Form::Shaped(
            Shape::Operator(Variant::Binary),
            &Form::Then(&Form::Mark(Mark::Minus), &Form::Rule(Rule::PRODUCT_HEAD)),
        ),
        &Form::Rule(Rule::SUMS_HEAD),
    ),
    &Form::Empty,
);

/// The same as `sum`, in the head of an `if`, a `while` or a `for`: there a path takes no braces.
static SUM_HEAD: Form = Form::Shaped(
    Shape::Chain,
    &Form::Then(
        &Form::Rule(Rule::PRODUCT_HEAD),
        &Form::Rule(Rule::SUMS_HEAD),
    ),
);

/// The same as `shifts`, in the head of an `if`, a `while` or a `for`: there a path takes no braces.
static SHIFTS_HEAD: Form = Form::When(
    Look::But(&Look::Mark(Mark::Shl), &Look::Mark(Mark::ShlEq)),
    &Form::Then(
        &Form::Shaped(
            Shape::Operator(Variant::Binary),
            &Form::Then(&Form::Mark(Mark::Shl), &Form::Rule(Rule::SUM_HEAD)),
        ),
        &Form::Rule(Rule::SHIFTS_HEAD),
    ),
    &Form::Part(Part::SHIFTS_HEAD_1),
);

/// A part of `shifts_head`.
static SHIFTS_HEAD_1: Form = Form::When(
    Look::But(&Look::Mark(Mark::Shr), &Look::Mark(Mark::ShrEq)),
    &Form::Then(
        &Form::Shaped(
            Shape::Operator(Variant::Binary),
            &Form::Then(&Form::Mark(Mark::Shr), &Form::Rule(Rule::SUM_HEAD)),
        ),
        &Form::Rule(Rule::SHIFTS_HEAD),
    ),
    &Form::Empty,
);

/// The same as `shift`, in the head of an `if`, a `while` or a `for`: there a path takes no braces.
static SHIFT_HEAD: Form = Form::Shaped(
    Shape::Chain,
    &Form::Then(&Form::Rule(Rule::SUM_HEAD), &Form::Rule(Rule::SHIFTS_HEAD)),
);

/// The same as `bit_ands`, in the head of an `if`, a `while` or a `for`: there a path takes no braces.
static BIT_ANDS_HEAD: Form = Form::When(
    Look::But(
        &Look::Mark(Mark::And),
        &Look::Or(&Look::Mark(Mark::AndAnd), &Look::Mark(Mark::AndEq)),
    ),
    &Form::Then(
        &Form::Shaped(
            Shape::Operator(Variant::Binary),
            &Form::Then(&Form::Mark(Mark::And), &Form::Rule(Rule::SHIFT_HEAD)),
        ),
        &Form::Rule(Rule::BIT_ANDS_HEAD),
    ),
    &Form::Empty,
);

/// The same as `bit_and`, in the head of an `if`, a `while` or a `for`: there a path takes no braces.
static BIT_AND_HEAD: Form = Form::Shaped(
    Shape::Chain,
    &Form::Then(
        &Form::Rule(Rule::SHIFT_HEAD),
        &Form::Rule(Rule::BIT_ANDS_HEAD),
    ),
);

/// The same as `bit_xors`, in the head of an `if`, a `while` or a `for`: there a path takes no braces.
static BIT_XORS_HEAD: Form = Form::When(
    Look::But(&Look::Mark(Mark::Caret), &Look::Mark(Mark::CaretEq)),
    &Form::Then(
        &Form::Shaped(
            Shape::Operator(Variant::Binary),
            &Form::Then(&Form::Mark(Mark::Caret), &Form::Rule(Rule::BIT_AND_HEAD)),
        ),
        &Form::Rule(Rule::BIT_XORS_HEAD),
    ),
    &Form::Empty,
);

/// The same as `bit_xor`, in the head of an `if`, a `while` or a `for`: there a path takes no braces.
static BIT_XOR_HEAD: Form = Form::Shaped(
    Shape::Chain,
    &Form::Then(
        &Form::Rule(Rule::BIT_AND_HEAD),
        &Form::Rule(Rule::BIT_XORS_HEAD),
    ),
);

/// The same as `bit_ors`, in the head of an `if`, a `while` or a `for`: there a path takes no braces.
static BIT_ORS_HEAD: Form = Form::When(
    Look::But(
        &Look::Mark(Mark::Or),
        &Look::Or(&Look::Mark(Mark::OrOr), &Look::Mark(Mark::OrEq)),
    ),
    &Form::Then(
        &Form::Shaped(
            Shape::Operator(Variant::Binary),
            &Form::Then(&Form::Mark(Mark::Or), &Form::Rule(Rule::BIT_XOR_HEAD)),
        ),
        &Form::Rule(Rule::BIT_ORS_HEAD),
    ),
    &Form::Empty,
);

/// The same as `bit_or`, in the head of an `if`, a `while` or a `for`: there a path takes no braces.
static BIT_OR_HEAD: Form = Form::Shaped(
    Shape::Chain,
    &Form::Then(
        &Form::Rule(Rule::BIT_XOR_HEAD),
        &Form::Rule(Rule::BIT_ORS_HEAD),
    ),
);

/// The same as `compared`, in the head of an `if`, a `while` or a `for`: there a path takes no braces.
static COMPARED_HEAD: Form = Form::When(
    Look::Mark(Mark::EqEq),
    &Form::Shaped(
        Shape::Operator(Variant::Binary),
        &Form::Then(&Form::Mark(Mark::EqEq), &Form::Rule(Rule::BIT_OR_HEAD)),
    ),
    &Form::When(
        Look::Mark(Mark::Ne),
        &Form::Shaped(
            Shape::Operator(Variant::Binary),
            &Form::Then(&Form::Mark(Mark::Ne), &Form::Rule(Rule::BIT_OR_HEAD)),
        ),
        &Form::Part(Part::COMPARED_HEAD_3),
    ),
);

/// A part of `compared_head`.
static COMPARED_HEAD_1: Form = Form::When(
    Look::Mark(Mark::Le),
    &Form::Shaped(
        Shape::Operator(Variant::Binary),
        &Form::Then(&Form::Mark(Mark::Le), &Form::Rule(Rule::BIT_OR_HEAD)),
    ),
    &Form::When(
        Look::Mark(Mark::Ge),
        &Form::Shaped(
            Shape::Operator(Variant::Binary),
            &Form::Then(&Form::Mark(Mark::Ge), &Form::Rule(Rule::BIT_OR_HEAD)),
        ),
        &Form::Empty,
    ),
);

/// A part of `compared_head`.
static COMPARED_HEAD_2: Form = Form::When(
    Look::But(
        &Look::Mark(Mark::Gt),
        &Look::Or(&Look::Mark(Mark::Ge), &Look::Mark(Mark::Shr)),
    ),
    &Form::Shaped(
        Shape::Operator(Variant::Binary),
        &Form::Then(&Form::Mark(Mark::Gt), &Form::Rule(Rule::BIT_OR_HEAD)),
    ),
    &Form::Part(Part::COMPARED_HEAD_1),
);

/// A part of `compared_head`.
static COMPARED_HEAD_3: Form = Form::When(
    Look::But(
        &Look::Mark(Mark::Lt),
        &Look::Or(&Look::Mark(Mark::Le), &Look::Mark(Mark::Shl)),
    ),
    &Form::Shaped(
        Shape::Operator(Variant::Binary),
        &Form::Then(&Form::Mark(Mark::Lt), &Form::Rule(Rule::BIT_OR_HEAD)),
    ),
    &Form::Part(Part::COMPARED_HEAD_2),
);

/// The same as `comparison`, in the head of an `if`, a `while` or a `for`: there a path takes no braces.
static COMPARISON_HEAD: Form = Form::Shaped(
    Shape::Chain,
    &Form::Then(
        &Form::Rule(Rule::BIT_OR_HEAD),
        &Form::Rule(Rule::COMPARED_HEAD),
    ),
);

/// The same as `conjunctions`, in the head of an `if`, a `while` or a `for`: there a path takes no braces.
static CONJUNCTIONS_HEAD: Form = Form::When(
    Look::Mark(Mark::AndAnd),
    &Form::Then(
        &Form::Shaped(
            Shape::Operator(Variant::Binary),
            &Form::Then(
                &Form::Mark(Mark::AndAnd),
                &Form::Rule(Rule::COMPARISON_HEAD),
            ),
        ),
        &Form::Rule(Rule::CONJUNCTIONS_HEAD),
    ),
    &Form::Empty,
);

/// The same as `conjunction`, in the head of an `if`, a `while` or a `for`: there a path takes no braces.
static CONJUNCTION_HEAD: Form = Form::Shaped(
    Shape::Chain,
    &Form::Then(
        &Form::Rule(Rule::COMPARISON_HEAD),
        &Form::Rule(Rule::CONJUNCTIONS_HEAD),
    ),
);

/// The same as `disjunctions`, in the head of an `if`, a `while` or a `for`: there a path takes no braces.
static DISJUNCTIONS_HEAD: Form = Form::When(
    Look::Mark(Mark::OrOr),
    &Form::Then(
        &Form::Shaped(
            Shape::Operator(Variant::Binary),
            &Form::Then(&Form::Mark(Mark::OrOr), &Form::Rule(Rule::CONJUNCTION_HEAD)),
        ),
        &Form::Rule(Rule::DISJUNCTIONS_HEAD),
    ),
    &Form::Empty,
);

/// The same as `disjunction`, in the head of an `if`, a `while` or a `for`: there a path takes no braces.
static DISJUNCTION_HEAD: Form = Form::Shaped(
    Shape::Chain,
    &Form::Then(
        &Form::Rule(Rule::CONJUNCTION_HEAD),
        &Form::Rule(Rule::DISJUNCTIONS_HEAD),
    ),
);

/// The same as `assigned`, in the head of an `if`, a `while` or a `for`: there a path takes no braces.
static ASSIGNED_HEAD: Form = Form::When(
    Look::But(&Look::Mark(Mark::Eq), &Look::Mark(Mark::EqEq)),
    &Form::Shaped(
        Shape::Operator(Variant::Assign),
        &Form::Then(
            &Form::Mark(Mark::Eq),
            &Form::Rule(Rule::WHOLE_EXPRESSION_HEAD),
        ),
    ),
    &Form::Part(Part::ASSIGNED_HEAD_5),
);

/// A part of `assigned_head`.
static ASSIGNED_HEAD_1: Form = Form::When(
    Look::Mark(Mark::ShlEq),
    &Form::Shaped(
        Shape::Operator(Variant::Binary),
        &Form::Then(
            &Form::Mark(Mark::ShlEq),
            &Form::Rule(Rule::WHOLE_EXPRESSION_HEAD),
        ),
    ),
    &Form::When(
        Look::Mark(Mark::ShrEq),
        &Form::Shaped(
            Shape::Operator(Variant::Binary),
            &Form::Then(
                &Form::Mark(Mark::ShrEq),
                &Form::Rule(Rule::WHOLE_EXPRESSION_HEAD),
            ),
        ),
        &Form::Empty,
    ),
);

/// A part of `assigned_head`.
static ASSIGNED_HEAD_2: Form = Form::When(
    Look::Mark(Mark::AndEq),
    &Form::Shaped(
        Shape::Operator(Variant::Binary),
        &Form::Then(
            &Form::Mark(Mark::AndEq),
            &Form::Rule(Rule::WHOLE_EXPRESSION_HEAD),
        ),
    ),
    &Form::When(
        Look::Mark(Mark::OrEq),
        &Form::Shaped(
            Shape::Operator(Variant::Binary),
            &Form::Then(
                &Form::Mark(Mark::OrEq),
                &Form::Rule(Rule::WHOLE_EXPRESSION_HEAD),
            ),
        ),
        &Form::Part(Part::ASSIGNED_HEAD_1),
    ),
);

/// A part of `assigned_head`.
static ASSIGNED_HEAD_3: Form = Form::When(
    Look::Mark(Mark::PercentEq),
    &Form::Shaped(
        Shape::Operator(Variant::Binary),
        &Form::Then(
            &Form::Mark(Mark::PercentEq),
            &Form::Rule(Rule::WHOLE_EXPRESSION_HEAD),
        ),
    ),
    &Form::When(
        Look::Mark(Mark::CaretEq),
        &Form::Shaped(
            Shape::Operator(Variant::Binary),
            &Form::Then(
                &Form::Mark(Mark::CaretEq),
                &Form::Rule(Rule::WHOLE_EXPRESSION_HEAD),
            ),
        ),
        &Form::Part(Part::ASSIGNED_HEAD_2),
    ),
);

/// A part of `assigned_head`.
static ASSIGNED_HEAD_4: Form = Form::When(
    Look::Mark(Mark::StarEq),
    &Form::Shaped(
        Shape::Operator(Variant::Binary),
        &Form::Then(
            &Form::Mark(Mark::StarEq),
            &Form::Rule(Rule::WHOLE_EXPRESSION_HEAD),
        ),
    ),
    &Form::When(
        Look::Mark(Mark::SlashEq),
        &Form::Shaped(
            Shape::Operator(Variant::Binary),
            &Form::Then(
                &Form::Mark(Mark::SlashEq),
                &Form::Rule(Rule::WHOLE_EXPRESSION_HEAD),
            ),
        ),
        &Form::Part(Part::ASSIGNED_HEAD_3),
    ),
);

/// A part of `assigned_head`.
static ASSIGNED_HEAD_5: Form = Form::When(
    Look::Mark(Mark::PlusEq),
    &Form::Shaped(
        Shape::Operator(Variant::Binary),
        &Form::Then(
            &Form::Mark(Mark::PlusEq),
            &Form::Rule(Rule::WHOLE_EXPRESSION_HEAD),
        ),
    ),
    &Form::When(
        Look::Mark(Mark::MinusEq),
        &Form::Shaped(
            Shape::Operator(Variant::Binary),
            &Form::Then(
                &Form::Mark(Mark::MinusEq),
                &Form::Rule(Rule::WHOLE_EXPRESSION_HEAD),
            ),
        ),
        &Form::Part(Part::ASSIGNED_HEAD_4),
    ),
);

/// The same as `whole_expression`, in the head of an `if`, a `while` or a `for`: there a path takes no braces.
static WHOLE_EXPRESSION_HEAD: Form = Form::Shaped(
    Shape::Chain,
    &Form::Then(
        &Form::Rule(Rule::DISJUNCTION_HEAD),
        &Form::Then(
            &Form::Rule(Rule::ASSIGNED_HEAD),
            &Form::When(
                Look::Unfinished,
                &Form::Never(Fault::Unexpected),
                &Form::Empty,
            ),
        ),
    ),
);

/// The form of the rule at this place.
#[tactic(auto, using(std::proofs::lemmas::List::get_or_past), unfolding(crate::specs::Names::rule_of, crate::specs::Parts::part_form))]
pub(super) fn form_at(place: u8) -> &'static Form
    ensures { parse_form (grammar_of result.now) ≡ parse_form (table (heads_rule place)) }
{
    match place {
        0 => &PRIMARY_HEAD,
        1 => &UNARY_HEAD,
        2 => &CAST_HEAD,
        3 => &PRODUCTS_HEAD,
        4 => &PRODUCT_HEAD,
        5 => &SUMS_HEAD,
        6 => &SUM_HEAD,
        7 => &SHIFTS_HEAD,
        8 => &SHIFT_HEAD,
        9 => &BIT_ANDS_HEAD,
        10 => &BIT_AND_HEAD,
        11 => &BIT_XORS_HEAD,
        12 => &BIT_XOR_HEAD,
        13 => &BIT_ORS_HEAD,
        14 => &BIT_OR_HEAD,
        15 => &COMPARED_HEAD,
        16 => &COMPARISON_HEAD,
        17 => &CONJUNCTIONS_HEAD,
        18 => &CONJUNCTION_HEAD,
        19 => &DISJUNCTIONS_HEAD,
        20 => &DISJUNCTION_HEAD,
        21 => &ASSIGNED_HEAD,
        _ => &WHOLE_EXPRESSION_HEAD,
    }
}

/// The form of the part at this place.
#[tactic(auto, using(std::proofs::lemmas::List::get_or_past), unfolding(crate::specs::Names::rule_of, crate::specs::Parts::part_form))]
pub(super) fn part_at(place: u8) -> &'static Form
    ensures { parse_form (grammar_of result.now) ≡ parse_form (heads_part place) }
{
    match place {
        0 => &PRIMARY_HEAD_1,
        1 => &PRIMARY_HEAD_2,
        2 => &PRIMARY_HEAD_3,
        3 => &PRIMARY_HEAD_4,
        4 => &PRIMARY_HEAD_5,
        5 => &UNARY_HEAD_1,
        6 => &UNARY_HEAD_2,
        7 => &UNARY_HEAD_3,
        8 => &PRODUCTS_HEAD_1,
        9 => &PRODUCTS_HEAD_2,
        10 => &SUMS_HEAD_1,
        11 => &SHIFTS_HEAD_1,
        12 => &COMPARED_HEAD_1,
        13 => &COMPARED_HEAD_2,
        14 => &COMPARED_HEAD_3,
        15 => &ASSIGNED_HEAD_1,
        16 => &ASSIGNED_HEAD_2,
        17 => &ASSIGNED_HEAD_3,
        18 => &ASSIGNED_HEAD_4,
        _ => &ASSIGNED_HEAD_5,
    }
}
