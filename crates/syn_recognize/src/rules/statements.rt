//! Written by tools/recognizers.py; edits are lost.
//!
//! Statements.
ghost use Rattle.std.specs.Prelude.{◌≡◌};
ghost use Rattle.syn_grammar.specs.Run.{parse_form};
ghost use Rattle.syn_grammar.specs.Table.{table};
ghost use Rattle.syn_recognize.specs.Forms.{grammar_of};
ghost use Rattle.syn_recognize.specs.Names.{statements_rule};
ghost use Rattle.syn_recognize.specs.Parts.{statements_part};

use crate::fault::Fault;
use crate::form::Form;
use crate::left_out::Place;
use crate::look::Look;
use crate::plan::Planned;
use crate::rules::{Part, Rule};
use crate::shape::{Shape, Variant};
use crate::token::Token;
use crate::words::{Mark, Word};
use syn_tokens::delimiter::Delimiter;

/// The part after the first operand of a statement that begins with a block or a macro in braces: postfixes, casts and
/// operators of each level.
static OPERAND_REST: Form = Form::Then(
    &Form::Rule(Rule::POSTFIXES),
    &Form::Part(Part::OPERAND_REST_2),
);

/// A part of `operand_rest`.
static OPERAND_REST_1: Form = Form::Then(
    &Form::Rule(Rule::BIT_XORS),
    &Form::Then(
        &Form::Rule(Rule::BIT_ORS),
        &Form::Then(
            &Form::Rule(Rule::COMPARED),
            &Form::Then(
                &Form::Rule(Rule::CONJUNCTIONS),
                &Form::Then(&Form::Rule(Rule::DISJUNCTIONS), &Form::Rule(Rule::ASSIGNED)),
            ),
        ),
    ),
);

/// A part of `operand_rest`.
static OPERAND_REST_2: Form = Form::Then(
    &Form::Rule(Rule::CASTS),
    &Form::Then(
        &Form::Rule(Rule::PRODUCTS),
        &Form::Then(
            &Form::Rule(Rule::SUMS),
            &Form::Then(
                &Form::Rule(Rule::SHIFTS),
                &Form::Then(
                    &Form::Rule(Rule::BIT_ANDS),
                    &Form::Part(Part::OPERAND_REST_1),
                ),
            ),
        ),
    ),
);

/// Statements to the end: none; `;` alone and more; or one, its attributes first, and more. An item that is stored
/// verbatim includes its attributes.
static STATEMENTS: Form = Form::When(
    Look::Ended,
    &Form::Empty,
    &Form::Shaped(
        Shape::Choice,
        &Form::When(
            Look::Mark(Mark::Semi),
            &Form::Shaped(
                Shape::Lone,
                &Form::Then(&Form::Mark(Mark::Semi), &Form::Rule(Rule::STATEMENTS)),
            ),
            &Form::Shaped(Shape::Listed, &Form::Planned(Planned::Statements)),
        ),
    ),
);

/// A statement other than an item, after its attributes, and the statements that follow: a macro in braces, a local, a
/// block or an expression that ends with one, or another expression.
static STATEMENT_REST: Form = Form::When(
    Look::CrateMacro,
    &Form::Part(Part::STATEMENT_REST_3),
    &Form::When(
        Look::BraceMacro,
        &Form::Shaped(
            Shape::SaidMacro,
            &Form::Then(
                &Form::Shaped(
                    Shape::Operand(Variant::Macro),
                    &Form::Rule(Rule::MACRO_INVOCATION),
                ),
                &Form::Rule(Rule::AFTER_BLOCK),
            ),
        ),
        &Form::Part(Part::STATEMENT_REST_2),
    ),
);

/// A part of `statement_rest`.
static STATEMENT_REST_1: Form = Form::When(
    Look::BlockLike,
    &Form::Shaped(
        Shape::Said,
        &Form::Then(
            &Form::Rule(Rule::BLOCK_LIKE),
            &Form::Rule(Rule::AFTER_BLOCK),
        ),
    ),
    &Form::Shaped(
        Shape::Said,
        &Form::Then(
            &Form::Rule(Rule::WHOLE_EXPRESSION),
            &Form::Rule(Rule::AFTER_EXPRESSION),
        ),
    ),
);

/// A part of `statement_rest`.
static STATEMENT_REST_2: Form = Form::When(
    Look::Word(Word::Let),
    &Form::Shaped(
        Shape::ALocal,
        &Form::Then(&Form::Rule(Rule::LOCAL), &Form::Rule(Rule::STATEMENTS)),
    ),
    &Form::Part(Part::STATEMENT_REST_1),
);

/// A part of `statement_rest`.
static STATEMENT_REST_3: Form = Form::Shaped(
    Shape::SaidMacro,
    &Form::Then(
        &Form::Shaped(
            Shape::Operand(Variant::Macro),
            &Form::Rule(Rule::MACRO_INVOCATION),
        ),
        &Form::When(
            Look::PostfixMark,
            &Form::Never(Fault::Unexpected),
            &Form::Rule(Rule::AFTER_BLOCK),
        ),
    ),
);

/// The part after a block or a macro in braces in a list of statements: `;` and more; postfixes and operators, then
/// `after_expression`; or more.
static AFTER_BLOCK: Form = Form::When(
    Look::Mark(Mark::Semi),
    &Form::Then(&Form::Mark(Mark::Semi), &Form::Rule(Rule::STATEMENTS)),
    &Form::When(
        Look::PostfixMark,
        &Form::Then(
            &Form::Rule(Rule::OPERAND_REST),
            &Form::Rule(Rule::AFTER_EXPRESSION),
        ),
        &Form::Rule(Rule::STATEMENTS),
    ),
);

/// The part after an expression in a list of statements: `;` and more, or the end.
static AFTER_EXPRESSION: Form = Form::When(
    Look::Mark(Mark::Semi),
    &Form::Then(&Form::Mark(Mark::Semi), &Form::Rule(Rule::STATEMENTS)),
    &Form::When(Look::Ended, &Form::Empty, &Form::Never(Fault::MissingEnd)),
);

/// A single statement: an item, with its attributes, verbatim or of a kind; or attributes, and one of these: a macro in
/// braces, a block or an expression that ends with one, with an optional `;`; one of these with postfixes or operators,
/// or another expression, with `;`; or a local.
static STATEMENT: Form = Form::Planned(Planned::Statement);

/// A macro of `crate` with a group in braces, as a single statement: a macro, with an optional `;`. But if a token that
/// continues an expression follows, it is an item, and that token is not consumed.
static CRATE_MACRO: Form = Form::Planned(Planned::CrateMacro);

/// A macro with a group in braces.
static BRACE_MACRO: Form = Form::Then(
    &Form::Rule(Rule::MODULE_PATH),
    &Form::Then(
        &Form::When(
            Look::Bang,
            &Form::Mark(Mark::Not),
            &Form::Never(Fault::Unexpected),
        ),
        &Form::When(
            Look::Group(Delimiter::Paren),
            &Form::Never(Fault::Unexpected),
            &Form::When(
                Look::Group(Delimiter::Bracket),
                &Form::Never(Fault::Unexpected),
                &Form::Raw(Delimiter::Brace),
            ),
        ),
    ),
);

/// The part after a block or a macro in braces in a single statement: `;`; postfixes and operators, and `;`; or
/// nothing.
static STATEMENT_END: Form = Form::When(
    Look::Mark(Mark::Semi),
    &Form::MarkElse(Mark::Semi, Fault::MissingSemi),
    &Form::When(
        Look::PostfixMark,
        &Form::Then(
            &Form::Rule(Rule::OPERAND_REST),
            &Form::MarkElse(Mark::Semi, Fault::MissingSemi),
        ),
        &Form::Empty,
    ),
);

/// A local: `let`, a pattern, an optional colon with a type, an optional `=` with an expression, and `;`. After an
/// expression that doesn't end with braces, `else` and a block may follow.
static LOCAL: Form = Form::Then(
    &Form::Token(Token::Word(Word::Let)),
    &Form::Then(
        &Form::Then(
            &Form::Rule(Rule::PATTERN),
            &Form::When(
                Look::Mark(Mark::Colon),
                &Form::Then(&Form::Mark(Mark::Colon), &Form::Rule(Rule::TYPE)),
                &Form::Empty,
            ),
        ),
        &Form::Part(Part::LOCAL_2),
    ),
);

/// A part of `local`.
static LOCAL_1: Form = Form::Shaped(
    Shape::Untagged,
    &Form::When(
        Look::Word(Word::Else),
        &Form::Then(
            &Form::Token(Token::Word(Word::Else)),
            &Form::Shaped(
                Shape::Operand(Variant::Block),
                &Form::Then(
                    &Form::When(
                        Look::Lifetime,
                        &Form::Never(Fault::Unexpected),
                        &Form::Empty,
                    ),
                    &Form::Rule(Rule::PLAIN_BODY),
                ),
            ),
        ),
        &Form::Empty,
    ),
);

/// A part of `local`.
static LOCAL_2: Form = Form::Then(
    &Form::When(
        Look::Mark(Mark::Eq),
        &Form::Then(
            &Form::Mark(Mark::Eq),
            &Form::Shaped(
                Shape::Untagged,
                &Form::ByBraces(
                    &Form::Shaped(Shape::Untagged, &Form::Empty),
                    &Form::Part(Part::LOCAL_1),
                ),
            ),
        ),
        &Form::Empty,
    ),
    &Form::MarkAt(Mark::Semi, Place::Following),
);

/// The form of the rule at this place.
#[tactic(auto, using(std::proofs::lemmas::List::get_or_past), unfolding(crate::specs::Names::rule_of, crate::specs::Parts::part_form))]
pub(super) fn form_at(place: u8) -> &'static Form
    ensures { parse_form (grammar_of result.now) ≡ parse_form (table (statements_rule place)) }
{
    match place {
        0 => &OPERAND_REST,
        1 => &STATEMENTS,
        2 => &STATEMENT_REST,
        3 => &AFTER_BLOCK,
        4 => &AFTER_EXPRESSION,
        5 => &STATEMENT,
        6 => &CRATE_MACRO,
        7 => &BRACE_MACRO,
        8 => &STATEMENT_END,
        _ => &LOCAL,
    }
}

/// The form of the part at this place.
#[tactic(auto, using(std::proofs::lemmas::List::get_or_past), unfolding(crate::specs::Names::rule_of, crate::specs::Parts::part_form))]
pub(super) fn part_at(place: u8) -> &'static Form
    ensures { parse_form (grammar_of result.now) ≡ parse_form (statements_part place) }
{
    match place {
        0 => &OPERAND_REST_1,
        1 => &OPERAND_REST_2,
        2 => &STATEMENT_REST_1,
        3 => &STATEMENT_REST_2,
        4 => &STATEMENT_REST_3,
        5 => &LOCAL_1,
        _ => &LOCAL_2,
    }
}
