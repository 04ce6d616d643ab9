//! Written by tools/recognizers.py; edits are lost.
//!
//! Blocks, and expressions without prefixes and postfixes.
ghost use Rattle.std.specs.Prelude.{◌≡◌};
ghost use Rattle.syn_grammar.specs.Run.{parse_form};
ghost use Rattle.syn_grammar.specs.Table.{table};
ghost use Rattle.syn_recognize.specs.Forms.{grammar_of};
ghost use Rattle.syn_recognize.specs.Names.{blocks_rule};
ghost use Rattle.syn_recognize.specs.Parts.{blocks_part};

use crate::fault::Fault;
use crate::form::Form;
use crate::left_out::Place;
use crate::look::Look;
use crate::rules::{Part, Rule};
use crate::shape::{Shape, Variant};
use crate::token::Token;
use crate::words::{Mark, Word};
use syn_tokens::delimiter::Delimiter;

/// A block without inner attributes: statements in braces.
static BLOCK: Form = Form::Inside(Delimiter::Brace, &Form::Rule(Rule::STATEMENTS));

/// A block: inner attributes and statements, in braces.
static BODY: Form = Form::Inside(
    Delimiter::Brace,
    &Form::Then(
        &Form::Rule(Rule::INNER_ATTRIBUTES),
        &Form::Rule(Rule::STATEMENTS),
    ),
);

/// A block where inner attributes aren't parsed; those that a tree built by hand has are printed.
static PLAIN_BODY: Form = Form::Inside(
    Delimiter::Brace,
    &Form::Then(
        &Form::Rule(Rule::NO_INNER_ATTRIBUTES),
        &Form::Rule(Rule::STATEMENTS),
    ),
);

/// No inner attributes: `#` followed by `!` must not be next. Inner attributes that a tree built by hand has are
/// printed.
static NO_INNER_ATTRIBUTES: Form = Form::When(
    Look::InnerAttribute,
    &Form::Never(Fault::Unexpected),
    &Form::Unshown,
);

/// An expression without attributes, prefix operators and postfixes: a literal, a macro, a group in parentheses or
/// brackets, an invisible group that holds an expression, a block or an expression that ends with one, `return` with an
/// optional expression, `break` or `continue` with an optional lifetime, or a path, optionally with the fields of a
/// struct literal in braces. No token that an expression may begin with may follow `break` and its lifetime.
static PRIMARY: Form = Form::Shaped(
    Shape::Choice,
    &Form::When(
        Look::Word(Word::True),
        &Form::Shaped(
            Shape::Operand(Variant::Lit),
            &Form::Token(Token::Word(Word::True)),
        ),
        &Form::When(
            Look::Word(Word::False),
            &Form::Shaped(
                Shape::Operand(Variant::Lit),
                &Form::Token(Token::Word(Word::False)),
            ),
            &Form::Part(Part::PRIMARY_6),
        ),
    ),
);

/// A part of `primary`.
static PRIMARY_1: Form = Form::Shaped(
    Shape::Chain,
    &Form::Then(
        &Form::Shaped(
            Shape::Operand(Variant::Path),
            &Form::Rule(Rule::PATH_AS_EXPRESSION),
        ),
        &Form::When(
            Look::Group(Delimiter::Brace),
            &Form::Shaped(
                Shape::Fields,
                &Form::Inside(Delimiter::Brace, &Form::Rule(Rule::LITERAL_FIELDS)),
            ),
            &Form::Empty,
        ),
    ),
);

/// A part of `primary`.
static PRIMARY_2: Form = Form::Shaped(
    Shape::Operand(Variant::Break),
    &Form::Then(
        &Form::Token(Token::Word(Word::Break)),
        &Form::Then(
            &Form::When(Look::Lifetime, &Form::Lifetime, &Form::Empty),
            &Form::When(
                Look::WholeExpression,
                &Form::Never(Fault::BreakValue),
                &Form::Empty,
            ),
        ),
    ),
);

/// A part of `primary`.
static PRIMARY_3: Form = Form::When(
    Look::Word(Word::Break),
    &Form::Part(Part::PRIMARY_2),
    &Form::When(
        Look::Word(Word::Continue),
        &Form::Shaped(
            Shape::Operand(Variant::Continue),
            &Form::Then(
                &Form::Token(Token::Word(Word::Continue)),
                &Form::When(Look::Lifetime, &Form::Lifetime, &Form::Empty),
            ),
        ),
        &Form::Part(Part::PRIMARY_1),
    ),
);

/// A part of `primary`.
static PRIMARY_4: Form = Form::When(
    Look::BlockLike,
    &Form::Rule(Rule::BLOCK_LIKE),
    &Form::When(
        Look::Word(Word::Return),
        &Form::Shaped(
            Shape::Operand(Variant::Return),
            &Form::Then(
                &Form::Token(Token::Word(Word::Return)),
                &Form::When(
                    Look::WholeExpression,
                    &Form::Rule(Rule::WHOLE_EXPRESSION),
                    &Form::Empty,
                ),
            ),
        ),
        &Form::Part(Part::PRIMARY_3),
    ),
);

/// A part of `primary`.
static PRIMARY_5: Form = Form::When(
    Look::Group(Delimiter::Bracket),
    &Form::Shaped(
        Shape::Bracketed,
        &Form::Inside(Delimiter::Bracket, &Form::Rule(Rule::ARRAY_CONTENT)),
    ),
    &Form::When(
        Look::Group(Delimiter::None),
        &Form::Shaped(
            Shape::Operand(Variant::Grouped),
            &Form::Inside(Delimiter::None, &Form::Rule(Rule::WHOLE_EXPRESSION)),
        ),
        &Form::Part(Part::PRIMARY_4),
    ),
);

/// A part of `primary`.
static PRIMARY_6: Form = Form::When(
    Look::AnyLiteral,
    &Form::Shaped(Shape::Operand(Variant::Lit), &Form::Token(Token::Literal)),
    &Form::When(
        Look::Macro,
        &Form::Shaped(
            Shape::Operand(Variant::Macro),
            &Form::Rule(Rule::MACRO_INVOCATION),
        ),
        &Form::When(
            Look::Group(Delimiter::Paren),
            &Form::Shaped(
                Shape::Bracketed,
                &Form::Inside(Delimiter::Paren, &Form::Rule(Rule::EXPRESSIONS)),
            ),
            &Form::Part(Part::PRIMARY_5),
        ),
    ),
);

/// The fields of a struct literal, separated by commas; a trailing comma is allowed. The last part, or the only one,
/// may be `..` and an expression; then nothing may follow.
static LITERAL_FIELDS: Form = Form::Shaped(
    Shape::Based,
    &Form::When(
        Look::Ended,
        &Form::Empty,
        &Form::Part(Part::LITERAL_FIELDS_1),
    ),
);

/// A part of `literal_fields`.
static LITERAL_FIELDS_1: Form = Form::When(
    Look::Mark(Mark::DotDot),
    &Form::Then(
        &Form::Mark(Mark::DotDot),
        &Form::Rule(Rule::WHOLE_EXPRESSION),
    ),
    &Form::Then(
        &Form::Rule(Rule::LITERAL_FIELD),
        &Form::When(
            Look::Mark(Mark::Comma),
            &Form::Then(&Form::Mark(Mark::Comma), &Form::Rule(Rule::LITERAL_FIELDS)),
            &Form::Empty,
        ),
    ),
);

/// A field of a struct literal: attributes; then a number, `:` and an expression, or a name, optionally with `:` and an
/// expression. An expression that a tree built by hand has at a name alone is not printed.
static LITERAL_FIELD: Form = Form::Then(
    &Form::Rule(Rule::ATTRIBUTES),
    &Form::When(
        Look::Integer,
        &Form::Then(
            &Form::Token(Token::Index),
            &Form::Then(
                &Form::Mark(Mark::Colon),
                &Form::Rule(Rule::WHOLE_EXPRESSION),
            ),
        ),
        &Form::Part(Part::LITERAL_FIELD_1),
    ),
);

/// A part of `literal_field`.
static LITERAL_FIELD_1: Form = Form::Then(
    &Form::Token(Token::Name),
    &Form::When(
        Look::Mark(Mark::Colon),
        &Form::Then(
            &Form::Mark(Mark::Colon),
            &Form::Rule(Rule::WHOLE_EXPRESSION),
        ),
        &Form::Unshown,
    ),
);

/// A block, or an expression that ends with one: `if`, an `unsafe` block, or a block or a loop with an optional label.
static BLOCK_LIKE: Form = Form::Shaped(
    Shape::Choice,
    &Form::When(
        Look::Word(Word::If),
        &Form::Rule(Rule::IF_EXPRESSION),
        &Form::When(
            Look::Word(Word::Unsafe),
            &Form::Shaped(
                Shape::Operand(Variant::Unsafe),
                &Form::Then(
                    &Form::Token(Token::Word(Word::Unsafe)),
                    &Form::Rule(Rule::BODY),
                ),
            ),
            &Form::Part(Part::BLOCK_LIKE_1),
        ),
    ),
);

/// A part of `block_like`.
static BLOCK_LIKE_1: Form = Form::Shaped(
    Shape::Labelled,
    &Form::Then(
        &Form::When(
            Look::Lifetime,
            &Form::Then(&Form::Lifetime, &Form::Mark(Mark::Colon)),
            &Form::Empty,
        ),
        &Form::When(
            Look::Group(Delimiter::Brace),
            &Form::Shaped(Shape::Operand(Variant::Block), &Form::Rule(Rule::BODY)),
            &Form::Rule(Rule::LOOP_EXPRESSION),
        ),
    ),
);

/// `if`: an expression, in which a path takes no braces, and a block; then, if `else` is next, `else` and a block or
/// another `if`.
static IF_EXPRESSION: Form = Form::Shaped(
    Shape::Operand(Variant::If),
    &Form::Then(
        &Form::Token(Token::Word(Word::If)),
        &Form::Then(
            &Form::Rule(Rule::WHOLE_EXPRESSION_HEAD),
            &Form::Then(
                &Form::Rule(Rule::BLOCK),
                &Form::When(
                    Look::Word(Word::Else),
                    &Form::Part(Part::IF_EXPRESSION_1),
                    &Form::Empty,
                ),
            ),
        ),
    ),
);

/// A part of `if_expression`.
static IF_EXPRESSION_1: Form = Form::Then(
    &Form::Token(Token::Word(Word::Else)),
    &Form::When(
        Look::Group(Delimiter::Brace),
        &Form::Shaped(
            Shape::Operand(Variant::Block),
            &Form::Then(
                &Form::When(
                    Look::Lifetime,
                    &Form::Never(Fault::Unexpected),
                    &Form::Empty,
                ),
                &Form::Rule(Rule::PLAIN_BODY),
            ),
        ),
        &Form::Rule(Rule::IF_EXPRESSION),
    ),
);

/// A loop: `loop` and a block; `while`, an expression and a block; or `for`, a pattern, `in`, an expression and a
/// block. In these expressions a path takes no braces.
static LOOP_EXPRESSION: Form = Form::Shaped(
    Shape::Choice,
    &Form::When(
        Look::Word(Word::Loop),
        &Form::Shaped(
            Shape::Operand(Variant::Loop),
            &Form::Then(
                &Form::Token(Token::Word(Word::Loop)),
                &Form::Rule(Rule::BODY),
            ),
        ),
        &Form::Part(Part::LOOP_EXPRESSION_2),
    ),
);

/// A part of `loop_expression`.
static LOOP_EXPRESSION_1: Form = Form::Shaped(
    Shape::Operand(Variant::ForLoop),
    &Form::Then(
        &Form::Token(Token::Word(Word::For)),
        &Form::Then(
            &Form::Rule(Rule::PATTERN),
            &Form::Then(
                &Form::TokenAt(Token::Word(Word::In), Place::Following),
                &Form::Then(
                    &Form::Rule(Rule::WHOLE_EXPRESSION_HEAD),
                    &Form::Rule(Rule::BODY),
                ),
            ),
        ),
    ),
);

/// A part of `loop_expression`.
static LOOP_EXPRESSION_2: Form = Form::When(
    Look::Word(Word::While),
    &Form::Shaped(
        Shape::Operand(Variant::While),
        &Form::Then(
            &Form::Token(Token::Word(Word::While)),
            &Form::Then(
                &Form::Rule(Rule::WHOLE_EXPRESSION_HEAD),
                &Form::Rule(Rule::BODY),
            ),
        ),
    ),
    &Form::Part(Part::LOOP_EXPRESSION_1),
);

/// The form of the rule at this place.
#[tactic(auto, using(std::proofs::lemmas::List::get_or_past), unfolding(crate::specs::Names::rule_of, crate::specs::Parts::part_form))]
pub(super) fn form_at(place: u8) -> &'static Form
    ensures { parse_form (grammar_of result.now) ≡ parse_form (table (blocks_rule place)) }
{
    match place {
        0 => &BLOCK,
        1 => &BODY,
        2 => &PLAIN_BODY,
        3 => &NO_INNER_ATTRIBUTES,
        4 => &PRIMARY,
        5 => &LITERAL_FIELDS,
        6 => &LITERAL_FIELD,
        7 => &BLOCK_LIKE,
        8 => &IF_EXPRESSION,
        _ => &LOOP_EXPRESSION,
    }
}

/// The form of the part at this place.
#[tactic(auto, using(std::proofs::lemmas::List::get_or_past), unfolding(crate::specs::Names::rule_of, crate::specs::Parts::part_form))]
pub(super) fn part_at(place: u8) -> &'static Form
    ensures { parse_form (grammar_of result.now) ≡ parse_form (blocks_part place) }
{
    match place {
        0 => &PRIMARY_1,
        1 => &PRIMARY_2,
        2 => &PRIMARY_3,
        3 => &PRIMARY_4,
        4 => &PRIMARY_5,
        5 => &PRIMARY_6,
        6 => &LITERAL_FIELDS_1,
        7 => &LITERAL_FIELD_1,
        8 => &BLOCK_LIKE_1,
        9 => &IF_EXPRESSION_1,
        10 => &LOOP_EXPRESSION_1,
        _ => &LOOP_EXPRESSION_2,
    }
}
