//! Written by tools/recognizers.py; edits are lost.
//!
//! Paths in types, and types.
ghost use Rattle.std.specs.Prelude.{◌≡◌};
ghost use Rattle.syn_grammar.specs.Run.{parse_form};
ghost use Rattle.syn_grammar.specs.Table.{table};
ghost use Rattle.syn_recognize.specs.Forms.{grammar_of};
ghost use Rattle.syn_recognize.specs.Names.{types_rule};
ghost use Rattle.syn_recognize.specs.Parts.{types_part};

use crate::fault::Fault;
use crate::form::Form;
use crate::left_out::Place;
use crate::list::List;
use crate::look::Look;
use crate::rules::{Part, Rule};
use crate::shape::{Shape, Variant};
use crate::token::Token;
use crate::words::{Mark, Word};
use syn_tokens::delimiter::Delimiter;

/// A path in a type: an optional `::`, then its words with their arguments.
static TYPE_PATH: Form = Form::Then(
    &Form::When(
        Look::Mark(Mark::PathSep),
        &Form::Mark(Mark::PathSep),
        &Form::Empty,
    ),
    &Form::Rule(Rule::TYPE_WORDS),
);

/// The words of a path in a type: each an identifier that isn't a keyword, or `Self`, with its arguments if they are
/// next; or `self`, `super` or `crate`; then, if `::` is next, that mark and more words.
static TYPE_WORDS: Form = Form::Then(
    &Form::Shaped(
        Shape::Untagged,
        &Form::When(
            Look::Or(&Look::Name, &Look::Word(Word::SelfType)),
            &Form::Part(Part::TYPE_WORDS_1),
            &Form::Then(
                &Form::TokenAt(Token::NameOrPathStart, Place::Type),
                &Form::Shaped(Shape::Untagged, &Form::Empty),
            ),
        ),
    ),
    &Form::Part(Part::TYPE_WORDS_2),
);

/// A part of `type_words`.
static TYPE_WORDS_1: Form = Form::Then(
    &Form::Token(Token::NameOrSelfType),
    &Form::Shaped(
        Shape::Untagged,
        &Form::When(
            Look::Arguments,
            &Form::Rule(Rule::TYPE_ARGUMENTS),
            &Form::Empty,
        ),
    ),
);

/// A part of `type_words`.
static TYPE_WORDS_2: Form = Form::When(
    Look::Mark(Mark::PathSep),
    &Form::Then(
        &Form::Mark(Mark::PathSep),
        &Form::Rule(Rule::MORE_TYPE_WORDS),
    ),
    &Form::Empty,
);

/// The words of a path in a type after `::`; they have the form of the first ones.
static MORE_TYPE_WORDS: Form = Form::Then(
    &Form::Shaped(
        Shape::Untagged,
        &Form::When(
            Look::Or(&Look::Name, &Look::Word(Word::SelfType)),
            &Form::Part(Part::MORE_TYPE_WORDS_1),
            &Form::Then(
                &Form::TokenAt(Token::NameOrPathStart, Place::Type),
                &Form::Shaped(Shape::Untagged, &Form::Empty),
            ),
        ),
    ),
    &Form::Part(Part::MORE_TYPE_WORDS_2),
);

/// A part of `more_type_words`.
static MORE_TYPE_WORDS_1: Form = Form::Then(
    &Form::Token(Token::NameOrSelfType),
    &Form::Shaped(
        Shape::Untagged,
        &Form::When(
            Look::Arguments,
            &Form::Rule(Rule::TYPE_ARGUMENTS),
            &Form::Empty,
        ),
    ),
);

/// A part of `more_type_words`.
static MORE_TYPE_WORDS_2: Form = Form::When(
    Look::Mark(Mark::PathSep),
    &Form::Then(
        &Form::Mark(Mark::PathSep),
        &Form::Rule(Rule::MORE_TYPE_WORDS),
    ),
    &Form::Empty,
);

/// The arguments of a word in a type's path: types in parentheses and a return type; or generic arguments in `< >`,
/// with an optional `::` before them. (A path parses this only if arguments are next.)
static TYPE_ARGUMENTS: Form = Form::When(
    Look::Group(Delimiter::Paren),
    &Form::Then(
        &Form::Inside(Delimiter::Paren, &Form::Rule(Rule::TYPES)),
        &Form::Rule(Rule::RETURN_TYPE),
    ),
    &Form::Then(
        &Form::When(
            Look::Mark(Mark::PathSep),
            &Form::Mark(Mark::PathSep),
            &Form::Empty,
        ),
        &Form::Rule(Rule::GENERIC_ARGUMENTS),
    ),
);

/// A return type: `->` and a type, or nothing.
static RETURN_TYPE: Form = Form::When(
    Look::Mark(Mark::RArrow),
    &Form::Then(&Form::Mark(Mark::RArrow), &Form::Rule(Rule::TYPE)),
    &Form::Empty,
);

/// Generic arguments in `< >`: lifetimes and others in any order, separated by commas; a trailing comma is allowed.
/// Lifetimes are printed first.
static GENERIC_ARGUMENTS: Form = Form::Ordered(List::Arguments);

/// A generic argument that isn't a lifetime: a name, `=` and a type, if `=` follows the name; a constant; or a type.
static GENERIC_ARGUMENT: Form = Form::When(
    Look::Association,
    &Form::Then(
        &Form::Token(Token::Name),
        &Form::Then(&Form::Mark(Mark::Eq), &Form::Rule(Rule::TYPE)),
    ),
    &Form::When(
        Look::Or(
            &Look::Group(Delimiter::Brace),
            &Look::Or(
                &Look::Word(Word::True),
                &Look::Or(&Look::Word(Word::False), &Look::AnyLiteral),
            ),
        ),
        &Form::Rule(Rule::CONSTANT),
        &Form::Rule(Rule::TYPE),
    ),
);

/// A qualified path in a type: in `< >` a type and optionally `as` and a path; then `::` and words. An `as` that a tree
/// built by hand has without a path is not printed.
static QUALIFIED_PATH: Form = Form::Then(
    &Form::Mark(Mark::Lt),
    &Form::Then(&Form::Rule(Rule::TYPE), &Form::Part(Part::QUALIFIED_PATH_1)),
);

/// A part of `qualified_path`.
static QUALIFIED_PATH_1: Form = Form::Then(
    &Form::When(
        Look::Word(Word::As),
        &Form::Then(
            &Form::Token(Token::Word(Word::As)),
            &Form::Rule(Rule::TYPE_PATH),
        ),
        &Form::Unshown,
    ),
    &Form::Then(
        &Form::Mark(Mark::Gt),
        &Form::Then(&Form::Mark(Mark::PathSep), &Form::Rule(Rule::TYPE_WORDS)),
    ),
);

/// A path as a type: a qualified path if `<` is next, else a path.
static PATH_AS_TYPE: Form = Form::When(
    Look::Mark(Mark::Lt),
    &Form::Rule(Rule::QUALIFIED_PATH),
    &Form::Rule(Rule::TYPE_PATH),
);

/// A type: a reference, with an optional lifetime and optional `mut`; a pointer, `const` or `mut`; a tuple or a type in
/// parentheses; a slice, or an array with an expression as its length; the never type; an invisible group that holds a
/// type; or a path, qualified or not.
static TYPE: Form = Form::When(
    Look::Mark(Mark::And),
    &Form::Part(Part::TYPE_3),
    &Form::When(
        Look::Mark(Mark::Star),
        &Form::Then(
            &Form::Mark(Mark::Star),
            &Form::Then(
                &Form::When(
                    Look::Word(Word::Const),
                    &Form::Token(Token::Word(Word::Const)),
                    &Form::Token(Token::Word(Word::Mut)),
                ),
                &Form::Rule(Rule::TYPE),
            ),
        ),
        &Form::Part(Part::TYPE_2),
    ),
);

/// A part of `type`.
static TYPE_1: Form = Form::Inside(
    Delimiter::Bracket,
    &Form::Then(
        &Form::Rule(Rule::TYPE),
        &Form::When(
            Look::Mark(Mark::Semi),
            &Form::Then(&Form::Mark(Mark::Semi), &Form::Rule(Rule::WHOLE_EXPRESSION)),
            &Form::Empty,
        ),
    ),
);

/// A part of `type`.
static TYPE_2: Form = Form::When(
    Look::Group(Delimiter::Paren),
    &Form::Inside(Delimiter::Paren, &Form::Rule(Rule::TYPES)),
    &Form::When(
        Look::Group(Delimiter::Bracket),
        &Form::Part(Part::TYPE_1),
        &Form::When(
            Look::Mark(Mark::Not),
            &Form::Mark(Mark::Not),
            &Form::When(
                Look::Group(Delimiter::None),
                &Form::Inside(Delimiter::None, &Form::Rule(Rule::TYPE)),
                &Form::Rule(Rule::PATH_AS_TYPE),
            ),
        ),
    ),
);

/// A part of `type`.
static TYPE_3: Form = Form::Then(
    &Form::Mark(Mark::And),
    &Form::Then(
        &Form::When(Look::Lifetime, &Form::Lifetime, &Form::Empty),
        &Form::Then(
            &Form::When(
                Look::Word(Word::Mut),
                &Form::Token(Token::Word(Word::Mut)),
                &Form::Empty,
            ),
            &Form::Rule(Rule::TYPE),
        ),
    ),
);

/// Types, separated by commas; a trailing comma is allowed.
static TYPES: Form = Form::When(
    Look::Ended,
    &Form::Empty,
    &Form::Then(
        &Form::Rule(Rule::TYPE),
        &Form::When(
            Look::Mark(Mark::Comma),
            &Form::Then(&Form::Mark(Mark::Comma), &Form::Rule(Rule::TYPES)),
            &Form::Empty,
        ),
    ),
);

/// A constant: a block, a literal, `true` or `false`. Its value is an expression, and no attributes are parsed before
/// it.
static CONSTANT: Form = Form::Shaped(
    Shape::Choice,
    &Form::When(
        Look::Group(Delimiter::Brace),
        &Form::Shaped(
            Shape::Operand(Variant::Block),
            &Form::Then(
                &Form::When(
                    Look::Lifetime,
                    &Form::Never(Fault::Unexpected),
                    &Form::Empty,
                ),
                &Form::Rule(Rule::PLAIN_BODY),
            ),
        ),
        &Form::Part(Part::CONSTANT_1),
    ),
);

/// A part of `constant`.
static CONSTANT_1: Form = Form::When(
    Look::Word(Word::True),
    &Form::Shaped(
        Shape::Operand(Variant::Lit),
        &Form::Token(Token::Word(Word::True)),
    ),
    &Form::When(
        Look::Word(Word::False),
        &Form::Shaped(
            Shape::Operand(Variant::Lit),
            &Form::Token(Token::Word(Word::False)),
        ),
        &Form::Shaped(Shape::Operand(Variant::Lit), &Form::Token(Token::Literal)),
    ),
);

/// The form of the rule at this place.
#[tactic(auto, using(std::proofs::lemmas::List::get_or_past), unfolding(crate::specs::Names::rule_of, crate::specs::Parts::part_form))]
pub(super) fn form_at(place: u8) -> &'static Form
    ensures { parse_form (grammar_of result.now) ≡ parse_form (table (types_rule place)) }
{
    match place {
        0 => &TYPE_PATH,
        1 => &TYPE_WORDS,
        2 => &MORE_TYPE_WORDS,
        3 => &TYPE_ARGUMENTS,
        4 => &RETURN_TYPE,
        5 => &GENERIC_ARGUMENTS,
        6 => &GENERIC_ARGUMENT,
        7 => &QUALIFIED_PATH,
        8 => &PATH_AS_TYPE,
        9 => &TYPE,
        10 => &TYPES,
        _ => &CONSTANT,
    }
}

/// The form of the part at this place.
#[tactic(auto, using(std::proofs::lemmas::List::get_or_past), unfolding(crate::specs::Names::rule_of, crate::specs::Parts::part_form))]
pub(super) fn part_at(place: u8) -> &'static Form
    ensures { parse_form (grammar_of result.now) ≡ parse_form (types_part place) }
{
    match place {
        0 => &TYPE_WORDS_1,
        1 => &TYPE_WORDS_2,
        2 => &MORE_TYPE_WORDS_1,
        3 => &MORE_TYPE_WORDS_2,
        4 => &QUALIFIED_PATH_1,
        5 => &TYPE_1,
        6 => &TYPE_2,
        7 => &TYPE_3,
        _ => &CONSTANT_1,
    }
}
