//! Written by tools/recognizers.py; edits are lost.
//!
//! Paths in expressions, macros and patterns.
ghost use Rattle.std.specs.Prelude.{◌≡◌};
ghost use Rattle.syn_grammar.specs.Run.{parse_form};
ghost use Rattle.syn_grammar.specs.Table.{table};
ghost use Rattle.syn_recognize.specs.Forms.{grammar_of};
ghost use Rattle.syn_recognize.specs.Names.{patterns_rule};
ghost use Rattle.syn_recognize.specs.Parts.{patterns_part};

use crate::fault::Fault;
use crate::form::Form;
use crate::left_out::Place;
use crate::look::Look;
use crate::rules::{Part, Rule};
use crate::shape::Shape;
use crate::token::Token;
use crate::words::{Mark, Word};
use syn_tokens::delimiter::Delimiter;

/// A path in an expression or a pattern: an optional `::`, then its words.
static EXPRESSION_PATH: Form = Form::Then(
    &Form::When(
        Look::Mark(Mark::PathSep),
        &Form::Mark(Mark::PathSep),
        &Form::Empty,
    ),
    &Form::Rule(Rule::EXPRESSION_WORDS),
);

/// The words of a path in an expression or a pattern: each an identifier that isn't a keyword, or `Self`, with its
/// arguments if `::` and `<` are next; or `self`, `super` or `crate`; then, if `::` is next, that mark and more words.
static EXPRESSION_WORDS: Form = Form::Then(
    &Form::Shaped(
        Shape::Untagged,
        &Form::When(
            Look::Or(&Look::Name, &Look::Word(Word::SelfType)),
            &Form::Part(Part::EXPRESSION_WORDS_1),
            &Form::Then(
                &Form::TokenAt(Token::NameOrPathStart, Place::Expression),
                &Form::Shaped(Shape::Untagged, &Form::Empty),
            ),
        ),
    ),
    &Form::Part(Part::EXPRESSION_WORDS_2),
);

/// A part of `expression_words`.
static EXPRESSION_WORDS_1: Form = Form::Then(
    &Form::Token(Token::NameOrSelfType),
    &Form::Shaped(
        Shape::Untagged,
        &Form::When(
            Look::Turbofish,
            &Form::Rule(Rule::TYPE_ARGUMENTS),
            &Form::Empty,
        ),
    ),
);

/// A part of `expression_words`.
static EXPRESSION_WORDS_2: Form = Form::When(
    Look::Mark(Mark::PathSep),
    &Form::Then(
        &Form::Mark(Mark::PathSep),
        &Form::Rule(Rule::EXPRESSION_WORDS),
    ),
    &Form::Empty,
);

/// A qualified path in an expression or a pattern: in `< >` a type and optionally `as` and a path; then `::` and words.
/// An `as` that a tree built by hand has without a path is not printed.
static QUALIFIED_EXPRESSION_PATH: Form = Form::Then(
    &Form::Mark(Mark::Lt),
    &Form::Then(
        &Form::Rule(Rule::TYPE),
        &Form::Part(Part::QUALIFIED_EXPRESSION_PATH_1),
    ),
);

/// A part of `qualified_expression_path`.
static QUALIFIED_EXPRESSION_PATH_1: Form = Form::Then(
    &Form::When(
        Look::Word(Word::As),
        &Form::Then(
            &Form::Token(Token::Word(Word::As)),
            &Form::Rule(Rule::TYPE_PATH),
        ),
        &Form::Unshown,
    ),
    &Form::Then(
        &Form::Mark(Mark::Gt),
        &Form::Then(
            &Form::Mark(Mark::PathSep),
            &Form::Rule(Rule::EXPRESSION_WORDS),
        ),
    ),
);

/// A path as an expression: a qualified path if `<` is next, else a path.
static PATH_AS_EXPRESSION: Form = Form::When(
    Look::Mark(Mark::Lt),
    &Form::Rule(Rule::QUALIFIED_EXPRESSION_PATH),
    &Form::Rule(Rule::EXPRESSION_PATH),
);

/// A macro: a path in module style, `!` that isn't `!=`, and a group of any content.
static MACRO_INVOCATION: Form = Form::Then(
    &Form::Rule(Rule::MODULE_PATH),
    &Form::Then(
        &Form::When(
            Look::Bang,
            &Form::Mark(Mark::Not),
            &Form::Never(Fault::Unexpected),
        ),
        &Form::When(
            Look::Group(Delimiter::Paren),
            &Form::Raw(Delimiter::Paren),
            &Form::When(
                Look::Group(Delimiter::Bracket),
                &Form::Raw(Delimiter::Bracket),
                &Form::Raw(Delimiter::Brace),
            ),
        ),
    ),
);

/// A pattern: `_`; a tuple or a pattern in parentheses; a path, qualified or not, optionally with patterns in
/// parentheses; or a name that no `::` follows, optionally after `ref`, `mut` or both.
static PATTERN: Form = Form::When(
    Look::Word(Word::Underscore),
    &Form::Token(Token::Word(Word::Underscore)),
    &Form::Part(Part::PATTERN_3),
);

/// A part of `pattern`.
static PATTERN_1: Form = Form::Then(
    &Form::When(
        Look::Word(Word::Ref),
        &Form::Token(Token::Word(Word::Ref)),
        &Form::Empty,
    ),
    &Form::Then(
        &Form::When(
            Look::Word(Word::Mut),
            &Form::Token(Token::Word(Word::Mut)),
            &Form::Empty,
        ),
        &Form::TokenAt(Token::Name, Place::Pattern),
    ),
);

/// A part of `pattern`.
static PATTERN_2: Form = Form::When(
    Look::Or(&Look::Word(Word::Ref), &Look::Word(Word::Mut)),
    &Form::Part(Part::PATTERN_1),
    &Form::Then(
        &Form::TokenAt(Token::Name, Place::Pattern),
        &Form::When(
            Look::Mark(Mark::PathSep),
            &Form::Never(Fault::Unexpected),
            &Form::Empty,
        ),
    ),
);

/// A part of `pattern`.
static PATTERN_3: Form = Form::When(
    Look::Group(Delimiter::Paren),
    &Form::Inside(Delimiter::Paren, &Form::Rule(Rule::PATTERNS)),
    &Form::When(
        Look::PatternPath,
        &Form::Then(
            &Form::Rule(Rule::PATH_AS_EXPRESSION),
            &Form::When(
                Look::Group(Delimiter::Paren),
                &Form::Inside(Delimiter::Paren, &Form::Rule(Rule::PATTERNS)),
                &Form::Empty,
            ),
        ),
        &Form::Part(Part::PATTERN_2),
    ),
);

/// Patterns, separated by commas; a trailing comma is allowed.
static PATTERNS: Form = Form::When(
    Look::Ended,
    &Form::Empty,
    &Form::Then(
        &Form::Rule(Rule::PATTERN),
        &Form::When(
            Look::Mark(Mark::Comma),
            &Form::Then(&Form::Mark(Mark::Comma), &Form::Rule(Rule::PATTERNS)),
            &Form::Empty,
        ),
    ),
);

/// The form of the rule at this place.
#[tactic(auto, using(std::proofs::lemmas::List::get_or_past), unfolding(crate::specs::Names::rule_of, crate::specs::Parts::part_form))]
pub(super) fn form_at(place: u8) -> &'static Form
    ensures { parse_form (grammar_of result.now) ≡ parse_form (table (patterns_rule place)) }
{
    match place {
        0 => &EXPRESSION_PATH,
        1 => &EXPRESSION_WORDS,
        2 => &QUALIFIED_EXPRESSION_PATH,
        3 => &PATH_AS_EXPRESSION,
        4 => &MACRO_INVOCATION,
        5 => &PATTERN,
        _ => &PATTERNS,
    }
}

/// The form of the part at this place.
#[tactic(auto, using(std::proofs::lemmas::List::get_or_past), unfolding(crate::specs::Names::rule_of, crate::specs::Parts::part_form))]
pub(super) fn part_at(place: u8) -> &'static Form
    ensures { parse_form (grammar_of result.now) ≡ parse_form (patterns_part place) }
{
    match place {
        0 => &EXPRESSION_WORDS_1,
        1 => &EXPRESSION_WORDS_2,
        2 => &QUALIFIED_EXPRESSION_PATH_1,
        3 => &PATTERN_1,
        4 => &PATTERN_2,
        _ => &PATTERN_3,
    }
}
