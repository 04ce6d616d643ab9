//! Written by tools/recognizers.py; edits are lost.
//!
//! Attributes, and paths in module style.
ghost use Rattle.std.specs.Prelude.{◌≡◌};
ghost use Rattle.syn_grammar.specs.Run.{parse_form};
ghost use Rattle.syn_grammar.specs.Table.{table};
ghost use Rattle.syn_recognize.specs.Forms.{grammar_of};
ghost use Rattle.syn_recognize.specs.Names.{attributes_rule};

use crate::fault::Fault;
use crate::form::Form;
use crate::look::Look;
use crate::rules::Rule;
use crate::shape::Shape;
use crate::token::Token;
use crate::words::{Mark, Word};
use syn_tokens::delimiter::Delimiter;

/// Outer attributes: while `#` is next, `#` and a group in brackets with the attribute's meta. Inner attributes that a
/// tree built by hand has at a node without a place for them are not printed.
static ATTRIBUTES: Form = Form::When(
    Look::Mark(Mark::Pound),
    &Form::Then(
        &Form::Then(
            &Form::Mark(Mark::Pound),
            &Form::Inside(Delimiter::Bracket, &Form::Rule(Rule::META)),
        ),
        &Form::Rule(Rule::ATTRIBUTES),
    ),
    &Form::Unshown,
);

/// Inner attributes: while `#` followed by `!` is next, both and a group in brackets with the attribute's meta. Outer
/// attributes that a tree built by hand has among them are not printed.
static INNER_ATTRIBUTES: Form = Form::When(
    Look::InnerAttribute,
    &Form::Then(
        &Form::Then(
            &Form::Mark(Mark::Pound),
            &Form::Then(
                &Form::Mark(Mark::Not),
                &Form::Inside(Delimiter::Bracket, &Form::Rule(Rule::META)),
            ),
        ),
        &Form::Rule(Rule::INNER_ATTRIBUTES),
    ),
    &Form::Unshown,
);

/// The meta of an attribute: a path in module style or `unsafe`, and its value.
static META: Form = Form::Then(
    &Form::Shaped(
        Shape::Untagged,
        &Form::When(
            Look::Word(Word::Unsafe),
            &Form::Rule(Rule::UNSAFE_PATH),
            &Form::Rule(Rule::MODULE_PATH),
        ),
    ),
    &Form::Rule(Rule::META_VALUE),
);

/// The word `unsafe` as a path of one word. (A meta parses this only if `unsafe` is next.)
static UNSAFE_PATH: Form = Form::Then(
    &Form::When(
        Look::Mark(Mark::PathSep),
        &Form::Never(Fault::Unexpected),
        &Form::Empty,
    ),
    &Form::Rule(Rule::UNSAFE_WORD),
);

/// The word `unsafe`, not followed by `::`.
static UNSAFE_WORD: Form = Form::Then(
    &Form::Shaped(
        Shape::Untagged,
        &Form::Then(
            &Form::Token(Token::Word(Word::Unsafe)),
            &Form::Shaped(Shape::Untagged, &Form::Empty),
        ),
    ),
    &Form::When(
        Look::Mark(Mark::PathSep),
        &Form::Never(Fault::Unexpected),
        &Form::Empty,
    ),
);

/// The value of an attribute: a group of any content; or `=` and all remaining tokens, at least one token tree; or
/// nothing.
static META_VALUE: Form = Form::When(
    Look::Group(Delimiter::Paren),
    &Form::Raw(Delimiter::Paren),
    &Form::When(
        Look::Group(Delimiter::Brace),
        &Form::Raw(Delimiter::Brace),
        &Form::When(
            Look::Group(Delimiter::Bracket),
            &Form::Raw(Delimiter::Bracket),
            &Form::When(
                Look::Mark(Mark::Eq),
                &Form::RestAfter(Mark::Eq),
                &Form::Empty,
            ),
        ),
    ),
);

/// A path in module style: an optional `::`, then the words of the path.
static MODULE_PATH: Form = Form::Then(
    &Form::When(
        Look::Mark(Mark::PathSep),
        &Form::Mark(Mark::PathSep),
        &Form::Empty,
    ),
    &Form::Rule(Rule::MODULE_WORDS),
);

/// The words of a path: an identifier that isn't a keyword, `self`, `Self`, `super` or `crate`; then, if `::` is next,
/// that mark and the remaining words.
static MODULE_WORDS: Form = Form::Then(
    &Form::Shaped(
        Shape::Untagged,
        &Form::Then(
            &Form::Token(Token::PathWord),
            &Form::Shaped(Shape::Untagged, &Form::Empty),
        ),
    ),
    &Form::When(
        Look::Mark(Mark::PathSep),
        &Form::Then(&Form::Mark(Mark::PathSep), &Form::Rule(Rule::MODULE_WORDS)),
        &Form::Empty,
    ),
);

/// The form of the rule at this place.
#[tactic(auto, using(std::proofs::lemmas::List::get_or_past), unfolding(crate::specs::Names::rule_of, crate::specs::Parts::part_form))]
pub(super) fn form_at(place: u8) -> &'static Form
    ensures { parse_form (grammar_of result.now) ≡ parse_form (table (attributes_rule place)) }
{
    match place {
        0 => &ATTRIBUTES,
        1 => &INNER_ATTRIBUTES,
        2 => &META,
        3 => &UNSAFE_PATH,
        4 => &UNSAFE_WORD,
        5 => &META_VALUE,
        6 => &MODULE_PATH,
        _ => &MODULE_WORDS,
    }
}
