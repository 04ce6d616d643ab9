//! Written by tools/recognizers.py; edits are lost.
//!
//! Generics, bounds and where clauses.
ghost use Rattle.std.specs.Prelude.{◌≡◌};
ghost use Rattle.syn_grammar.specs.Run.{parse_form};
ghost use Rattle.syn_grammar.specs.Table.{table};
ghost use Rattle.syn_recognize.specs.Forms.{grammar_of};
ghost use Rattle.syn_recognize.specs.Names.{generics_rule};
ghost use Rattle.syn_recognize.specs.Parts.{generics_part};

use crate::fading::Fading;
use crate::form::Form;
use crate::look::Look;
use crate::rules::{Part, Rule};
use crate::token::Token;
use crate::words::{Mark, Word};
use syn_tokens::delimiter::Delimiter;

/// Generics, if `<` is next: lifetime parameters and others in any order, separated by commas; a trailing comma is
/// allowed. Lifetimes are printed first; without parameters nothing is printed.
static GENERICS: Form = Form::Generics;

/// A part of `generics`.
static GENERICS_1: Form = Form::Then(
    &Form::Token(Token::Name),
    &Form::Then(
        &Form::Mark(Mark::Colon),
        &Form::Then(
            &Form::Rule(Rule::TYPE),
            &Form::When(
                Look::Mark(Mark::Eq),
                &Form::Then(&Form::Mark(Mark::Eq), &Form::Rule(Rule::CONSTANT)),
                &Form::Empty,
            ),
        ),
    ),
);

/// A part of `generics`.
static GENERICS_2: Form = Form::Then(
    &Form::Token(Token::Name),
    &Form::Then(
        &Form::Fading(Fading::Bounds),
        &Form::When(
            Look::Mark(Mark::Eq),
            &Form::Then(&Form::Mark(Mark::Eq), &Form::Rule(Rule::TYPE)),
            &Form::Empty,
        ),
    ),
);

/// A part of `generics`.
static GENERICS_3: Form = Form::Then(
    &Form::Rule(Rule::ATTRIBUTES),
    &Form::When(
        Look::Word(Word::Const),
        &Form::Then(
            &Form::Token(Token::Word(Word::Const)),
            &Form::Part(Part::GENERICS_1),
        ),
        &Form::Part(Part::GENERICS_2),
    ),
);

/// A lifetime parameter: attributes, a lifetime, and an optional colon with lifetimes. Without lifetimes the colon
/// isn't printed.
static LIFETIME_PARAMETER: Form = Form::Then(
    &Form::Rule(Rule::ATTRIBUTES),
    &Form::Then(&Form::Lifetime, &Form::Fading(Fading::Lifetimes)),
);

/// Lifetimes, joined by `+`; the list may be empty, and may end with `+`.
static LIFETIMES: Form = Form::When(
    Look::Lifetime,
    &Form::Then(
        &Form::Lifetime,
        &Form::When(
            Look::Mark(Mark::Plus),
            &Form::Then(&Form::Mark(Mark::Plus), &Form::Rule(Rule::LIFETIMES)),
            &Form::Empty,
        ),
    ),
    &Form::Empty,
);

/// The bounds of a parameter, joined by `+`, up to a token that ends them at the start or after a `+`; the list may be
/// empty, and may end with `+`.
static PARAMETER_BOUNDS: Form = Form::When(
    Look::ParameterEnd,
    &Form::Empty,
    &Form::Then(
        &Form::Rule(Rule::BOUND),
        &Form::When(
            Look::Mark(Mark::Plus),
            &Form::Then(&Form::Mark(Mark::Plus), &Form::Rule(Rule::PARAMETER_BOUNDS)),
            &Form::Empty,
        ),
    ),
);

/// A bound: a lifetime, or a trait, alone or in parentheses.
static BOUND: Form = Form::When(
    Look::Lifetime,
    &Form::Lifetime,
    &Form::When(
        Look::Group(Delimiter::Paren),
        &Form::Inside(Delimiter::Paren, &Form::Rule(Rule::TRAIT_BOUND)),
        &Form::Rule(Rule::TRAIT_BOUND),
    ),
);

/// A trait as a bound: an optional `?`, an optional `for` with lifetimes, and a path.
static TRAIT_BOUND: Form = Form::Then(
    &Form::When(
        Look::Mark(Mark::Question),
        &Form::Mark(Mark::Question),
        &Form::Empty,
    ),
    &Form::Then(
        &Form::When(
            Look::Word(Word::For),
            &Form::Then(
                &Form::Token(Token::Word(Word::For)),
                &Form::Rule(Rule::BOUND_LIFETIMES),
            ),
            &Form::Empty,
        ),
        &Form::Rule(Rule::TYPE_PATH),
    ),
);

/// The lifetimes after `for`: lifetime parameters in `< >`.
static BOUND_LIFETIMES: Form = Form::Then(
    &Form::Mark(Mark::Lt),
    &Form::Then(
        &Form::Rule(Rule::LIFETIME_PARAMETERS),
        &Form::Mark(Mark::Gt),
    ),
);

/// Lifetime parameters up to `>`, separated by commas; a trailing comma is allowed.
static LIFETIME_PARAMETERS: Form = Form::When(
    Look::Mark(Mark::Gt),
    &Form::Empty,
    &Form::Then(
        &Form::Rule(Rule::LIFETIME_PARAMETER),
        &Form::When(
            Look::Mark(Mark::Comma),
            &Form::Then(
                &Form::Mark(Mark::Comma),
                &Form::Rule(Rule::LIFETIME_PARAMETERS),
            ),
            &Form::Empty,
        ),
    ),
);

/// A where clause, if `where` is next. Without predicates nothing is printed.
static WHERE_CLAUSE: Form = Form::Fading(Fading::Predicates);

/// The predicates of a where clause, separated by commas, up to a token that ends them at the start or after a comma; a
/// trailing comma is allowed.
static PREDICATES: Form = Form::When(
    Look::PredicateEnd,
    &Form::Empty,
    &Form::Then(
        &Form::Rule(Rule::PREDICATE),
        &Form::When(
            Look::Mark(Mark::Comma),
            &Form::Then(&Form::Mark(Mark::Comma), &Form::Rule(Rule::PREDICATES)),
            &Form::Empty,
        ),
    ),
);

/// A predicate: a lifetime, a colon and lifetimes; or an optional `for` with lifetimes, a type, a colon and bounds.
static PREDICATE: Form = Form::When(
    Look::Lifetime,
    &Form::Then(
        &Form::Lifetime,
        &Form::Then(&Form::Mark(Mark::Colon), &Form::Rule(Rule::LIFETIMES)),
    ),
    &Form::Part(Part::PREDICATE_1),
);

/// A part of `predicate`.
static PREDICATE_1: Form = Form::Then(
    &Form::When(
        Look::Word(Word::For),
        &Form::Then(
            &Form::Token(Token::Word(Word::For)),
            &Form::Rule(Rule::BOUND_LIFETIMES),
        ),
        &Form::Empty,
    ),
    &Form::Then(
        &Form::Rule(Rule::TYPE),
        &Form::Then(
            &Form::Mark(Mark::Colon),
            &Form::Rule(Rule::PREDICATE_BOUNDS),
        ),
    ),
);

/// The bounds of a predicate, joined by `+`, up to a token that ends them at the start or after a `+`; the list may be
/// empty, and may end with `+`.
static PREDICATE_BOUNDS: Form = Form::When(
    Look::PredicateEnd,
    &Form::Empty,
    &Form::Then(
        &Form::Rule(Rule::BOUND),
        &Form::When(
            Look::Mark(Mark::Plus),
            &Form::Then(&Form::Mark(Mark::Plus), &Form::Rule(Rule::PREDICATE_BOUNDS)),
            &Form::Empty,
        ),
    ),
);

/// The form of the rule at this place.
#[tactic(auto, using(std::proofs::lemmas::List::get_or_past), unfolding(crate::specs::Names::rule_of, crate::specs::Parts::part_form))]
pub(super) fn form_at(place: u8) -> &'static Form
    ensures { parse_form (grammar_of result.now) ≡ parse_form (table (generics_rule place)) }
{
    match place {
        0 => &GENERICS,
        1 => &LIFETIME_PARAMETER,
        2 => &LIFETIMES,
        3 => &PARAMETER_BOUNDS,
        4 => &BOUND,
        5 => &TRAIT_BOUND,
        6 => &BOUND_LIFETIMES,
        7 => &LIFETIME_PARAMETERS,
        8 => &WHERE_CLAUSE,
        9 => &PREDICATES,
        10 => &PREDICATE,
        _ => &PREDICATE_BOUNDS,
    }
}

/// The form of the part at this place.
#[tactic(auto, using(std::proofs::lemmas::List::get_or_past), unfolding(crate::specs::Names::rule_of, crate::specs::Parts::part_form))]
pub(super) fn part_at(place: u8) -> &'static Form
    ensures { parse_form (grammar_of result.now) ≡ parse_form (generics_part place) }
{
    match place {
        0 => &GENERICS_1,
        1 => &GENERICS_2,
        2 => &GENERICS_3,
        _ => &PREDICATE_1,
    }
}
