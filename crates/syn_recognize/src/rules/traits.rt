//! Written by tools/recognizers.py; edits are lost.
//!
//! Traits.
ghost use Rattle.std.specs.Prelude.{◌≡◌};
ghost use Rattle.syn_grammar.specs.Run.{parse_form};
ghost use Rattle.syn_grammar.specs.Table.{table};
ghost use Rattle.syn_recognize.specs.Forms.{grammar_of};
ghost use Rattle.syn_recognize.specs.Names.{traits_rule};
ghost use Rattle.syn_recognize.specs.Parts.{traits_part};

use crate::fading::Fading;
use crate::fault::Fault;
use crate::form::Form;
use crate::look::Look;
use crate::rules::{Part, Rule};
use crate::token::Token;
use crate::words::{Mark, Word};
use syn_tokens::delimiter::Delimiter;

/// The bounds of a trait, joined by `+`, up to a token that ends them at the start or after a `+`; the list may be
/// empty, and may end with `+`.
static SUPERTRAITS: Form = Form::When(
    Look::Or(&Look::Word(Word::Where), &Look::Group(Delimiter::Brace)),
    &Form::Empty,
    &Form::Then(
        &Form::Rule(Rule::BOUND),
        &Form::When(
            Look::Mark(Mark::Plus),
            &Form::Then(&Form::Mark(Mark::Plus), &Form::Rule(Rule::SUPERTRAITS)),
            &Form::Empty,
        ),
    ),
);

/// A trait from `unsafe` on: `unsafe` and `auto`, both optional, `trait`, a name, generics, an optional colon with
/// bounds, a where clause, and inner attributes and members in braces. Without bounds the colon isn't printed.
static BARE_TRAIT: Form = Form::Then(
    &Form::When(
        Look::Word(Word::Unsafe),
        &Form::Token(Token::Word(Word::Unsafe)),
        &Form::Empty,
    ),
    &Form::Part(Part::BARE_TRAIT_2),
);

/// A part of `bare_trait`.
static BARE_TRAIT_1: Form = Form::Then(
    &Form::Rule(Rule::GENERICS),
    &Form::Then(
        &Form::Fading(Fading::Supertraits),
        &Form::Then(
            &Form::Rule(Rule::WHERE_CLAUSE),
            &Form::Inside(
                Delimiter::Brace,
                &Form::Then(
                    &Form::Rule(Rule::INNER_ATTRIBUTES),
                    &Form::Rule(Rule::TRAIT_ITEMS),
                ),
            ),
        ),
    ),
);

/// A part of `bare_trait`.
static BARE_TRAIT_2: Form = Form::Then(
    &Form::When(
        Look::Word(Word::Auto),
        &Form::Token(Token::Word(Word::Auto)),
        &Form::Empty,
    ),
    &Form::Then(
        &Form::Token(Token::Word(Word::Trait)),
        &Form::Then(&Form::Token(Token::Name), &Form::Part(Part::BARE_TRAIT_1)),
    ),
);

/// A trait with its attributes.
static TRAIT_DEFINITION: Form = Form::Then(
    &Form::Rule(Rule::ATTRIBUTES),
    &Form::Rule(Rule::TRAIT_DEFINITION_REST),
);

/// A trait after its attributes: a visibility, an optional `const`, and the trait.
static TRAIT_DEFINITION_REST: Form = Form::Then(
    &Form::Rule(Rule::VISIBILITY),
    &Form::Then(
        &Form::When(
            Look::Word(Word::Const),
            &Form::Token(Token::Word(Word::Const)),
            &Form::Empty,
        ),
        &Form::Rule(Rule::BARE_TRAIT),
    ),
);

/// A trait alias with `const`, which is stored verbatim, after its attributes: a visibility, `const`, and the alias.
static CONST_ALIAS: Form = Form::Then(
    &Form::Rule(Rule::VISIBILITY),
    &Form::Then(
        &Form::Token(Token::Word(Word::Const)),
        &Form::Rule(Rule::ALIAS),
    ),
);

/// A trait with a restriction, which is stored verbatim, after its attributes: a visibility, `impl`, the restriction in
/// parentheses, an optional `const`, and the trait.
static RESTRICTED_TRAIT: Form = Form::Then(
    &Form::Rule(Rule::VISIBILITY),
    &Form::Then(
        &Form::Token(Token::Word(Word::Impl)),
        &Form::Part(Part::RESTRICTED_TRAIT_1),
    ),
);

/// A part of `restricted_trait`.
static RESTRICTED_TRAIT_1: Form = Form::Then(
    &Form::When(
        Look::Restriction,
        &Form::Inside(Delimiter::Paren, &Form::Rule(Rule::RESTRICTION)),
        &Form::Never(Fault::Unexpected),
    ),
    &Form::Then(
        &Form::When(
            Look::Word(Word::Const),
            &Form::Token(Token::Word(Word::Const)),
            &Form::Empty,
        ),
        &Form::Rule(Rule::BARE_TRAIT),
    ),
);

/// The form of the rule at this place.
#[tactic(auto, using(std::proofs::lemmas::List::get_or_past), unfolding(crate::specs::Names::rule_of, crate::specs::Parts::part_form))]
pub(super) fn form_at(place: u8) -> &'static Form
    ensures { parse_form (grammar_of result.now) ≡ parse_form (table (traits_rule place)) }
{
    match place {
        0 => &SUPERTRAITS,
        1 => &BARE_TRAIT,
        2 => &TRAIT_DEFINITION,
        3 => &TRAIT_DEFINITION_REST,
        4 => &CONST_ALIAS,
        _ => &RESTRICTED_TRAIT,
    }
}

/// The form of the part at this place.
#[tactic(auto, using(std::proofs::lemmas::List::get_or_past), unfolding(crate::specs::Names::rule_of, crate::specs::Parts::part_form))]
pub(super) fn part_at(place: u8) -> &'static Form
    ensures { parse_form (grammar_of result.now) ≡ parse_form (traits_part place) }
{
    match place {
        0 => &BARE_TRAIT_1,
        1 => &BARE_TRAIT_2,
        _ => &RESTRICTED_TRAIT_1,
    }
}
