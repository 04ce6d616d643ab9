//! Written by tools/recognizers.py; edits are lost.
//!
//! Visibilities.
ghost use Rattle.std.specs.Prelude.{◌≡◌};
ghost use Rattle.syn_grammar.specs.Run.{parse_form};
ghost use Rattle.syn_grammar.specs.Table.{table};
ghost use Rattle.syn_recognize.specs.Forms.{grammar_of};
ghost use Rattle.syn_recognize.specs.Names.{visibilities_rule};

use crate::form::Form;
use crate::look::Look;
use crate::rules::Rule;
use crate::token::Token;
use crate::words::Word;
use syn_tokens::delimiter::Delimiter;

/// A visibility: `pub` with its restriction in parentheses, `pub` alone, or nothing. Parentheses belong to it if they
/// hold `crate`, `self` or `super` alone, or begin with `in`; then they must hold a restriction. Other parentheses are
/// not consumed. An empty invisible group represents an omitted visibility and is never printed.
static VISIBILITY: Form = Form::When(
    Look::Word(Word::Pub),
    &Form::Then(
        &Form::Token(Token::Word(Word::Pub)),
        &Form::When(
            Look::Restriction,
            &Form::Inside(Delimiter::Paren, &Form::Rule(Rule::RESTRICTION)),
            &Form::Empty,
        ),
    ),
    &Form::Hidden(
        &Look::EmptyGroup,
        &Form::Inside(Delimiter::None, &Form::Empty),
    ),
);

/// The content of a visibility's parentheses: an optional `in`, and a path in module style. (A visibility parses this
/// only before `in`, or if `crate`, `self` or `super` is alone in the parentheses.)
static RESTRICTION: Form = Form::Then(
    &Form::When(
        Look::Word(Word::In),
        &Form::Token(Token::Word(Word::In)),
        &Form::Empty,
    ),
    &Form::Rule(Rule::MODULE_PATH),
);

/// The form of the rule at this place.
#[tactic(auto, using(std::proofs::lemmas::List::get_or_past), unfolding(crate::specs::Names::rule_of, crate::specs::Parts::part_form))]
pub(super) fn form_at(place: u8) -> &'static Form
    ensures { parse_form (grammar_of result.now) ≡ parse_form (table (visibilities_rule place)) }
{
    match place {
        0 => &VISIBILITY,
        _ => &RESTRICTION,
    }
}
