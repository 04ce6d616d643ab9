//! Written by tools/recognizers.py; edits are lost.
//!
//! Foreign modules.
ghost use Rattle.std.specs.Prelude.{◌≡◌};
ghost use Rattle.syn_grammar.specs.Run.{parse_form};
ghost use Rattle.syn_grammar.specs.Table.{table};
ghost use Rattle.syn_recognize.specs.Forms.{grammar_of};
ghost use Rattle.syn_recognize.specs.Names.{foreign_rule};

use crate::fault::Fault;
use crate::form::Form;
use crate::look::Look;
use crate::rules::Rule;
use crate::token::Token;
use crate::words::{Mark, Word};
use syn_tokens::delimiter::Delimiter;

/// A foreign module with its attributes.
static FOREIGN_MODULE: Form = Form::Then(
    &Form::Rule(Rule::ATTRIBUTES),
    &Form::Rule(Rule::FOREIGN_MODULE_REST),
);

/// A foreign module after its attributes: an optional `unsafe`, an ABI, and inner attributes and members in braces.
static FOREIGN_MODULE_REST: Form = Form::Then(
    &Form::When(
        Look::Word(Word::Unsafe),
        &Form::Token(Token::Word(Word::Unsafe)),
        &Form::Empty,
    ),
    &Form::Then(
        &Form::Rule(Rule::ABI),
        &Form::Inside(
            Delimiter::Brace,
            &Form::Then(
                &Form::Rule(Rule::INNER_ATTRIBUTES),
                &Form::Rule(Rule::FOREIGN_ITEMS),
            ),
        ),
    ),
);

/// A macro as a member of a trait, an impl or a foreign module, after its attributes: a path in module style, `!` that
/// isn't `!=`, and a group of any content, followed by `;` unless it is in braces.
static MEMBER_MACRO: Form = Form::Then(
    &Form::Rule(Rule::MODULE_PATH),
    &Form::Then(
        &Form::When(
            Look::Bang,
            &Form::Mark(Mark::Not),
            &Form::Never(Fault::Unexpected),
        ),
        &Form::Rule(Rule::MACRO_END),
    ),
);

/// The form of the rule at this place.
#[tactic(auto, using(std::proofs::lemmas::List::get_or_past), unfolding(crate::specs::Names::rule_of, crate::specs::Parts::part_form))]
pub(super) fn form_at(place: u8) -> &'static Form
    ensures { parse_form (grammar_of result.now) ≡ parse_form (table (foreign_rule place)) }
{
    match place {
        0 => &FOREIGN_MODULE,
        1 => &FOREIGN_MODULE_REST,
        _ => &MEMBER_MACRO,
    }
}
