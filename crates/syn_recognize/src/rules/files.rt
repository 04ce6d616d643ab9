//! Written by tools/recognizers.py; edits are lost.
//!
//! Any items, and files.
ghost use Rattle.std.specs.Prelude.{◌≡◌};
ghost use Rattle.syn_grammar.specs.Run.{parse_form};
ghost use Rattle.syn_grammar.specs.Table.{table};
ghost use Rattle.syn_recognize.specs.Forms.{grammar_of};
ghost use Rattle.syn_recognize.specs.Names.{files_rule};

use crate::form::Form;
use crate::look::Look;
use crate::plan::Planned;
use crate::rules::Rule;

/// An item: one of its kinds, or one that is stored verbatim.
static ITEM: Form = Form::Planned(Planned::Item);

/// Items, to the end.
static ITEMS: Form = Form::When(
    Look::Ended,
    &Form::Empty,
    &Form::Then(&Form::Rule(Rule::ITEM), &Form::Rule(Rule::ITEMS)),
);

/// A file: inner attributes and items. A first line and a frontmatter that a tree built by hand has are not printed.
static FILE: Form = Form::Then(
    &Form::Unshown,
    &Form::Then(
        &Form::Unshown,
        &Form::Then(
            &Form::Rule(Rule::INNER_ATTRIBUTES),
            &Form::Rule(Rule::ITEMS),
        ),
    ),
);

/// The form of the rule at this place.
#[tactic(auto, using(std::proofs::lemmas::List::get_or_past), unfolding(crate::specs::Names::rule_of, crate::specs::Parts::part_form))]
pub(super) fn form_at(place: u8) -> &'static Form
    ensures { parse_form (grammar_of result.now) ≡ parse_form (table (files_rule place)) }
{
    match place {
        0 => &ITEM,
        1 => &ITEMS,
        _ => &FILE,
    }
}
