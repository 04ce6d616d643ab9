//! Lists in `< >`: which members are printed first, and which are not.
ghost use Rattle.std.specs.Prelude.{◌≡◌};
ghost use Rattle.syn_grammar.specs.Run.{parse_rule};
ghost use Rattle.syn_grammar.specs.Rules.{attributes};
ghost use Rattle.syn_recognize.specs.Forms.{grammar_of};
ghost use Rattle.syn_recognize.specs.Ordered.{first_form, other_form, Settles, LeadsTo};

use crate::form::Form;
use crate::rules::{Part, Rule};
use syn_parse::buffer::ParseBuffer;
use syn_tokens::lifetime::Lifetime;
use syn_tokens::token::{Pound, kind};

/// A list in `< >`, of members that are printed first, and others.
#[derive(Clone, Copy)]
pub enum List {
    /// Lifetimes, and other arguments.
    Arguments,
    /// Lifetime parameters, and other parameters.
    Parameters,
}

static LIFETIME: Form = Form::Lifetime;

static ARGUMENT: Form = Form::Rule(Rule::GENERIC_ARGUMENT);

static LIFETIME_PARAMETER: Form = Form::Rule(Rule::LIFETIME_PARAMETER);

static PARAMETER: Form = Form::Part(Part::GENERICS_3);

/// The form of the members that are printed first.
#[tactic(auto, unfolding(crate::specs::Names::rule_of))]
pub(crate) fn first_of(list: List) -> &'static Form
    ensures { grammar_of result.now ≡ first_form list }
{
    match list {
        List::Arguments => &LIFETIME,
        List::Parameters => &LIFETIME_PARAMETER,
    }
}

/// The form of the others.
#[tactic(auto, unfolding(crate::specs::Names::rule_of, crate::specs::Parts::part_form))]
pub(crate) fn other_of(list: List) -> &'static Form
    ensures { grammar_of result.now ≡ other_form list }
{
    match list {
        List::Arguments => &ARGUMENT,
        List::Parameters => &PARAMETER,
    }
}

/// Whether the next member is one that is printed first.
#[tactic(auto, using(crate::proofs::Ordered::arguments_known, crate::proofs::Ordered::parameters_known))]
pub(crate) fn at_first(list: List, input: &ParseBuffer<'_>) -> bool
    ensures { Settles list input.now result }
{
    match list {
        List::Arguments => input.peek::<Lifetime>(),
        List::Parameters => at_lifetime_parameter(input),
    }
}

/// Whether a lifetime follows the attributes that are next.
fn at_lifetime_parameter(input: &ParseBuffer<'_>) -> bool
    ensures { LeadsTo (parse_rule attributes input.now) result }
{
    let mut ahead = input.fork();
    'attributes: while ahead.peek::<Pound>() {
        ahead = ahead.past();
        let Ok((_brackets, _content)) = ahead.read_group::<kind::Bracket>() else {
            return false;
        };
    }
    ahead.peek::<Lifetime>()
}
