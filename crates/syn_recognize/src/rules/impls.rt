//! Written by tools/recognizers.py; edits are lost.
//!
//! Impls.
ghost use Rattle.std.specs.Prelude.{◌≡◌};
ghost use Rattle.syn_grammar.specs.Run.{parse_form};
ghost use Rattle.syn_grammar.specs.Table.{table};
ghost use Rattle.syn_recognize.specs.Forms.{grammar_of};
ghost use Rattle.syn_recognize.specs.Names.{impls_rule};
ghost use Rattle.syn_recognize.specs.Parts.{impls_part};

use crate::fault::Fault;
use crate::form::Form;
use crate::list::List;
use crate::look::Look;
use crate::plan::Planned;
use crate::rules::{Part, Rule};
use crate::token::Token;
use crate::words::{Mark, Word};
use syn_tokens::delimiter::Delimiter;

/// The self type of an impl after `for`. (If its print would be parsed as generics, the empty generics of the impl are
/// printed.)
static SELF_TYPE: Form = Form::Rule(Rule::TYPE);

/// `for` and the self type.
static FOR_SELF_TYPE: Form = Form::Then(
    &Form::Token(Token::Word(Word::For)),
    &Form::Only(Rule::SELF_TYPE),
);

/// The end of an impl: a where clause, and inner attributes and members in braces.
static IMPL_BODY: Form = Form::Then(
    &Form::Rule(Rule::WHERE_CLAUSE),
    &Form::Inside(
        Delimiter::Brace,
        &Form::Then(
            &Form::Rule(Rule::INNER_ATTRIBUTES),
            &Form::Rule(Rule::IMPL_ITEMS),
        ),
    ),
);

/// An impl with its attributes.
static IMPL_DEFINITION: Form = Form::Then(
    &Form::Rule(Rule::ATTRIBUTES),
    &Form::Rule(Rule::IMPL_DEFINITION_REST),
);

/// An impl after its attributes: `default`, `const` and `unsafe`, all optional, `impl` and generics; then the never
/// type, `!` and a path with `for` and a type, a path with an optional `for` and type, or a type that is no plain path;
/// and its end.
static IMPL_DEFINITION_REST: Form = Form::Planned(Planned::ImplDefinitionRest);

/// An impl for a type whose first type is no plain path, after its attributes. This rule itself stores it verbatim:
/// printed anew, its first type might be parsed as generics.
static ODD_IMPL: Form = Form::Captured(&Form::Then(
    &Form::When(
        Look::Word(Word::Default),
        &Form::Token(Token::Word(Word::Default)),
        &Form::Empty,
    ),
    &Form::Part(Part::ODD_IMPL_4),
));

/// A part of `odd_impl`.
static ODD_IMPL_1: Form = Form::When(
    Look::Group(Delimiter::Brace),
    &Form::Never(Fault::Unexpected),
    &Form::When(
        Look::Or(&Look::PathWord, &Look::Mark(Mark::PathSep)),
        &Form::Never(Fault::Unexpected),
        &Form::Then(
            &Form::Rule(Rule::TYPE),
            &Form::Then(
                &Form::Rule(Rule::FOR_SELF_TYPE),
                &Form::Rule(Rule::IMPL_BODY),
            ),
        ),
    ),
);

/// A part of `odd_impl`.
static ODD_IMPL_2: Form = Form::When(
    Look::Or(&Look::PathWord, &Look::Mark(Mark::PathSep)),
    &Form::Never(Fault::Unexpected),
    &Form::Then(
        &Form::Rule(Rule::TYPE),
        &Form::Then(
            &Form::Rule(Rule::FOR_SELF_TYPE),
            &Form::Rule(Rule::IMPL_BODY),
        ),
    ),
);

/// A part of `odd_impl`.
static ODD_IMPL_3: Form = Form::Then(
    &Form::Token(Token::Word(Word::Impl)),
    &Form::Then(
        &Form::When(
            Look::Generics,
            &Form::Ordered(List::Parameters),
            &Form::Empty,
        ),
        &Form::When(
            Look::Mark(Mark::Not),
            &Form::Then(&Form::Mark(Mark::Not), &Form::Part(Part::ODD_IMPL_1)),
            &Form::Part(Part::ODD_IMPL_2),
        ),
    ),
);

/// A part of `odd_impl`.
static ODD_IMPL_4: Form = Form::Then(
    &Form::When(
        Look::Word(Word::Const),
        &Form::Token(Token::Word(Word::Const)),
        &Form::Empty,
    ),
    &Form::Then(
        &Form::When(
            Look::Word(Word::Unsafe),
            &Form::Token(Token::Word(Word::Unsafe)),
            &Form::Empty,
        ),
        &Form::Part(Part::ODD_IMPL_3),
    ),
);

/// An impl with a visibility and `const`, after its attributes, with any first type. This rule itself stores it
/// verbatim.
static VISIBLE_CONST_IMPL: Form = Form::Captured(&Form::Then(
    &Form::Token(Token::Word(Word::Pub)),
    &Form::Then(
        &Form::When(
            Look::Restriction,
            &Form::Inside(Delimiter::Paren, &Form::Rule(Rule::RESTRICTION)),
            &Form::Empty,
        ),
        &Form::Then(
            &Form::Token(Token::Word(Word::Const)),
            &Form::Part(Part::VISIBLE_CONST_IMPL_3),
        ),
    ),
));

/// A part of `visible_const_impl`.
static VISIBLE_CONST_IMPL_1: Form = Form::Then(
    &Form::Mark(Mark::Not),
    &Form::When(
        Look::Group(Delimiter::Brace),
        &Form::Rule(Rule::IMPL_BODY),
        &Form::Then(
            &Form::Rule(Rule::TYPE),
            &Form::Then(
                &Form::Rule(Rule::FOR_SELF_TYPE),
                &Form::Rule(Rule::IMPL_BODY),
            ),
        ),
    ),
);

/// A part of `visible_const_impl`.
static VISIBLE_CONST_IMPL_2: Form = Form::When(
    Look::Mark(Mark::Not),
    &Form::Part(Part::VISIBLE_CONST_IMPL_1),
    &Form::Then(
        &Form::Rule(Rule::TYPE),
        &Form::Then(
            &Form::When(
                Look::Word(Word::For),
                &Form::Rule(Rule::FOR_SELF_TYPE),
                &Form::Empty,
            ),
            &Form::Rule(Rule::IMPL_BODY),
        ),
    ),
);

/// A part of `visible_const_impl`.
static VISIBLE_CONST_IMPL_3: Form = Form::Then(
    &Form::When(
        Look::Word(Word::Unsafe),
        &Form::Token(Token::Word(Word::Unsafe)),
        &Form::Empty,
    ),
    &Form::Then(
        &Form::Token(Token::Word(Word::Impl)),
        &Form::Then(
            &Form::When(
                Look::Generics,
                &Form::Ordered(List::Parameters),
                &Form::Empty,
            ),
            &Form::Part(Part::VISIBLE_CONST_IMPL_2),
        ),
    ),
);

/// The form of the rule at this place.
#[tactic(auto, using(std::proofs::lemmas::List::get_or_past), unfolding(crate::specs::Names::rule_of, crate::specs::Parts::part_form))]
pub(super) fn form_at(place: u8) -> &'static Form
    ensures { parse_form (grammar_of result.now) ≡ parse_form (table (impls_rule place)) }
{
    match place {
        0 => &SELF_TYPE,
        1 => &FOR_SELF_TYPE,
        2 => &IMPL_BODY,
        3 => &IMPL_DEFINITION,
        4 => &IMPL_DEFINITION_REST,
        5 => &ODD_IMPL,
        _ => &VISIBLE_CONST_IMPL,
    }
}

/// The form of the part at this place.
#[tactic(auto, using(std::proofs::lemmas::List::get_or_past), unfolding(crate::specs::Names::rule_of, crate::specs::Parts::part_form))]
pub(super) fn part_at(place: u8) -> &'static Form
    ensures { parse_form (grammar_of result.now) ≡ parse_form (impls_part place) }
{
    match place {
        0 => &ODD_IMPL_1,
        1 => &ODD_IMPL_2,
        2 => &ODD_IMPL_3,
        3 => &ODD_IMPL_4,
        4 => &VISIBLE_CONST_IMPL_1,
        5 => &VISIBLE_CONST_IMPL_2,
        _ => &VISIBLE_CONST_IMPL_3,
    }
}
