//! Written by tools/recognizers.py; edits are lost.
//!
//! Members of impls.
ghost use Rattle.std.specs.Prelude.{◌≡◌};
ghost use Rattle.syn_grammar.specs.Run.{parse_form};
ghost use Rattle.syn_grammar.specs.Table.{table};
ghost use Rattle.syn_recognize.specs.Forms.{grammar_of};
ghost use Rattle.syn_recognize.specs.Names.{impl_members_rule};
ghost use Rattle.syn_recognize.specs.Parts.{impl_members_part};

use crate::fault::Fault;
use crate::form::Form;
use crate::list::List;
use crate::look::Look;
use crate::plan::Planned;
use crate::rules::{Part, Rule};
use crate::token::Token;
use crate::words::{Mark, Word};

/// A constant of an impl: attributes, a visibility, an optional `default`, `const`, a name or `_`, a type, a value and
/// `;`. Generics that a tree built by hand has are not printed.
static IMPL_CONST: Form = Form::Then(
    &Form::Rule(Rule::ATTRIBUTES),
    &Form::Part(Part::IMPL_CONST_2),
);

/// A part of `impl_const`.
static IMPL_CONST_1: Form = Form::Then(
    &Form::Unshown,
    &Form::Then(
        &Form::Mark(Mark::Colon),
        &Form::Then(
            &Form::Rule(Rule::TYPE),
            &Form::Then(
                &Form::Mark(Mark::Eq),
                &Form::Then(&Form::Rule(Rule::WHOLE_EXPRESSION), &Form::Mark(Mark::Semi)),
            ),
        ),
    ),
);

/// A part of `impl_const`.
static IMPL_CONST_2: Form = Form::Then(
    &Form::Rule(Rule::VISIBILITY),
    &Form::Then(
        &Form::When(
            Look::Word(Word::Default),
            &Form::Token(Token::Word(Word::Default)),
            &Form::Empty,
        ),
        &Form::Then(
            &Form::Token(Token::Word(Word::Const)),
            &Form::Then(
                &Form::Token(Token::NameOrUnderscore),
                &Form::Part(Part::IMPL_CONST_1),
            ),
        ),
    ),
);

/// A function of an impl: attributes, a visibility, an optional `default`, a signature and a body.
static IMPL_FUNCTION: Form = Form::Then(
    &Form::Rule(Rule::ATTRIBUTES),
    &Form::Then(
        &Form::Rule(Rule::VISIBILITY),
        &Form::Then(
            &Form::When(
                Look::Word(Word::Default),
                &Form::Token(Token::Word(Word::Default)),
                &Form::Empty,
            ),
            &Form::Then(&Form::Rule(Rule::SIGNATURE), &Form::Rule(Rule::BODY)),
        ),
    ),
);

/// A type of an impl: attributes, a visibility, an optional `default`, `type`, a name, generics, `=`, a type, a where
/// clause and `;`.
static IMPL_TYPE: Form = Form::Then(
    &Form::Rule(Rule::ATTRIBUTES),
    &Form::Then(
        &Form::Rule(Rule::VISIBILITY),
        &Form::Then(
            &Form::When(
                Look::Word(Word::Default),
                &Form::Token(Token::Word(Word::Default)),
                &Form::Empty,
            ),
            &Form::Then(
                &Form::Token(Token::Word(Word::Type)),
                &Form::Part(Part::IMPL_TYPE_1),
            ),
        ),
    ),
);

/// A part of `impl_type`.
static IMPL_TYPE_1: Form = Form::Then(
    &Form::Token(Token::Name),
    &Form::Then(
        &Form::Rule(Rule::GENERICS),
        &Form::Then(
            &Form::Mark(Mark::Eq),
            &Form::Then(
                &Form::Rule(Rule::TYPE),
                &Form::Then(&Form::Rule(Rule::WHERE_CLAUSE), &Form::Mark(Mark::Semi)),
            ),
        ),
    ),
);

/// A macro as a member of an impl, with any path: attributes and the macro.
static IMPL_MACRO: Form = Form::Then(
    &Form::Rule(Rule::ATTRIBUTES),
    &Form::Rule(Rule::MEMBER_MACRO),
);

/// A macro among the members of an impl: its path begins neither with `Self`, nor with `default` followed by `::`.
static IMPL_MACRO_AS_ITEM: Form = Form::Then(
    &Form::Rule(Rule::ATTRIBUTES),
    &Form::When(
        Look::NoMacroItem,
        &Form::Never(Fault::Unexpected),
        &Form::Rule(Rule::MEMBER_MACRO),
    ),
);

/// A function of an impl without a body, which is stored verbatim, after its attributes.
static BODILESS_IMPL_FUNCTION: Form = Form::Then(
    &Form::Rule(Rule::VISIBILITY),
    &Form::Then(
        &Form::When(
            Look::Word(Word::Default),
            &Form::Token(Token::Word(Word::Default)),
            &Form::Empty,
        ),
        &Form::Then(&Form::Rule(Rule::SIGNATURE), &Form::Mark(Mark::Semi)),
    ),
);

/// A constant of an impl with generics, with a where clause or without a value, which is stored verbatim, after its
/// attributes.
static ODD_IMPL_CONST: Form = Form::Then(
    &Form::Rule(Rule::VISIBILITY),
    &Form::Then(
        &Form::When(
            Look::Word(Word::Default),
            &Form::Token(Token::Word(Word::Default)),
            &Form::Empty,
        ),
        &Form::Part(Part::ODD_IMPL_CONST_5),
    ),
);

/// A part of `odd_impl_const`.
static ODD_IMPL_CONST_1: Form = Form::Then(
    &Form::When(
        Look::Word(Word::Where),
        &Form::Then(
            &Form::Token(Token::Word(Word::Where)),
            &Form::Rule(Rule::PREDICATES),
        ),
        &Form::Empty,
    ),
    &Form::Mark(Mark::Semi),
);

/// A part of `odd_impl_const`.
static ODD_IMPL_CONST_2: Form = Form::Then(
    &Form::Mark(Mark::Colon),
    &Form::Then(
        &Form::Rule(Rule::TYPE),
        &Form::Then(
            &Form::When(
                Look::Mark(Mark::Eq),
                &Form::Then(&Form::Mark(Mark::Eq), &Form::Rule(Rule::WHOLE_EXPRESSION)),
                &Form::Empty,
            ),
            &Form::Part(Part::ODD_IMPL_CONST_1),
        ),
    ),
);

/// A part of `odd_impl_const`.
static ODD_IMPL_CONST_3: Form = Form::Then(
    &Form::Mark(Mark::Eq),
    &Form::Then(
        &Form::Rule(Rule::WHOLE_EXPRESSION),
        &Form::Then(
            &Form::Then(
                &Form::Token(Token::Word(Word::Where)),
                &Form::Rule(Rule::PREDICATES),
            ),
            &Form::Mark(Mark::Semi),
        ),
    ),
);

/// A part of `odd_impl_const`.
static ODD_IMPL_CONST_4: Form = Form::Then(
    &Form::Rule(Rule::TYPE),
    &Form::When(
        Look::Mark(Mark::Eq),
        &Form::Part(Part::ODD_IMPL_CONST_3),
        &Form::Then(
            &Form::When(
                Look::Word(Word::Where),
                &Form::Then(
                    &Form::Token(Token::Word(Word::Where)),
                    &Form::Rule(Rule::PREDICATES),
                ),
                &Form::Empty,
            ),
            &Form::Mark(Mark::Semi),
        ),
    ),
);

/// A part of `odd_impl_const`.
static ODD_IMPL_CONST_5: Form = Form::Then(
    &Form::Token(Token::Word(Word::Const)),
    &Form::Then(
        &Form::Token(Token::NameOrUnderscore),
        &Form::When(
            Look::Mark(Mark::Lt),
            &Form::Then(
                &Form::Ordered(List::Parameters),
                &Form::Part(Part::ODD_IMPL_CONST_2),
            ),
            &Form::Then(
                &Form::Mark(Mark::Colon),
                &Form::Part(Part::ODD_IMPL_CONST_4),
            ),
        ),
    ),
);

/// A type of an impl with bounds or without a type, which is stored verbatim, after its attributes.
static ODD_IMPL_TYPE: Form = Form::Then(
    &Form::Rule(Rule::VISIBILITY),
    &Form::Then(
        &Form::When(
            Look::Word(Word::Default),
            &Form::Token(Token::Word(Word::Default)),
            &Form::Empty,
        ),
        &Form::Then(
            &Form::Token(Token::Word(Word::Type)),
            &Form::Then(
                &Form::Token(Token::Name),
                &Form::Part(Part::ODD_IMPL_TYPE_3),
            ),
        ),
    ),
);

/// A part of `odd_impl_type`.
static ODD_IMPL_TYPE_1: Form = Form::Then(
    &Form::When(
        Look::Word(Word::Where),
        &Form::Then(
            &Form::Token(Token::Word(Word::Where)),
            &Form::Rule(Rule::PREDICATES),
        ),
        &Form::Empty,
    ),
    &Form::Mark(Mark::Semi),
);

/// A part of `odd_impl_type`.
static ODD_IMPL_TYPE_2: Form = Form::Then(
    &Form::Mark(Mark::Colon),
    &Form::Then(
        &Form::Rule(Rule::TYPE_BOUNDS),
        &Form::Then(
            &Form::When(
                Look::Mark(Mark::Eq),
                &Form::Then(&Form::Mark(Mark::Eq), &Form::Rule(Rule::TYPE)),
                &Form::Empty,
            ),
            &Form::Part(Part::ODD_IMPL_TYPE_1),
        ),
    ),
);

/// A part of `odd_impl_type`.
static ODD_IMPL_TYPE_3: Form = Form::Then(
    &Form::Rule(Rule::GENERICS),
    &Form::When(
        Look::Mark(Mark::Colon),
        &Form::Part(Part::ODD_IMPL_TYPE_2),
        &Form::Then(
            &Form::When(
                Look::Word(Word::Where),
                &Form::Then(
                    &Form::Token(Token::Word(Word::Where)),
                    &Form::Rule(Rule::PREDICATES),
                ),
                &Form::Empty,
            ),
            &Form::Mark(Mark::Semi),
        ),
    ),
);

/// A member of an impl: one of its kinds, or one that is stored verbatim.
static IMPL_ITEM: Form = Form::Planned(Planned::ImplItem);

/// Members of an impl, to the end.
static IMPL_ITEMS: Form = Form::When(
    Look::Ended,
    &Form::Empty,
    &Form::Then(&Form::Rule(Rule::IMPL_ITEM), &Form::Rule(Rule::IMPL_ITEMS)),
);

/// The form of the rule at this place.
#[tactic(auto, using(std::proofs::lemmas::List::get_or_past), unfolding(crate::specs::Names::rule_of, crate::specs::Parts::part_form))]
pub(super) fn form_at(place: u8) -> &'static Form
    ensures { parse_form (grammar_of result.now) ≡ parse_form (table (impl_members_rule place)) }
{
    match place {
        0 => &IMPL_CONST,
        1 => &IMPL_FUNCTION,
        2 => &IMPL_TYPE,
        3 => &IMPL_MACRO,
        4 => &IMPL_MACRO_AS_ITEM,
        5 => &BODILESS_IMPL_FUNCTION,
        6 => &ODD_IMPL_CONST,
        7 => &ODD_IMPL_TYPE,
        8 => &IMPL_ITEM,
        _ => &IMPL_ITEMS,
    }
}

/// The form of the part at this place.
#[tactic(auto, using(std::proofs::lemmas::List::get_or_past), unfolding(crate::specs::Names::rule_of, crate::specs::Parts::part_form))]
pub(super) fn part_at(place: u8) -> &'static Form
    ensures { parse_form (grammar_of result.now) ≡ parse_form (impl_members_part place) }
{
    match place {
        0 => &IMPL_CONST_1,
        1 => &IMPL_CONST_2,
        2 => &IMPL_TYPE_1,
        3 => &ODD_IMPL_CONST_1,
        4 => &ODD_IMPL_CONST_2,
        5 => &ODD_IMPL_CONST_3,
        6 => &ODD_IMPL_CONST_4,
        7 => &ODD_IMPL_CONST_5,
        8 => &ODD_IMPL_TYPE_1,
        9 => &ODD_IMPL_TYPE_2,
        _ => &ODD_IMPL_TYPE_3,
    }
}
