//! Written by tools/recognizers.py; edits are lost.
//!
//! Members of foreign modules.
ghost use Rattle.std.specs.Prelude.{◌≡◌};
ghost use Rattle.syn_grammar.specs.Run.{parse_form};
ghost use Rattle.syn_grammar.specs.Table.{table};
ghost use Rattle.syn_recognize.specs.Forms.{grammar_of};
ghost use Rattle.syn_recognize.specs.Names.{foreign_members_rule};
ghost use Rattle.syn_recognize.specs.Parts.{foreign_members_part};

use crate::fault::Fault;
use crate::form::Form;
use crate::look::Look;
use crate::plan::Planned;
use crate::rules::{Part, Rule};
use crate::token::Token;
use crate::words::{Mark, Word};

/// A foreign signature: `const`, `async`, `safe` or `unsafe`, and an ABI, all optional, and the part that begins with
/// `fn`.
static FOREIGN_SIGNATURE: Form = Form::Then(
    &Form::When(
        Look::Word(Word::Const),
        &Form::Token(Token::Word(Word::Const)),
        &Form::Empty,
    ),
    &Form::Part(Part::FOREIGN_SIGNATURE_1),
);

/// A part of `foreign_signature`.
static FOREIGN_SIGNATURE_1: Form = Form::Then(
    &Form::When(
        Look::Word(Word::Async),
        &Form::Token(Token::Word(Word::Async)),
        &Form::Empty,
    ),
    &Form::Then(
        &Form::Rule(Rule::SAFE_OR_UNSAFE),
        &Form::Then(
            &Form::When(
                Look::Word(Word::Extern),
                &Form::Rule(Rule::ABI),
                &Form::Empty,
            ),
            &Form::Rule(Rule::SIGNATURE_REST),
        ),
    ),
);

/// A foreign static without its value and `;`: an optional `safe` or `unsafe`, `static`, an optional `mut`, a name and
/// a type.
static BARE_FOREIGN_STATIC: Form = Form::Then(
    &Form::Rule(Rule::SAFE_OR_UNSAFE),
    &Form::Part(Part::BARE_FOREIGN_STATIC_1),
);

/// A part of `bare_foreign_static`.
static BARE_FOREIGN_STATIC_1: Form = Form::Then(
    &Form::Token(Token::Word(Word::Static)),
    &Form::Then(
        &Form::When(
            Look::Word(Word::Mut),
            &Form::Token(Token::Word(Word::Mut)),
            &Form::Empty,
        ),
        &Form::Then(
            &Form::Token(Token::Name),
            &Form::Then(&Form::Mark(Mark::Colon), &Form::Rule(Rule::TYPE)),
        ),
    ),
);

/// A foreign function: attributes, a visibility, a foreign signature and `;`. Modifiers that a tree built by hand has
/// are not printed.
static FOREIGN_FUNCTION: Form = Form::Then(
    &Form::Rule(Rule::ATTRIBUTES),
    &Form::Then(
        &Form::Rule(Rule::VISIBILITY),
        &Form::Then(
            &Form::Unshown,
            &Form::Then(
                &Form::Rule(Rule::FOREIGN_SIGNATURE),
                &Form::Mark(Mark::Semi),
            ),
        ),
    ),
);

/// A foreign static: attributes, a visibility, the static and `;`.
static FOREIGN_STATIC: Form = Form::Then(
    &Form::Rule(Rule::ATTRIBUTES),
    &Form::Then(
        &Form::Rule(Rule::VISIBILITY),
        &Form::Then(
            &Form::Rule(Rule::BARE_FOREIGN_STATIC),
            &Form::Mark(Mark::Semi),
        ),
    ),
);

/// A foreign type: attributes, a visibility, `type`, a name, generics, a where clause and `;`. Modifiers that a tree
/// built by hand has are not printed.
static FOREIGN_TYPE: Form = Form::Then(
    &Form::Rule(Rule::ATTRIBUTES),
    &Form::Then(
        &Form::Rule(Rule::VISIBILITY),
        &Form::Part(Part::FOREIGN_TYPE_1),
    ),
);

/// A part of `foreign_type`.
static FOREIGN_TYPE_1: Form = Form::Then(
    &Form::Unshown,
    &Form::Then(
        &Form::Token(Token::Word(Word::Type)),
        &Form::Then(
            &Form::Token(Token::Name),
            &Form::Then(
                &Form::Rule(Rule::GENERICS),
                &Form::Then(&Form::Rule(Rule::WHERE_CLAUSE), &Form::Mark(Mark::Semi)),
            ),
        ),
    ),
);

/// A macro as a foreign member, with any path: attributes and the macro.
static FOREIGN_MACRO: Form = Form::Then(
    &Form::Rule(Rule::ATTRIBUTES),
    &Form::Rule(Rule::MEMBER_MACRO),
);

/// A macro among foreign members: its path doesn't begin with `Self`.
static FOREIGN_MACRO_AS_ITEM: Form = Form::Then(
    &Form::Rule(Rule::ATTRIBUTES),
    &Form::When(
        Look::Word(Word::SelfType),
        &Form::Never(Fault::Unexpected),
        &Form::Rule(Rule::MEMBER_MACRO),
    ),
);

/// A foreign function with a body, which is stored verbatim, after its attributes.
static FOREIGN_BODY: Form = Form::Then(
    &Form::Rule(Rule::VISIBILITY),
    &Form::Then(
        &Form::Rule(Rule::FOREIGN_SIGNATURE),
        &Form::Rule(Rule::BODY),
    ),
);

/// A foreign static with a value, which is stored verbatim, after its attributes.
static FOREIGN_VALUE: Form = Form::Then(
    &Form::Rule(Rule::VISIBILITY),
    &Form::Then(
        &Form::Rule(Rule::BARE_FOREIGN_STATIC),
        &Form::Then(
            &Form::Mark(Mark::Eq),
            &Form::Then(&Form::Rule(Rule::WHOLE_EXPRESSION), &Form::Mark(Mark::Semi)),
        ),
    ),
);

/// A foreign type with bounds or with a type, which is stored verbatim, after its attributes.
static ODD_FOREIGN_TYPE: Form = Form::Then(
    &Form::Rule(Rule::VISIBILITY),
    &Form::Then(
        &Form::Token(Token::Word(Word::Type)),
        &Form::Then(
            &Form::Token(Token::Name),
            &Form::Part(Part::ODD_FOREIGN_TYPE_5),
        ),
    ),
);

/// A part of `odd_foreign_type`.
static ODD_FOREIGN_TYPE_1: Form = Form::When(
    Look::Mark(Mark::Eq),
    &Form::Then(
        &Form::Mark(Mark::Eq),
        &Form::Then(
            &Form::Rule(Rule::TYPE),
            &Form::When(
                Look::Word(Word::Where),
                &Form::Then(
                    &Form::Token(Token::Word(Word::Where)),
                    &Form::Rule(Rule::PREDICATES),
                ),
                &Form::Empty,
            ),
        ),
    ),
    &Form::Empty,
);

/// A part of `odd_foreign_type`.
static ODD_FOREIGN_TYPE_2: Form = Form::When(
    Look::Word(Word::Where),
    &Form::Then(
        &Form::Then(
            &Form::Token(Token::Word(Word::Where)),
            &Form::Rule(Rule::PREDICATES),
        ),
        &Form::When(
            Look::Mark(Mark::Eq),
            &Form::Then(&Form::Mark(Mark::Eq), &Form::Rule(Rule::TYPE)),
            &Form::Empty,
        ),
    ),
    &Form::Part(Part::ODD_FOREIGN_TYPE_1),
);

/// A part of `odd_foreign_type`.
static ODD_FOREIGN_TYPE_3: Form = Form::Then(
    &Form::Mark(Mark::Eq),
    &Form::Then(
        &Form::Rule(Rule::TYPE),
        &Form::Then(
            &Form::When(
                Look::Word(Word::Where),
                &Form::Then(
                    &Form::Token(Token::Word(Word::Where)),
                    &Form::Rule(Rule::PREDICATES),
                ),
                &Form::Empty,
            ),
            &Form::Mark(Mark::Semi),
        ),
    ),
);

/// A part of `odd_foreign_type`.
static ODD_FOREIGN_TYPE_4: Form = Form::When(
    Look::Word(Word::Where),
    &Form::Then(
        &Form::Then(
            &Form::Token(Token::Word(Word::Where)),
            &Form::Rule(Rule::PREDICATES),
        ),
        &Form::Then(
            &Form::Mark(Mark::Eq),
            &Form::Then(&Form::Rule(Rule::TYPE), &Form::Mark(Mark::Semi)),
        ),
    ),
    &Form::Part(Part::ODD_FOREIGN_TYPE_3),
);

/// A part of `odd_foreign_type`.
static ODD_FOREIGN_TYPE_5: Form = Form::Then(
    &Form::Rule(Rule::GENERICS),
    &Form::When(
        Look::Mark(Mark::Colon),
        &Form::Then(
            &Form::Mark(Mark::Colon),
            &Form::Then(
                &Form::Rule(Rule::TYPE_BOUNDS),
                &Form::Then(
                    &Form::Part(Part::ODD_FOREIGN_TYPE_2),
                    &Form::Mark(Mark::Semi),
                ),
            ),
        ),
        &Form::Part(Part::ODD_FOREIGN_TYPE_4),
    ),
);

/// A foreign member: one of its kinds, or one that is stored verbatim.
static FOREIGN_ITEM: Form = Form::Planned(Planned::ForeignItem);

/// Foreign members, to the end.
static FOREIGN_ITEMS: Form = Form::When(
    Look::Ended,
    &Form::Empty,
    &Form::Then(
        &Form::Rule(Rule::FOREIGN_ITEM),
        &Form::Rule(Rule::FOREIGN_ITEMS),
    ),
);

/// The form of the rule at this place.
#[tactic(auto, using(std::proofs::lemmas::List::get_or_past), unfolding(crate::specs::Names::rule_of, crate::specs::Parts::part_form))]
pub(super) fn form_at(place: u8) -> &'static Form
    ensures { parse_form (grammar_of result.now) ≡ parse_form (table (foreign_members_rule place)) }
{
    match place {
        0 => &FOREIGN_SIGNATURE,
        1 => &BARE_FOREIGN_STATIC,
        2 => &FOREIGN_FUNCTION,
        3 => &FOREIGN_STATIC,
        4 => &FOREIGN_TYPE,
        5 => &FOREIGN_MACRO,
        6 => &FOREIGN_MACRO_AS_ITEM,
        7 => &FOREIGN_BODY,
        8 => &FOREIGN_VALUE,
        9 => &ODD_FOREIGN_TYPE,
        10 => &FOREIGN_ITEM,
        _ => &FOREIGN_ITEMS,
    }
}

/// The form of the part at this place.
#[tactic(auto, using(std::proofs::lemmas::List::get_or_past), unfolding(crate::specs::Names::rule_of, crate::specs::Parts::part_form))]
pub(super) fn part_at(place: u8) -> &'static Form
    ensures { parse_form (grammar_of result.now) ≡ parse_form (foreign_members_part place) }
{
    match place {
        0 => &FOREIGN_SIGNATURE_1,
        1 => &BARE_FOREIGN_STATIC_1,
        2 => &FOREIGN_TYPE_1,
        3 => &ODD_FOREIGN_TYPE_1,
        4 => &ODD_FOREIGN_TYPE_2,
        5 => &ODD_FOREIGN_TYPE_3,
        6 => &ODD_FOREIGN_TYPE_4,
        _ => &ODD_FOREIGN_TYPE_5,
    }
}
