//! Written by tools/recognizers.py; edits are lost.
//!
//! Members of traits.
ghost use Rattle.std.specs.Prelude.{◌≡◌};
ghost use Rattle.syn_grammar.specs.Run.{parse_form};
ghost use Rattle.syn_grammar.specs.Table.{table};
ghost use Rattle.syn_recognize.specs.Forms.{grammar_of};
ghost use Rattle.syn_recognize.specs.Names.{trait_members_rule};
ghost use Rattle.syn_recognize.specs.Parts.{trait_members_part};

use crate::fading::Fading;
use crate::fault::Fault;
use crate::form::Form;
use crate::list::List;
use crate::look::Look;
use crate::plan::Planned;
use crate::rules::{Part, Rule};
use crate::token::Token;
use crate::words::{Mark, Word};

/// A function of a trait after its attributes: a signature, and `;` or a body. Modifiers, and a semicolon with the
/// body, that a tree built by hand has are not printed.
static BARE_TRAIT_FUNCTION: Form = Form::Then(
    &Form::Unshown,
    &Form::Then(
        &Form::Rule(Rule::SIGNATURE),
        &Form::When(
            Look::Mark(Mark::Semi),
            &Form::Mark(Mark::Semi),
            &Form::Then(&Form::Unshown, &Form::Rule(Rule::BODY)),
        ),
    ),
);

/// A type of a trait after its attributes: `type`, a name, generics, an optional colon with bounds, an optional `=`
/// with a type, a where clause and `;`. Without bounds the colon isn't printed. Modifiers that a tree built by hand has
/// are not printed.
static BARE_TRAIT_TYPE: Form = Form::Then(
    &Form::Unshown,
    &Form::Then(
        &Form::Token(Token::Word(Word::Type)),
        &Form::Then(
            &Form::Token(Token::Name),
            &Form::Then(
                &Form::Rule(Rule::GENERICS),
                &Form::Part(Part::BARE_TRAIT_TYPE_1),
            ),
        ),
    ),
);

/// A part of `bare_trait_type`.
static BARE_TRAIT_TYPE_1: Form = Form::Then(
    &Form::Fading(Fading::TypeBounds),
    &Form::Then(
        &Form::When(
            Look::Mark(Mark::Eq),
            &Form::Then(&Form::Mark(Mark::Eq), &Form::Rule(Rule::TYPE)),
            &Form::Empty,
        ),
        &Form::Then(&Form::Rule(Rule::WHERE_CLAUSE), &Form::Mark(Mark::Semi)),
    ),
);

/// A constant of a trait: attributes, `const`, a name or `_`, a type, an optional value, and `;`. Modifiers and
/// generics that a tree built by hand has are not printed.
static TRAIT_CONST: Form = Form::Then(
    &Form::Rule(Rule::ATTRIBUTES),
    &Form::Then(
        &Form::Unshown,
        &Form::Then(
            &Form::Token(Token::Word(Word::Const)),
            &Form::Then(
                &Form::Token(Token::NameOrUnderscore),
                &Form::Then(&Form::Unshown, &Form::Part(Part::TRAIT_CONST_1)),
            ),
        ),
    ),
);

/// A part of `trait_const`.
static TRAIT_CONST_1: Form = Form::Then(
    &Form::Mark(Mark::Colon),
    &Form::Then(
        &Form::Rule(Rule::TYPE),
        &Form::Then(
            &Form::When(
                Look::Mark(Mark::Eq),
                &Form::Then(&Form::Mark(Mark::Eq), &Form::Rule(Rule::WHOLE_EXPRESSION)),
                &Form::Empty,
            ),
            &Form::Mark(Mark::Semi),
        ),
    ),
);

/// A function of a trait, with its attributes.
static TRAIT_FUNCTION: Form = Form::Then(
    &Form::Rule(Rule::ATTRIBUTES),
    &Form::Rule(Rule::BARE_TRAIT_FUNCTION),
);

/// A type of a trait, with its attributes.
static TRAIT_TYPE: Form = Form::Then(
    &Form::Rule(Rule::ATTRIBUTES),
    &Form::Rule(Rule::BARE_TRAIT_TYPE),
);

/// A macro as a member of a trait, with any path: attributes and the macro.
static TRAIT_MACRO: Form = Form::Then(
    &Form::Rule(Rule::ATTRIBUTES),
    &Form::Rule(Rule::MEMBER_MACRO),
);

/// A macro among the members of a trait: its path begins neither with `Self` nor with `default`.
static TRAIT_MACRO_AS_ITEM: Form = Form::Then(
    &Form::Rule(Rule::ATTRIBUTES),
    &Form::When(
        Look::Or(&Look::Word(Word::SelfType), &Look::Word(Word::Default)),
        &Form::Never(Fault::Unexpected),
        &Form::Rule(Rule::MEMBER_MACRO),
    ),
);

/// A constant with every optional part: `const`, a name or `_`, optional generics, a type, an optional value and where
/// clause, and `;`.
static ANY_CONST: Form = Form::Then(
    &Form::Token(Token::Word(Word::Const)),
    &Form::Then(
        &Form::Token(Token::NameOrUnderscore),
        &Form::Then(
            &Form::When(
                Look::Mark(Mark::Lt),
                &Form::Ordered(List::Parameters),
                &Form::Empty,
            ),
            &Form::Part(Part::ANY_CONST_2),
        ),
    ),
);

/// A part of `any_const`.
static ANY_CONST_1: Form = Form::Then(
    &Form::When(
        Look::Word(Word::Where),
        &Form::Then(
            &Form::Token(Token::Word(Word::Where)),
            &Form::Rule(Rule::PREDICATES),
        ),
        &Form::Empty,
    ),
    &Form::Mark(Mark::Semi),
);

/// A part of `any_const`.
static ANY_CONST_2: Form = Form::Then(
    &Form::Mark(Mark::Colon),
    &Form::Then(
        &Form::Rule(Rule::TYPE),
        &Form::Then(
            &Form::When(
                Look::Mark(Mark::Eq),
                &Form::Then(&Form::Mark(Mark::Eq), &Form::Rule(Rule::WHOLE_EXPRESSION)),
                &Form::Empty,
            ),
            &Form::Part(Part::ANY_CONST_1),
        ),
    ),
);

/// A constant of a trait with generics or with a where clause, which is stored verbatim, after its attributes.
static ODD_TRAIT_CONST: Form = Form::Then(
    &Form::When(
        Look::Word(Word::Pub),
        &Form::Never(Fault::Unexpected),
        &Form::Rule(Rule::VISIBILITY),
    ),
    &Form::Then(
        &Form::Token(Token::Word(Word::Const)),
        &Form::Part(Part::ODD_TRAIT_CONST_4),
    ),
);

/// A part of `odd_trait_const`.
static ODD_TRAIT_CONST_1: Form = Form::Then(
    &Form::When(
        Look::Word(Word::Where),
        &Form::Then(
            &Form::Token(Token::Word(Word::Where)),
            &Form::Rule(Rule::PREDICATES),
        ),
        &Form::Empty,
    ),
    &Form::Mark(Mark::Semi),
);

/// A part of `odd_trait_const`.
static ODD_TRAIT_CONST_2: Form = Form::Then(
    &Form::Mark(Mark::Colon),
    &Form::Then(
        &Form::Rule(Rule::TYPE),
        &Form::Then(
            &Form::When(
                Look::Mark(Mark::Eq),
                &Form::Then(&Form::Mark(Mark::Eq), &Form::Rule(Rule::WHOLE_EXPRESSION)),
                &Form::Empty,
            ),
            &Form::Part(Part::ODD_TRAIT_CONST_1),
        ),
    ),
);

/// A part of `odd_trait_const`.
static ODD_TRAIT_CONST_3: Form = Form::Then(
    &Form::When(
        Look::Mark(Mark::Eq),
        &Form::Then(&Form::Mark(Mark::Eq), &Form::Rule(Rule::WHOLE_EXPRESSION)),
        &Form::Empty,
    ),
    &Form::Then(
        &Form::Then(
            &Form::Token(Token::Word(Word::Where)),
            &Form::Rule(Rule::PREDICATES),
        ),
        &Form::Mark(Mark::Semi),
    ),
);

/// A part of `odd_trait_const`.
static ODD_TRAIT_CONST_4: Form = Form::Then(
    &Form::Token(Token::NameOrUnderscore),
    &Form::When(
        Look::Mark(Mark::Lt),
        &Form::Then(
            &Form::Ordered(List::Parameters),
            &Form::Part(Part::ODD_TRAIT_CONST_2),
        ),
        &Form::Then(
            &Form::Mark(Mark::Colon),
            &Form::Then(
                &Form::Rule(Rule::TYPE),
                &Form::Part(Part::ODD_TRAIT_CONST_3),
            ),
        ),
    ),
);

/// A member of a trait: one of its kinds, or one that is stored verbatim.
static TRAIT_ITEM: Form = Form::Planned(Planned::TraitItem);

/// Members of a trait, to the end.
static TRAIT_ITEMS: Form = Form::When(
    Look::Ended,
    &Form::Empty,
    &Form::Then(
        &Form::Rule(Rule::TRAIT_ITEM),
        &Form::Rule(Rule::TRAIT_ITEMS),
    ),
);

/// The form of the rule at this place.
#[tactic(auto, using(std::proofs::lemmas::List::get_or_past), unfolding(crate::specs::Names::rule_of, crate::specs::Parts::part_form))]
pub(super) fn form_at(place: u8) -> &'static Form
    ensures { parse_form (grammar_of result.now) ≡ parse_form (table (trait_members_rule place)) }
{
    match place {
        0 => &BARE_TRAIT_FUNCTION,
        1 => &BARE_TRAIT_TYPE,
        2 => &TRAIT_CONST,
        3 => &TRAIT_FUNCTION,
        4 => &TRAIT_TYPE,
        5 => &TRAIT_MACRO,
        6 => &TRAIT_MACRO_AS_ITEM,
        7 => &ANY_CONST,
        8 => &ODD_TRAIT_CONST,
        9 => &TRAIT_ITEM,
        _ => &TRAIT_ITEMS,
    }
}

/// The form of the part at this place.
#[tactic(auto, using(std::proofs::lemmas::List::get_or_past), unfolding(crate::specs::Names::rule_of, crate::specs::Parts::part_form))]
pub(super) fn part_at(place: u8) -> &'static Form
    ensures { parse_form (grammar_of result.now) ≡ parse_form (trait_members_part place) }
{
    match place {
        0 => &BARE_TRAIT_TYPE_1,
        1 => &TRAIT_CONST_1,
        2 => &ANY_CONST_1,
        3 => &ANY_CONST_2,
        4 => &ODD_TRAIT_CONST_1,
        5 => &ODD_TRAIT_CONST_2,
        6 => &ODD_TRAIT_CONST_3,
        _ => &ODD_TRAIT_CONST_4,
    }
}
