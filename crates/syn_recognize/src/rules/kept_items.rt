//! Written by tools/recognizers.py; edits are lost.
//!
//! Items that are stored verbatim.
ghost use Rattle.std.specs.Prelude.{◌≡◌};
ghost use Rattle.syn_grammar.specs.Run.{parse_form};
ghost use Rattle.syn_grammar.specs.Table.{table};
ghost use Rattle.syn_recognize.specs.Forms.{grammar_of};
ghost use Rattle.syn_recognize.specs.Names.{kept_items_rule};
ghost use Rattle.syn_recognize.specs.Parts.{kept_items_part};

use crate::form::Form;
use crate::list::List;
use crate::look::Look;
use crate::rules::{Part, Rule};
use crate::token::Token;
use crate::words::{Mark, Word};
use syn_tokens::delimiter::Delimiter;

/// A function without a body, which is stored verbatim, after its attributes: a visibility, a signature and `;`.
static BODILESS_FUNCTION: Form = Form::Then(
    &Form::Rule(Rule::VISIBILITY),
    &Form::Then(&Form::Rule(Rule::SIGNATURE), &Form::Mark(Mark::Semi)),
);

/// A static without a type, which is stored verbatim, after its attributes.
static UNTYPED_STATIC: Form = Form::Then(
    &Form::Rule(Rule::VISIBILITY),
    &Form::Then(
        &Form::Token(Token::Word(Word::Static)),
        &Form::Part(Part::UNTYPED_STATIC_1),
    ),
);

/// A part of `untyped_static`.
static UNTYPED_STATIC_1: Form = Form::Then(
    &Form::When(
        Look::Word(Word::Mut),
        &Form::Token(Token::Word(Word::Mut)),
        &Form::Empty,
    ),
    &Form::Then(
        &Form::Token(Token::Name),
        &Form::Then(
            &Form::Mark(Mark::Eq),
            &Form::Then(&Form::Rule(Rule::WHOLE_EXPRESSION), &Form::Mark(Mark::Semi)),
        ),
    ),
);

/// A static without a value, which is stored verbatim, after its attributes.
static VALUELESS_STATIC: Form = Form::Then(
    &Form::Rule(Rule::VISIBILITY),
    &Form::Then(
        &Form::Token(Token::Word(Word::Static)),
        &Form::Part(Part::VALUELESS_STATIC_1),
    ),
);

/// A part of `valueless_static`.
static VALUELESS_STATIC_1: Form = Form::Then(
    &Form::When(
        Look::Word(Word::Mut),
        &Form::Token(Token::Word(Word::Mut)),
        &Form::Empty,
    ),
    &Form::Then(
        &Form::Token(Token::Name),
        &Form::Then(
            &Form::Mark(Mark::Colon),
            &Form::Then(&Form::Rule(Rule::TYPE), &Form::Mark(Mark::Semi)),
        ),
    ),
);

/// A constant with generics, with a where clause or without a value, which is stored verbatim, after its attributes.
static ODD_CONST: Form = Form::Then(
    &Form::Rule(Rule::VISIBILITY),
    &Form::Part(Part::ODD_CONST_5),
);

/// A part of `odd_const`.
static ODD_CONST_1: Form = Form::Then(
    &Form::When(
        Look::Word(Word::Where),
        &Form::Then(
            &Form::Token(Token::Word(Word::Where)),
            &Form::Rule(Rule::PREDICATES),
        ),
        &Form::Empty,
    ),
    &Form::Mark(Mark::Semi),
);

/// A part of `odd_const`.
static ODD_CONST_2: Form = Form::Then(
    &Form::Mark(Mark::Colon),
    &Form::Then(
        &Form::Rule(Rule::TYPE),
        &Form::Then(
            &Form::When(
                Look::Mark(Mark::Eq),
                &Form::Then(&Form::Mark(Mark::Eq), &Form::Rule(Rule::WHOLE_EXPRESSION)),
                &Form::Empty,
            ),
            &Form::Part(Part::ODD_CONST_1),
        ),
    ),
);

/// A part of `odd_const`.
static ODD_CONST_3: Form = Form::Then(
    &Form::Mark(Mark::Eq),
    &Form::Then(
        &Form::Rule(Rule::WHOLE_EXPRESSION),
        &Form::Then(
            &Form::Then(
                &Form::Token(Token::Word(Word::Where)),
                &Form::Rule(Rule::PREDICATES),
            ),
            &Form::Mark(Mark::Semi),
        ),
    ),
);

/// A part of `odd_const`.
static ODD_CONST_4: Form = Form::Then(
    &Form::Rule(Rule::TYPE),
    &Form::When(
        Look::Mark(Mark::Eq),
        &Form::Part(Part::ODD_CONST_3),
        &Form::Then(
            &Form::When(
                Look::Word(Word::Where),
                &Form::Then(
                    &Form::Token(Token::Word(Word::Where)),
                    &Form::Rule(Rule::PREDICATES),
                ),
                &Form::Empty,
            ),
            &Form::Mark(Mark::Semi),
        ),
    ),
);

/// A part of `odd_const`.
static ODD_CONST_5: Form = Form::Then(
    &Form::Token(Token::Word(Word::Const)),
    &Form::Then(
        &Form::Token(Token::NameOrUnderscore),
        &Form::When(
            Look::Mark(Mark::Lt),
            &Form::Then(
                &Form::Ordered(List::Parameters),
                &Form::Part(Part::ODD_CONST_2),
            ),
            &Form::Then(&Form::Mark(Mark::Colon), &Form::Part(Part::ODD_CONST_4)),
        ),
    ),
);

/// A definition by `macro`, which is stored verbatim, after its attributes: a visibility, `macro`, a name, optional
/// parentheses, and braces, both of any content.
static MACRO_DEFINITION: Form = Form::Then(
    &Form::Rule(Rule::VISIBILITY),
    &Form::Then(
        &Form::Token(Token::Word(Word::Macro)),
        &Form::Then(
            &Form::Token(Token::Name),
            &Form::Then(
                &Form::When(
                    Look::Group(Delimiter::Paren),
                    &Form::Raw(Delimiter::Paren),
                    &Form::Empty,
                ),
                &Form::Raw(Delimiter::Brace),
            ),
        ),
    ),
);

/// A type alias with bounds or without a type, which is stored verbatim, after its attributes.
static ODD_TYPE: Form = Form::Then(
    &Form::Rule(Rule::VISIBILITY),
    &Form::Then(
        &Form::Token(Token::Word(Word::Type)),
        &Form::Then(
            &Form::Token(Token::Name),
            &Form::Then(
                &Form::Rule(Rule::GENERICS),
                &Form::Then(&Form::Part(Part::ODD_TYPE_3), &Form::Mark(Mark::Semi)),
            ),
        ),
    ),
);

/// A part of `odd_type`.
static ODD_TYPE_1: Form = Form::When(
    Look::Mark(Mark::Eq),
    &Form::Then(
        &Form::Mark(Mark::Eq),
        &Form::Then(
            &Form::Rule(Rule::TYPE),
            &Form::When(
                Look::Word(Word::Where),
                &Form::Then(
                    &Form::Token(Token::Word(Word::Where)),
                    &Form::Rule(Rule::PREDICATES),
                ),
                &Form::Empty,
            ),
        ),
    ),
    &Form::Empty,
);

/// A part of `odd_type`.
static ODD_TYPE_2: Form = Form::When(
    Look::Word(Word::Where),
    &Form::Then(
        &Form::Then(
            &Form::Token(Token::Word(Word::Where)),
            &Form::Rule(Rule::PREDICATES),
        ),
        &Form::When(
            Look::Mark(Mark::Eq),
            &Form::Then(&Form::Mark(Mark::Eq), &Form::Rule(Rule::TYPE)),
            &Form::Empty,
        ),
    ),
    &Form::Part(Part::ODD_TYPE_1),
);

/// A part of `odd_type`.
static ODD_TYPE_3: Form = Form::When(
    Look::Mark(Mark::Colon),
    &Form::Then(
        &Form::Mark(Mark::Colon),
        &Form::Then(
            &Form::Rule(Rule::TYPE_BOUNDS),
            &Form::Part(Part::ODD_TYPE_2),
        ),
    ),
    &Form::When(
        Look::Word(Word::Where),
        &Form::Then(
            &Form::Token(Token::Word(Word::Where)),
            &Form::Rule(Rule::PREDICATES),
        ),
        &Form::Empty,
    ),
);

/// The form of the rule at this place.
#[tactic(auto, using(std::proofs::lemmas::List::get_or_past), unfolding(crate::specs::Names::rule_of, crate::specs::Parts::part_form))]
pub(super) fn form_at(place: u8) -> &'static Form
    ensures { parse_form (grammar_of result.now) ≡ parse_form (table (kept_items_rule place)) }
{
    match place {
        0 => &BODILESS_FUNCTION,
        1 => &UNTYPED_STATIC,
        2 => &VALUELESS_STATIC,
        3 => &ODD_CONST,
        4 => &MACRO_DEFINITION,
        _ => &ODD_TYPE,
    }
}

/// The form of the part at this place.
#[tactic(auto, using(std::proofs::lemmas::List::get_or_past), unfolding(crate::specs::Names::rule_of, crate::specs::Parts::part_form))]
pub(super) fn part_at(place: u8) -> &'static Form
    ensures { parse_form (grammar_of result.now) ≡ parse_form (kept_items_part place) }
{
    match place {
        0 => &UNTYPED_STATIC_1,
        1 => &VALUELESS_STATIC_1,
        2 => &ODD_CONST_1,
        3 => &ODD_CONST_2,
        4 => &ODD_CONST_3,
        5 => &ODD_CONST_4,
        6 => &ODD_CONST_5,
        7 => &ODD_TYPE_1,
        8 => &ODD_TYPE_2,
        _ => &ODD_TYPE_3,
    }
}
