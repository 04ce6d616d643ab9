//! Written by tools/recognizers.py; edits are lost.
//!
//! Signatures and their parameters.
ghost use Rattle.std.specs.Prelude.{◌≡◌};
ghost use Rattle.syn_grammar.specs.Run.{parse_form};
ghost use Rattle.syn_grammar.specs.Table.{table};
ghost use Rattle.syn_recognize.specs.Forms.{grammar_of};
ghost use Rattle.syn_recognize.specs.Names.{signatures_rule};
ghost use Rattle.syn_recognize.specs.Parts.{signatures_part};

use crate::fault::Fault;
use crate::form::Form;
use crate::look::Look;
use crate::rules::{Part, Rule};
use crate::shape::Shape;
use crate::supplied::Nameless;
use crate::token::Token;
use crate::words::{Mark, Word};
use syn_tokens::delimiter::Delimiter;

/// No attributes: `#` must not be next. Attributes that a tree built by hand has are printed.
static NO_ATTRIBUTES: Form = Form::When(
    Look::Mark(Mark::Pound),
    &Form::Never(Fault::Unexpected),
    &Form::Unshown,
);

/// A receiver alone; no attributes are parsed before it.
static RECEIVER: Form = Form::Then(
    &Form::Rule(Rule::NO_ATTRIBUTES),
    &Form::Rule(Rule::RECEIVER_REST),
);

/// A receiver after its attributes: `&`, an optional lifetime, an optional `mut`, and `self`; or an optional `mut`,
/// `self` and an optional colon with a type. No `::` follows the `self`. A second `mut` that a tree built by hand has
/// after `&` is not printed.
static RECEIVER_REST: Form = Form::When(
    Look::Mark(Mark::And),
    &Form::Part(Part::RECEIVER_REST_3),
    &Form::Then(
        &Form::When(
            Look::Word(Word::Mut),
            &Form::Token(Token::Word(Word::Mut)),
            &Form::Empty,
        ),
        &Form::Part(Part::RECEIVER_REST_2),
    ),
);

/// A part of `receiver_rest`.
static RECEIVER_REST_1: Form = Form::Then(
    &Form::When(
        Look::Word(Word::Mut),
        &Form::Token(Token::Word(Word::Mut)),
        &Form::Empty,
    ),
    &Form::Then(
        &Form::Unshown,
        &Form::Then(
            &Form::Token(Token::Word(Word::SelfValue)),
            &Form::When(
                Look::Mark(Mark::PathSep),
                &Form::Never(Fault::Unexpected),
                &Form::Empty,
            ),
        ),
    ),
);

/// A part of `receiver_rest`.
static RECEIVER_REST_2: Form = Form::Then(
    &Form::Token(Token::Word(Word::SelfValue)),
    &Form::When(
        Look::Mark(Mark::PathSep),
        &Form::Never(Fault::Unexpected),
        &Form::When(
            Look::Mark(Mark::Colon),
            &Form::Then(&Form::Mark(Mark::Colon), &Form::Rule(Rule::TYPE)),
            &Form::Empty,
        ),
    ),
);

/// A part of `receiver_rest`.
static RECEIVER_REST_3: Form = Form::Then(
    &Form::Mark(Mark::And),
    &Form::Then(
        &Form::When(Look::Lifetime, &Form::Lifetime, &Form::Empty),
        &Form::Part(Part::RECEIVER_REST_1),
    ),
);

/// A parameter of a function: attributes, then a receiver; or a pattern, a colon and a type. If a name is followed by
/// `<`, the parameter is a type alone, and the tree has `_ :` before it.
static ARGUMENT: Form = Form::Then(
    &Form::Rule(Rule::ATTRIBUTES),
    &Form::When(
        Look::Receiver,
        &Form::Rule(Rule::RECEIVER_REST),
        &Form::Supplied(Nameless::Argument),
    ),
);

/// The parameters of a function, separated by commas; a trailing comma is allowed. Only the first may be a receiver.
static INPUTS: Form = Form::Shaped(
    Shape::Parameters,
    &Form::When(Look::Ended, &Form::Empty, &Form::Part(Part::INPUTS_1)),
);

/// A part of `inputs`.
static INPUTS_1: Form = Form::Then(
    &Form::Rule(Rule::ATTRIBUTES),
    &Form::When(
        Look::Receiver,
        &Form::Then(
            &Form::Rule(Rule::RECEIVER_REST),
            &Form::When(
                Look::Mark(Mark::Comma),
                &Form::Then(&Form::Mark(Mark::Comma), &Form::Rule(Rule::LATER_INPUTS)),
                &Form::Empty,
            ),
        ),
        &Form::Rule(Rule::INPUT_REST),
    ),
);

/// The parameters after the first; none of them is a receiver.
static LATER_INPUTS: Form = Form::Shaped(
    Shape::Parameters,
    &Form::When(
        Look::Ended,
        &Form::Empty,
        &Form::Then(
            &Form::Rule(Rule::ATTRIBUTES),
            &Form::When(
                Look::Receiver,
                &Form::Never(Fault::Unexpected),
                &Form::Rule(Rule::INPUT_REST),
            ),
        ),
    ),
);

/// A parameter other than a receiver, after its attributes, and those that follow: a variadic one, with an optional
/// pattern and colon; or a pattern, a colon and a type, and after a comma the other parameters. If a name is followed
/// by `<`, the parameter is a type alone, and the tree has `_ :` before it.
static INPUT_REST: Form = Form::When(
    Look::Mark(Mark::DotDotDot),
    &Form::Rule(Rule::VARIADIC),
    &Form::Supplied(Nameless::Input),
);

/// `...` and an optional comma, with nothing after them.
static VARIADIC: Form = Form::Then(
    &Form::Mark(Mark::DotDotDot),
    &Form::Then(
        &Form::When(
            Look::Mark(Mark::Comma),
            &Form::Mark(Mark::Comma),
            &Form::Empty,
        ),
        &Form::When(Look::Ended, &Form::Empty, &Form::Never(Fault::Unexpected)),
    ),
);

/// An ABI: `extern` and an optional string.
static ABI: Form = Form::Then(
    &Form::Token(Token::Word(Word::Extern)),
    &Form::When(Look::StrLiteral, &Form::Token(Token::Str), &Form::Empty),
);

/// `unsafe` if it is next, or nothing.
static UNSAFE_ONLY: Form = Form::When(
    Look::Word(Word::Unsafe),
    &Form::Shaped(Shape::Untagged, &Form::Token(Token::Word(Word::Unsafe))),
    &Form::Empty,
);

/// `safe` or `unsafe` if one is next, or nothing.
static SAFE_OR_UNSAFE: Form = Form::When(
    Look::Or(&Look::Word(Word::Safe), &Look::Word(Word::Unsafe)),
    &Form::Shaped(
        Shape::Untagged,
        &Form::When(
            Look::Word(Word::Safe),
            &Form::Token(Token::Word(Word::Safe)),
            &Form::Token(Token::Word(Word::Unsafe)),
        ),
    ),
    &Form::Empty,
);

/// A signature: `const`, `async`, `unsafe` and an ABI, all optional, and the part that begins with `fn`.
static SIGNATURE: Form = Form::Then(
    &Form::When(
        Look::Word(Word::Const),
        &Form::Token(Token::Word(Word::Const)),
        &Form::Empty,
    ),
    &Form::Part(Part::SIGNATURE_1),
);

/// A part of `signature`.
static SIGNATURE_1: Form = Form::Then(
    &Form::When(
        Look::Word(Word::Async),
        &Form::Token(Token::Word(Word::Async)),
        &Form::Empty,
    ),
    &Form::Then(
        &Form::Rule(Rule::UNSAFE_ONLY),
        &Form::Then(
            &Form::When(
                Look::Word(Word::Extern),
                &Form::Rule(Rule::ABI),
                &Form::Empty,
            ),
            &Form::Rule(Rule::SIGNATURE_REST),
        ),
    ),
);

/// The part of a signature after its modifiers: `fn`, a name, generics, parameters in parentheses, a return type and a
/// where clause.
static SIGNATURE_REST: Form = Form::Then(
    &Form::Token(Token::Word(Word::Fn)),
    &Form::Part(Part::SIGNATURE_REST_1),
);

/// A part of `signature_rest`.
static SIGNATURE_REST_1: Form = Form::Then(
    &Form::Token(Token::Name),
    &Form::Then(
        &Form::Rule(Rule::GENERICS),
        &Form::Then(
            &Form::Inside(Delimiter::Paren, &Form::Rule(Rule::INPUTS)),
            &Form::Then(
                &Form::Rule(Rule::RETURN_TYPE),
                &Form::Rule(Rule::WHERE_CLAUSE),
            ),
        ),
    ),
);

/// The form of the rule at this place.
#[tactic(auto, using(std::proofs::lemmas::List::get_or_past), unfolding(crate::specs::Names::rule_of, crate::specs::Parts::part_form))]
pub(super) fn form_at(place: u8) -> &'static Form
    ensures { parse_form (grammar_of result.now) ≡ parse_form (table (signatures_rule place)) }
{
    match place {
        0 => &NO_ATTRIBUTES,
        1 => &RECEIVER,
        2 => &RECEIVER_REST,
        3 => &ARGUMENT,
        4 => &INPUTS,
        5 => &LATER_INPUTS,
        6 => &INPUT_REST,
        7 => &VARIADIC,
        8 => &ABI,
        9 => &UNSAFE_ONLY,
        10 => &SAFE_OR_UNSAFE,
        11 => &SIGNATURE,
        _ => &SIGNATURE_REST,
    }
}

/// The form of the part at this place.
#[tactic(auto, using(std::proofs::lemmas::List::get_or_past), unfolding(crate::specs::Names::rule_of, crate::specs::Parts::part_form))]
pub(super) fn part_at(place: u8) -> &'static Form
    ensures { parse_form (grammar_of result.now) ≡ parse_form (signatures_part place) }
{
    match place {
        0 => &RECEIVER_REST_1,
        1 => &RECEIVER_REST_2,
        2 => &RECEIVER_REST_3,
        3 => &INPUTS_1,
        4 => &SIGNATURE_1,
        _ => &SIGNATURE_REST_1,
    }
}
