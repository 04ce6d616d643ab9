//! Written by tools/recognizers.py; edits are lost.
//!
//! Items.
ghost use Rattle.std.specs.Prelude.{◌≡◌};
ghost use Rattle.syn_grammar.specs.Run.{parse_form};
ghost use Rattle.syn_grammar.specs.Table.{table};
ghost use Rattle.syn_recognize.specs.Forms.{grammar_of};
ghost use Rattle.syn_recognize.specs.Names.{items_1_rule, items_2_rule};
ghost use Rattle.syn_recognize.specs.Parts.{items_part};

use crate::fault::Fault;
use crate::form::Form;
use crate::look::Look;
use crate::plan::Planned;
use crate::rules::{Part, Rule};
use crate::token::Token;
use crate::words::{Mark, Word};
use syn_tokens::delimiter::Delimiter;

/// A function with its attributes.
static FUNCTION: Form = Form::Then(
    &Form::Rule(Rule::ATTRIBUTES),
    &Form::Rule(Rule::FUNCTION_REST),
);

/// A function after its attributes: a visibility, a signature and a body. Modifiers that a tree built by hand has are
/// not printed.
static FUNCTION_REST: Form = Form::Then(
    &Form::Rule(Rule::VISIBILITY),
    &Form::Then(
        &Form::Unshown,
        &Form::Then(&Form::Rule(Rule::SIGNATURE), &Form::Rule(Rule::BODY)),
    ),
);

/// A constant with its attributes.
static CONST_ITEM: Form = Form::Then(
    &Form::Rule(Rule::ATTRIBUTES),
    &Form::Rule(Rule::CONST_ITEM_REST),
);

/// A constant after its attributes: a visibility, `const`, a name or `_`, a type, a value and `;`. Modifiers and
/// generics that a tree built by hand has are not printed.
static CONST_ITEM_REST: Form = Form::Then(
    &Form::Rule(Rule::VISIBILITY),
    &Form::Then(
        &Form::Unshown,
        &Form::Then(
            &Form::Token(Token::Word(Word::Const)),
            &Form::Then(
                &Form::Token(Token::NameOrUnderscore),
                &Form::Part(Part::CONST_ITEM_REST_1),
            ),
        ),
    ),
);

/// A part of `const_item_rest`.
static CONST_ITEM_REST_1: Form = Form::Then(
    &Form::Unshown,
    &Form::Then(
        &Form::Mark(Mark::Colon),
        &Form::Then(
            &Form::Rule(Rule::TYPE),
            &Form::Then(
                &Form::Mark(Mark::Eq),
                &Form::Then(&Form::Rule(Rule::WHOLE_EXPRESSION), &Form::Mark(Mark::Semi)),
            ),
        ),
    ),
);

/// `mut` if it is next, or nothing: the mutability of a static, by itself. (Statics read it as a part of their own
/// rules.)
static STATIC_MUTABILITY: Form = Form::When(
    Look::Word(Word::Mut),
    &Form::Token(Token::Word(Word::Mut)),
    &Form::Empty,
);

/// A static with its attributes.
static STATIC_ITEM: Form = Form::Then(
    &Form::Rule(Rule::ATTRIBUTES),
    &Form::Rule(Rule::STATIC_ITEM_REST),
);

/// A static after its attributes: a visibility, `static`, an optional `mut`, a name, a type, a value and `;`.
static STATIC_ITEM_REST: Form = Form::Then(
    &Form::Rule(Rule::VISIBILITY),
    &Form::Then(
        &Form::Token(Token::Word(Word::Static)),
        &Form::Then(
            &Form::When(
                Look::Word(Word::Mut),
                &Form::Token(Token::Word(Word::Mut)),
                &Form::Empty,
            ),
            &Form::Part(Part::STATIC_ITEM_REST_1),
        ),
    ),
);

/// A part of `static_item_rest`.
static STATIC_ITEM_REST_1: Form = Form::Then(
    &Form::Token(Token::Name),
    &Form::Then(
        &Form::Mark(Mark::Colon),
        &Form::Then(
            &Form::Rule(Rule::TYPE),
            &Form::Then(
                &Form::Mark(Mark::Eq),
                &Form::Then(&Form::Rule(Rule::WHOLE_EXPRESSION), &Form::Mark(Mark::Semi)),
            ),
        ),
    ),
);

/// An extern crate with its attributes.
static EXTERN_CRATE: Form = Form::Then(
    &Form::Rule(Rule::ATTRIBUTES),
    &Form::Rule(Rule::EXTERN_CRATE_REST),
);

/// An extern crate after its attributes: a visibility, `extern crate`, a name or `self`, an optional `as` with a name
/// or `_`, and `;`.
static EXTERN_CRATE_REST: Form = Form::Then(
    &Form::Rule(Rule::VISIBILITY),
    &Form::Then(
        &Form::Token(Token::Word(Word::Extern)),
        &Form::Part(Part::EXTERN_CRATE_REST_1),
    ),
);

/// A part of `extern_crate_rest`.
static EXTERN_CRATE_REST_1: Form = Form::Then(
    &Form::Token(Token::Word(Word::Crate)),
    &Form::Then(
        &Form::Token(Token::NameOrSelf),
        &Form::Then(
            &Form::When(
                Look::Word(Word::As),
                &Form::Then(
                    &Form::Token(Token::Word(Word::As)),
                    &Form::Token(Token::NameOrUnderscore),
                ),
                &Form::Empty,
            ),
            &Form::Mark(Mark::Semi),
        ),
    ),
);

/// A tree of a use: `*`; trees in braces; or a name, `self`, `super`, `crate` or `try`, alone, followed by `::` and a
/// tree, or followed by `as` and a name or `_`.
static USE_TREE: Form = Form::When(
    Look::Mark(Mark::Star),
    &Form::Mark(Mark::Star),
    &Form::When(
        Look::Group(Delimiter::Brace),
        &Form::Inside(Delimiter::Brace, &Form::Rule(Rule::USE_TREES)),
        &Form::Part(Part::USE_TREE_1),
    ),
);

/// A part of `use_tree`.
static USE_TREE_1: Form = Form::Then(
    &Form::Token(Token::UseWord),
    &Form::When(
        Look::Mark(Mark::PathSep),
        &Form::Then(&Form::Mark(Mark::PathSep), &Form::Rule(Rule::USE_TREE)),
        &Form::When(
            Look::Word(Word::As),
            &Form::Then(
                &Form::Token(Token::Word(Word::As)),
                &Form::Token(Token::NameOrUnderscore),
            ),
            &Form::Empty,
        ),
    ),
);

/// Trees of a use, separated by commas; a trailing comma is allowed.
static USE_TREES: Form = Form::When(
    Look::Ended,
    &Form::Empty,
    &Form::Then(
        &Form::Rule(Rule::USE_TREE),
        &Form::When(
            Look::Mark(Mark::Comma),
            &Form::Then(&Form::Mark(Mark::Comma), &Form::Rule(Rule::USE_TREES)),
            &Form::Empty,
        ),
    ),
);

/// The mark `::` before a tree of a use in braces.
static ROOT_MARK: Form = Form::Mark(Mark::PathSep);

/// A tree in the braces that directly follow `use`, or that are a tree in such braces: with an optional `::` before it.
static ROOTED_TREE: Form = Form::When(
    Look::Mark(Mark::PathSep),
    &Form::Then(&Form::Only(Rule::ROOT_MARK), &Form::Rule(Rule::USE_TREE)),
    &Form::When(
        Look::Group(Delimiter::Brace),
        &Form::Inside(Delimiter::Brace, &Form::Rule(Rule::ROOTED_TREES)),
        &Form::Rule(Rule::USE_TREE),
    ),
);

/// Such trees, separated by commas; a trailing comma is allowed.
static ROOTED_TREES: Form = Form::When(
    Look::Ended,
    &Form::Empty,
    &Form::Then(
        &Form::Rule(Rule::ROOTED_TREE),
        &Form::When(
            Look::Mark(Mark::Comma),
            &Form::Then(&Form::Mark(Mark::Comma), &Form::Rule(Rule::ROOTED_TREES)),
            &Form::Empty,
        ),
    ),
);

/// A use with its attributes.
static USE_ITEM: Form = Form::Then(
    &Form::Rule(Rule::ATTRIBUTES),
    &Form::Rule(Rule::USE_ITEM_REST),
);

/// A use after its attributes: a visibility, `use`, trees in braces, none of which has `::` before it, or a tree with
/// an optional `::` before it, and `;`.
static USE_ITEM_REST: Form = Form::Planned(Planned::UseItemRest);

/// A module with its attributes.
static MODULE_ITEM: Form = Form::Then(
    &Form::Rule(Rule::ATTRIBUTES),
    &Form::Rule(Rule::MODULE_ITEM_REST),
);

/// A module after its attributes: a visibility, an optional `unsafe`, `mod`, a name or `try`, and `;` or inner
/// attributes and items in braces. A semicolon that a tree built by hand has with the braces is not printed.
static MODULE_ITEM_REST: Form = Form::Then(
    &Form::Rule(Rule::VISIBILITY),
    &Form::Then(
        &Form::When(
            Look::Word(Word::Unsafe),
            &Form::Token(Token::Word(Word::Unsafe)),
            &Form::Empty,
        ),
        &Form::Then(
            &Form::Token(Token::Word(Word::Mod)),
            &Form::Part(Part::MODULE_ITEM_REST_1),
        ),
    ),
);

/// A part of `module_item_rest`.
static MODULE_ITEM_REST_1: Form = Form::Then(
    &Form::Token(Token::NameOrTry),
    &Form::When(
        Look::Mark(Mark::Semi),
        &Form::Mark(Mark::Semi),
        &Form::Then(
            &Form::Unshown,
            &Form::Inside(
                Delimiter::Brace,
                &Form::Then(
                    &Form::Rule(Rule::INNER_ATTRIBUTES),
                    &Form::Rule(Rule::ITEMS),
                ),
            ),
        ),
    ),
);

/// The bounds of a trait alias, joined by `+`, up to a token that ends them at the start or after a `+`; the list may
/// be empty, and may end with `+`.
static ALIAS_BOUNDS: Form = Form::When(
    Look::Or(&Look::Word(Word::Where), &Look::Mark(Mark::Semi)),
    &Form::Empty,
    &Form::Then(
        &Form::Rule(Rule::BOUND),
        &Form::When(
            Look::Mark(Mark::Plus),
            &Form::Then(&Form::Mark(Mark::Plus), &Form::Rule(Rule::ALIAS_BOUNDS)),
            &Form::Empty,
        ),
    ),
);

/// The bounds of a type, joined by `+`, up to a token that ends them at the start or after a `+`; the list may be
/// empty, and may end with `+`.
static TYPE_BOUNDS: Form = Form::When(
    Look::Or(
        &Look::Word(Word::Where),
        &Look::Or(&Look::Mark(Mark::Eq), &Look::Mark(Mark::Semi)),
    ),
    &Form::Empty,
    &Form::Then(
        &Form::Rule(Rule::BOUND),
        &Form::When(
            Look::Mark(Mark::Plus),
            &Form::Then(&Form::Mark(Mark::Plus), &Form::Rule(Rule::TYPE_BOUNDS)),
            &Form::Empty,
        ),
    ),
);

/// A trait alias without attributes and visibility: `trait`, a name, generics, `=`, bounds, a where clause and `;`.
static ALIAS: Form = Form::Then(
    &Form::Token(Token::Word(Word::Trait)),
    &Form::Part(Part::ALIAS_1),
);

/// A part of `alias`.
static ALIAS_1: Form = Form::Then(
    &Form::Token(Token::Name),
    &Form::Then(
        &Form::Rule(Rule::GENERICS),
        &Form::Then(
            &Form::Mark(Mark::Eq),
            &Form::Then(
                &Form::Rule(Rule::ALIAS_BOUNDS),
                &Form::Then(&Form::Rule(Rule::WHERE_CLAUSE), &Form::Mark(Mark::Semi)),
            ),
        ),
    ),
);

/// A trait alias with its attributes.
static TRAIT_ALIAS: Form = Form::Then(
    &Form::Rule(Rule::ATTRIBUTES),
    &Form::Rule(Rule::TRAIT_ALIAS_REST),
);

/// A trait alias after its attributes: a visibility, and the alias.
static TRAIT_ALIAS_REST: Form = Form::Then(&Form::Rule(Rule::VISIBILITY), &Form::Rule(Rule::ALIAS));

/// A type alias with its attributes.
static TYPE_ITEM: Form = Form::Then(
    &Form::Rule(Rule::ATTRIBUTES),
    &Form::Rule(Rule::TYPE_ITEM_REST),
);

/// A type alias after its attributes: a visibility, `type`, a name, generics, `=` and a type, with a where clause
/// before the `=` or after the type, and `;`. Modifiers, and the place of a clause without predicates, that a tree
/// built by hand has are not printed.
static TYPE_ITEM_REST: Form = Form::Planned(Planned::TypeItemRest);

/// The end of a macro that is an item: a group in braces, or one in parentheses or brackets and `;`.
static MACRO_END: Form = Form::When(
    Look::Group(Delimiter::Paren),
    &Form::Then(&Form::Raw(Delimiter::Paren), &Form::Mark(Mark::Semi)),
    &Form::When(
        Look::Group(Delimiter::Bracket),
        &Form::Then(&Form::Raw(Delimiter::Bracket), &Form::Mark(Mark::Semi)),
        &Form::Raw(Delimiter::Brace),
    ),
);

/// A macro as an item, with its attributes; its path may be any.
static MACRO_ITEM: Form = Form::Then(
    &Form::Rule(Rule::ATTRIBUTES),
    &Form::Rule(Rule::MACRO_ITEM_REST),
);

/// A macro as an item, after its attributes: a path in module style, `!` that isn't `!=`, optionally a name or `try`,
/// and a group of any content, followed by `;` unless it is in braces.
static MACRO_ITEM_REST: Form = Form::Then(
    &Form::Rule(Rule::MODULE_PATH),
    &Form::Part(Part::MACRO_ITEM_REST_1),
);

/// A part of `macro_item_rest`.
static MACRO_ITEM_REST_1: Form = Form::Then(
    &Form::When(
        Look::Bang,
        &Form::Mark(Mark::Not),
        &Form::Never(Fault::Unexpected),
    ),
    &Form::Then(
        &Form::When(
            Look::Or(&Look::Name, &Look::Word(Word::Try)),
            &Form::Token(Token::NameOrTry),
            &Form::Empty,
        ),
        &Form::Rule(Rule::MACRO_END),
    ),
);

/// A macro among items, with its attributes.
static MACRO_AS_ITEM: Form = Form::Then(
    &Form::Rule(Rule::ATTRIBUTES),
    &Form::Rule(Rule::MACRO_AS_ITEM_REST),
);

/// A macro among items, after its attributes: its path begins neither with `Self`, nor with `default` followed by `::`.
static MACRO_AS_ITEM_REST: Form = Form::When(
    Look::NoMacroItem,
    &Form::Never(Fault::Unexpected),
    &Form::Rule(Rule::MACRO_ITEM_REST),
);

/// The form of the rule at this place.
#[tactic(auto, using(std::proofs::lemmas::List::get_or_past), unfolding(crate::specs::Names::rule_of, crate::specs::Parts::part_form))]
pub(super) fn form_at_1(place: u8) -> &'static Form
    ensures { parse_form (grammar_of result.now) ≡ parse_form (table (items_1_rule place)) }
{
    match place {
        0 => &FUNCTION,
        1 => &FUNCTION_REST,
        2 => &CONST_ITEM,
        3 => &CONST_ITEM_REST,
        4 => &STATIC_MUTABILITY,
        5 => &STATIC_ITEM,
        6 => &STATIC_ITEM_REST,
        7 => &EXTERN_CRATE,
        8 => &EXTERN_CRATE_REST,
        9 => &USE_TREE,
        10 => &USE_TREES,
        11 => &ROOT_MARK,
        12 => &ROOTED_TREE,
        13 => &ROOTED_TREES,
        _ => &USE_ITEM,
    }
}

/// The form of the rule at this place.
#[tactic(auto, using(std::proofs::lemmas::List::get_or_past), unfolding(crate::specs::Names::rule_of, crate::specs::Parts::part_form))]
pub(super) fn form_at_2(place: u8) -> &'static Form
    ensures { parse_form (grammar_of result.now) ≡ parse_form (table (items_2_rule place)) }
{
    match place {
        0 => &USE_ITEM_REST,
        1 => &MODULE_ITEM,
        2 => &MODULE_ITEM_REST,
        3 => &ALIAS_BOUNDS,
        4 => &TYPE_BOUNDS,
        5 => &ALIAS,
        6 => &TRAIT_ALIAS,
        7 => &TRAIT_ALIAS_REST,
        8 => &TYPE_ITEM,
        9 => &TYPE_ITEM_REST,
        10 => &MACRO_END,
        11 => &MACRO_ITEM,
        12 => &MACRO_ITEM_REST,
        13 => &MACRO_AS_ITEM,
        _ => &MACRO_AS_ITEM_REST,
    }
}

/// The form of the part at this place.
#[tactic(auto, using(std::proofs::lemmas::List::get_or_past), unfolding(crate::specs::Names::rule_of, crate::specs::Parts::part_form))]
pub(super) fn part_at(place: u8) -> &'static Form
    ensures { parse_form (grammar_of result.now) ≡ parse_form (items_part place) }
{
    match place {
        0 => &CONST_ITEM_REST_1,
        1 => &STATIC_ITEM_REST_1,
        2 => &EXTERN_CRATE_REST_1,
        3 => &USE_TREE_1,
        4 => &MODULE_ITEM_REST_1,
        5 => &ALIAS_1,
        _ => &MACRO_ITEM_REST_1,
    }
}
