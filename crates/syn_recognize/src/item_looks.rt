//! Lookaheads in items.
ghost use Rattle.std.specs.Prelude.{◌≡◌, codes};
ghost use Rattle.syn_grammar.specs.Grammar.{at_unnamed};
ghost use Rattle.syn_grammar.specs.Take.{sees};
ghost use Rattle.syn_grammar.specs.Table as table;
ghost use Rattle.syn_grammar.specs.Tokens as grammar;
ghost use Rattle.syn_grammar.specs.Tokens.{ahead, ◌and_also◌, Str, Before_colons, Before_less, Before_macro, Begins_item};
ghost use Rattle.syn_grammar.specs.Words.{w_union, w_auto};
ghost use Rattle.syn_grammar.specs.ItemPlan as plan;
ghost use Rattle.syn_parse.specs.Form.{by};
ghost use Rattle.syn_recognize.specs.ItemLooks as items;
ghost use Rattle.syn_recognize.specs.Strings.{is_string};

use crate::look::at_lone_colon;
use crate::looks::{
    after_path, at_crate_macro, at_less_only, at_lone_crate, at_macro, at_path_word, is_lone_word,
};
use syn_parse::buffer::ParseBuffer;
use syn_parse::read::Peek;
use syn_tokens::ident::Ident;
use syn_tokens::lifetime::Lifetime;
use syn_tokens::literal::LitKind;
use syn_tokens::stream::cursor::TokenTreeRef;
use syn_tokens::token::{
    And, As, Async, Auto, Brace, Const, Default, Enum, Extern, Fn, Gt, Impl, In, Lt, Macro, Mod,
    Move, Mut, Or, Paren, PathSep, Pound, Pub, SelfType, SelfValue, Static, Struct, Trait, Try,
    Type, Union, Unsafe, Use, kind,
};

/// Whether an item is next in a block, after its attributes.
#[tactic(auto, using(crate::proofs::ItemLooks::item_seen))]
pub fn at_item(input: &ParseBuffer<'_>) -> bool
    ensures { result ≡ sees table.at_item input.now }
{
    if at_item_word(input) {
        return true;
    }
    if at_marked_word(input) {
        return true;
    }
    if at_crate_item(input) {
        return true;
    }
    at_named_macro(input)
}

/// Whether the next token is a word that always begins an item.
#[tactic(auto, using(syn_grammar::proofs::Looks::sees_or))]
fn at_item_word(input: &ParseBuffer<'_>) -> bool
    ensures { result ≡ sees items.at_item_word input.now }
{
    at_first_item_word(input) || at_other_item_word(input)
}

/// Whether the next token is `pub`, `extern`, `use`, `fn` or `mod`.
#[tactic(auto, using(syn_grammar::proofs::Looks::sees_or))]
fn at_first_item_word(input: &ParseBuffer<'_>) -> bool
    ensures { result ≡ sees items.at_first_item_word input.now }
{
    input.peek::<Pub>()
        || input.peek::<Extern>()
        || input.peek::<Use>()
        || input.peek::<Fn>()
        || input.peek::<Mod>()
}

/// Whether the next token is `type`, `struct`, `enum`, `trait`, `impl` or `macro`.
#[tactic(auto, using(syn_grammar::proofs::Looks::sees_or))]
fn at_other_item_word(input: &ParseBuffer<'_>) -> bool
    ensures { result ≡ sees items.at_other_item_word input.now }
{
    input.peek::<Type>()
        || input.peek::<Struct>()
        || input.peek::<Enum>()
        || input.peek::<Trait>()
        || input.peek::<Impl>()
        || input.peek::<Macro>()
}

/// Whether the next token is a word that begins an item depending on the tokens after it.
#[tactic(auto, using(syn_grammar::proofs::Looks::sees_or))]
fn at_marked_word(input: &ParseBuffer<'_>) -> bool
    ensures { result ≡ sees items.at_marked_word input.now }
{
    at_const_item(input)
        || at_unsafe_item(input)
        || at_static_item(input)
        || at_async_item(input)
        || at_union(input)
        || at_auto(input)
        || at_default_item(input)
}

/// What begins an expression after `const`.
struct ConstExpression;

impl Peek for ConstExpression {
    ghost look = { by items.at_const_expression };

    ghost fault = { codes "expected an expression behind `const`" };

    fn peek(input: &ParseBuffer<'_>) -> bool {
        at_const_expression(input)
    }

    fn expected() -> &'static str {
        "expected an expression behind `const`"
    }
}

/// Whether the next token begins an expression after `const`.
#[tactic(auto, using(crate::proofs::ItemLooks::const_expression_seen))]
fn at_const_expression(input: &ParseBuffer<'_>) -> bool
    ensures { result ≡ sees items.at_const_expression input.now }
{
    input.peek::<Brace>()
        || input.peek::<Static>()
        || input.peek::<Move>()
        || input.peek::<Or>()
        || (input.peek::<Async>() && !at_async_item(input))
}

/// Whether `const` is next, and the token after it begins no expression.
#[tactic(auto, using(crate::proofs::ItemLooks::const_item_seen))]
fn at_const_item(input: &ParseBuffer<'_>) -> bool
    ensures { result ≡ sees items.at_const_item input.now }
{
    input.peek::<Const>() && !input.peek2::<ConstExpression>()
}

/// Whether `unsafe` is next, and no group in braces follows it.
#[tactic(auto, using(crate::proofs::ItemLooks::unsafe_item_seen))]
fn at_unsafe_item(input: &ParseBuffer<'_>) -> bool
    ensures { result ≡ sees items.at_unsafe_item input.now }
{
    input.peek::<Unsafe>() && !input.peek2::<Brace>()
}

/// Whether `static` is next, followed by `mut` or a name.
#[tactic(auto, using(crate::proofs::ItemLooks::static_item_seen))]
fn at_static_item(input: &ParseBuffer<'_>) -> bool
    ensures { result ≡ sees items.at_static_item input.now }
{
    input.peek::<Static>() && (input.peek2::<Mut>() || input.peek2::<Ident>())
}

/// Whether `async` is next, followed by `unsafe`, `extern` or `fn`.
#[tactic(auto, using(crate::proofs::ItemLooks::async_item_seen))]
fn at_async_item(input: &ParseBuffer<'_>) -> bool
    ensures { result ≡ sees items.at_async_item input.now }
{
    input.peek::<Async>()
        && (input.peek2::<Unsafe>() || input.peek2::<Extern>() || input.peek2::<Fn>())
}

/// Whether `union` is next, followed by a name.
#[tactic(auto, using(crate::proofs::ItemLooks::union_seen))]
pub fn at_union(input: &ParseBuffer<'_>) -> bool
    ensures { result ≡ sees (grammar.at_word w_union and_also ahead Begins_item) input.now }
{
    input.peek::<Union>() && input.peek2::<Ident>()
}

/// Whether `auto` is next, followed by `trait`.
#[tactic(auto, using(crate::proofs::ItemLooks::auto_seen))]
pub fn at_auto(input: &ParseBuffer<'_>) -> bool
    ensures { result ≡ sees (grammar.at_word w_auto and_also ahead Begins_item) input.now }
{
    input.peek::<Auto>() && input.peek2::<Trait>()
}

/// Whether `default` is next, followed by `unsafe` or `impl`.
#[tactic(auto, using(crate::proofs::ItemLooks::default_item_seen))]
fn at_default_item(input: &ParseBuffer<'_>) -> bool
    ensures { result ≡ sees items.at_default_item input.now }
{
    input.peek::<Default>() && (input.peek2::<Unsafe>() || input.peek2::<Impl>())
}

/// Whether `crate` is next without `::` after it, and is not the whole path of a macro with a group in braces.
#[tactic(auto, using(crate::proofs::ItemLooks::crate_item_seen))]
fn at_crate_item(input: &ParseBuffer<'_>) -> bool
    ensures { result ≡ sees items.at_crate_item input.now }
{
    at_lone_crate(input) && !at_crate_macro(input)
}

/// A name of a macro: an identifier that is no keyword, or `try`.
struct MacroName;

impl Peek for MacroName {
    ghost look = { by table.at_macro_name };

    ghost fault = { codes "expected identifier" };

    fn peek(input: &ParseBuffer<'_>) -> bool {
        at_macro_name(input)
    }

    fn expected() -> &'static str {
        "expected identifier"
    }
}

/// Whether the next token is an identifier that is no keyword, or `try`.
#[tactic(auto, using(syn_grammar::proofs::Looks::sees_or))]
pub fn at_macro_name(input: &ParseBuffer<'_>) -> bool
    ensures { result ≡ sees table.at_macro_name input.now }
{
    input.peek::<Ident>() || input.peek::<Try>()
}

/// Whether a macro with a name is next.
fn at_named_macro(input: &ParseBuffer<'_>) -> bool
    ensures { result ≡ sees items.at_named_macro input.now }
{
    match after_path(input) {
        Some(bang) => bang.peek2::<MacroName>(),
        None => false,
    }
}

/// `self`, and not `self::`.
struct OwnSelf;

impl Peek for OwnSelf {
    ghost look = { by table.at_own_self };

    ghost fault = { codes "expected `self`" };

    fn peek(input: &ParseBuffer<'_>) -> bool {
        at_own_self(input)
    }

    fn expected() -> &'static str {
        "expected `self`"
    }
}

/// Whether `self` is next, without `::` after it.
#[tactic(auto, using(crate::proofs::ItemLooks::own_self_seen))]
fn at_own_self(input: &ParseBuffer<'_>) -> bool
    ensures { result ≡ sees table.at_own_self input.now }
{
    input.peek::<SelfValue>() && !input.peek2::<PathSep>()
}

/// Whether a receiver is next.
#[tactic(auto, using(crate::proofs::ItemLooks::receiver_seen))]
pub fn at_receiver(input: &ParseBuffer<'_>) -> bool
    ensures { result ≡ sees table.at_receiver input.now }
{
    input.peek::<And>() || (input.peek::<Mut>() && input.peek2::<OwnSelf>()) || at_own_self(input)
}

/// Whether the next token is a name that begins a type, as `<` follows it, where the parameter's name may be left out.
#[tactic(auto, using(crate::proofs::ItemLooks::unnamed_seen))]
pub fn at_unnamed(input: &ParseBuffer<'_>) -> bool
    ensures { result ≡ sees (at_unnamed Before_less) input.now }
{
    input.peek::<Ident>() && input.peek2::<Lt>()
}

/// A generic parameter, or the `>` of an empty list.
struct FirstParameter;

impl Peek for FirstParameter {
    ghost look = { by items.at_first_parameter };

    ghost fault = { codes "expected a parameter or `>`" };

    fn peek(input: &ParseBuffer<'_>) -> bool {
        at_first_parameter(input)
    }

    fn expected() -> &'static str {
        "expected a parameter or `>`"
    }
}

/// Whether a generic parameter, or the `>` of an empty list, is next.
#[tactic(auto, using(syn_grammar::proofs::Looks::sees_or))]
fn at_first_parameter(input: &ParseBuffer<'_>) -> bool
    ensures { result ≡ sees items.at_first_parameter input.now }
{
    input.peek::<Gt>() || at_parameter(input)
}

/// Whether generics are next, where a type may be too.
#[tactic(auto, using(crate::proofs::ParameterLooks::generics_seen))]
pub fn at_generics(input: &ParseBuffer<'_>) -> bool
    ensures { result ≡ sees grammar.at_generics input.now }
{
    input.peek::<Lt>() && input.peek2::<FirstParameter>()
}

/// The tokens that continue a type after an identifier.
struct TypeRest;

impl Peek for TypeRest {
    ghost look = { by items.at_type_rest };

    ghost fault = { codes "expected the rest of a type" };

    fn peek(input: &ParseBuffer<'_>) -> bool {
        at_type_rest(input)
    }

    fn expected() -> &'static str {
        "expected the rest of a type"
    }
}

/// Whether the next token continues a type after an identifier: `::`, `<` and not `<=`, a group in parentheses, or `as`.
#[tactic(auto, using(syn_grammar::proofs::Looks::sees_or))]
fn at_type_rest(input: &ParseBuffer<'_>) -> bool
    ensures { result ≡ sees items.at_type_rest input.now }
{
    input.peek::<PathSep>() || at_less_only(input) || input.peek::<Paren>() || input.peek::<As>()
}

/// Whether a generic parameter is next: `#`, a lifetime, `const`, or an identifier after which no type continues.
#[tactic(auto, using(crate::proofs::ParameterLooks::parameter_seen))]
fn at_parameter(input: &ParseBuffer<'_>) -> bool
    ensures { result ≡ sees grammar.at_parameter input.now }
{
    input.peek::<Pound>()
        || input.peek::<Lifetime>()
        || input.peek::<Const>()
        || (input.peek::<Ident>() && !input.peek2::<TypeRest>())
}

/// Whether a path is next that the macro of an item may not have.
#[tactic(auto, using(crate::proofs::ItemLooks::no_macro_item_seen))]
pub fn at_no_macro_item(input: &ParseBuffer<'_>) -> bool
    ensures { result ≡ sees table.at_no_macro_item input.now }
{
    input.peek::<SelfType>() || (input.peek::<Default>() && input.peek2::<PathSep>())
}

/// Whether a string is next.
#[tactic(auto, using(crate::proofs::Strings::string_next, crate::proofs::Strings::string_not_at_end, crate::proofs::Strings::string_not_at_ident, crate::proofs::Strings::string_not_at_punct, crate::proofs::Strings::string_not_at_group))]
pub fn at_str(input: &ParseBuffer<'_>) -> bool
    ensures { result ≡ sees (grammar.at_literal Str) input.now }
{
    match input.cursor().split() {
        Some((TokenTreeRef::Literal(literal), _)) => is_string(literal.kind()),
        Some((TokenTreeRef::Ident(_), _)) => false,
        Some((TokenTreeRef::Punct(_), _)) => false,
        Some((TokenTreeRef::Group(_), _)) => false,
        None => false,
    }
}

/// Whether a literal of this kind is a string.
pub(crate) fn is_string(kind: LitKind) -> bool
    ensures { result ≡ is_string kind }
{
    match kind {
        LitKind::Str => true,
        LitKind::ByteStr => false,
        LitKind::CStr => false,
        LitKind::Byte => false,
        LitKind::Char => false,
        LitKind::Int => false,
        LitKind::Float => false,
    }
}

/// Whether a path segment is next, followed by `::`.
#[tactic(auto, using(crate::proofs::MacroLooks::before_colons_seen))]
pub fn is_before_colons(input: &ParseBuffer<'_>) -> bool
    ensures { result ≡ sees (ahead Before_colons) input.now }
{
    at_path_word(input) && input.peek2::<PathSep>()
}

/// Whether the path of a macro is next, or its rest after a `:`.
pub fn is_before_macro(input: &ParseBuffer<'_>) -> bool
    ensures { result ≡ sees (ahead Before_macro) input.now }
{
    if !at_lone_colon(input) {
        return at_macro(input);
    }
    let following = input.past();
    if !at_path_word(&following) {
        return false;
    }
    at_macro(&following)
}

/// Whether the next token is a group in parentheses that begins with `in`.
#[tactic(auto, using(crate::proofs::Restricted::in_restriction_seen))]
pub fn at_in_restriction(input: &ParseBuffer<'_>) -> bool
    ensures { result ≡ sees plan.at_in_restriction input.now }
{
    match input.peek_group::<kind::Paren>() {
        Some(content) => content.peek::<In>(),
        None => false,
    }
}

/// Whether the next token is a group in parentheses that holds only `crate`, `self` or `super`.
#[tactic(auto, using(crate::proofs::Restricted::lone_word_seen))]
pub fn at_lone_word(input: &ParseBuffer<'_>) -> bool
    ensures { result ≡ sees plan.at_lone_word input.now }
{
    match input.peek_group::<kind::Paren>() {
        Some(content) => is_lone_word(&content),
        None => false,
    }
}
