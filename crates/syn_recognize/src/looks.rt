//! Lookaheads that are not composed of others.
ghost use Rattle.std.specs.Prelude.{◌≡◌, MatchOption, true, false, codes};
ghost use Rattle.syn_grammar.specs.Take.{sees};
ghost use Rattle.syn_grammar.specs.Table as table;
ghost use Rattle.syn_grammar.specs.Tokens as grammar;
ghost use Rattle.syn_grammar.specs.Tokens.{Int};
ghost use Rattle.syn_parse.specs.Form.{by};
ghost use Rattle.syn_parse.specs.Peeks.{past};
ghost use Rattle.syn_recognize.specs.FieldNumbers.{is_integer};
ghost use Rattle.syn_recognize.specs.ItemLooks.{at_named_macro, brace_macro_from, macro_from, named_macro_from};
ghost use Rattle.syn_recognize.specs.Restricted.{lone_word};

use syn_parse::buffer::ParseBuffer;
use syn_parse::read::{End, Peek};
use syn_tokens::ident::Ident;
use syn_tokens::literal::LitKind;
use syn_tokens::stream::cursor::TokenTreeRef;
use syn_tokens::token::{
    Brace, Crate, Eq, In, Le, Lt, Ne, Not, Paren, PathSep, Pound, SelfType, SelfValue, Struct,
    Super, Union, kind,
};

/// Whether `#` is next, followed by `!`.
#[tactic(auto, using(crate::proofs::InnerAttributes::inner_attribute_seen))]
pub fn at_inner_attribute(input: &ParseBuffer<'_>) -> bool
    ensures { result ≡ sees table.at_inner_attribute input.now }
{
    input.peek::<Pound>() && input.peek2::<Not>()
}

/// Whether the next token is `<`, and not `<=`.
#[tactic(auto, using(syn_grammar::proofs::Looks::sees_but))]
pub(crate) fn at_less_only(input: &ParseBuffer<'_>) -> bool
    ensures { result ≡ sees table.at_less_only input.now }
{
    input.peek::<Lt>() && !input.peek::<Le>()
}

/// Whether the arguments of a segment of a type's path are next: `<` and not `<=`, a group in parentheses, or `::` followed by `<`.
#[tactic(auto, using(crate::proofs::TypeLooks::arguments_seen))]
pub fn at_arguments(input: &ParseBuffer<'_>) -> bool
    ensures { result ≡ sees table.at_arguments input.now }
{
    at_less_only(input) || input.peek::<Paren>() || (input.peek::<PathSep>() && input.peek3::<Lt>())
}

/// Whether an identifier that is no keyword is next, followed by `=`.
#[tactic(auto, using(crate::proofs::TypeLooks::association_seen))]
pub fn at_association(input: &ParseBuffer<'_>) -> bool
    ensures { result ≡ sees table.at_association input.now }
{
    input.peek::<Ident>() && input.peek2::<Eq>()
}

/// Whether an integer is next.
#[tactic(auto, using(crate::proofs::Integers::integer_seen, crate::proofs::Integers::integer_not_at_end, crate::proofs::Integers::integer_not_at_ident, crate::proofs::Integers::integer_not_at_punct, crate::proofs::Integers::integer_not_at_group))]
pub fn at_integer(input: &ParseBuffer<'_>) -> bool
    ensures { result ≡ sees (grammar.at_literal Int) input.now }
{
    match input.cursor().split() {
        Some((TokenTreeRef::Literal(literal), _)) => is_integer(literal.kind()),
        Some((TokenTreeRef::Ident(_), _)) => false,
        Some((TokenTreeRef::Punct(_), _)) => false,
        Some((TokenTreeRef::Group(_), _)) => false,
        None => false,
    }
}

/// Whether a literal of this kind is an integer.
fn is_integer(kind: LitKind) -> bool
    ensures { result ≡ is_integer kind }
{
    match kind {
        LitKind::Str => false,
        LitKind::ByteStr => false,
        LitKind::CStr => false,
        LitKind::Byte => false,
        LitKind::Char => false,
        LitKind::Int => true,
        LitKind::Float => false,
    }
}

/// Whether the next token is an identifier that is no keyword, `self`, `Self`, `super` or `crate`.
#[tactic(auto, using(syn_grammar::proofs::Looks::sees_or))]
pub fn at_path_word(input: &ParseBuffer<'_>) -> bool
    ensures { result ≡ sees grammar.at_path_word input.now }
{
    input.peek::<Ident>()
        || input.peek::<SelfValue>()
        || input.peek::<SelfType>()
        || input.peek::<Super>()
        || input.peek::<Crate>()
}

/// Whether the next token is a group in parentheses that holds only `crate`, `self` or `super`, or begins with `in`.
#[tactic(auto, using(crate::proofs::Restricted::restriction_seen))]
pub fn at_restriction(input: &ParseBuffer<'_>) -> bool
    ensures { result ≡ sees table.at_restriction input.now }
{
    match input.peek_group::<kind::Paren>() {
        Some(content) => content.peek::<In>() || is_lone_word(&content),
        None => false,
    }
}

/// Whether only `crate`, `self` or `super` is left.
pub(crate) fn is_lone_word(content: &ParseBuffer<'_>) -> bool
    ensures { result ≡ lone_word content.now }
{
    (content.peek::<Crate>() || content.peek::<SelfValue>() || content.peek::<Super>())
        && content.peek2::<End>()
}

/// Whether the next token is an empty invisible group, which represents a visibility that isn't written.
#[tactic(auto, using(crate::proofs::Restricted::empty_group_seen))]
pub fn at_empty_group(input: &ParseBuffer<'_>) -> bool
    ensures { result ≡ sees grammar.at_empty_group input.now }
{
    match input.peek_group::<kind::Group>() {
        Some(content) => content.is_empty(),
        None => false,
    }
}

/// Whether `struct` is next, or `union` followed by a group in braces.
#[tactic(auto, using(crate::proofs::Nameless::nameless_seen))]
pub fn at_nameless_fields(input: &ParseBuffer<'_>) -> bool
    ensures { result ≡ sees table.at_nameless_fields input.now }
{
    input.peek::<Struct>() || (input.peek::<Union>() && input.peek2::<Brace>())
}

/// `!`, and not `!=`.
struct Bang;

impl Peek for Bang {
    ghost look = { by table.at_bang };

    ghost fault = { codes "expected `!`" };

    fn peek(input: &ParseBuffer<'_>) -> bool {
        at_bang(input)
    }

    fn expected() -> &'static str {
        "expected `!`"
    }
}

/// Whether the next token is `!`, and not `!=`.
#[tactic(auto, using(syn_grammar::proofs::Looks::sees_but))]
pub fn at_bang(input: &ParseBuffer<'_>) -> bool
    ensures { result ≡ sees table.at_bang input.now }
{
    input.peek::<Not>() && !input.peek::<Ne>()
}

/// Whether the arguments of a segment of an expression's path are next: `::` followed by `<`.
#[tactic(auto, using(crate::proofs::PathLooks::turbofish_seen))]
pub fn at_turbofish(input: &ParseBuffer<'_>) -> bool
    ensures { result ≡ sees table.at_turbofish input.now }
{
    input.peek::<PathSep>() && input.peek3::<Lt>()
}

/// Whether `crate` is next, without `::` after it.
#[tactic(auto, using(crate::proofs::PathLooks::lone_crate_seen))]
pub fn at_lone_crate(input: &ParseBuffer<'_>) -> bool
    ensures { result ≡ sees table.at_lone_crate input.now }
{
    input.peek::<Crate>() && !input.peek2::<PathSep>()
}

/// Whether a path is next where a pattern is accepted: `::`, `<`, `Self`, `super`, `crate`, `self` before `::`, or an identifier that is no
/// keyword before `::` or a group in parentheses.
#[tactic(auto, using(crate::proofs::PathLooks::pattern_path_seen))]
pub fn at_pattern_path(input: &ParseBuffer<'_>) -> bool
    ensures { result ≡ sees table.at_pattern_path input.now }
{
    input.peek::<PathSep>()
        || input.peek::<Lt>()
        || input.peek::<SelfType>()
        || input.peek::<Super>()
        || input.peek::<Crate>()
        || (input.peek::<SelfValue>() && input.peek2::<PathSep>())
        || (input.peek::<Ident>() && (input.peek2::<PathSep>() || input.peek2::<Paren>()))
}

/// Whether a macro is next: a path in module style, and a `!` that isn't `!=`.
pub fn at_macro(input: &ParseBuffer<'_>) -> bool
    ensures { result ≡ sees table.at_macro input.now }
{
    match after_path(input) {
        Some(_) => true,
        None => false,
    }
}

/// Whether a macro with a group in braces is next.
pub fn at_brace_macro(input: &ParseBuffer<'_>) -> bool
    ensures { result ≡ sees table.at_brace_macro input.now }
{
    match after_path(input) {
        Some(bang) => bang.peek2::<Brace>(),
        None => false,
    }
}

/// Whether `crate` is next as the whole path of a macro with a group in braces.
#[tactic(auto, using(crate::proofs::PathLooks::crate_macro_seen))]
pub fn at_crate_macro(input: &ParseBuffer<'_>) -> bool
    ensures { result ≡ sees table.at_crate_macro input.now }
{
    at_lone_crate(input) && input.peek2::<Bang>() && input.peek3::<Brace>()
}

/// If a macro is next, the tokens after its path, from its `!` on.
pub(crate) fn after_path<'a>(input: &ParseBuffer<'a>) -> Option<ParseBuffer<'a>>
    ensures { MatchOption result
        ((sees table.at_macro input.now ≡ false) × (sees table.at_brace_macro input.now ≡ false) × (sees at_named_macro input.now ≡ false))
        (λ bang. (sees table.at_macro input.now ≡ true) × (sees table.at_brace_macro input.now ≡ sees table.at_brace (past bang)) × (sees at_named_macro input.now ≡ sees table.at_macro_name (past bang))) }
{
    let mut ahead = after_colons(input);
    'words: while at_path_word(&ahead) {
        ahead = ahead.past();
        if at_bang(&ahead) {
            return Some(ahead);
        }
        if !ahead.peek::<PathSep>() {
            return None;
        }
        ahead = ahead.past().past();
    }
    None
}

/// The tokens after `::`, if it is next; else all tokens.
fn after_colons<'a>(input: &ParseBuffer<'a>) -> ParseBuffer<'a>
    ensures { (sees table.at_macro input.now ≡ macro_from result) × (sees table.at_brace_macro input.now ≡ brace_macro_from result) × (sees at_named_macro input.now ≡ named_macro_from result) }
{
    if input.peek::<PathSep>() {
        input.past().past()
    } else {
        input.fork()
    }
}
