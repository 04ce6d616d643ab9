//! The conditions of the grammar on the next tokens, by their names.
ghost use Rattle.std.specs.Prelude.{◌≡◌, codes};
ghost use Rattle.syn_grammar.specs.Take.{sees};
ghost use Rattle.syn_grammar.specs.Table as table;
ghost use Rattle.syn_grammar.specs.Tokens as grammar;
ghost use Rattle.syn_parse.specs.Form.{by};
ghost use Rattle.syn_lower.specs.Looks.{lone_word};

use syn_parse::buffer::ParseBuffer;
use syn_parse::read::{End, Peek};
use syn_tokens::ident::Ident;
use syn_tokens::literal::Literal;
use syn_tokens::token::{
    Brace, Colon, Comma, Crate, Eq, False, Gt, In, PathSep, SelfType, SelfValue, Semi, Struct,
    Super, True, Union, kind,
};

/// Whether parentheses are next that hold `crate`, `self` or `super` alone, or begin with `in`.
#[tactic(auto, using(crate::proofs::Restricted::restriction_seen))]
pub fn at_restriction(input: &ParseBuffer<'_>) -> bool
    ensures { result ≡ sees table.at_restriction input.now }
{
    match input.peek_group::<kind::Paren>() {
        Some(content) => content.peek::<In>() || is_lone_word(&content),
        None => false,
    }
}

/// Whether `crate`, `self` or `super` is all that is left.
fn is_lone_word(content: &ParseBuffer<'_>) -> bool
    ensures { result ≡ lone_word content.now }
{
    (content.peek::<Crate>() || content.peek::<SelfValue>() || content.peek::<Super>())
        && content.peek2::<End>()
}

/// Whether an invisible group without content is next, which represents a visibility that isn't written.
#[tactic(auto, using(crate::proofs::Restricted::empty_group_seen))]
pub fn at_empty_group(input: &ParseBuffer<'_>) -> bool
    ensures { result ≡ sees grammar.at_empty_group input.now }
{
    match input.peek_group::<kind::Group>() {
        Some(content) => content.is_empty(),
        None => false,
    }
}

/// Whether `struct` is next, or `union` followed by a group in braces.
#[tactic(auto, using(crate::proofs::Nameless::nameless_seen))]
pub fn at_nameless_fields(input: &ParseBuffer<'_>) -> bool
    ensures { result ≡ sees table.at_nameless_fields input.now }
{
    input.peek::<Struct>() || (input.peek::<Union>() && input.peek2::<Brace>())
}

/// What ends the bounds of a parameter.
pub(crate) struct ParameterEnd;

impl Peek for ParameterEnd {
    ghost look = { by table.at_parameter_end };

    ghost fault = { codes "expected `,`, `>` or `=`" };

    #[tactic(auto, using(syn_grammar::proofs::Looks::sees_or))]
    fn peek(input: &ParseBuffer<'_>) -> bool {
        input.peek::<Comma>() || input.peek::<Gt>() || input.peek::<Eq>()
    }

    fn expected() -> &'static str {
        "expected `,`, `>` or `=`"
    }
}

/// What ends a where clause, or the bounds of its predicates.
pub(crate) struct PredicateEnd;

impl Peek for PredicateEnd {
    ghost look = { by table.at_predicate_end };

    ghost fault = { codes "expected the end of a where clause" };

    #[tactic(auto, using(syn_grammar::proofs::Looks::sees_or))]
    fn peek(input: &ParseBuffer<'_>) -> bool {
        input.is_empty()
            || input.peek::<Brace>()
            || input.peek::<Comma>()
            || input.peek::<Semi>()
            || input.peek::<Eq>()
            || at_lone_colon(input)
    }

    fn expected() -> &'static str {
        "expected the end of a where clause"
    }
}

/// Whether `:` is next, and not `::`.
#[tactic(auto, using(syn_grammar::proofs::Looks::sees_but))]
fn at_lone_colon(input: &ParseBuffer<'_>) -> bool
    ensures { result ≡ sees table.at_lone_colon input.now }
{
    input.peek::<Colon>() && !input.peek::<PathSep>()
}

/// Whether an identifier that is no keyword, or `Self`, is next: a word of a path that may have arguments.
#[tactic(auto, using(syn_grammar::proofs::Looks::sees_or))]
pub fn at_named_word(input: &ParseBuffer<'_>) -> bool
    ensures { result ≡ sees table.at_named_word input.now }
{
    input.peek::<Ident>() || input.peek::<SelfType>()
}

/// Whether a constant is next: a group in braces, `true`, `false` or a literal.
#[tactic(auto, using(syn_grammar::proofs::Looks::sees_or))]
pub fn at_constant(input: &ParseBuffer<'_>) -> bool
    ensures { result ≡ sees table.at_constant input.now }
{
    input.peek::<Brace>()
        || input.peek::<True>()
        || input.peek::<False>()
        || input.peek::<Literal>()
}
