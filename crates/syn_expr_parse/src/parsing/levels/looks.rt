//! The conditions of the grammar on operators, by their names.
ghost use Rattle.std.specs.Prelude.{◌≡◌};
ghost use Rattle.syn_grammar.specs.Take.{sees};
ghost use Rattle.syn_grammar.specs.Table as table;

use syn_parse::buffer::ParseBuffer;
use syn_tokens::token::{
    And, AndAnd, AndEq, Caret, CaretEq, Eq, EqEq, Ge, Gt, Le, Lt, Minus, MinusEq, Ne, Or, OrEq,
    OrOr, Percent, PercentEq, Plus, PlusEq, Shl, ShlEq, Shr, ShrEq, Slash, SlashEq, Star, StarEq,
};

/// Whether `*` is next, and not `*=`.
#[tactic(auto, using(syn_grammar::proofs::Looks::sees_but))]
pub(super) fn at_star_operator(input: &ParseBuffer<'_>) -> bool
    ensures { result ≡ sees table.at_star_operator input.now }
{
    input.peek::<Star>() && !input.peek::<StarEq>()
}

/// Whether `/` is next, and not `/=`.
#[tactic(auto, using(syn_grammar::proofs::Looks::sees_but))]
pub(super) fn at_slash_operator(input: &ParseBuffer<'_>) -> bool
    ensures { result ≡ sees table.at_slash_operator input.now }
{
    input.peek::<Slash>() && !input.peek::<SlashEq>()
}

/// Whether `%` is next, and not `%=`.
#[tactic(auto, using(syn_grammar::proofs::Looks::sees_but))]
pub(super) fn at_percent_operator(input: &ParseBuffer<'_>) -> bool
    ensures { result ≡ sees table.at_percent_operator input.now }
{
    input.peek::<Percent>() && !input.peek::<PercentEq>()
}

/// Whether `+` is next, and not `+=`.
#[tactic(auto, using(syn_grammar::proofs::Looks::sees_but))]
pub(super) fn at_plus_operator(input: &ParseBuffer<'_>) -> bool
    ensures { result ≡ sees table.at_plus_operator input.now }
{
    input.peek::<Plus>() && !input.peek::<PlusEq>()
}

/// Whether `-` is next, and not `-=`.
#[tactic(auto, using(syn_grammar::proofs::Looks::sees_but))]
pub(super) fn at_minus_operator(input: &ParseBuffer<'_>) -> bool
    ensures { result ≡ sees table.at_minus_operator input.now }
{
    input.peek::<Minus>() && !input.peek::<MinusEq>()
}

/// Whether `<<` is next, and not `<<=`.
#[tactic(auto, using(syn_grammar::proofs::Looks::sees_but))]
pub(super) fn at_less_less_operator(input: &ParseBuffer<'_>) -> bool
    ensures { result ≡ sees table.at_less_less_operator input.now }
{
    input.peek::<Shl>() && !input.peek::<ShlEq>()
}

/// Whether `>>` is next, and not `>>=`.
#[tactic(auto, using(syn_grammar::proofs::Looks::sees_but))]
pub(super) fn at_greater_greater_operator(input: &ParseBuffer<'_>) -> bool
    ensures { result ≡ sees table.at_greater_greater_operator input.now }
{
    input.peek::<Shr>() && !input.peek::<ShrEq>()
}

/// Whether `&` is next, and not `&&` or `&=`.
#[tactic(auto, using(syn_grammar::proofs::Looks::sees_but, syn_grammar::proofs::Looks::sees_or))]
pub(super) fn at_ampersand_operator(input: &ParseBuffer<'_>) -> bool
    ensures { result ≡ sees table.at_ampersand_operator input.now }
{
    input.peek::<And>() && !(input.peek::<AndAnd>() || input.peek::<AndEq>())
}

/// Whether `^` is next, and not `^=`.
#[tactic(auto, using(syn_grammar::proofs::Looks::sees_but))]
pub(super) fn at_caret_operator(input: &ParseBuffer<'_>) -> bool
    ensures { result ≡ sees table.at_caret_operator input.now }
{
    input.peek::<Caret>() && !input.peek::<CaretEq>()
}

/// Whether `|` is next, and not `||` or `|=`.
#[tactic(auto, using(syn_grammar::proofs::Looks::sees_but, syn_grammar::proofs::Looks::sees_or))]
pub(super) fn at_bar_operator(input: &ParseBuffer<'_>) -> bool
    ensures { result ≡ sees table.at_bar_operator input.now }
{
    input.peek::<Or>() && !(input.peek::<OrOr>() || input.peek::<OrEq>())
}

/// Whether `<` is next, and not `<=` or `<<`.
#[tactic(auto, using(syn_grammar::proofs::Looks::sees_but, syn_grammar::proofs::Looks::sees_or))]
pub(super) fn at_less_operator(input: &ParseBuffer<'_>) -> bool
    ensures { result ≡ sees table.at_less_operator input.now }
{
    input.peek::<Lt>() && !(input.peek::<Le>() || input.peek::<Shl>())
}

/// Whether `>` is next, and not `>=` or `>>`.
#[tactic(auto, using(syn_grammar::proofs::Looks::sees_but, syn_grammar::proofs::Looks::sees_or))]
pub(super) fn at_greater_operator(input: &ParseBuffer<'_>) -> bool
    ensures { result ≡ sees table.at_greater_operator input.now }
{
    input.peek::<Gt>() && !(input.peek::<Ge>() || input.peek::<Shr>())
}

/// Whether `=` is next, and not `==`.
#[tactic(auto, using(syn_grammar::proofs::Looks::sees_but))]
pub(super) fn at_equals_operator(input: &ParseBuffer<'_>) -> bool
    ensures { result ≡ sees table.at_equals_operator input.now }
{
    input.peek::<Eq>() && !input.peek::<EqEq>()
}
