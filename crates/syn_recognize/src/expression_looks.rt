//! Lookaheads in expressions.
ghost use Rattle.std.specs.Prelude.{◌≡◌};
ghost use Rattle.syn_grammar.specs.Take.{sees};
ghost use Rattle.syn_grammar.specs.Table as table;
ghost use Rattle.syn_grammar.specs.Tokens as grammar;
ghost use Rattle.syn_grammar.specs.Tokens.{◌or_else◌};
ghost use Rattle.syn_grammar.specs.Words.{w_break, w_continue, w_false, w_for, w_if, w_loop, w_return, w_true, w_unsafe, w_while, equal_equal, not_equals};

use crate::looks::at_path_word;
use syn_parse::buffer::ParseBuffer;
use syn_tokens::lifetime::Lifetime;
use syn_tokens::literal::Literal;
use syn_tokens::token::{
    And, Brace, Bracket, Break, Continue, Dot, DotDot, EqEq, False, For, Gt, If, Loop, Lt, Minus,
    Ne, Not, Paren, PathSep, Pound, Question, Return, Star, True, Unsafe, While,
};

/// Whether the next token is `.`, and not `..`.
#[tactic(auto, using(syn_grammar::proofs::Looks::sees_but))]
pub fn at_dot(input: &ParseBuffer<'_>) -> bool
    ensures { result ≡ sees table.at_dot input.now }
{
    input.peek::<Dot>() && !input.peek::<DotDot>()
}

/// Whether the next token is `?`, or a `.` that isn't `..`.
#[tactic(auto, using(syn_grammar::proofs::Looks::sees_or))]
pub fn at_postfix_mark(input: &ParseBuffer<'_>) -> bool
    ensures { result ≡ sees table.at_postfix_mark input.now }
{
    input.peek::<Question>() || at_dot(input)
}

/// Whether the next token begins an expression that may be a statement without `;`: a block, a label, `if`, `while`, `for`, `loop` or
/// `unsafe`.
#[tactic(auto, using(syn_grammar::proofs::Looks::sees_or))]
pub fn at_block_like(input: &ParseBuffer<'_>) -> bool
    ensures { result ≡ sees table.at_block_like input.now }
{
    input.peek::<Brace>()
        || input.peek::<Lifetime>()
        || input.peek::<If>()
        || input.peek::<While>()
        || input.peek::<For>()
        || input.peek::<Loop>()
        || input.peek::<Unsafe>()
}

/// Whether the next token is a literal, or may begin a path.
#[tactic(auto, using(syn_grammar::proofs::Looks::sees_or))]
fn at_literal_or_path(input: &ParseBuffer<'_>) -> bool
    ensures { result ≡ sees (table.at_any_literal or_else grammar.at_word w_true or_else grammar.at_word w_false or_else grammar.at_path_word or_else table.at_colons or_else table.at_less) input.now }
{
    input.peek::<Literal>()
        || input.peek::<True>()
        || input.peek::<False>()
        || at_path_word(input)
        || input.peek::<PathSep>()
        || input.peek::<Lt>()
}

/// Whether the next token is a keyword that begins an expression.
#[tactic(auto, using(syn_grammar::proofs::Looks::sees_or))]
fn at_expression_word(input: &ParseBuffer<'_>) -> bool
    ensures { result ≡ sees (grammar.at_word w_if or_else grammar.at_word w_loop or_else grammar.at_word w_while or_else grammar.at_word w_for or_else grammar.at_word w_unsafe or_else grammar.at_word w_return or_else grammar.at_word w_break or_else grammar.at_word w_continue) input.now }
{
    input.peek::<If>()
        || input.peek::<Loop>()
        || input.peek::<While>()
        || input.peek::<For>()
        || input.peek::<Unsafe>()
        || input.peek::<Return>()
        || input.peek::<Break>()
        || input.peek::<Continue>()
}

/// Whether the next token is a group, a sign, `#` or a label.
#[tactic(auto, using(syn_grammar::proofs::Looks::sees_or))]
fn at_group_or_sign(input: &ParseBuffer<'_>) -> bool
    ensures { result ≡ sees (table.at_paren or_else table.at_bracket or_else table.at_brace or_else table.at_minus or_else table.at_exclamation or_else table.at_star or_else table.at_ampersand or_else table.at_pound or_else grammar.at_lifetime) input.now }
{
    input.peek::<Paren>()
        || input.peek::<Bracket>()
        || input.peek::<Brace>()
        || input.peek::<Minus>()
        || input.peek::<Not>()
        || input.peek::<Star>()
        || input.peek::<And>()
        || input.peek::<Pound>()
        || input.peek::<Lifetime>()
}

/// Whether the next token may begin an expression.
#[tactic(auto, using(crate::proofs::ExpressionLooks::whole_expression_seen))]
pub fn at_whole_expression(input: &ParseBuffer<'_>) -> bool
    ensures { result ≡ sees table.at_whole_expression input.now }
{
    at_literal_or_path(input) || at_expression_word(input) || at_group_or_sign(input)
}

/// Whether a postfix or a comparison is next: no whole expression ends before one.
#[tactic(auto, using(crate::proofs::ExpressionLooks::unfinished_seen))]
pub fn at_unfinished(input: &ParseBuffer<'_>) -> bool
    ensures { result ≡ sees table.at_unfinished input.now }
{
    at_postfix(input) || at_comparison(input)
}

/// Whether a postfix is next.
#[tactic(auto, using(syn_grammar::proofs::Looks::sees_or))]
fn at_postfix(input: &ParseBuffer<'_>) -> bool
    ensures { result ≡ sees (table.at_paren or_else table.at_bracket or_else table.at_question or_else table.at_dot) input.now }
{
    input.peek::<Paren>() || input.peek::<Bracket>() || input.peek::<Question>() || at_dot(input)
}

/// Whether `==`, `!=` or a mark that begins with `<` or `>` is next.
#[tactic(auto, using(syn_grammar::proofs::Looks::sees_or))]
fn at_comparison(input: &ParseBuffer<'_>) -> bool
    ensures { result ≡ sees (grammar.at_mark equal_equal or_else grammar.at_mark not_equals or_else table.at_less or_else table.at_greater) input.now }
{
    input.peek::<EqEq>() || input.peek::<Ne>() || input.peek::<Lt>() || input.peek::<Gt>()
}
