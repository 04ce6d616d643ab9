//! Lookaheads as data.
ghost use Rattle.std.specs.Prelude.{◌≡◌};
ghost use Rattle.syn_grammar.specs.Tokens as grammar;
ghost use Rattle.syn_grammar.specs.Tokens.{one_of_texts};
ghost use Rattle.syn_grammar.specs.Words.{keywords};
ghost use Rattle.syn_grammar.specs.Take.{sees};
ghost use Rattle.syn_grammar.specs.Table as table;
ghost use Rattle.syn_tokens.specs.Delimiters.{delimiter_of};
ghost use Rattle.syn_parse.specs.Firsts.{Begins};
ghost use Rattle.syn_recognize.specs.Names.{look_of, mark_text, word_text};
ghost use Rattle.syn_recognize.specs.May as may;
ghost use Rattle.syn_recognize.specs.May.{head_of};
ghost use Rattle.syn_recognize.specs.declared.look.Look.TheVariants.{PredicateEnd, Unfinished};

use crate::expression_looks::{at_block_like, at_postfix_mark, at_unfinished, at_whole_expression};
use crate::words::{Mark, Word, at_mark, at_word, first_of, is_known, is_one};
use crate::{item_looks as items, looks};
use syn_parse::buffer::ParseBuffer;
use syn_parse::buffer::first::First;
use syn_tokens::delimiter::Delimiter;
use syn_tokens::ident::Ident;
use syn_tokens::literal::Literal;
use syn_tokens::token::{Brace, Comma, Eq, Gt, Semi, Where};
use syn_tokens::{lifetime, token};

/// A lookahead: a condition on the next tokens.
#[derive(Clone, Copy)]
pub enum Look {
    Ended,
    Name,
    Word(Word),
    Mark(Mark),
    Group(Delimiter),
    Or(&'static Look, &'static Look),
    But(&'static Look, &'static Look),
    Integer,
    EmptyGroup,
    AnyLiteral,
    Lifetime,
    InnerAttribute,
    Arguments,
    Association,
    Turbofish,
    PathWord,
    PatternPath,
    Macro,
    BraceMacro,
    LoneCrate,
    CrateMacro,
    Bang,
    PostfixMark,
    BlockLike,
    WholeExpression,
    Unfinished,
    Restriction,
    NamelessFields,
    ParameterEnd,
    PredicateEnd,
    Item,
    Receiver,
    Generics,
    NoMacroItem,
    StrLiteral,
    BeforeColons,
    BeforeMacro,
    MarkedUnion,
    MarkedAuto,
    InRestriction,
    LoneWord,
}

/// Whether the next token is a group with these delimiters.
fn at_group(delimiter: Delimiter, input: &ParseBuffer<'_>) -> bool
    ensures { result ≡ sees (grammar.at_group (delimiter_of delimiter)) input.now }
{
    match delimiter {
        Delimiter::Paren => input.peek::<token::Paren>(),
        Delimiter::Brace => input.peek::<token::Brace>(),
        Delimiter::Bracket => input.peek::<token::Bracket>(),
        Delimiter::None => input.peek::<token::Group>(),
    }
}

/// Whether the lookahead holds.
#[tactic(auto, using(syn_grammar::proofs::Looks::sees_or, syn_grammar::proofs::Looks::sees_but))]
pub(crate) fn holds(look: &Look, input: &ParseBuffer<'_>) -> bool
    ensures { result ≡ sees (look_of look.now) input.now }
{
    match look {
        Look::Ended => input.is_empty(),
        Look::Name => input.peek::<Ident>(),
        Look::Word(word) => at_word(*word, input),
        Look::Mark(mark) => at_mark(*mark, input),
        Look::Group(delimiter) => at_group(*delimiter, input),
        Look::Or(one, other) => holds(one, input) || holds(other, input),
        Look::But(one, other) => holds(one, input) && !holds(other, input),
        Look::Integer => looks::at_integer(input),
        Look::EmptyGroup => looks::at_empty_group(input),
        Look::AnyLiteral => input.peek::<Literal>(),
        Look::Lifetime => input.peek::<lifetime::Lifetime>(),
        Look::InnerAttribute => looks::at_inner_attribute(input),
        Look::Arguments => looks::at_arguments(input),
        Look::Association => looks::at_association(input),
        Look::Turbofish => looks::at_turbofish(input),
        Look::PathWord => looks::at_path_word(input),
        Look::PatternPath => looks::at_pattern_path(input),
        Look::Macro => looks::at_macro(input),
        Look::BraceMacro => looks::at_brace_macro(input),
        Look::LoneCrate => looks::at_lone_crate(input),
        Look::CrateMacro => looks::at_crate_macro(input),
        Look::Bang => looks::at_bang(input),
        Look::PostfixMark => at_postfix_mark(input),
        Look::BlockLike => at_block_like(input),
        Look::WholeExpression => at_whole_expression(input),
        Look::Unfinished => at_unfinished(input),
        Look::Restriction => looks::at_restriction(input),
        Look::NamelessFields => looks::at_nameless_fields(input),
        Look::ParameterEnd => at_parameter_end(input),
        Look::PredicateEnd => at_predicate_end(input),
        Look::Item => items::at_item(input),
        Look::Receiver => items::at_receiver(input),
        Look::Generics => items::at_generics(input),
        Look::NoMacroItem => items::at_no_macro_item(input),
        Look::StrLiteral => items::at_str(input),
        Look::BeforeColons => items::is_before_colons(input),
        Look::BeforeMacro => items::is_before_macro(input),
        Look::MarkedUnion => items::at_union(input),
        Look::MarkedAuto => items::at_auto(input),
        Look::InRestriction => items::at_in_restriction(input),
        Look::LoneWord => items::at_lone_word(input),
    }
}

/// Whether the bounds of a parameter end here: the next token is `,`, `>` or `=`.
#[tactic(auto, using(syn_grammar::proofs::Looks::sees_or))]
pub(crate) fn at_parameter_end(input: &ParseBuffer<'_>) -> bool
    ensures { result ≡ sees table.at_parameter_end input.now }
{
    input.peek::<Comma>() || input.peek::<Gt>() || input.peek::<Eq>()
}

/// Whether a where clause, or the bounds of its predicates, ends here: the next token is the end, a group in braces, `,`, `;`, `=` or a `:`
/// that isn't `::`.
#[tactic(auto, using(syn_grammar::proofs::Looks::sees_or))]
pub(crate) fn at_predicate_end(input: &ParseBuffer<'_>) -> bool
    ensures { result ≡ sees table.at_predicate_end input.now }
{
    input.is_empty()
        || input.peek::<Brace>()
        || input.peek::<Comma>()
        || input.peek::<Semi>()
        || input.peek::<Eq>()
        || at_lone_colon(input)
}

/// Whether the bounds of a trait end here: the next token is `where` or a group in braces.
#[tactic(auto, using(syn_grammar::proofs::Looks::sees_or))]
pub(crate) fn at_supertraits_end(input: &ParseBuffer<'_>) -> bool
    ensures { result ≡ sees table.at_supertraits_end input.now }
{
    input.peek::<Where>() || input.peek::<Brace>()
}

/// Whether the bounds of a type end here: the next token is `where`, `=` or `;`.
#[tactic(auto, using(syn_grammar::proofs::Looks::sees_or))]
pub(crate) fn at_type_bounds_end(input: &ParseBuffer<'_>) -> bool
    ensures { result ≡ sees table.at_type_bounds_end input.now }
{
    input.peek::<Where>() || input.peek::<Eq>() || input.peek::<Semi>()
}

/// Whether the next token is `:`, and not `::`.
#[tactic(auto, using(syn_grammar::proofs::Looks::sees_but))]
pub(crate) fn at_lone_colon(input: &ParseBuffer<'_>) -> bool
    ensures { result ≡ sees table.at_lone_colon input.now }
{
    input.peek::<token::Colon>() && !input.peek::<token::PathSep>()
}

// WHAT THE NEXT TOKEN ALONE DECIDES

/// Whether a mark with this first character is next.
pub(crate) fn is_mark(character: char, next: First) -> bool
    ensures { result ≡ may.is_mark character next }
{
    match next {
        First::Mark(c) => character == c,
        First::Ended => false,
        First::Name => false,
        First::Keyword => false,
        First::Literal => false,
        First::Group(_) => false,
    }
}

/// Whether a keyword is next.
pub(crate) fn is_keyword(next: First) -> bool
    ensures { result ≡ may.is_keyword next }
{
    match next {
        First::Keyword => true,
        First::Ended => false,
        First::Name => false,
        First::Literal => false,
        First::Mark(_) => false,
        First::Group(_) => false,
    }
}

/// Whether an identifier that is no keyword is next.
fn is_name(next: First) -> bool
    ensures { result ≡ may.is_name next }
{
    match next {
        First::Name => true,
        First::Ended => false,
        First::Keyword => false,
        First::Literal => false,
        First::Mark(_) => false,
        First::Group(_) => false,
    }
}

/// Whether a literal is next.
fn is_literal(next: First) -> bool
    ensures { result ≡ may.is_literal next }
{
    match next {
        First::Literal => true,
        First::Ended => false,
        First::Name => false,
        First::Keyword => false,
        First::Mark(_) => false,
        First::Group(_) => false,
    }
}

/// Whether the input ends here.
fn is_ended(next: First) -> bool
    ensures { result ≡ may.is_ended next }
{
    match next {
        First::Ended => true,
        First::Name => false,
        First::Keyword => false,
        First::Literal => false,
        First::Mark(_) => false,
        First::Group(_) => false,
    }
}

/// Whether a group with these delimiters is next.
pub(crate) fn is_group(delimiter: Delimiter, next: First) -> bool
    ensures { result ≡ may.is_group (delimiter_of delimiter) next }
{
    match next {
        First::Group(d) => delimiter == d,
        First::Ended => false,
        First::Name => false,
        First::Keyword => false,
        First::Literal => false,
        First::Mark(_) => false,
    }
}

/// Whether a group is next.
pub(crate) fn is_any_group(next: First) -> bool
    ensures { result ≡ may.is_any_group next }
{
    match next {
        First::Group(_) => true,
        First::Ended => false,
        First::Name => false,
        First::Keyword => false,
        First::Literal => false,
        First::Mark(_) => false,
    }
}

/// Whether a keyword is next, for a word that is one; else whether another name is.
fn is_of_kind(word: Word, next: First) -> bool
    ensures { result ≡ may.is_word (one_of_texts (word_text word) keywords) next }
{
    if is_known(word) {
        is_keyword(next)
    } else {
        is_name(next)
    }
}

/// Whether a mark with the same first character is next.
fn is_begun(mark: Mark, next: First) -> bool
    ensures { result ≡ may.is_mark (head_of (mark_text mark)) next }
{
    is_mark(first_of(mark), next)
}

/// Whether the lookahead may hold before this token; if not, no other token has to be tested.
fn may_hold(look: &Look, next: First) -> bool
    ensures { result ≡ may.may_hold look.now next }
{
    match look {
        Look::Ended => is_ended(next),
        Look::Name => is_name(next),
        Look::Word(word) => is_of_kind(*word, next),
        Look::Mark(mark) => is_begun(*mark, next),
        Look::Group(delimiter) => is_group(*delimiter, next),
        Look::Or(one, other) => may_hold(one, next) || may_hold(other, next),
        Look::But(one, _) => may_hold(one, next),
        Look::Integer => is_literal(next),
        Look::AnyLiteral => is_literal(next),
        Look::Lifetime => is_mark('\'', next),
        Look::InnerAttribute => is_mark('#', next),
        Look::Arguments => {
            is_mark('<', next) || is_group(Delimiter::Paren, next) || is_mark(':', next)
        }
        Look::Association => is_name(next),
        Look::Turbofish => is_mark(':', next),
        Look::PathWord => is_name(next) || is_keyword(next),
        Look::PatternPath => {
            is_mark(':', next) || is_mark('<', next) || is_keyword(next) || is_name(next)
        }
        Look::Macro => is_name(next) || is_keyword(next) || is_mark(':', next),
        Look::BraceMacro => is_name(next) || is_keyword(next) || is_mark(':', next),
        Look::LoneCrate => is_keyword(next),
        Look::CrateMacro => is_keyword(next),
        Look::Bang => is_mark('!', next),
        Look::PostfixMark => is_mark('?', next) || is_mark('.', next),
        Look::BlockLike => {
            is_group(Delimiter::Brace, next) || is_mark('\'', next) || is_keyword(next)
        }
        Look::WholeExpression => true,
        Look::Unfinished => may_go_on(next),
        Look::EmptyGroup => is_any_group(next),
        Look::Restriction => is_group(Delimiter::Paren, next),
        Look::NamelessFields => is_keyword(next) || is_name(next),
        Look::ParameterEnd => is_mark(',', next) || is_mark('>', next) || is_mark('=', next),
        Look::PredicateEnd => may_end_predicate(next),
        Look::Item => is_name(next) || is_keyword(next) || is_mark(':', next),
        Look::Receiver => is_mark('&', next) || is_keyword(next),
        Look::Generics => is_mark('<', next),
        Look::NoMacroItem => is_keyword(next) || is_name(next),
        Look::StrLiteral => is_literal(next),
        Look::BeforeColons => true,
        Look::BeforeMacro => true,
        Look::MarkedUnion => is_name(next),
        Look::MarkedAuto => is_name(next),
        Look::InRestriction => is_group(Delimiter::Paren, next),
        Look::LoneWord => is_group(Delimiter::Paren, next),
    }
}

/// Whether the next token may begin a postfix or a comparison.
pub(crate) fn may_go_on(next: First) -> bool
    ensures { result ≡ may.may_hold Unfinished next }
{
    is_group(Delimiter::Paren, next)
        || is_group(Delimiter::Bracket, next)
        || is_mark('?', next)
        || is_mark('.', next)
        || is_mark('=', next)
        || is_mark('!', next)
        || is_mark('<', next)
        || is_mark('>', next)
}

/// Whether the next token may end a where clause, or the bounds of its predicates.
fn may_end_predicate(next: First) -> bool
    ensures { result ≡ may.may_hold PredicateEnd next }
{
    is_ended(next)
        || is_group(Delimiter::Brace, next)
        || is_mark(',', next)
        || is_mark(';', next)
        || is_mark('=', next)
        || is_mark(':', next)
}

/// Whether the next token alone decides this lookahead.
fn settles(look: &Look) -> bool
    ensures { result ≡ may.settles look.now }
{
    match look {
        Look::Ended => true,
        Look::Name => true,
        Look::AnyLiteral => true,
        Look::Group(_) => true,
        Look::Mark(mark) => is_one(*mark),
        Look::Word(_) => false,
        Look::Or(_, _) => false,
        Look::But(_, _) => false,
        Look::Integer => false,
        Look::Lifetime => false,
        Look::InnerAttribute => false,
        Look::Arguments => false,
        Look::Association => false,
        Look::Turbofish => false,
        Look::PathWord => false,
        Look::PatternPath => false,
        Look::Macro => false,
        Look::BraceMacro => false,
        Look::LoneCrate => false,
        Look::CrateMacro => false,
        Look::Bang => false,
        Look::PostfixMark => false,
        Look::BlockLike => false,
        Look::WholeExpression => false,
        Look::Unfinished => false,
        Look::EmptyGroup => false,
        Look::Restriction => false,
        Look::NamelessFields => false,
        Look::ParameterEnd => false,
        Look::PredicateEnd => false,
        Look::Item => false,
        Look::Receiver => false,
        Look::Generics => false,
        Look::NoMacroItem => false,
        Look::StrLiteral => false,
        Look::BeforeColons => false,
        Look::BeforeMacro => false,
        Look::MarkedUnion => false,
        Look::MarkedAuto => false,
        Look::InRestriction => false,
        Look::LoneWord => false,
    }
}

/// Whether the lookahead holds, where `next` is the next token.
#[tactic(auto, using(crate::proofs::May::look_not, crate::proofs::May::look_sure))]
pub(crate) fn holds_next(look: &Look, next: First, input: &ParseBuffer<'_>) -> bool
    requires { Begins next input.now }
    ensures { result ≡ sees (look_of look.now) input.now }
{
    if !may_hold(look, next) {
        return false;
    }
    if settles(look) {
        return true;
    }
    holds(look, input)
}
