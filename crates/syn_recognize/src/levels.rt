//! Levels of operators. After an operand one lookahead decides which of them may continue it, so that the others cost no step.
ghost use Rattle.std.specs.Prelude.{◌≡◌, ◌≤◌, false, MatchOption};
ghost use Rattle.syn_grammar.specs.Rules.{assigned, compared, unary, unary_head};
ghost use Rattle.syn_grammar.specs.Run.{parse_form};
ghost use Rattle.syn_grammar.specs.Table.{table};
ghost use Rattle.syn_parse.specs.declared.buffer.first.First.TheVariants.{Group};
ghost use Rattle.syn_recognize.specs.Forms.{grammar_of};
ghost use Rattle.syn_recognize.specs.Ladder.{Passes, Rung, ends, level_form, loud};
ghost use Rattle.syn_recognize.specs.Names.{rule_of};

use crate::fault::Fault;
use crate::form::Form;
use crate::look::{Look, is_keyword, is_mark, may_go_on};
use crate::rules::{Rule, form_of};
use syn_parse::buffer::first::First;
use syn_tokens::delimiter::Delimiter;

/// No continuation of an expression is next.
static FINISHED: Form = Form::When(
    Look::Unfinished,
    &Form::Never(Fault::Unexpected),
    &Form::Empty,
);

/// How many levels the rule reads after a unary one; none where it reads something else.
#[tactic(auto, using(crate::proofs::Ladder::cast_rung, crate::proofs::Ladder::product_rung, crate::proofs::Ladder::sum_rung, crate::proofs::Ladder::shift_rung, crate::proofs::Ladder::bit_and_rung, crate::proofs::Ladder::bit_xor_rung, crate::proofs::Ladder::bit_or_rung, crate::proofs::Ladder::comparison_rung, crate::proofs::Ladder::conjunction_rung, crate::proofs::Ladder::disjunction_rung, crate::proofs::Ladder::whole_rung), unfolding(crate::specs::Names::rule_of))]
pub(crate) fn height_of(rule: Rule) -> Option<usize>
    ensures { MatchOption result (Unit {0}) (λ height. Rung unary 0 (rule_of rule) height) }
{
    match rule {
        Rule::CAST => Some(1),
        Rule::PRODUCT => Some(2),
        Rule::SUM => Some(3),
        Rule::SHIFT => Some(4),
        Rule::BIT_AND => Some(5),
        Rule::BIT_XOR => Some(6),
        Rule::BIT_OR => Some(7),
        Rule::COMPARISON => Some(8),
        Rule::CONJUNCTION => Some(9),
        Rule::DISJUNCTION => Some(10),
        Rule::WHOLE_EXPRESSION => Some(12),
        _ => None,
    }
}

/// The same for the rules of heads; their levels are numbered after the others.
#[tactic(auto, using(crate::proofs::Ladder::cast_head_rung, crate::proofs::Ladder::product_head_rung, crate::proofs::Ladder::sum_head_rung, crate::proofs::Ladder::shift_head_rung, crate::proofs::Ladder::bit_and_head_rung, crate::proofs::Ladder::bit_xor_head_rung, crate::proofs::Ladder::bit_or_head_rung, crate::proofs::Ladder::comparison_head_rung, crate::proofs::Ladder::conjunction_head_rung, crate::proofs::Ladder::disjunction_head_rung, crate::proofs::Ladder::whole_head_rung), unfolding(crate::specs::Names::rule_of))]
pub(crate) fn head_height_of(rule: Rule) -> Option<usize>
    ensures rung { MatchOption result (Unit {0}) (λ height. Rung unary_head 12 (rule_of rule) height) }
    ensures low { MatchOption result (Unit {0}) (λ height. height ≤ 12) }
{
    match rule {
        Rule::CAST_HEAD => Some(1),
        Rule::PRODUCT_HEAD => Some(2),
        Rule::SUM_HEAD => Some(3),
        Rule::SHIFT_HEAD => Some(4),
        Rule::BIT_AND_HEAD => Some(5),
        Rule::BIT_XOR_HEAD => Some(6),
        Rule::BIT_OR_HEAD => Some(7),
        Rule::COMPARISON_HEAD => Some(8),
        Rule::CONJUNCTION_HEAD => Some(9),
        Rule::DISJUNCTION_HEAD => Some(10),
        Rule::WHOLE_EXPRESSION_HEAD => Some(12),
        _ => None,
    }
}

/// The form that this level reads after an operand.
#[tactic(auto, using(crate::proofs::Ladder::level_past), unfolding(crate::specs::Names::rule_of, crate::specs::Ladder::level_form))]
pub(crate) fn following(level: usize) -> &'static Form
    ensures { parse_form (grammar_of result.now) ≡ parse_form (level_form level) }
{
    match level {
        0 => form_of(Rule::CASTS),
        1 => form_of(Rule::PRODUCTS),
        2 => form_of(Rule::SUMS),
        3 => form_of(Rule::SHIFTS),
        4 => form_of(Rule::BIT_ANDS),
        5 => form_of(Rule::BIT_XORS),
        6 => form_of(Rule::BIT_ORS),
        7 => form_of(Rule::COMPARED),
        8 => form_of(Rule::CONJUNCTIONS),
        9 => form_of(Rule::DISJUNCTIONS),
        10 => form_of(Rule::ASSIGNED),
        11 => &FINISHED,
        12 => form_of(Rule::CASTS),
        13 => form_of(Rule::PRODUCTS_HEAD),
        14 => form_of(Rule::SUMS_HEAD),
        15 => form_of(Rule::SHIFTS_HEAD),
        16 => form_of(Rule::BIT_ANDS_HEAD),
        17 => form_of(Rule::BIT_XORS_HEAD),
        18 => form_of(Rule::BIT_ORS_HEAD),
        19 => form_of(Rule::COMPARED_HEAD),
        20 => form_of(Rule::CONJUNCTIONS_HEAD),
        21 => form_of(Rule::DISJUNCTIONS_HEAD),
        22 => form_of(Rule::ASSIGNED_HEAD),
        23 => &FINISHED,
        _ => &FINISHED,
    }
}

/// The first level in this range that may match the next token; the end of the range where none does.
#[tactic(auto, using(crate::proofs::Ladder::passes_none, crate::proofs::Ladder::passes_more, crate::proofs::Ladder::passes_all, crate::proofs::Ladder::passes_ended))]
pub(crate) fn first_level(from: usize, to: usize, next: First) -> usize
    ensures { Passes from to result next }
{
    if ends(next) {
        return to;
    }
    'levels: for level in from..to {
        if may_read(level, next) {
            return level;
        }
    }
    to
}

/// Whether this next token alone rules out every level.
fn ends(next: First) -> bool
    ensures { result ≡ ends next }
{
    match next {
        First::Ended => true,
        First::Name => true,
        First::Literal => true,
        First::Keyword => false,
        First::Mark(character) => character == ',' || character == ';',
        First::Group(delimiter) => is_brace(delimiter),
    }
}

/// Whether these are braces.
fn is_brace(delimiter: Delimiter) -> bool
    ensures { result ≡ ends (Group delimiter) }
{
    match delimiter {
        Delimiter::Brace => true,
        Delimiter::Paren => false,
        Delimiter::Bracket => false,
        Delimiter::None => false,
    }
}

/// Whether the level may match this next token.
#[tactic(auto, unfolding(crate::specs::Ladder::level_form))]
fn may_read(level: usize, next: First) -> bool
    ensures { result ≡ false → loud (level_form level) next ≡ false }
{
    match level {
        0 => is_keyword(next),
        1 => is_mark('*', next) || is_mark('/', next) || is_mark('%', next),
        2 => is_mark('+', next) || is_mark('-', next),
        3 => is_mark('<', next) || is_mark('>', next),
        4 => is_mark('&', next),
        5 => is_mark('^', next),
        6 => is_mark('|', next),
        7 => may_compare(next),
        8 => is_mark('&', next),
        9 => is_mark('|', next),
        10 => may_assign(next),
        11 => may_go_on(next),
        _ => may_read_in_head(level, next),
    }
}

/// The same of levels in heads.
#[tactic(auto, unfolding(crate::specs::Ladder::level_form))]
fn may_read_in_head(level: usize, next: First) -> bool
    ensures { result ≡ false → loud (level_form level) next ≡ false }
{
    match level {
        12 => is_keyword(next),
        13 => is_mark('*', next) || is_mark('/', next) || is_mark('%', next),
        14 => is_mark('+', next) || is_mark('-', next),
        15 => is_mark('<', next) || is_mark('>', next),
        16 => is_mark('&', next),
        17 => is_mark('^', next),
        18 => is_mark('|', next),
        19 => may_compare(next),
        20 => is_mark('&', next),
        21 => is_mark('|', next),
        22 => may_assign(next),
        23 => may_go_on(next),
        _ => true,
    }
}

/// Whether the next token may begin a comparison.
fn may_compare(next: First) -> bool
    ensures { result ≡ loud (table compared) next }
{
    is_mark('=', next) || is_mark('!', next) || is_mark('<', next) || is_mark('>', next)
}

/// Whether the next token may begin an assignment.
fn may_assign(next: First) -> bool
    ensures { result ≡ loud (table assigned) next }
{
    is_mark('=', next)
        || is_mark('+', next)
        || is_mark('-', next)
        || is_mark('*', next)
        || is_mark('/', next)
        || is_mark('%', next)
        || is_mark('^', next)
        || is_mark('&', next)
        || is_mark('|', next)
        || is_mark('<', next)
        || is_mark('>', next)
}
