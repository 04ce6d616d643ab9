//! Operators, as the levels read them: each function returns None where none of its own is next.
ghost use Rattle.syn_lower.specs.Parsing.{IsSyntax};
ghost use Rattle.syn_expr_parse.specs.Levels.{arithmetic_assignments, assignment_operators, bit_assignments, bit_and_operators, bit_or_operators, bit_xor_operators, comparison_operators, conjunction_operators, disjunction_operators, product_operators, shift_operators, sum_operators, ReadsOperator};
ghost use Rattle.syn_expr_parse.specs.Operators.{syntax_of_BinOp};

use super::looks::{
    at_ampersand_operator, at_bar_operator, at_caret_operator, at_greater_greater_operator,
    at_greater_operator, at_less_less_operator, at_less_operator, at_minus_operator,
    at_percent_operator, at_plus_operator, at_slash_operator, at_star_operator,
};
use crate::op::BinOp;
use syn_parse::buffer::ParseBuffer;
use syn_parse::read::refusal::Parsed;
use syn_tokens::token::{
    AndAnd, AndEq, CaretEq, EqEq, Ge, Le, MinusEq, Ne, OrEq, OrOr, PercentEq, PlusEq, ShlEq, ShrEq,
    SlashEq, StarEq,
};

/// `*`, `/` or `%`.
pub(super) fn product_operator(input: &mut ParseBuffer<'_>) -> Parsed<Option<BinOp>>
    ensures { ReadsOperator IsSyntax syntax_of_BinOp product_operators input.old result input.new }
{
    if at_star_operator(input) {
        Ok(Some(BinOp::Mul(input.read()?)))
    } else if at_slash_operator(input) {
        Ok(Some(BinOp::Div(input.read()?)))
    } else if at_percent_operator(input) {
        Ok(Some(BinOp::Rem(input.read()?)))
    } else {
        Ok(None)
    }
}

/// `+` or `-`.
pub(super) fn sum_operator(input: &mut ParseBuffer<'_>) -> Parsed<Option<BinOp>>
    ensures { ReadsOperator IsSyntax syntax_of_BinOp sum_operators input.old result input.new }
{
    if at_plus_operator(input) {
        Ok(Some(BinOp::Add(input.read()?)))
    } else if at_minus_operator(input) {
        Ok(Some(BinOp::Sub(input.read()?)))
    } else {
        Ok(None)
    }
}

/// `<<` or `>>`.
pub(super) fn shift_operator(input: &mut ParseBuffer<'_>) -> Parsed<Option<BinOp>>
    ensures { ReadsOperator IsSyntax syntax_of_BinOp shift_operators input.old result input.new }
{
    if at_less_less_operator(input) {
        Ok(Some(BinOp::Shl(input.read()?)))
    } else if at_greater_greater_operator(input) {
        Ok(Some(BinOp::Shr(input.read()?)))
    } else {
        Ok(None)
    }
}

/// `&`.
pub(super) fn bit_and_operator(input: &mut ParseBuffer<'_>) -> Parsed<Option<BinOp>>
    ensures { ReadsOperator IsSyntax syntax_of_BinOp bit_and_operators input.old result input.new }
{
    if at_ampersand_operator(input) {
        Ok(Some(BinOp::BitAnd(input.read()?)))
    } else {
        Ok(None)
    }
}

/// `^`.
pub(super) fn bit_xor_operator(input: &mut ParseBuffer<'_>) -> Parsed<Option<BinOp>>
    ensures { ReadsOperator IsSyntax syntax_of_BinOp bit_xor_operators input.old result input.new }
{
    if at_caret_operator(input) {
        Ok(Some(BinOp::BitXor(input.read()?)))
    } else {
        Ok(None)
    }
}

/// `|`.
pub(super) fn bit_or_operator(input: &mut ParseBuffer<'_>) -> Parsed<Option<BinOp>>
    ensures { ReadsOperator IsSyntax syntax_of_BinOp bit_or_operators input.old result input.new }
{
    if at_bar_operator(input) {
        Ok(Some(BinOp::BitOr(input.read()?)))
    } else {
        Ok(None)
    }
}

/// `==`, `!=`, `<`, `>`, `<=` or `>=`.
pub(super) fn comparison_operator(input: &mut ParseBuffer<'_>) -> Parsed<Option<BinOp>>
    ensures { ReadsOperator IsSyntax syntax_of_BinOp comparison_operators input.old result input.new }
{
    if input.peek::<EqEq>() {
        Ok(Some(BinOp::Eq(input.read()?)))
    } else if input.peek::<Ne>() {
        Ok(Some(BinOp::Ne(input.read()?)))
    } else if at_less_operator(input) {
        Ok(Some(BinOp::Lt(input.read()?)))
    } else if at_greater_operator(input) {
        Ok(Some(BinOp::Gt(input.read()?)))
    } else if input.peek::<Le>() {
        Ok(Some(BinOp::Le(input.read()?)))
    } else if input.peek::<Ge>() {
        Ok(Some(BinOp::Ge(input.read()?)))
    } else {
        Ok(None)
    }
}

/// `&&`.
pub(super) fn conjunction_operator(input: &mut ParseBuffer<'_>) -> Parsed<Option<BinOp>>
    ensures { ReadsOperator IsSyntax syntax_of_BinOp conjunction_operators input.old result input.new }
{
    if input.peek::<AndAnd>() {
        Ok(Some(BinOp::And(input.read()?)))
    } else {
        Ok(None)
    }
}

/// `||`.
pub(super) fn disjunction_operator(input: &mut ParseBuffer<'_>) -> Parsed<Option<BinOp>>
    ensures { ReadsOperator IsSyntax syntax_of_BinOp disjunction_operators input.old result input.new }
{
    if input.peek::<OrOr>() {
        Ok(Some(BinOp::Or(input.read()?)))
    } else {
        Ok(None)
    }
}

/// An operator with `=`, such as `+=`.
#[tactic(auto, using(crate::proofs::LevelLooks::first_assignment))]
pub(super) fn assignment_operator(input: &mut ParseBuffer<'_>) -> Parsed<Option<BinOp>>
    ensures { ReadsOperator IsSyntax syntax_of_BinOp assignment_operators input.old result input.new }
{
    match arithmetic_assignment(input)? {
        Some(op) => Ok(Some(op)),
        None => bit_assignment(input),
    }
}

/// `+=`, `-=`, `*=`, `/=` or `%=`.
fn arithmetic_assignment(input: &mut ParseBuffer<'_>) -> Parsed<Option<BinOp>>
    ensures { ReadsOperator IsSyntax syntax_of_BinOp arithmetic_assignments input.old result input.new }
{
    if input.peek::<PlusEq>() {
        Ok(Some(BinOp::AddAssign(input.read()?)))
    } else if input.peek::<MinusEq>() {
        Ok(Some(BinOp::SubAssign(input.read()?)))
    } else if input.peek::<StarEq>() {
        Ok(Some(BinOp::MulAssign(input.read()?)))
    } else if input.peek::<SlashEq>() {
        Ok(Some(BinOp::DivAssign(input.read()?)))
    } else if input.peek::<PercentEq>() {
        Ok(Some(BinOp::RemAssign(input.read()?)))
    } else {
        Ok(None)
    }
}

/// `^=`, `&=`, `|=`, `<<=` or `>>=`.
fn bit_assignment(input: &mut ParseBuffer<'_>) -> Parsed<Option<BinOp>>
    ensures { ReadsOperator IsSyntax syntax_of_BinOp bit_assignments input.old result input.new }
{
    if input.peek::<CaretEq>() {
        Ok(Some(BinOp::BitXorAssign(input.read()?)))
    } else if input.peek::<AndEq>() {
        Ok(Some(BinOp::BitAndAssign(input.read()?)))
    } else if input.peek::<OrEq>() {
        Ok(Some(BinOp::BitOrAssign(input.read()?)))
    } else if input.peek::<ShlEq>() {
        Ok(Some(BinOp::ShlAssign(input.read()?)))
    } else if input.peek::<ShrEq>() {
        Ok(Some(BinOp::ShrAssign(input.read()?)))
    } else {
        Ok(None)
    }
}
