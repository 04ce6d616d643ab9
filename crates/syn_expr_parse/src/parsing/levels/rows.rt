//! The levels whose operators group from the left: each with its operands and its operators.
ghost use Rattle.syn_grammar.specs.Rules as rules;
ghost use Rattle.syn_grammar.proofs.Each.{bit_and_is, bit_and_head_is, bit_ands_is, bit_ands_head_is, bit_or_is, bit_or_head_is, bit_ors_is, bit_ors_head_is, bit_xor_is, bit_xor_head_is, bit_xors_is, bit_xors_head_is, conjunction_is, conjunction_head_is, conjunctions_is, conjunctions_head_is, disjunction_is, disjunction_head_is, disjunctions_is, disjunctions_head_is, product_is, product_head_is, products_is, products_head_is, shift_is, shift_head_is, shifts_is, shifts_head_is, sum_is, sum_head_is, sums_is, sums_head_is};
ghost use Rattle.syn_expr_parse.specs.Levels.{bit_and_operators, bit_or_operators, bit_xor_operators, conjunction_operators, disjunction_operators, product_operators, shift_operators, sum_operators};
ghost use Rattle.syn_expr_parse.specs.LevelSteps.{level_at, steps_at};

use super::following::{cast, comparison};
use super::operators::{
    bit_and_operator, bit_or_operator, bit_xor_operator, conjunction_operator,
    disjunction_operator, product_operator, shift_operator, sum_operator,
};
use super::{Level, read_level};
use crate::op::BinOp;
use crate::parsing::nested::{Expr, Nested, Spot};
use syn_parse::buffer::ParseBuffer;
use syn_parse::read::refusal::Parsed;

/// Casts with `*`, `/` and `%` between them.
pub(super) struct Products;

impl Level for Products {
    ghost operand_rule = { rules.cast };

    ghost operators = { product_operators };

    ghost chain_rule = { rules.products };

    ghost level_rule = { rules.product };

    fn operand<N: Nested>(
        spot: Spot,
        nested: &N,
        input: &mut ParseBuffer<'_>,
    ) -> Parsed<Box<Expr<N>>> {
        cast(spot, nested, input)
    }

    fn operator(input: &mut ParseBuffer<'_>) -> Parsed<Option<BinOp>> {
        product_operator(input)
    }

    ghost step = { steps_at product_operators rules.cast rules.products products_is products_head_is };

    ghost level = { level_at rules.cast rules.products rules.product product_is product_head_is };
}

/// Products with `+` and `-` between them.
pub(super) struct Sums;

impl Level for Sums {
    ghost operand_rule = { rules.product };

    ghost operators = { sum_operators };

    ghost chain_rule = { rules.sums };

    ghost level_rule = { rules.sum };

    fn operand<N: Nested>(
        spot: Spot,
        nested: &N,
        input: &mut ParseBuffer<'_>,
    ) -> Parsed<Box<Expr<N>>> {
        read_level::<Products, N>(spot, nested, input)
    }

    fn operator(input: &mut ParseBuffer<'_>) -> Parsed<Option<BinOp>> {
        sum_operator(input)
    }

    ghost step = { steps_at sum_operators rules.product rules.sums sums_is sums_head_is };

    ghost level = { level_at rules.product rules.sums rules.sum sum_is sum_head_is };
}

/// Sums with `<<` and `>>` between them.
pub(super) struct Shifts;

impl Level for Shifts {
    ghost operand_rule = { rules.sum };

    ghost operators = { shift_operators };

    ghost chain_rule = { rules.shifts };

    ghost level_rule = { rules.shift };

    fn operand<N: Nested>(
        spot: Spot,
        nested: &N,
        input: &mut ParseBuffer<'_>,
    ) -> Parsed<Box<Expr<N>>> {
        read_level::<Sums, N>(spot, nested, input)
    }

    fn operator(input: &mut ParseBuffer<'_>) -> Parsed<Option<BinOp>> {
        shift_operator(input)
    }

    ghost step = { steps_at shift_operators rules.sum rules.shifts shifts_is shifts_head_is };

    ghost level = { level_at rules.sum rules.shifts rules.shift shift_is shift_head_is };
}

/// Shifts with `&` between them.
pub(super) struct BitAnds;

impl Level for BitAnds {
    ghost operand_rule = { rules.shift };

    ghost operators = { bit_and_operators };

    ghost chain_rule = { rules.bit_ands };

    ghost level_rule = { rules.bit_and };

    fn operand<N: Nested>(
        spot: Spot,
        nested: &N,
        input: &mut ParseBuffer<'_>,
    ) -> Parsed<Box<Expr<N>>> {
        read_level::<Shifts, N>(spot, nested, input)
    }

    fn operator(input: &mut ParseBuffer<'_>) -> Parsed<Option<BinOp>> {
        bit_and_operator(input)
    }

    ghost step = { steps_at bit_and_operators rules.shift rules.bit_ands bit_ands_is bit_ands_head_is };

    ghost level = { level_at rules.shift rules.bit_ands rules.bit_and bit_and_is bit_and_head_is };
}

/// What `&` makes, with `^` between.
pub(super) struct BitXors;

impl Level for BitXors {
    ghost operand_rule = { rules.bit_and };

    ghost operators = { bit_xor_operators };

    ghost chain_rule = { rules.bit_xors };

    ghost level_rule = { rules.bit_xor };

    fn operand<N: Nested>(
        spot: Spot,
        nested: &N,
        input: &mut ParseBuffer<'_>,
    ) -> Parsed<Box<Expr<N>>> {
        read_level::<BitAnds, N>(spot, nested, input)
    }

    fn operator(input: &mut ParseBuffer<'_>) -> Parsed<Option<BinOp>> {
        bit_xor_operator(input)
    }

    ghost step = { steps_at bit_xor_operators rules.bit_and rules.bit_xors bit_xors_is bit_xors_head_is };

    ghost level = { level_at rules.bit_and rules.bit_xors rules.bit_xor bit_xor_is bit_xor_head_is };
}

/// What `^` makes, with `|` between.
pub(super) struct BitOrs;

impl Level for BitOrs {
    ghost operand_rule = { rules.bit_xor };

    ghost operators = { bit_or_operators };

    ghost chain_rule = { rules.bit_ors };

    ghost level_rule = { rules.bit_or };

    fn operand<N: Nested>(
        spot: Spot,
        nested: &N,
        input: &mut ParseBuffer<'_>,
    ) -> Parsed<Box<Expr<N>>> {
        read_level::<BitXors, N>(spot, nested, input)
    }

    fn operator(input: &mut ParseBuffer<'_>) -> Parsed<Option<BinOp>> {
        bit_or_operator(input)
    }

    ghost step = { steps_at bit_or_operators rules.bit_xor rules.bit_ors bit_ors_is bit_ors_head_is };

    ghost level = { level_at rules.bit_xor rules.bit_ors rules.bit_or bit_or_is bit_or_head_is };
}

/// Comparisons with `&&` between them.
pub(super) struct Conjunctions;

impl Level for Conjunctions {
    ghost operand_rule = { rules.comparison };

    ghost operators = { conjunction_operators };

    ghost chain_rule = { rules.conjunctions };

    ghost level_rule = { rules.conjunction };

    fn operand<N: Nested>(
        spot: Spot,
        nested: &N,
        input: &mut ParseBuffer<'_>,
    ) -> Parsed<Box<Expr<N>>> {
        comparison(spot, nested, input)
    }

    fn operator(input: &mut ParseBuffer<'_>) -> Parsed<Option<BinOp>> {
        conjunction_operator(input)
    }

    ghost step = { steps_at conjunction_operators rules.comparison rules.conjunctions conjunctions_is conjunctions_head_is };

    ghost level = { level_at rules.comparison rules.conjunctions rules.conjunction conjunction_is conjunction_head_is };
}

/// What `&&` makes, with `||` between.
pub(super) struct Disjunctions;

impl Level for Disjunctions {
    ghost operand_rule = { rules.conjunction };

    ghost operators = { disjunction_operators };

    ghost chain_rule = { rules.disjunctions };

    ghost level_rule = { rules.disjunction };

    fn operand<N: Nested>(
        spot: Spot,
        nested: &N,
        input: &mut ParseBuffer<'_>,
    ) -> Parsed<Box<Expr<N>>> {
        read_level::<Conjunctions, N>(spot, nested, input)
    }

    fn operator(input: &mut ParseBuffer<'_>) -> Parsed<Option<BinOp>> {
        disjunction_operator(input)
    }

    ghost step = { steps_at disjunction_operators rules.conjunction rules.disjunctions disjunctions_is disjunctions_head_is };

    ghost level = { level_at rules.conjunction rules.disjunctions rules.disjunction disjunction_is disjunction_head_is };
}
