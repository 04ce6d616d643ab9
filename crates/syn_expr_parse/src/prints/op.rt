//! Written by tools/kinds.py; edits are lost.
//!
//! Prints of `op`.

use crate::op::{BinOp, UnOp};
use std::alloc::AllocError;
use syn_tokens::print::{Print, ToTokens};
use syn_tokens::stream::builder::StreamBuilder;

impl Print for BinOp {
    fn print_in(&self, out: &mut StreamBuilder) -> Result<(), AllocError> {
        match self {
            BinOp::Add(value) => value.print_in(out),
            BinOp::Sub(value) => value.print_in(out),
            BinOp::Mul(value) => value.print_in(out),
            BinOp::Div(value) => value.print_in(out),
            BinOp::Rem(value) => value.print_in(out),
            BinOp::And(value) => value.print_in(out),
            BinOp::Or(value) => value.print_in(out),
            BinOp::BitXor(value) => value.print_in(out),
            BinOp::BitAnd(value) => value.print_in(out),
            BinOp::BitOr(value) => value.print_in(out),
            BinOp::Shl(value) => value.print_in(out),
            BinOp::Shr(value) => value.print_in(out),
            BinOp::Eq(value) => value.print_in(out),
            BinOp::Lt(value) => value.print_in(out),
            BinOp::Le(value) => value.print_in(out),
            BinOp::Ne(value) => value.print_in(out),
            BinOp::Ge(value) => value.print_in(out),
            BinOp::Gt(value) => value.print_in(out),
            BinOp::AddAssign(value) => value.print_in(out),
            BinOp::SubAssign(value) => value.print_in(out),
            BinOp::MulAssign(value) => value.print_in(out),
            BinOp::DivAssign(value) => value.print_in(out),
            BinOp::RemAssign(value) => value.print_in(out),
            BinOp::BitXorAssign(value) => value.print_in(out),
            BinOp::BitAndAssign(value) => value.print_in(out),
            BinOp::BitOrAssign(value) => value.print_in(out),
            BinOp::ShlAssign(value) => value.print_in(out),
            BinOp::ShrAssign(value) => value.print_in(out),
        }
    }
}

impl ToTokens for BinOp {}

impl Print for UnOp {
    fn print_in(&self, out: &mut StreamBuilder) -> Result<(), AllocError> {
        match self {
            UnOp::Deref(value) => value.print_in(out),
            UnOp::Not(value) => value.print_in(out),
            UnOp::Neg(value) => value.print_in(out),
        }
    }
}

impl ToTokens for UnOp {}
