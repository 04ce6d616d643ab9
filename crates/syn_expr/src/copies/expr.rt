//! Written by tools/kinds.py; edits are lost.
//!
//! Copies of `expr`.

mod blocks;
mod groups;
mod operators;
mod postfix;
mod primary;

use crate::expr::Expr;
use crate::nested::copy::copy_expr;
use std::alloc::Global;
use syn_tokens::error;
use syn_tokens::syntactic::try_clone::TryClone;

impl TryClone for Expr {
    fn try_clone(&self, alloc: Global) -> error::Result<Expr> {
        Ok(copy_expr(self, alloc)?)
    }
}
