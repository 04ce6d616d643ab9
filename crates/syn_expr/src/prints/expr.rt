//! Written by tools/kinds.py; edits are lost.
//!
//! Prints of `expr`.

mod blocks;
mod groups;
mod operators;
mod postfix;
mod primary;

use crate::expr::Expr;
use crate::nested::print::print_expr;
use std::alloc::AllocError;
use syn_tokens::print::{Print, ToTokens};
use syn_tokens::stream::builder::StreamBuilder;

impl Print for Expr {
    fn print_in(&self, out: &mut StreamBuilder) -> Result<(), AllocError> {
        print_expr(self, out)
    }
}

impl ToTokens for Expr {}
