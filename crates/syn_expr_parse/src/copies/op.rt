//! Written by tools/kinds.py; edits are lost.
//!
//! Copies of `op`.

use crate::op::{BinOp, UnOp};
use std::alloc::Global;
use syn_tokens::error::Result;
use syn_tokens::syntactic::try_clone::TryClone;

impl TryClone for BinOp {
    fn try_clone(&self, _alloc: Global) -> Result<BinOp> {
        Ok(*self)
    }
}

impl TryClone for UnOp {
    fn try_clone(&self, _alloc: Global) -> Result<UnOp> {
        Ok(*self)
    }
}
