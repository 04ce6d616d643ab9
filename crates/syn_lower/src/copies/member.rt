//! Written by tools/kinds.py; edits are lost.
//!
//! Copies of `member`.

use crate::{Index, Member};
use std::alloc::Global;
use syn_tokens::error::Result;
use syn_tokens::syntactic::try_clone::TryClone;

impl TryClone for Member {
    fn try_clone(&self, alloc: Global) -> Result<Member> {
        match self {
            Member::Named(value) => Ok(Member::Named(value.try_clone(alloc)?)),
            Member::Unnamed(value) => Ok(Member::Unnamed(*value)),
        }
    }
}

impl TryClone for Index {
    fn try_clone(&self, _alloc: Global) -> Result<Index> {
        Ok(*self)
    }
}
