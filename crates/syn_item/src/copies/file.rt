//! Written by tools/kinds.py; edits are lost.
//!
//! Copies of `file`.

use crate::file::Frontmatter;
use std::alloc::Global;
use syn_tokens::error::Result;
use syn_tokens::syntactic::try_clone::TryClone;

impl TryClone for Frontmatter {
    fn try_clone(&self, _alloc: Global) -> Result<Frontmatter> {
        Ok(*self)
    }
}
