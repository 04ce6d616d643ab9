//! Written by tools/kinds.py; edits are lost.
//!
//! Copies of `function`.

use crate::function::ItemFn;
use std::alloc::Global;
use syn_tokens::error::Result;
use syn_tokens::syntactic::try_clone::TryClone;

impl TryClone for ItemFn {
    fn try_clone(&self, alloc: Global) -> Result<ItemFn> {
        Ok(ItemFn {
            attrs: self.attrs.try_clone(alloc)?,
            vis: self.vis.try_clone(alloc)?,
            modifiers: self.modifiers,
            sig: self.sig.try_clone(alloc)?,
            block: self.block.try_clone(alloc)?,
        })
    }
}
