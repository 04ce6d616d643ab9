//! Written by tools/kinds.py; edits are lost.
//!
//! Copies of `item/modifiers`.

use crate::item::{ConstModifiers, FnModifiers, ImplModifiers, TraitModifiers, TypeModifiers};
use std::alloc::Global;
use syn_tokens::error::Result;
use syn_tokens::syntactic::try_clone::TryClone;

impl TryClone for ConstModifiers {
    fn try_clone(&self, _alloc: Global) -> Result<ConstModifiers> {
        Ok(*self)
    }
}

impl TryClone for FnModifiers {
    fn try_clone(&self, _alloc: Global) -> Result<FnModifiers> {
        Ok(*self)
    }
}

impl TryClone for TypeModifiers {
    fn try_clone(&self, _alloc: Global) -> Result<TypeModifiers> {
        Ok(*self)
    }
}

impl TryClone for ImplModifiers {
    fn try_clone(&self, _alloc: Global) -> Result<ImplModifiers> {
        Ok(*self)
    }
}

impl TryClone for TraitModifiers {
    fn try_clone(&self, _alloc: Global) -> Result<TraitModifiers> {
        Ok(*self)
    }
}
