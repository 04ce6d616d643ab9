//! Written by tools/kinds.py; edits are lost.
//!
//! Copies of `lit`.

use crate::Lit;
use std::alloc::Global;
use syn_tokens::error::Result;
use syn_tokens::syntactic::try_clone::TryClone;

impl TryClone for Lit {
    fn try_clone(&self, alloc: Global) -> Result<Lit> {
        match self {
            Lit::Str(value) => Ok(Lit::Str(value.try_clone(alloc)?)),
            Lit::ByteStr(value) => Ok(Lit::ByteStr(value.try_clone(alloc)?)),
            Lit::CStr(value) => Ok(Lit::CStr(value.try_clone(alloc)?)),
            Lit::Byte(value) => Ok(Lit::Byte(value.try_clone(alloc)?)),
            Lit::Char(value) => Ok(Lit::Char(value.try_clone(alloc)?)),
            Lit::Int(value) => Ok(Lit::Int(value.try_clone(alloc)?)),
            Lit::Float(value) => Ok(Lit::Float(value.try_clone(alloc)?)),
            Lit::Bool(value) => Ok(Lit::Bool(*value)),
        }
    }
}
