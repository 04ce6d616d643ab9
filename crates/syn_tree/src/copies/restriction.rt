//! Written by tools/kinds.py; edits are lost.
//!
//! Copies of `restriction`.

use crate::restriction::{VisRestricted, Visibility};
use std::alloc::Global;
use syn_tokens::error::Result;
use syn_tokens::syntactic::try_clone::TryClone;

impl TryClone for Visibility {
    fn try_clone(&self, alloc: Global) -> Result<Visibility> {
        match self {
            Visibility::Public(value) => Ok(Visibility::Public(*value)),
            Visibility::Restricted(value) => Ok(Visibility::Restricted(value.try_clone(alloc)?)),
            Visibility::Inherited => Ok(Visibility::Inherited),
        }
    }
}

impl TryClone for VisRestricted {
    fn try_clone(&self, alloc: Global) -> Result<VisRestricted> {
        Ok(VisRestricted {
            pub_token: self.pub_token,
            paren_token: self.paren_token,
            in_token: self.in_token,
            path: self.path.try_clone(alloc)?,
        })
    }
}
