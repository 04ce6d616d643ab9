//! Written by tools/kinds.py; edits are lost.
//!
//! Copies of `bounds`.

use crate::{BoundLifetimes, TraitBound, TraitBoundModifier, TypeParamBound};
use std::alloc::Global;
use syn_tokens::error::Result;
use syn_tokens::syntactic::try_clone::TryClone;

impl TryClone for BoundLifetimes {
    fn try_clone(&self, alloc: Global) -> Result<BoundLifetimes> {
        Ok(BoundLifetimes {
            for_token: self.for_token,
            lt_token: self.lt_token,
            lifetimes: self.lifetimes.try_clone(alloc)?,
            gt_token: self.gt_token,
        })
    }
}

impl TryClone for TypeParamBound {
    fn try_clone(&self, alloc: Global) -> Result<TypeParamBound> {
        match self {
            TypeParamBound::Trait(value) => Ok(TypeParamBound::Trait(value.try_clone(alloc)?)),
            TypeParamBound::Lifetime(value) => {
                Ok(TypeParamBound::Lifetime(value.try_clone(alloc)?))
            }
        }
    }
}

impl TryClone for TraitBound {
    fn try_clone(&self, alloc: Global) -> Result<TraitBound> {
        Ok(TraitBound {
            paren_token: self.paren_token,
            modifier: self.modifier,
            lifetimes: self.lifetimes.try_clone(alloc)?,
            path: self.path.try_clone(alloc)?,
        })
    }
}

impl TryClone for TraitBoundModifier {
    fn try_clone(&self, _alloc: Global) -> Result<TraitBoundModifier> {
        Ok(*self)
    }
}
