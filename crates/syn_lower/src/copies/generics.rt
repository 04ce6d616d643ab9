//! Written by tools/kinds.py; edits are lost.
//!
//! Copies of `generics`.

use crate::{ConstParam, GenericParam, Generics, LifetimeParam, TypeParam};
use std::alloc::Global;
use syn_tokens::error::Result;
use syn_tokens::syntactic::try_clone::TryClone;

impl TryClone for Generics {
    fn try_clone(&self, alloc: Global) -> Result<Generics> {
        Ok(Generics {
            lt_token: self.lt_token,
            params: self.params.try_clone(alloc)?,
            gt_token: self.gt_token,
            where_clause: self.where_clause.try_clone(alloc)?,
        })
    }
}

impl TryClone for GenericParam {
    fn try_clone(&self, alloc: Global) -> Result<GenericParam> {
        match self {
            GenericParam::Lifetime(value) => Ok(GenericParam::Lifetime(value.try_clone(alloc)?)),
            GenericParam::Ty(value) => Ok(GenericParam::Ty(value.try_clone(alloc)?)),
            GenericParam::Const(value) => Ok(GenericParam::Const(value.try_clone(alloc)?)),
        }
    }
}

impl TryClone for LifetimeParam {
    fn try_clone(&self, alloc: Global) -> Result<LifetimeParam> {
        Ok(LifetimeParam {
            attrs: self.attrs.try_clone(alloc)?,
            lifetime: self.lifetime.try_clone(alloc)?,
            colon_token: self.colon_token,
            bounds: self.bounds.try_clone(alloc)?,
        })
    }
}

impl TryClone for TypeParam {
    fn try_clone(&self, alloc: Global) -> Result<TypeParam> {
        Ok(TypeParam {
            attrs: self.attrs.try_clone(alloc)?,
            ident: self.ident.try_clone(alloc)?,
            colon_token: self.colon_token,
            bounds: self.bounds.try_clone(alloc)?,
            eq_token: self.eq_token,
            default: self.default.try_clone(alloc)?,
        })
    }
}

impl TryClone for ConstParam {
    fn try_clone(&self, alloc: Global) -> Result<ConstParam> {
        Ok(ConstParam {
            attrs: self.attrs.try_clone(alloc)?,
            const_token: self.const_token,
            ident: self.ident.try_clone(alloc)?,
            colon_token: self.colon_token,
            ty: self.ty.try_clone(alloc)?,
            eq_token: self.eq_token,
            default: self.default.try_clone(alloc)?,
        })
    }
}
