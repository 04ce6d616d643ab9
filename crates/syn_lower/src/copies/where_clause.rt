//! Written by tools/kinds.py; edits are lost.
//!
//! Copies of `where_clause`.

use crate::{PredicateLifetime, PredicateType, WhereClause, WherePredicate};
use std::alloc::Global;
use syn_tokens::error::Result;
use syn_tokens::syntactic::try_clone::TryClone;

impl TryClone for WhereClause {
    fn try_clone(&self, alloc: Global) -> Result<WhereClause> {
        Ok(WhereClause {
            where_token: self.where_token,
            predicates: self.predicates.try_clone(alloc)?,
        })
    }
}

impl TryClone for WherePredicate {
    fn try_clone(&self, alloc: Global) -> Result<WherePredicate> {
        match self {
            WherePredicate::Lifetime(value) => {
                Ok(WherePredicate::Lifetime(value.try_clone(alloc)?))
            }
            WherePredicate::Ty(value) => Ok(WherePredicate::Ty(value.try_clone(alloc)?)),
        }
    }
}

impl TryClone for PredicateLifetime {
    fn try_clone(&self, alloc: Global) -> Result<PredicateLifetime> {
        Ok(PredicateLifetime {
            lifetime: self.lifetime.try_clone(alloc)?,
            colon_token: self.colon_token,
            bounds: self.bounds.try_clone(alloc)?,
        })
    }
}

impl TryClone for PredicateType {
    fn try_clone(&self, alloc: Global) -> Result<PredicateType> {
        Ok(PredicateType {
            lifetimes: self.lifetimes.try_clone(alloc)?,
            bounded_ty: self.bounded_ty.try_clone(alloc)?,
            colon_token: self.colon_token,
            bounds: self.bounds.try_clone(alloc)?,
        })
    }
}
