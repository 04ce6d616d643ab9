//! Written by tools/kinds.py; edits are lost.
//!
//! Copies of `pat`.

use crate::nested::copy::{CopyNested, CopyOf, Knot, copied, copy_boxed, copy_list, copy_pat};
use crate::pat::{Pat, PatIdent, PatParen, PatPath, PatTuple, PatTupleStruct, PatType, PatWild};
use std::alloc::{AllocError, Global};
use syn_tokens::error;
use syn_tokens::syntactic::try_clone::TryClone;

impl TryClone for Pat {
    fn try_clone(&self, alloc: Global) -> error::Result<Pat> {
        Ok(copy_pat(self, alloc)?)
    }
}

impl TryClone for PatIdent {
    fn try_clone(&self, alloc: Global) -> error::Result<PatIdent> {
        Ok(PatIdent {
            by_ref: self.by_ref,
            mutability: self.mutability,
            ident: self.ident.try_clone(alloc)?,
        })
    }
}

impl CopyNested<Pat> for PatParen {
    fn copy_nested<N: CopyOf<Pat>>(
        &self,
        nested: &N,
        alloc: Global,
    ) -> Result<PatParen, AllocError> {
        Ok(PatParen {
            paren_token: self.paren_token,
            pat: copy_boxed(nested, &self.pat, alloc)?,
        })
    }
}

impl TryClone for PatPath {
    fn try_clone(&self, alloc: Global) -> error::Result<PatPath> {
        Ok(PatPath {
            qself: self.qself.try_clone(alloc)?,
            path: self.path.try_clone(alloc)?,
        })
    }
}

impl CopyNested<Pat> for PatTuple {
    #[tactic(auto, using(syn_lower::proofs::Smaller::lists))]
    fn copy_nested<N: CopyOf<Pat>>(
        &self,
        nested: &N,
        alloc: Global,
    ) -> Result<PatTuple, AllocError> {
        Ok(PatTuple {
            paren_token: self.paren_token,
            elems: copy_list(nested, &self.elems, alloc)?,
        })
    }
}

impl CopyNested<Pat> for PatTupleStruct {
    #[tactic(auto, using(syn_lower::proofs::Smaller::lists))]
    fn copy_nested<N: CopyOf<Pat>>(
        &self,
        nested: &N,
        alloc: Global,
    ) -> Result<PatTupleStruct, AllocError> {
        Ok(PatTupleStruct {
            qself: copied(&self.qself, alloc)?,
            path: copied(&self.path, alloc)?,
            paren_token: self.paren_token,
            elems: copy_list(nested, &self.elems, alloc)?,
        })
    }
}

impl CopyNested<Pat> for PatType {
    #[tactic(auto, using(crate::proofs::Patterns::after_smaller))]
    fn copy_nested<N: CopyOf<Pat>>(
        &self,
        nested: &N,
        alloc: Global,
    ) -> Result<PatType, AllocError> {
        Ok(PatType {
            attrs: copied(&self.attrs, alloc)?,
            pat: copy_boxed(nested, &self.pat, alloc)?,
            colon_token: self.colon_token,
            ty: copied(&self.ty, alloc)?,
        })
    }
}

impl TryClone for PatType {
    fn try_clone(&self, alloc: Global) -> error::Result<PatType> {
        Ok(self.copy_nested(&Knot { copy: copy_pat }, alloc)?)
    }
}

impl TryClone for PatWild {
    fn try_clone(&self, alloc: Global) -> error::Result<PatWild> {
        Ok(PatWild {
            attrs: self.attrs.try_clone(alloc)?,
            underscore_token: self.underscore_token,
        })
    }
}
