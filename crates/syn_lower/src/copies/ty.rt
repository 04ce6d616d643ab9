//! Written by tools/kinds.py; edits are lost.
//!
//! Copies of `ty`.

use crate::nested::copy::{CopyNested, CopyType, Knot, copied, copy_list, copy_type};
use crate::{
    Type, TypeArray, TypeGroup, TypeNever, TypeParen, TypePath, TypePtr, TypeReference, TypeSlice,
    TypeTuple,
};
use std::alloc::{AllocError, Global};
use syn_tokens::error;
use syn_tokens::syntactic::try_clone::TryClone;

impl TryClone for Type {
    fn try_clone(&self, alloc: Global) -> error::Result<Type> {
        Ok(copy_type(self, alloc)?)
    }
}

impl CopyNested for TypeArray {
    fn copy_nested<N: CopyType>(&self, nested: &N, alloc: Global) -> Result<TypeArray, AllocError> {
        Ok(TypeArray {
            bracket_token: self.bracket_token,
            elem: Box::new(alloc, nested.copy_type(&self.elem, alloc)?)?,
            semi_token: self.semi_token,
            len: copied(&self.len, alloc)?,
        })
    }
}

impl TryClone for TypeArray {
    fn try_clone(&self, alloc: Global) -> error::Result<TypeArray> {
        Ok(self.copy_nested(&Knot { copy_type }, alloc)?)
    }
}

impl CopyNested for TypeGroup {
    fn copy_nested<N: CopyType>(&self, nested: &N, alloc: Global) -> Result<TypeGroup, AllocError> {
        Ok(TypeGroup {
            group_token: self.group_token,
            elem: Box::new(alloc, nested.copy_type(&self.elem, alloc)?)?,
        })
    }
}

impl TryClone for TypeGroup {
    fn try_clone(&self, alloc: Global) -> error::Result<TypeGroup> {
        Ok(self.copy_nested(&Knot { copy_type }, alloc)?)
    }
}

impl TryClone for TypeNever {
    fn try_clone(&self, _alloc: Global) -> error::Result<TypeNever> {
        Ok(TypeNever {
            bang_token: self.bang_token,
        })
    }
}

impl CopyNested for TypeParen {
    fn copy_nested<N: CopyType>(&self, nested: &N, alloc: Global) -> Result<TypeParen, AllocError> {
        Ok(TypeParen {
            paren_token: self.paren_token,
            elem: Box::new(alloc, nested.copy_type(&self.elem, alloc)?)?,
        })
    }
}

impl TryClone for TypeParen {
    fn try_clone(&self, alloc: Global) -> error::Result<TypeParen> {
        Ok(self.copy_nested(&Knot { copy_type }, alloc)?)
    }
}

impl CopyNested for TypePath {
    #[tactic(auto, using(crate::proofs::Smaller::qself_smaller, crate::proofs::Smaller::path_smaller))]
    fn copy_nested<N: CopyType>(&self, nested: &N, alloc: Global) -> Result<TypePath, AllocError> {
        Ok(TypePath {
            qself: self.qself.copy_nested(nested, alloc)?,
            path: self.path.copy_nested(nested, alloc)?,
        })
    }
}

impl TryClone for TypePath {
    fn try_clone(&self, alloc: Global) -> error::Result<TypePath> {
        Ok(self.copy_nested(&Knot { copy_type }, alloc)?)
    }
}

impl CopyNested for TypePtr {
    fn copy_nested<N: CopyType>(&self, nested: &N, alloc: Global) -> Result<TypePtr, AllocError> {
        Ok(TypePtr {
            star_token: self.star_token,
            const_token: self.const_token,
            mutability: self.mutability,
            elem: Box::new(alloc, nested.copy_type(&self.elem, alloc)?)?,
        })
    }
}

impl TryClone for TypePtr {
    fn try_clone(&self, alloc: Global) -> error::Result<TypePtr> {
        Ok(self.copy_nested(&Knot { copy_type }, alloc)?)
    }
}

impl CopyNested for TypeReference {
    fn copy_nested<N: CopyType>(
        &self,
        nested: &N,
        alloc: Global,
    ) -> Result<TypeReference, AllocError> {
        Ok(TypeReference {
            and_token: self.and_token,
            lifetime: copied(&self.lifetime, alloc)?,
            mutability: self.mutability,
            elem: Box::new(alloc, nested.copy_type(&self.elem, alloc)?)?,
        })
    }
}

impl TryClone for TypeReference {
    fn try_clone(&self, alloc: Global) -> error::Result<TypeReference> {
        Ok(self.copy_nested(&Knot { copy_type }, alloc)?)
    }
}

impl CopyNested for TypeSlice {
    fn copy_nested<N: CopyType>(&self, nested: &N, alloc: Global) -> Result<TypeSlice, AllocError> {
        Ok(TypeSlice {
            bracket_token: self.bracket_token,
            elem: Box::new(alloc, nested.copy_type(&self.elem, alloc)?)?,
        })
    }
}

impl TryClone for TypeSlice {
    fn try_clone(&self, alloc: Global) -> error::Result<TypeSlice> {
        Ok(self.copy_nested(&Knot { copy_type }, alloc)?)
    }
}

impl CopyNested for TypeTuple {
    #[tactic(auto, using(crate::proofs::Smaller::lists))]
    fn copy_nested<N: CopyType>(&self, nested: &N, alloc: Global) -> Result<TypeTuple, AllocError> {
        Ok(TypeTuple {
            paren_token: self.paren_token,
            elems: copy_list(nested, &self.elems, alloc)?,
        })
    }
}

impl TryClone for TypeTuple {
    fn try_clone(&self, alloc: Global) -> error::Result<TypeTuple> {
        Ok(self.copy_nested(&Knot { copy_type }, alloc)?)
    }
}
