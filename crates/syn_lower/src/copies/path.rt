//! Written by tools/kinds.py; edits are lost.
//!
//! Copies of `path`.

use crate::nested::copy::{CopyNested, CopyType, Knot, copied, copy_list, copy_type};
use crate::{
    AngleBracketedGenericArguments, AssocType, GenericArgument, ParenthesizedGenericArguments,
    Path, PathArguments, PathSegment, QSelf, ReturnType,
};
use std::alloc::{AllocError, Global};
use syn_tokens::error;
use syn_tokens::syntactic::try_clone::TryClone;

impl CopyNested for Path {
    #[tactic(auto, using(crate::proofs::Smaller::lists))]
    fn copy_nested<N: CopyType>(&self, nested: &N, alloc: Global) -> Result<Path, AllocError> {
        Ok(Path {
            leading_colon: self.leading_colon,
            segments: copy_list(nested, &self.segments, alloc)?,
        })
    }
}

impl TryClone for Path {
    fn try_clone(&self, alloc: Global) -> error::Result<Path> {
        Ok(self.copy_nested(&Knot { copy_type }, alloc)?)
    }
}

impl CopyNested for PathSegment {
    fn copy_nested<N: CopyType>(
        &self,
        nested: &N,
        alloc: Global,
    ) -> Result<PathSegment, AllocError> {
        Ok(PathSegment {
            ident: copied(&self.ident, alloc)?,
            arguments: self.arguments.copy_nested(nested, alloc)?,
        })
    }
}

impl TryClone for PathSegment {
    fn try_clone(&self, alloc: Global) -> error::Result<PathSegment> {
        Ok(self.copy_nested(&Knot { copy_type }, alloc)?)
    }
}

impl CopyNested for PathArguments {
    fn copy_nested<N: CopyType>(
        &self,
        nested: &N,
        alloc: Global,
    ) -> Result<PathArguments, AllocError> {
        match self {
            PathArguments::None => Ok(PathArguments::None),
            PathArguments::AngleBracketed(value) => {
                Ok(PathArguments::AngleBracketed(value.copy_nested(nested, alloc)?))
            }
            PathArguments::Parenthesized(value) => {
                Ok(PathArguments::Parenthesized(value.copy_nested(nested, alloc)?))
            }
        }
    }
}

impl TryClone for PathArguments {
    fn try_clone(&self, alloc: Global) -> error::Result<PathArguments> {
        Ok(self.copy_nested(&Knot { copy_type }, alloc)?)
    }
}

impl CopyNested for AngleBracketedGenericArguments {
    #[tactic(auto, using(crate::proofs::Smaller::lists))]
    fn copy_nested<N: CopyType>(
        &self,
        nested: &N,
        alloc: Global,
    ) -> Result<AngleBracketedGenericArguments, AllocError> {
        Ok(AngleBracketedGenericArguments {
            colon2_token: self.colon2_token,
            lt_token: self.lt_token,
            args: copy_list(nested, &self.args, alloc)?,
            gt_token: self.gt_token,
        })
    }
}

impl TryClone for AngleBracketedGenericArguments {
    fn try_clone(&self, alloc: Global) -> error::Result<AngleBracketedGenericArguments> {
        Ok(self.copy_nested(&Knot { copy_type }, alloc)?)
    }
}

impl CopyNested for GenericArgument {
    fn copy_nested<N: CopyType>(
        &self,
        nested: &N,
        alloc: Global,
    ) -> Result<GenericArgument, AllocError> {
        match self {
            GenericArgument::Lifetime(value) => {
                Ok(GenericArgument::Lifetime(copied(value, alloc)?))
            }
            GenericArgument::Ty(value) => {
                Ok(GenericArgument::Ty(value.copy_nested(nested, alloc)?))
            }
            GenericArgument::Const(value) => Ok(GenericArgument::Const(copied(value, alloc)?)),
            GenericArgument::AssocType(value) => {
                Ok(GenericArgument::AssocType(value.copy_nested(nested, alloc)?))
            }
        }
    }
}

impl TryClone for GenericArgument {
    fn try_clone(&self, alloc: Global) -> error::Result<GenericArgument> {
        Ok(self.copy_nested(&Knot { copy_type }, alloc)?)
    }
}

impl CopyNested for AssocType {
    fn copy_nested<N: CopyType>(&self, nested: &N, alloc: Global) -> Result<AssocType, AllocError> {
        Ok(AssocType {
            ident: copied(&self.ident, alloc)?,
            eq_token: self.eq_token,
            ty: nested.copy_type(&self.ty, alloc)?,
        })
    }
}

impl TryClone for AssocType {
    fn try_clone(&self, alloc: Global) -> error::Result<AssocType> {
        Ok(self.copy_nested(&Knot { copy_type }, alloc)?)
    }
}

impl CopyNested for ParenthesizedGenericArguments {
    #[tactic(auto, using(crate::proofs::Smaller::lists))]
    fn copy_nested<N: CopyType>(
        &self,
        nested: &N,
        alloc: Global,
    ) -> Result<ParenthesizedGenericArguments, AllocError> {
        Ok(ParenthesizedGenericArguments {
            paren_token: self.paren_token,
            inputs: copy_list(nested, &self.inputs, alloc)?,
            output: self.output.copy_nested(nested, alloc)?,
        })
    }
}

impl TryClone for ParenthesizedGenericArguments {
    fn try_clone(&self, alloc: Global) -> error::Result<ParenthesizedGenericArguments> {
        Ok(self.copy_nested(&Knot { copy_type }, alloc)?)
    }
}

impl TryClone for ReturnType {
    fn try_clone(&self, alloc: Global) -> error::Result<ReturnType> {
        Ok(self.copy_nested(&Knot { copy_type }, alloc)?)
    }
}

impl CopyNested for QSelf {
    fn copy_nested<N: CopyType>(&self, nested: &N, alloc: Global) -> Result<QSelf, AllocError> {
        Ok(QSelf {
            lt_token: self.lt_token,
            ty: Box::new(alloc, nested.copy_type(&self.ty, alloc)?)?,
            position: self.position,
            as_token: self.as_token,
            gt_token: self.gt_token,
        })
    }
}

impl TryClone for QSelf {
    fn try_clone(&self, alloc: Global) -> error::Result<QSelf> {
        Ok(self.copy_nested(&Knot { copy_type }, alloc)?)
    }
}
