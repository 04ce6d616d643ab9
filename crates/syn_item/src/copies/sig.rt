//! Written by tools/kinds.py; edits are lost.
//!
//! Copies of `sig`.

use crate::sig::{Abi, FnArg, Receiver, Safety, Signature, Variadic};
use std::alloc::Global;
use syn_tokens::error::Result;
use syn_tokens::syntactic::try_clone::TryClone;

impl TryClone for Signature {
    fn try_clone(&self, alloc: Global) -> Result<Signature> {
        Ok(Signature {
            constness: self.constness,
            asyncness: self.asyncness,
            safety: self.safety.try_clone(alloc)?,
            abi: self.abi.try_clone(alloc)?,
            fn_token: self.fn_token.try_clone(alloc)?,
            ident: self.ident.try_clone(alloc)?,
            generics: self.generics.try_clone(alloc)?,
            paren_token: self.paren_token,
            inputs: self.inputs.try_clone(alloc)?,
            variadic: self.variadic.try_clone(alloc)?,
            output: self.output.try_clone(alloc)?,
        })
    }
}

impl TryClone for Safety {
    fn try_clone(&self, _alloc: Global) -> Result<Safety> {
        Ok(*self)
    }
}

impl TryClone for Abi {
    fn try_clone(&self, alloc: Global) -> Result<Abi> {
        Ok(Abi {
            extern_token: self.extern_token,
            name: self.name.try_clone(alloc)?,
        })
    }
}

impl TryClone for FnArg {
    fn try_clone(&self, alloc: Global) -> Result<FnArg> {
        match self {
            FnArg::Receiver(value) => Ok(FnArg::Receiver(value.try_clone(alloc)?)),
            FnArg::Typed(value) => Ok(FnArg::Typed(value.try_clone(alloc)?)),
        }
    }
}

impl TryClone for Receiver {
    fn try_clone(&self, alloc: Global) -> Result<Receiver> {
        Ok(Receiver {
            attrs: self.attrs.try_clone(alloc)?,
            mutability: self.mutability,
            self_token: self.self_token,
            kind: self.kind.try_clone(alloc)?,
        })
    }
}

impl TryClone for Variadic {
    fn try_clone(&self, alloc: Global) -> Result<Variadic> {
        Ok(Variadic {
            attrs: self.attrs.try_clone(alloc)?,
            pat: self.pat.try_clone(alloc)?,
            dots: self.dots,
            comma: self.comma,
        })
    }
}
