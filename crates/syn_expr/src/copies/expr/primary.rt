//! Written by tools/kinds.py; edits are lost.
//!
//! Copies of `expr/primary`.

use crate::expr::{Expr, ExprBreak, ExprContinue, ExprLit, ExprMacro, ExprPath, ExprReturn};
use crate::nested::copy::{CopyNested, CopyOf, copied, copy_maybe};
use std::alloc::{AllocError, Global};
use syn_tokens::error;
use syn_tokens::syntactic::try_clone::TryClone;

impl TryClone for ExprBreak {
    fn try_clone(&self, alloc: Global) -> error::Result<ExprBreak> {
        Ok(ExprBreak {
            attrs: self.attrs.try_clone(alloc)?,
            break_token: self.break_token,
            label: self.label.try_clone(alloc)?,
        })
    }
}

impl TryClone for ExprContinue {
    fn try_clone(&self, alloc: Global) -> error::Result<ExprContinue> {
        Ok(ExprContinue {
            attrs: self.attrs.try_clone(alloc)?,
            continue_token: self.continue_token,
            label: self.label.try_clone(alloc)?,
        })
    }
}

impl TryClone for ExprLit {
    fn try_clone(&self, alloc: Global) -> error::Result<ExprLit> {
        Ok(ExprLit {
            attrs: self.attrs.try_clone(alloc)?,
            lit: self.lit.try_clone(alloc)?,
        })
    }
}

impl TryClone for ExprMacro {
    fn try_clone(&self, alloc: Global) -> error::Result<ExprMacro> {
        Ok(ExprMacro {
            attrs: self.attrs.try_clone(alloc)?,
            mac: self.mac.try_clone(alloc)?,
        })
    }
}

impl TryClone for ExprPath {
    fn try_clone(&self, alloc: Global) -> error::Result<ExprPath> {
        Ok(ExprPath {
            attrs: self.attrs.try_clone(alloc)?,
            qself: self.qself.try_clone(alloc)?,
            path: self.path.try_clone(alloc)?,
        })
    }
}

impl CopyNested<Expr> for ExprReturn {
    fn copy_nested<N: CopyOf<Expr>>(
        &self,
        nested: &N,
        alloc: Global,
    ) -> Result<ExprReturn, AllocError> {
        Ok(ExprReturn {
            attrs: copied(&self.attrs, alloc)?,
            return_token: self.return_token,
            expr: copy_maybe(nested, &self.expr, alloc)?,
        })
    }
}
