//! Written by tools/kinds.py; edits are lost.
//!
//! Copies of `expr/blocks`.

use crate::expr::{Expr, ExprBlock, ExprForLoop, ExprLoop, ExprUnsafe, ExprWhile, Label};
use crate::nested::copy::{CopyNested, CopyOf, copied, copy_operand};
use std::alloc::{AllocError, Global};
use syn_tokens::error;
use syn_tokens::syntactic::try_clone::TryClone;

impl TryClone for Label {
    fn try_clone(&self, alloc: Global) -> error::Result<Label> {
        Ok(Label {
            name: self.name.try_clone(alloc)?,
            colon_token: self.colon_token,
        })
    }
}

impl CopyNested<Expr> for ExprBlock {
    #[tactic(auto, using(crate::specs::Falls::inner_size))]
    fn copy_nested<N: CopyOf<Expr>>(
        &self,
        nested: &N,
        alloc: Global,
    ) -> Result<ExprBlock, AllocError> {
        Ok(ExprBlock {
            attrs: copied(&self.attrs, alloc)?,
            label: copied(&self.label, alloc)?,
            block: self.block.copy_nested(nested, alloc)?,
        })
    }
}

impl CopyNested<Expr> for ExprForLoop {
    #[tactic(auto, using(crate::specs::Falls::inner_size))]
    fn copy_nested<N: CopyOf<Expr>>(
        &self,
        nested: &N,
        alloc: Global,
    ) -> Result<ExprForLoop, AllocError> {
        Ok(ExprForLoop {
            attrs: copied(&self.attrs, alloc)?,
            label: copied(&self.label, alloc)?,
            for_token: self.for_token,
            pat: copied(&self.pat, alloc)?,
            in_token: self.in_token,
            expr: copy_operand(nested, &self.expr, alloc)?,
            body: self.body.copy_nested(nested, alloc)?,
        })
    }
}

impl CopyNested<Expr> for ExprLoop {
    #[tactic(auto, using(crate::specs::Falls::inner_size))]
    fn copy_nested<N: CopyOf<Expr>>(
        &self,
        nested: &N,
        alloc: Global,
    ) -> Result<ExprLoop, AllocError> {
        Ok(ExprLoop {
            attrs: copied(&self.attrs, alloc)?,
            label: copied(&self.label, alloc)?,
            loop_token: self.loop_token,
            body: self.body.copy_nested(nested, alloc)?,
        })
    }
}

impl CopyNested<Expr> for ExprUnsafe {
    #[tactic(auto, using(crate::specs::Falls::inner_size))]
    fn copy_nested<N: CopyOf<Expr>>(
        &self,
        nested: &N,
        alloc: Global,
    ) -> Result<ExprUnsafe, AllocError> {
        Ok(ExprUnsafe {
            attrs: copied(&self.attrs, alloc)?,
            unsafe_token: self.unsafe_token,
            block: self.block.copy_nested(nested, alloc)?,
        })
    }
}

impl CopyNested<Expr> for ExprWhile {
    #[tactic(auto, using(crate::specs::Falls::inner_size))]
    fn copy_nested<N: CopyOf<Expr>>(
        &self,
        nested: &N,
        alloc: Global,
    ) -> Result<ExprWhile, AllocError> {
        Ok(ExprWhile {
            attrs: copied(&self.attrs, alloc)?,
            label: copied(&self.label, alloc)?,
            while_token: self.while_token,
            cond: copy_operand(nested, &self.cond, alloc)?,
            body: self.body.copy_nested(nested, alloc)?,
        })
    }
}
