//! Written by tools/kinds.py; edits are lost.
//!
//! Copies of `expr/groups`.

use crate::expr::{Expr, ExprArray, ExprGroup, ExprParen, ExprRepeat, ExprTuple};
use crate::nested::copy::{CopyNested, CopyOf, copied, copy_exprs, copy_operand};
use std::alloc::{AllocError, Global};

impl CopyNested<Expr> for ExprArray {
    #[tactic(auto, using(crate::proofs::Lists::in_array, syn_lower::proofs::Smaller::lists))]
    fn copy_nested<N: CopyOf<Expr>>(
        &self,
        nested: &N,
        alloc: Global,
    ) -> Result<ExprArray, AllocError> {
        Ok(ExprArray {
            attrs: copied(&self.attrs, alloc)?,
            bracket_token: self.bracket_token,
            elems: copy_exprs(nested, &self.elems, alloc)?,
        })
    }
}

impl CopyNested<Expr> for ExprGroup {
    fn copy_nested<N: CopyOf<Expr>>(
        &self,
        nested: &N,
        alloc: Global,
    ) -> Result<ExprGroup, AllocError> {
        Ok(ExprGroup {
            attrs: copied(&self.attrs, alloc)?,
            group_token: self.group_token,
            expr: copy_operand(nested, &self.expr, alloc)?,
        })
    }
}

impl CopyNested<Expr> for ExprParen {
    fn copy_nested<N: CopyOf<Expr>>(
        &self,
        nested: &N,
        alloc: Global,
    ) -> Result<ExprParen, AllocError> {
        Ok(ExprParen {
            attrs: copied(&self.attrs, alloc)?,
            paren_token: self.paren_token,
            expr: copy_operand(nested, &self.expr, alloc)?,
        })
    }
}

impl CopyNested<Expr> for ExprRepeat {
    fn copy_nested<N: CopyOf<Expr>>(
        &self,
        nested: &N,
        alloc: Global,
    ) -> Result<ExprRepeat, AllocError> {
        Ok(ExprRepeat {
            attrs: copied(&self.attrs, alloc)?,
            bracket_token: self.bracket_token,
            expr: copy_operand(nested, &self.expr, alloc)?,
            semi_token: self.semi_token,
            len: copy_operand(nested, &self.len, alloc)?,
        })
    }
}

impl CopyNested<Expr> for ExprTuple {
    #[tactic(auto, using(syn_lower::proofs::Smaller::lists))]
    fn copy_nested<N: CopyOf<Expr>>(
        &self,
        nested: &N,
        alloc: Global,
    ) -> Result<ExprTuple, AllocError> {
        Ok(ExprTuple {
            attrs: copied(&self.attrs, alloc)?,
            paren_token: self.paren_token,
            elems: copy_exprs(nested, &self.elems, alloc)?,
        })
    }
}
