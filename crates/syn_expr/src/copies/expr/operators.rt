//! Written by tools/kinds.py; edits are lost.
//!
//! Copies of `expr/operators`.

use crate::expr::{Expr, ExprAssign, ExprBinary, ExprCast, ExprReference, ExprUnary};
use crate::nested::copy::{CopyNested, CopyOf, copied, copy_operand};
use std::alloc::{AllocError, Global};

impl CopyNested<Expr> for ExprAssign {
    fn copy_nested<N: CopyOf<Expr>>(
        &self,
        nested: &N,
        alloc: Global,
    ) -> Result<ExprAssign, AllocError> {
        Ok(ExprAssign {
            attrs: copied(&self.attrs, alloc)?,
            left: copy_operand(nested, &self.left, alloc)?,
            eq_token: self.eq_token,
            right: copy_operand(nested, &self.right, alloc)?,
        })
    }
}

impl CopyNested<Expr> for ExprBinary {
    fn copy_nested<N: CopyOf<Expr>>(
        &self,
        nested: &N,
        alloc: Global,
    ) -> Result<ExprBinary, AllocError> {
        Ok(ExprBinary {
            attrs: copied(&self.attrs, alloc)?,
            left: copy_operand(nested, &self.left, alloc)?,
            op: self.op,
            right: copy_operand(nested, &self.right, alloc)?,
        })
    }
}

impl CopyNested<Expr> for ExprCast {
    fn copy_nested<N: CopyOf<Expr>>(
        &self,
        nested: &N,
        alloc: Global,
    ) -> Result<ExprCast, AllocError> {
        Ok(ExprCast {
            attrs: copied(&self.attrs, alloc)?,
            expr: copy_operand(nested, &self.expr, alloc)?,
            as_token: self.as_token,
            ty: copied(&self.ty, alloc)?,
        })
    }
}

impl CopyNested<Expr> for ExprReference {
    fn copy_nested<N: CopyOf<Expr>>(
        &self,
        nested: &N,
        alloc: Global,
    ) -> Result<ExprReference, AllocError> {
        Ok(ExprReference {
            attrs: copied(&self.attrs, alloc)?,
            and_token: self.and_token,
            mutability: self.mutability,
            expr: copy_operand(nested, &self.expr, alloc)?,
        })
    }
}

impl CopyNested<Expr> for ExprUnary {
    fn copy_nested<N: CopyOf<Expr>>(
        &self,
        nested: &N,
        alloc: Global,
    ) -> Result<ExprUnary, AllocError> {
        Ok(ExprUnary {
            attrs: copied(&self.attrs, alloc)?,
            op: self.op,
            expr: copy_operand(nested, &self.expr, alloc)?,
        })
    }
}
