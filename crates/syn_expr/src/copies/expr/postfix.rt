//! Written by tools/kinds.py; edits are lost.
//!
//! Copies of `expr/postfix`.

use crate::expr::{Expr, ExprCall, ExprField, ExprIndex, ExprMethodCall, ExprTry};
use crate::nested::copy::{CopyNested, CopyOf, copied, copy_exprs, copy_operand};
use std::alloc::{AllocError, Global};

impl CopyNested<Expr> for ExprCall {
    #[tactic(auto, using(syn_lower::proofs::Smaller::lists))]
    fn copy_nested<N: CopyOf<Expr>>(
        &self,
        nested: &N,
        alloc: Global,
    ) -> Result<ExprCall, AllocError> {
        Ok(ExprCall {
            attrs: copied(&self.attrs, alloc)?,
            func: copy_operand(nested, &self.func, alloc)?,
            paren_token: self.paren_token,
            args: copy_exprs(nested, &self.args, alloc)?,
        })
    }
}

impl CopyNested<Expr> for ExprField {
    fn copy_nested<N: CopyOf<Expr>>(
        &self,
        nested: &N,
        alloc: Global,
    ) -> Result<ExprField, AllocError> {
        Ok(ExprField {
            attrs: copied(&self.attrs, alloc)?,
            base: copy_operand(nested, &self.base, alloc)?,
            dot_token: self.dot_token,
            member: copied(&self.member, alloc)?,
        })
    }
}

impl CopyNested<Expr> for ExprIndex {
    fn copy_nested<N: CopyOf<Expr>>(
        &self,
        nested: &N,
        alloc: Global,
    ) -> Result<ExprIndex, AllocError> {
        Ok(ExprIndex {
            attrs: copied(&self.attrs, alloc)?,
            expr: copy_operand(nested, &self.expr, alloc)?,
            bracket_token: self.bracket_token,
            index: copy_operand(nested, &self.index, alloc)?,
        })
    }
}

impl CopyNested<Expr> for ExprMethodCall {
    #[tactic(auto, using(crate::proofs::Forms::copied_arguments, crate::proofs::Forms::arguments_smaller, syn_lower::proofs::Smaller::lists))]
    fn copy_nested<N: CopyOf<Expr>>(
        &self,
        nested: &N,
        alloc: Global,
    ) -> Result<ExprMethodCall, AllocError> {
        Ok(ExprMethodCall {
            attrs: copied(&self.attrs, alloc)?,
            receiver: copy_operand(nested, &self.receiver, alloc)?,
            dot_token: self.dot_token,
            method: copied(&self.method, alloc)?,
            turbofish: copied(&self.turbofish, alloc)?,
            paren_token: self.paren_token,
            args: copy_exprs(nested, &self.args, alloc)?,
        })
    }
}

impl CopyNested<Expr> for ExprTry {
    fn copy_nested<N: CopyOf<Expr>>(
        &self,
        nested: &N,
        alloc: Global,
    ) -> Result<ExprTry, AllocError> {
        Ok(ExprTry {
            attrs: copied(&self.attrs, alloc)?,
            expr: copy_operand(nested, &self.expr, alloc)?,
            question_token: self.question_token,
        })
    }
}
