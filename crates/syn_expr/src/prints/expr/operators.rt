//! Written by tools/kinds.py; edits are lost.
//!
//! Prints of `expr/operators`.

use crate::expr::{Expr, ExprAssign, ExprBinary, ExprCast, ExprReference, ExprUnary};
use crate::nested::print::{PrintNested, PrintOf};
use std::alloc::AllocError;
use syn_lower::attr::print_outer;
use syn_tokens::print::Print;
use syn_tokens::stream::builder::StreamBuilder;

impl PrintNested<Expr> for ExprAssign {
    fn print_nested<N: PrintOf<Expr>>(
        &self,
        nested: &N,
        out: &mut StreamBuilder,
    ) -> Result<(), AllocError> {
        print_outer(&self.attrs, out)?;
        nested.print_one(&self.left, out)?;
        self.eq_token.print_in(out)?;
        nested.print_one(&self.right, out)
    }
}

impl PrintNested<Expr> for ExprBinary {
    fn print_nested<N: PrintOf<Expr>>(
        &self,
        nested: &N,
        out: &mut StreamBuilder,
    ) -> Result<(), AllocError> {
        print_outer(&self.attrs, out)?;
        nested.print_one(&self.left, out)?;
        self.op.print_in(out)?;
        nested.print_one(&self.right, out)
    }
}

impl PrintNested<Expr> for ExprCast {
    fn print_nested<N: PrintOf<Expr>>(
        &self,
        nested: &N,
        out: &mut StreamBuilder,
    ) -> Result<(), AllocError> {
        print_outer(&self.attrs, out)?;
        nested.print_one(&self.expr, out)?;
        self.as_token.print_in(out)?;
        self.ty.print_in(out)
    }
}

impl PrintNested<Expr> for ExprReference {
    fn print_nested<N: PrintOf<Expr>>(
        &self,
        nested: &N,
        out: &mut StreamBuilder,
    ) -> Result<(), AllocError> {
        print_outer(&self.attrs, out)?;
        self.and_token.print_in(out)?;
        self.mutability.print_in(out)?;
        nested.print_one(&self.expr, out)
    }
}

impl PrintNested<Expr> for ExprUnary {
    fn print_nested<N: PrintOf<Expr>>(
        &self,
        nested: &N,
        out: &mut StreamBuilder,
    ) -> Result<(), AllocError> {
        print_outer(&self.attrs, out)?;
        self.op.print_in(out)?;
        nested.print_one(&self.expr, out)
    }
}
