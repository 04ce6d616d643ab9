//! Written by tools/kinds.py; edits are lost.
//!
//! Prints of `expr/postfix`.

use crate::expr::{Expr, ExprCall, ExprField, ExprIndex, ExprMethodCall, ExprTry};
use crate::nested::print::{PrintNested, PrintOf, print_exprs};
use std::alloc::AllocError;
use syn_lower::attr::print_outer;
use syn_tokens::print::Print;
use syn_tokens::stream::builder::StreamBuilder;

impl PrintNested<Expr> for ExprCall {
    #[tactic(auto, using(syn_tokens::proofs::Prints::groups, syn_lower::proofs::Smaller::lists))]
    fn print_nested<N: PrintOf<Expr>>(
        &self,
        nested: &N,
        out: &mut StreamBuilder,
    ) -> Result<(), AllocError> {
        print_outer(&self.attrs, out)?;
        nested.print_one(&self.func, out)?;
        self.paren_token.open(out)?;
        print_exprs(nested, &self.args, out)?;
        self.paren_token.close(out)
    }
}

impl PrintNested<Expr> for ExprField {
    #[tactic(auto, using(syn_tokens::proofs::Prints::prints, crate::proofs::Forms::print_member))]
    fn print_nested<N: PrintOf<Expr>>(
        &self,
        nested: &N,
        out: &mut StreamBuilder,
    ) -> Result<(), AllocError> {
        print_outer(&self.attrs, out)?;
        nested.print_one(&self.base, out)?;
        self.dot_token.print_in(out)?;
        self.member.print_in(out)
    }
}

impl PrintNested<Expr> for ExprIndex {
    #[tactic(auto, using(syn_tokens::proofs::Prints::groups))]
    fn print_nested<N: PrintOf<Expr>>(
        &self,
        nested: &N,
        out: &mut StreamBuilder,
    ) -> Result<(), AllocError> {
        print_outer(&self.attrs, out)?;
        nested.print_one(&self.expr, out)?;
        self.bracket_token.open(out)?;
        nested.print_one(&self.index, out)?;
        self.bracket_token.close(out)
    }
}

impl PrintNested<Expr> for ExprMethodCall {
    #[tactic(auto, using(syn_tokens::proofs::Prints::groups, crate::proofs::Forms::print_arguments, crate::proofs::Forms::arguments_smaller, syn_lower::proofs::Smaller::lists))]
    fn print_nested<N: PrintOf<Expr>>(
        &self,
        nested: &N,
        out: &mut StreamBuilder,
    ) -> Result<(), AllocError> {
        print_outer(&self.attrs, out)?;
        nested.print_one(&self.receiver, out)?;
        self.dot_token.print_in(out)?;
        self.method.print_in(out)?;
        self.turbofish.print_in(out)?;
        self.paren_token.open(out)?;
        print_exprs(nested, &self.args, out)?;
        self.paren_token.close(out)
    }
}

impl PrintNested<Expr> for ExprTry {
    fn print_nested<N: PrintOf<Expr>>(
        &self,
        nested: &N,
        out: &mut StreamBuilder,
    ) -> Result<(), AllocError> {
        print_outer(&self.attrs, out)?;
        nested.print_one(&self.expr, out)?;
        self.question_token.print_in(out)
    }
}
