//! Written by tools/kinds.py; edits are lost.
//!
//! Prints of `expr/groups`.

use crate::expr::{Expr, ExprArray, ExprGroup, ExprParen, ExprRepeat};
use crate::nested::print::{PrintNested, PrintOf, print_exprs};
use std::alloc::AllocError;
use syn_lower::attr::print_outer;
use syn_tokens::print::Print;
use syn_tokens::stream::builder::StreamBuilder;

impl PrintNested<Expr> for ExprArray {
    #[tactic(auto, using(syn_tokens::proofs::Prints::groups, crate::proofs::Lists::print_array, crate::proofs::Lists::in_array, syn_lower::proofs::Smaller::lists))]
    fn print_nested<N: PrintOf<Expr>>(
        &self,
        nested: &N,
        out: &mut StreamBuilder,
    ) -> Result<(), AllocError> {
        print_outer(&self.attrs, out)?;
        self.bracket_token.open(out)?;
        print_exprs(nested, &self.elems, out)?;
        self.bracket_token.close(out)
    }
}

impl PrintNested<Expr> for ExprGroup {
    #[tactic(auto, using(syn_tokens::proofs::Prints::groups))]
    fn print_nested<N: PrintOf<Expr>>(
        &self,
        nested: &N,
        out: &mut StreamBuilder,
    ) -> Result<(), AllocError> {
        print_outer(&self.attrs, out)?;
        self.group_token.open(out)?;
        nested.print_one(&self.expr, out)?;
        self.group_token.close(out)
    }
}

impl PrintNested<Expr> for ExprParen {
    #[tactic(auto, using(syn_tokens::proofs::Prints::groups))]
    fn print_nested<N: PrintOf<Expr>>(
        &self,
        nested: &N,
        out: &mut StreamBuilder,
    ) -> Result<(), AllocError> {
        print_outer(&self.attrs, out)?;
        self.paren_token.open(out)?;
        nested.print_one(&self.expr, out)?;
        self.paren_token.close(out)
    }
}

impl PrintNested<Expr> for ExprRepeat {
    #[tactic(auto, using(syn_tokens::proofs::Prints::groups))]
    fn print_nested<N: PrintOf<Expr>>(
        &self,
        nested: &N,
        out: &mut StreamBuilder,
    ) -> Result<(), AllocError> {
        print_outer(&self.attrs, out)?;
        self.bracket_token.open(out)?;
        nested.print_one(&self.expr, out)?;
        self.semi_token.print_in(out)?;
        nested.print_one(&self.len, out)?;
        self.bracket_token.close(out)
    }
}
