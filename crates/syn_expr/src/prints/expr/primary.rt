//! Written by tools/kinds.py; edits are lost.
//!
//! Prints of `expr/primary`.

use crate::expr::{Expr, ExprBreak, ExprContinue, ExprLit, ExprMacro, ExprPath, ExprReturn};
use crate::nested::print::{PrintNested, PrintOf, print_maybe};
use std::alloc::AllocError;
use syn_lower::attr::print_outer;
use syn_tokens::print::{Print, ToTokens};
use syn_tokens::stream::builder::StreamBuilder;

impl Print for ExprBreak {
    fn print_in(&self, out: &mut StreamBuilder) -> Result<(), AllocError> {
        print_outer(&self.attrs, out)?;
        self.break_token.print_in(out)?;
        self.label.print_in(out)
    }
}

impl ToTokens for ExprBreak {}

impl Print for ExprContinue {
    fn print_in(&self, out: &mut StreamBuilder) -> Result<(), AllocError> {
        print_outer(&self.attrs, out)?;
        self.continue_token.print_in(out)?;
        self.label.print_in(out)
    }
}

impl ToTokens for ExprContinue {}

impl Print for ExprLit {
    #[tactic(auto, using(syn_tokens::proofs::Prints::prints, crate::proofs::Forms::print_literal))]
    fn print_in(&self, out: &mut StreamBuilder) -> Result<(), AllocError> {
        print_outer(&self.attrs, out)?;
        self.lit.print_in(out)
    }
}

impl ToTokens for ExprLit {}

impl Print for ExprMacro {
    fn print_in(&self, out: &mut StreamBuilder) -> Result<(), AllocError> {
        print_outer(&self.attrs, out)?;
        self.mac.print_in(out)
    }
}

impl ToTokens for ExprMacro {}

impl ToTokens for ExprPath {}

impl PrintNested<Expr> for ExprReturn {
    fn print_nested<N: PrintOf<Expr>>(
        &self,
        nested: &N,
        out: &mut StreamBuilder,
    ) -> Result<(), AllocError> {
        print_outer(&self.attrs, out)?;
        self.return_token.print_in(out)?;
        print_maybe(nested, &self.expr, out)
    }
}
