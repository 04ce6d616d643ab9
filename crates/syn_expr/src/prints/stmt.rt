//! Written by tools/kinds.py; edits are lost.
//!
//! Prints of `stmt`.

use crate::expr::Expr;
use crate::nested::print::{Knot, PrintNested, PrintOf, print_expr};
use crate::stmt::{Block, Local, LocalInit, Stmt, StmtMacro};
use std::alloc::AllocError;
use syn_lower::attr::print_outer;
use syn_tokens::print::{Print, ToTokens};
use syn_tokens::stream::builder::StreamBuilder;

impl Print for Block {
    fn print_in(&self, out: &mut StreamBuilder) -> Result<(), AllocError> {
        self.print_nested(&Knot { print: print_expr }, out)
    }
}

impl ToTokens for Block {}

impl Print for Stmt {
    fn print_in(&self, out: &mut StreamBuilder) -> Result<(), AllocError> {
        self.print_nested(&Knot { print: print_expr }, out)
    }
}

impl ToTokens for Stmt {}

impl PrintNested<Expr> for Local {
    #[tactic(auto, using(syn_tokens::proofs::Prints::prints, syn_pat::proofs::Patterns::print_local))]
    fn print_nested<N: PrintOf<Expr>>(
        &self,
        nested: &N,
        out: &mut StreamBuilder,
    ) -> Result<(), AllocError> {
        print_outer(&self.attrs, out)?;
        self.let_token.print_in(out)?;
        self.pat.print_in(out)?;
        self.init.print_nested(nested, out)?;
        self.semi_token.print_in(out)
    }
}

impl Print for Local {
    fn print_in(&self, out: &mut StreamBuilder) -> Result<(), AllocError> {
        self.print_nested(&Knot { print: print_expr }, out)
    }
}

impl ToTokens for Local {}

impl Print for LocalInit {
    fn print_in(&self, out: &mut StreamBuilder) -> Result<(), AllocError> {
        self.print_nested(&Knot { print: print_expr }, out)
    }
}

impl ToTokens for LocalInit {}

impl Print for StmtMacro {
    fn print_in(&self, out: &mut StreamBuilder) -> Result<(), AllocError> {
        print_outer(&self.attrs, out)?;
        self.mac.print_in(out)?;
        self.semi_token.print_in(out)
    }
}

impl ToTokens for StmtMacro {}
