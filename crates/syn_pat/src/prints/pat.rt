//! Written by tools/kinds.py; edits are lost.
//!
//! Prints of `pat`.

use crate::nested::print::{Knot, PrintNested, PrintOf, print_pat};
use crate::pat::{Pat, PatIdent, PatParen, PatPath, PatType, PatWild};
use std::alloc::AllocError;
use syn_lower::attr::print_outer;
use syn_tokens::print::{Print, ToTokens};
use syn_tokens::stream::builder::StreamBuilder;

impl Print for Pat {
    fn print_in(&self, out: &mut StreamBuilder) -> Result<(), AllocError> {
        print_pat(self, out)
    }
}

impl ToTokens for Pat {}

impl Print for PatIdent {
    #[tactic(auto, using(syn_tokens::proofs::Prints::prints, crate::proofs::Patterns::print_bound))]
    fn print_in(&self, out: &mut StreamBuilder) -> Result<(), AllocError> {
        self.by_ref.print_in(out)?;
        self.mutability.print_in(out)?;
        self.ident.print_in(out)
    }
}

impl ToTokens for PatIdent {}

impl PrintNested<Pat> for PatParen {
    #[tactic(auto, using(syn_tokens::proofs::Prints::groups))]
    fn print_nested<N: PrintOf<Pat>>(
        &self,
        nested: &N,
        out: &mut StreamBuilder,
    ) -> Result<(), AllocError> {
        self.paren_token.open(out)?;
        nested.print_one(&self.pat, out)?;
        self.paren_token.close(out)
    }
}

impl ToTokens for PatPath {}

impl PrintNested<Pat> for PatType {
    #[tactic(auto, using(syn_tokens::proofs::Prints::prints, crate::proofs::Patterns::print_after, crate::proofs::Patterns::after_smaller))]
    fn print_nested<N: PrintOf<Pat>>(
        &self,
        nested: &N,
        out: &mut StreamBuilder,
    ) -> Result<(), AllocError> {
        print_outer(&self.attrs, out)?;
        nested.print_one(&self.pat, out)?;
        self.colon_token.print_in(out)?;
        self.ty.print_in(out)
    }
}

impl Print for PatType {
    fn print_in(&self, out: &mut StreamBuilder) -> Result<(), AllocError> {
        self.print_nested(&Knot { print: print_pat }, out)
    }
}

impl ToTokens for PatType {}

impl Print for PatWild {
    #[tactic(auto, using(syn_tokens::proofs::Prints::prints, crate::proofs::Patterns::print_after))]
    fn print_in(&self, out: &mut StreamBuilder) -> Result<(), AllocError> {
        print_outer(&self.attrs, out)?;
        self.underscore_token.print_in(out)
    }
}

impl ToTokens for PatWild {}
