//! Written by tools/kinds.py; edits are lost.
//!
//! Prints of `restriction`.

use crate::restriction::{VisRestricted, Visibility};
use std::alloc::AllocError;
use syn_tokens::print::{Print, ToTokens};
use syn_tokens::stream::builder::StreamBuilder;

impl Print for Visibility {
    fn print_in(&self, out: &mut StreamBuilder) -> Result<(), AllocError> {
        match self {
            Visibility::Public(value) => value.print_in(out),
            Visibility::Restricted(value) => value.print_in(out),
            Visibility::Inherited => Ok(()),
        }
    }
}

impl ToTokens for Visibility {}

impl Print for VisRestricted {
    #[tactic(auto, using(syn_tokens::proofs::Prints::groups))]
    fn print_in(&self, out: &mut StreamBuilder) -> Result<(), AllocError> {
        self.pub_token.print_in(out)?;
        self.paren_token.open(out)?;
        self.in_token.print_in(out)?;
        self.path.print_in(out)?;
        self.paren_token.close(out)
    }
}

impl ToTokens for VisRestricted {}
