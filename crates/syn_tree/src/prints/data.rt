//! Written by tools/kinds.py; edits are lost.
//!
//! Prints of `data`.

use crate::data::{Field, Fields, FieldsNamed, FieldsUnnamed, Variant};
use std::alloc::AllocError;
use syn_tokens::print::{Print, ToTokens, print_list};
use syn_tokens::stream::builder::StreamBuilder;

impl ToTokens for Variant {}

impl Print for Fields {
    fn print_in(&self, out: &mut StreamBuilder) -> Result<(), AllocError> {
        match self {
            Fields::Named(value) => value.print_in(out),
            Fields::Unnamed(value) => value.print_in(out),
            Fields::Unit => Ok(()),
        }
    }
}

impl ToTokens for Fields {}

impl Print for FieldsNamed {
    #[tactic(auto, using(syn_tokens::proofs::Prints::groups))]
    fn print_in(&self, out: &mut StreamBuilder) -> Result<(), AllocError> {
        self.brace_token.open(out)?;
        print_list(&self.named, out)?;
        self.brace_token.close(out)
    }
}

impl ToTokens for FieldsNamed {}

impl Print for FieldsUnnamed {
    #[tactic(auto, using(syn_tokens::proofs::Prints::groups))]
    fn print_in(&self, out: &mut StreamBuilder) -> Result<(), AllocError> {
        self.paren_token.open(out)?;
        print_list(&self.unnamed, out)?;
        self.paren_token.close(out)
    }
}

impl ToTokens for FieldsUnnamed {}

impl ToTokens for Field {}
