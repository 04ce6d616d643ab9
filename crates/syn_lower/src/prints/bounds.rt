//! Written by tools/kinds.py; edits are lost.
//!
//! Prints of `bounds`.

use crate::{BoundLifetimes, TraitBound, TraitBoundModifier, TypeParamBound};
use std::alloc::AllocError;
use syn_tokens::print::{Print, ToTokens, print_list};
use syn_tokens::stream::builder::StreamBuilder;

impl Print for BoundLifetimes {
    fn print_in(&self, out: &mut StreamBuilder) -> Result<(), AllocError> {
        self.for_token.print_in(out)?;
        self.lt_token.print_in(out)?;
        print_list(&self.lifetimes, out)?;
        self.gt_token.print_in(out)
    }
}

impl ToTokens for BoundLifetimes {}

impl Print for TypeParamBound {
    fn print_in(&self, out: &mut StreamBuilder) -> Result<(), AllocError> {
        match self {
            TypeParamBound::Trait(value) => value.print_in(out),
            TypeParamBound::Lifetime(value) => value.print_in(out),
        }
    }
}

impl ToTokens for TypeParamBound {}

impl ToTokens for TraitBound {}

impl Print for TraitBoundModifier {
    fn print_in(&self, out: &mut StreamBuilder) -> Result<(), AllocError> {
        match self {
            TraitBoundModifier::None => Ok(()),
            TraitBoundModifier::Maybe(value) => value.print_in(out),
        }
    }
}

impl ToTokens for TraitBoundModifier {}
