//! Written by tools/kinds.py; edits are lost.
//!
//! Prints of `generics`.

use crate::{ConstParam, GenericParam, Generics, LifetimeParam, TypeParam};
use std::alloc::AllocError;
use syn_tokens::print::{Print, ToTokens};
use syn_tokens::stream::builder::StreamBuilder;

impl ToTokens for Generics {}

impl Print for GenericParam {
    fn print_in(&self, out: &mut StreamBuilder) -> Result<(), AllocError> {
        match self {
            GenericParam::Lifetime(value) => value.print_in(out),
            GenericParam::Ty(value) => value.print_in(out),
            GenericParam::Const(value) => value.print_in(out),
        }
    }
}

impl ToTokens for GenericParam {}

impl ToTokens for LifetimeParam {}

impl ToTokens for TypeParam {}

impl ToTokens for ConstParam {}
