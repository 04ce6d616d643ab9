//! Written by tools/kinds.py; edits are lost.
//!
//! Prints of `attr`.

use crate::{Attribute, Meta, MetaList, MetaNameValue};
use std::alloc::AllocError;
use syn_tokens::print::{Print, ToTokens};
use syn_tokens::stream::builder::StreamBuilder;

impl ToTokens for Attribute {}

impl Print for Meta {
    fn print_in(&self, out: &mut StreamBuilder) -> Result<(), AllocError> {
        match self {
            Meta::Path(value) => value.print_in(out),
            Meta::List(value) => value.print_in(out),
            Meta::NameValue(value) => value.print_in(out),
        }
    }
}

impl ToTokens for Meta {}

impl ToTokens for MetaList {}

impl ToTokens for MetaNameValue {}
