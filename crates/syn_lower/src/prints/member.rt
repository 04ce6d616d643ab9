//! Written by tools/kinds.py; edits are lost.
//!
//! Prints of `member`.

use crate::{Index, Member};
use std::alloc::AllocError;
use syn_tokens::print::{Print, ToTokens};
use syn_tokens::stream::builder::StreamBuilder;

impl Print for Member {
    fn print_in(&self, out: &mut StreamBuilder) -> Result<(), AllocError> {
        match self {
            Member::Named(value) => value.print_in(out),
            Member::Unnamed(value) => value.print_in(out),
        }
    }
}

impl ToTokens for Member {}

impl ToTokens for Index {}
