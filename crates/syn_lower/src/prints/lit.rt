//! Written by tools/kinds.py; edits are lost.
//!
//! Prints of `lit`.

use crate::{Lit, LitBool};
use std::alloc::AllocError;
use syn_tokens::print::{Print, ToTokens};
use syn_tokens::stream::builder::StreamBuilder;

impl Print for Lit {
    fn print_in(&self, out: &mut StreamBuilder) -> Result<(), AllocError> {
        match self {
            Lit::Str(value) => value.print_in(out),
            Lit::ByteStr(value) => value.print_in(out),
            Lit::CStr(value) => value.print_in(out),
            Lit::Byte(value) => value.print_in(out),
            Lit::Char(value) => value.print_in(out),
            Lit::Int(value) => value.print_in(out),
            Lit::Float(value) => value.print_in(out),
            Lit::Bool(value) => value.print_in(out),
        }
    }
}

impl ToTokens for Lit {}

impl ToTokens for LitBool {}
