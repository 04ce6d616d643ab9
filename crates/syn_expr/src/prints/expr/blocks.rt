//! Written by tools/kinds.py; edits are lost.
//!
//! Prints of `expr/blocks`.

use crate::expr::Label;
use std::alloc::AllocError;
use syn_tokens::print::{Print, ToTokens};
use syn_tokens::stream::builder::StreamBuilder;

impl Print for Label {
    fn print_in(&self, out: &mut StreamBuilder) -> Result<(), AllocError> {
        self.name.print_in(out)?;
        self.colon_token.print_in(out)
    }
}

impl ToTokens for Label {}
