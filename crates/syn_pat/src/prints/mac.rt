//! Written by tools/kinds.py; edits are lost.
//!
//! Prints of `mac`.

use crate::mac::Macro;
use syn_tokens::print::ToTokens;

impl ToTokens for Macro {}
