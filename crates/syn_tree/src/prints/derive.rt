//! Written by tools/kinds.py; edits are lost.
//!
//! Prints of `derive`.

use crate::derive::DeriveInput;
use syn_tokens::print::ToTokens;

impl ToTokens for DeriveInput {}
