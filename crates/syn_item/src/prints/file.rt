//! Written by tools/kinds.py; edits are lost.
//!
//! Prints of `file`.

use crate::file::File;
use syn_tokens::print::ToTokens;

impl ToTokens for File {}
