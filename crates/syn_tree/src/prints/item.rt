//! Written by tools/kinds.py; edits are lost.
//!
//! Prints of `item`.

use crate::item::{ItemEnum, ItemStruct, ItemUnion};
use syn_tokens::print::ToTokens;

impl ToTokens for ItemEnum {}

impl ToTokens for ItemStruct {}

impl ToTokens for ItemUnion {}
