//! Written by tools/kinds.py; edits are lost.
//!
//! Copies of `item`.

use crate::item::Item;
use std::alloc::Global;
use syn_tokens::error::Result;
use syn_tokens::syntactic::try_clone::TryClone;

impl TryClone for Item {
    fn try_clone(&self, alloc: Global) -> Result<Item> {
        match self {
            Item::Const(value) => Ok(Item::Const(value.try_clone(alloc)?)),
            Item::Enum(value) => Ok(Item::Enum(value.try_clone(alloc)?)),
            Item::ExternCrate(value) => Ok(Item::ExternCrate(value.try_clone(alloc)?)),
            Item::Fn(value) => Ok(Item::Fn(value.try_clone(alloc)?)),
            Item::ForeignMod(value) => Ok(Item::ForeignMod(value.try_clone(alloc)?)),
            Item::Impl(value) => Ok(Item::Impl(value.try_clone(alloc)?)),
            Item::Macro(value) => Ok(Item::Macro(value.try_clone(alloc)?)),
            Item::Mod(value) => Ok(Item::Mod(value.try_clone(alloc)?)),
            Item::Static(value) => Ok(Item::Static(value.try_clone(alloc)?)),
            Item::Struct(value) => Ok(Item::Struct(value.try_clone(alloc)?)),
            Item::Trait(value) => Ok(Item::Trait(value.try_clone(alloc)?)),
            Item::TraitAlias(value) => Ok(Item::TraitAlias(value.try_clone(alloc)?)),
            Item::Ty(value) => Ok(Item::Ty(value.try_clone(alloc)?)),
            Item::Union(value) => Ok(Item::Union(value.try_clone(alloc)?)),
            Item::Use(value) => Ok(Item::Use(value.try_clone(alloc)?)),
            Item::Verbatim(value) => Ok(Item::Verbatim(value.try_clone(alloc)?)),
        }
    }
}
