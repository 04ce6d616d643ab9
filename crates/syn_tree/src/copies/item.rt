//! Written by tools/kinds.py; edits are lost.
//!
//! Copies of `item`.

mod modifiers;

use crate::item::{ItemEnum, ItemStruct, ItemUnion};
use std::alloc::Global;
use syn_tokens::error::Result;
use syn_tokens::syntactic::try_clone::TryClone;

impl TryClone for ItemEnum {
    fn try_clone(&self, alloc: Global) -> Result<ItemEnum> {
        Ok(ItemEnum {
            attrs: self.attrs.try_clone(alloc)?,
            vis: self.vis.try_clone(alloc)?,
            enum_token: self.enum_token,
            ident: self.ident.try_clone(alloc)?,
            generics: self.generics.try_clone(alloc)?,
            brace_token: self.brace_token,
            variants: self.variants.try_clone(alloc)?,
        })
    }
}

impl TryClone for ItemStruct {
    fn try_clone(&self, alloc: Global) -> Result<ItemStruct> {
        Ok(ItemStruct {
            attrs: self.attrs.try_clone(alloc)?,
            vis: self.vis.try_clone(alloc)?,
            struct_token: self.struct_token,
            ident: self.ident.try_clone(alloc)?,
            generics: self.generics.try_clone(alloc)?,
            fields: self.fields.try_clone(alloc)?,
            semi_token: self.semi_token,
        })
    }
}

impl TryClone for ItemUnion {
    fn try_clone(&self, alloc: Global) -> Result<ItemUnion> {
        Ok(ItemUnion {
            attrs: self.attrs.try_clone(alloc)?,
            vis: self.vis.try_clone(alloc)?,
            union_token: self.union_token,
            ident: self.ident.try_clone(alloc)?,
            generics: self.generics.try_clone(alloc)?,
            fields: self.fields.try_clone(alloc)?,
        })
    }
}
