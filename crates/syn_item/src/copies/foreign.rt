//! Written by tools/kinds.py; edits are lost.
//!
//! Copies of `foreign`.

use crate::foreign::{
    ForeignItem, ForeignItemFn, ForeignItemMacro, ForeignItemStatic, ForeignItemType,
    ItemForeignMod,
};
use std::alloc::Global;
use syn_tokens::error::Result;
use syn_tokens::syntactic::try_clone::TryClone;

impl TryClone for ItemForeignMod {
    #[tactic(auto, using(crate::proofs::Members::copied_members))]
    fn try_clone(&self, alloc: Global) -> Result<ItemForeignMod> {
        Ok(ItemForeignMod {
            attrs: self.attrs.try_clone(alloc)?,
            unsafety: self.unsafety,
            abi: self.abi.try_clone(alloc)?,
            brace_token: self.brace_token,
            items: self.items.try_clone(alloc)?,
        })
    }
}

impl TryClone for ForeignItem {
    fn try_clone(&self, alloc: Global) -> Result<ForeignItem> {
        match self {
            ForeignItem::Fn(value) => Ok(ForeignItem::Fn(value.try_clone(alloc)?)),
            ForeignItem::Static(value) => Ok(ForeignItem::Static(value.try_clone(alloc)?)),
            ForeignItem::Ty(value) => Ok(ForeignItem::Ty(value.try_clone(alloc)?)),
            ForeignItem::Macro(value) => Ok(ForeignItem::Macro(value.try_clone(alloc)?)),
            ForeignItem::Verbatim(value) => Ok(ForeignItem::Verbatim(value.try_clone(alloc)?)),
        }
    }
}

impl TryClone for ForeignItemFn {
    fn try_clone(&self, alloc: Global) -> Result<ForeignItemFn> {
        Ok(ForeignItemFn {
            attrs: self.attrs.try_clone(alloc)?,
            vis: self.vis.try_clone(alloc)?,
            modifiers: self.modifiers,
            sig: self.sig.try_clone(alloc)?,
            semi_token: self.semi_token,
        })
    }
}

impl TryClone for ForeignItemStatic {
    fn try_clone(&self, alloc: Global) -> Result<ForeignItemStatic> {
        Ok(ForeignItemStatic {
            attrs: self.attrs.try_clone(alloc)?,
            vis: self.vis.try_clone(alloc)?,
            safety: self.safety,
            static_token: self.static_token,
            mutability: self.mutability,
            ident: self.ident.try_clone(alloc)?,
            colon_token: self.colon_token,
            ty: self.ty.try_clone(alloc)?,
            semi_token: self.semi_token,
        })
    }
}

impl TryClone for ForeignItemType {
    fn try_clone(&self, alloc: Global) -> Result<ForeignItemType> {
        Ok(ForeignItemType {
            attrs: self.attrs.try_clone(alloc)?,
            vis: self.vis.try_clone(alloc)?,
            modifiers: self.modifiers,
            type_token: self.type_token,
            ident: self.ident.try_clone(alloc)?,
            generics: self.generics.try_clone(alloc)?,
            semi_token: self.semi_token,
        })
    }
}

impl TryClone for ForeignItemMacro {
    fn try_clone(&self, alloc: Global) -> Result<ForeignItemMacro> {
        Ok(ForeignItemMacro {
            attrs: self.attrs.try_clone(alloc)?,
            mac: self.mac.try_clone(alloc)?,
            semi_token: self.semi_token,
        })
    }
}
