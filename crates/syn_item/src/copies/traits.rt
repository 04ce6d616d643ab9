//! Written by tools/kinds.py; edits are lost.
//!
//! Copies of `traits`.

use crate::traits::{
    ItemTrait, TraitItem, TraitItemConst, TraitItemFn, TraitItemMacro, TraitItemType,
};
use std::alloc::Global;
use syn_tokens::error::Result;
use syn_tokens::syntactic::try_clone::TryClone;

impl TryClone for ItemTrait {
    #[tactic(auto, using(crate::proofs::Members::copied_members))]
    fn try_clone(&self, alloc: Global) -> Result<ItemTrait> {
        Ok(ItemTrait {
            attrs: self.attrs.try_clone(alloc)?,
            vis: self.vis.try_clone(alloc)?,
            modifiers: self.modifiers,
            unsafety: self.unsafety,
            trait_token: self.trait_token,
            ident: self.ident.try_clone(alloc)?,
            generics: self.generics.try_clone(alloc)?,
            colon_token: self.colon_token,
            supertraits: self.supertraits.try_clone(alloc)?,
            brace_token: self.brace_token,
            items: self.items.try_clone(alloc)?,
        })
    }
}

impl TryClone for TraitItem {
    fn try_clone(&self, alloc: Global) -> Result<TraitItem> {
        match self {
            TraitItem::Const(value) => Ok(TraitItem::Const(value.try_clone(alloc)?)),
            TraitItem::Fn(value) => Ok(TraitItem::Fn(value.try_clone(alloc)?)),
            TraitItem::Ty(value) => Ok(TraitItem::Ty(value.try_clone(alloc)?)),
            TraitItem::Macro(value) => Ok(TraitItem::Macro(value.try_clone(alloc)?)),
            TraitItem::Verbatim(value) => Ok(TraitItem::Verbatim(value.try_clone(alloc)?)),
        }
    }
}

impl TryClone for TraitItemConst {
    fn try_clone(&self, alloc: Global) -> Result<TraitItemConst> {
        Ok(TraitItemConst {
            attrs: self.attrs.try_clone(alloc)?,
            modifiers: self.modifiers,
            const_token: self.const_token,
            ident: self.ident.try_clone(alloc)?,
            generics: self.generics.try_clone(alloc)?,
            colon_token: self.colon_token,
            ty: self.ty.try_clone(alloc)?,
            default: self.default.try_clone(alloc)?,
            semi_token: self.semi_token,
        })
    }
}

impl TryClone for TraitItemFn {
    fn try_clone(&self, alloc: Global) -> Result<TraitItemFn> {
        Ok(TraitItemFn {
            attrs: self.attrs.try_clone(alloc)?,
            modifiers: self.modifiers,
            sig: self.sig.try_clone(alloc)?,
            default: self.default.try_clone(alloc)?,
            semi_token: self.semi_token,
        })
    }
}

impl TryClone for TraitItemType {
    fn try_clone(&self, alloc: Global) -> Result<TraitItemType> {
        Ok(TraitItemType {
            attrs: self.attrs.try_clone(alloc)?,
            modifiers: self.modifiers,
            type_token: self.type_token,
            ident: self.ident.try_clone(alloc)?,
            generics: self.generics.try_clone(alloc)?,
            colon_token: self.colon_token,
            bounds: self.bounds.try_clone(alloc)?,
            default: self.default.try_clone(alloc)?,
            semi_token: self.semi_token,
        })
    }
}

impl TryClone for TraitItemMacro {
    fn try_clone(&self, alloc: Global) -> Result<TraitItemMacro> {
        Ok(TraitItemMacro {
            attrs: self.attrs.try_clone(alloc)?,
            mac: self.mac.try_clone(alloc)?,
            semi_token: self.semi_token,
        })
    }
}
