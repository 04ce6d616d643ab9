//! Written by tools/kinds.py; edits are lost.
//!
//! Copies of `impls`.

use crate::impls::{ImplItem, ImplItemConst, ImplItemFn, ImplItemMacro, ImplItemType, ItemImpl};
use std::alloc::Global;
use syn_tokens::error::Result;
use syn_tokens::syntactic::try_clone::TryClone;

impl TryClone for ItemImpl {
    #[tactic(auto, using(crate::proofs::Members::copied_members))]
    fn try_clone(&self, alloc: Global) -> Result<ItemImpl> {
        Ok(ItemImpl {
            attrs: self.attrs.try_clone(alloc)?,
            modifiers: self.modifiers,
            unsafety: self.unsafety,
            impl_token: self.impl_token,
            generics: self.generics.try_clone(alloc)?,
            trait_: self.trait_.try_clone(alloc)?,
            self_ty: self.self_ty.try_clone(alloc)?,
            brace_token: self.brace_token,
            items: self.items.try_clone(alloc)?,
        })
    }
}

impl TryClone for ImplItem {
    fn try_clone(&self, alloc: Global) -> Result<ImplItem> {
        match self {
            ImplItem::Const(value) => Ok(ImplItem::Const(value.try_clone(alloc)?)),
            ImplItem::Fn(value) => Ok(ImplItem::Fn(value.try_clone(alloc)?)),
            ImplItem::Ty(value) => Ok(ImplItem::Ty(value.try_clone(alloc)?)),
            ImplItem::Macro(value) => Ok(ImplItem::Macro(value.try_clone(alloc)?)),
            ImplItem::Verbatim(value) => Ok(ImplItem::Verbatim(value.try_clone(alloc)?)),
        }
    }
}

impl TryClone for ImplItemConst {
    fn try_clone(&self, alloc: Global) -> Result<ImplItemConst> {
        Ok(ImplItemConst {
            attrs: self.attrs.try_clone(alloc)?,
            vis: self.vis.try_clone(alloc)?,
            modifiers: self.modifiers,
            const_token: self.const_token,
            ident: self.ident.try_clone(alloc)?,
            generics: self.generics.try_clone(alloc)?,
            colon_token: self.colon_token,
            ty: self.ty.try_clone(alloc)?,
            eq_token: self.eq_token,
            expr: self.expr.try_clone(alloc)?,
            semi_token: self.semi_token,
        })
    }
}

impl TryClone for ImplItemFn {
    fn try_clone(&self, alloc: Global) -> Result<ImplItemFn> {
        Ok(ImplItemFn {
            attrs: self.attrs.try_clone(alloc)?,
            vis: self.vis.try_clone(alloc)?,
            modifiers: self.modifiers,
            sig: self.sig.try_clone(alloc)?,
            block: self.block.try_clone(alloc)?,
        })
    }
}

impl TryClone for ImplItemType {
    fn try_clone(&self, alloc: Global) -> Result<ImplItemType> {
        Ok(ImplItemType {
            attrs: self.attrs.try_clone(alloc)?,
            vis: self.vis.try_clone(alloc)?,
            modifiers: self.modifiers,
            type_token: self.type_token,
            ident: self.ident.try_clone(alloc)?,
            generics: self.generics.try_clone(alloc)?,
            eq_token: self.eq_token,
            ty: self.ty.try_clone(alloc)?,
            semi_token: self.semi_token,
        })
    }
}

impl TryClone for ImplItemMacro {
    fn try_clone(&self, alloc: Global) -> Result<ImplItemMacro> {
        Ok(ImplItemMacro {
            attrs: self.attrs.try_clone(alloc)?,
            mac: self.mac.try_clone(alloc)?,
            semi_token: self.semi_token,
        })
    }
}
