//! Written by tools/kinds.py; edits are lost.
//!
//! Copies of `simple`.

use crate::simple::{
    ItemConst, ItemExternCrate, ItemMacro, ItemStatic, ItemTraitAlias, ItemType, ItemUse,
    StaticMutability, WhereClausePlacement,
};
use std::alloc::Global;
use syn_tokens::error::Result;
use syn_tokens::syntactic::try_clone::TryClone;

impl TryClone for ItemConst {
    fn try_clone(&self, alloc: Global) -> Result<ItemConst> {
        Ok(ItemConst {
            attrs: self.attrs.try_clone(alloc)?,
            vis: self.vis.try_clone(alloc)?,
            modifiers: self.modifiers,
            const_token: self.const_token,
            ident: self.ident.try_clone(alloc)?,
            generics: self.generics.try_clone(alloc)?,
            colon_token: self.colon_token,
            ty: self.ty.try_clone(alloc)?,
            eq_token: self.eq_token,
            expr: self.expr.try_clone(alloc)?,
            semi_token: self.semi_token,
        })
    }
}

impl TryClone for ItemStatic {
    fn try_clone(&self, alloc: Global) -> Result<ItemStatic> {
        Ok(ItemStatic {
            attrs: self.attrs.try_clone(alloc)?,
            vis: self.vis.try_clone(alloc)?,
            static_token: self.static_token,
            mutability: self.mutability,
            ident: self.ident.try_clone(alloc)?,
            colon_token: self.colon_token,
            ty: self.ty.try_clone(alloc)?,
            eq_token: self.eq_token,
            expr: self.expr.try_clone(alloc)?,
            semi_token: self.semi_token,
        })
    }
}

impl TryClone for StaticMutability {
    fn try_clone(&self, _alloc: Global) -> Result<StaticMutability> {
        Ok(*self)
    }
}

impl TryClone for ItemType {
    fn try_clone(&self, alloc: Global) -> Result<ItemType> {
        Ok(ItemType {
            attrs: self.attrs.try_clone(alloc)?,
            vis: self.vis.try_clone(alloc)?,
            modifiers: self.modifiers,
            type_token: self.type_token,
            ident: self.ident.try_clone(alloc)?,
            generics: self.generics.try_clone(alloc)?,
            eq_token: self.eq_token,
            ty: self.ty.try_clone(alloc)?,
            semi_token: self.semi_token,
            where_clause_placement: self.where_clause_placement,
        })
    }
}

impl TryClone for WhereClausePlacement {
    fn try_clone(&self, _alloc: Global) -> Result<WhereClausePlacement> {
        Ok(*self)
    }
}

impl TryClone for ItemUse {
    fn try_clone(&self, alloc: Global) -> Result<ItemUse> {
        Ok(ItemUse {
            attrs: self.attrs.try_clone(alloc)?,
            vis: self.vis.try_clone(alloc)?,
            use_token: self.use_token,
            leading_colon: self.leading_colon,
            tree: self.tree.try_clone(alloc)?,
            semi_token: self.semi_token,
        })
    }
}

impl TryClone for ItemExternCrate {
    fn try_clone(&self, alloc: Global) -> Result<ItemExternCrate> {
        Ok(ItemExternCrate {
            attrs: self.attrs.try_clone(alloc)?,
            vis: self.vis.try_clone(alloc)?,
            extern_token: self.extern_token,
            crate_token: self.crate_token,
            ident: self.ident.try_clone(alloc)?,
            rename: self.rename.try_clone(alloc)?,
            semi_token: self.semi_token,
        })
    }
}

impl TryClone for ItemMacro {
    fn try_clone(&self, alloc: Global) -> Result<ItemMacro> {
        Ok(ItemMacro {
            attrs: self.attrs.try_clone(alloc)?,
            ident: self.ident.try_clone(alloc)?,
            mac: self.mac.try_clone(alloc)?,
            semi_token: self.semi_token,
        })
    }
}

impl TryClone for ItemTraitAlias {
    fn try_clone(&self, alloc: Global) -> Result<ItemTraitAlias> {
        Ok(ItemTraitAlias {
            attrs: self.attrs.try_clone(alloc)?,
            vis: self.vis.try_clone(alloc)?,
            trait_token: self.trait_token,
            ident: self.ident.try_clone(alloc)?,
            generics: self.generics.try_clone(alloc)?,
            eq_token: self.eq_token,
            bounds: self.bounds.try_clone(alloc)?,
            semi_token: self.semi_token,
        })
    }
}
