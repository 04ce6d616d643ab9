//! Written by tools/kinds.py; edits are lost.
//!
//! Items and members of each kind.

use crate::outline::parts::{
    node, show_bounds, show_mark, show_modifier, show_rename, show_semi, show_type,
};
use crate::outline::{Outlined, TreeText};
use syn::item::{
    ForeignItem, ForeignItemFn, ForeignItemMacro, ForeignItemStatic, ForeignItemType, ImplItem,
    ImplItemConst, ImplItemFn, ImplItemMacro, ImplItemType, Item, ItemConst, ItemExternCrate,
    ItemFn, ItemMacro, ItemStatic, ItemTraitAlias, ItemUse, TraitItem, TraitItemMacro,
};

impl Outlined for Item {
    fn show(&self, out: &mut TreeText) {
        match self {
            Item::Const(item) => item.show(out),
            Item::Enum(item) => item.show(out),
            Item::ExternCrate(item) => item.show(out),
            Item::Fn(item) => item.show(out),
            Item::ForeignMod(item) => item.show(out),
            Item::Impl(item) => item.show(out),
            Item::Macro(item) => item.show(out),
            Item::Mod(item) => item.show(out),
            Item::Static(item) => item.show(out),
            Item::Struct(item) => item.show(out),
            Item::Trait(item) => item.show(out),
            Item::TraitAlias(item) => item.show(out),
            Item::Ty(item) => item.show(out),
            Item::Union(item) => item.show(out),
            Item::Use(item) => item.show(out),
            Item::Verbatim(tokens) => {
                out.word("Verbatim");
                tokens.show(out);
            }
        }
    }
}

impl Outlined for TraitItem {
    fn show(&self, out: &mut TreeText) {
        match self {
            TraitItem::Const(item) => item.show(out),
            TraitItem::Fn(item) => item.show(out),
            TraitItem::Ty(item) => item.show(out),
            TraitItem::Macro(item) => item.show(out),
            TraitItem::Verbatim(tokens) => {
                out.word("Verbatim");
                tokens.show(out);
            }
        }
    }
}

impl Outlined for ImplItem {
    fn show(&self, out: &mut TreeText) {
        match self {
            ImplItem::Const(item) => item.show(out),
            ImplItem::Fn(item) => item.show(out),
            ImplItem::Ty(item) => item.show(out),
            ImplItem::Macro(item) => item.show(out),
            ImplItem::Verbatim(tokens) => {
                out.word("Verbatim");
                tokens.show(out);
            }
        }
    }
}

impl Outlined for ForeignItem {
    fn show(&self, out: &mut TreeText) {
        match self {
            ForeignItem::Fn(item) => item.show(out),
            ForeignItem::Static(item) => item.show(out),
            ForeignItem::Ty(item) => item.show(out),
            ForeignItem::Macro(item) => item.show(out),
            ForeignItem::Verbatim(tokens) => {
                out.word("Verbatim");
                tokens.show(out);
            }
        }
    }
}

impl Outlined for ItemConst {
    fn show(&self, out: &mut TreeText) {
        out.attributes(&self.attrs);
        self.vis.show(out);
        show_modifier(&self.modifiers.defaultness, out);
        out.token("const", self.const_token.span);
        self.ident.show(out);
        self.generics.show(out);
        out.mark(":", &self.colon_token);
        show_type(&self.ty, out);
        out.mark("=", &self.eq_token);
        self.expr.show(out);
        out.mark(";", &self.semi_token);
    }
}

impl Outlined for ItemExternCrate {
    fn show(&self, out: &mut TreeText) {
        out.attributes(&self.attrs);
        self.vis.show(out);
        out.token("extern", self.extern_token.span);
        out.token("crate", self.crate_token.span);
        self.ident.show(out);
        show_rename(&self.rename, out);
        out.mark(";", &self.semi_token);
    }
}

impl Outlined for ItemFn {
    fn show(&self, out: &mut TreeText) {
        out.attributes(&self.attrs);
        self.vis.show(out);
        show_modifier(&self.modifiers.defaultness, out);
        self.sig.show(out);
        self.block.show(out);
    }
}

impl Outlined for ItemMacro {
    fn show(&self, out: &mut TreeText) {
        node("ItemMacro", &self.attrs, out);
        self.ident.show(out);
        self.mac.show(out);
        show_semi(&self.semi_token, out);
    }
}

impl Outlined for ItemStatic {
    fn show(&self, out: &mut TreeText) {
        out.attributes(&self.attrs);
        self.vis.show(out);
        out.token("static", self.static_token.span);
        self.mutability.show(out);
        self.ident.show(out);
        out.mark(":", &self.colon_token);
        show_type(&self.ty, out);
        out.mark("=", &self.eq_token);
        self.expr.show(out);
        out.mark(";", &self.semi_token);
    }
}

impl Outlined for ItemTraitAlias {
    fn show(&self, out: &mut TreeText) {
        out.attributes(&self.attrs);
        self.vis.show(out);
        out.token("trait", self.trait_token.span);
        self.ident.show(out);
        self.generics.show(out);
        out.mark("=", &self.eq_token);
        show_bounds(&self.bounds, out);
        out.mark(";", &self.semi_token);
    }
}

impl Outlined for ItemUse {
    fn show(&self, out: &mut TreeText) {
        out.attributes(&self.attrs);
        self.vis.show(out);
        out.token("use", self.use_token.span);
        show_mark("::", &self.leading_colon, out);
        self.tree.show(out);
        out.mark(";", &self.semi_token);
    }
}

impl Outlined for TraitItemMacro {
    fn show(&self, out: &mut TreeText) {
        node("TraitItemMacro", &self.attrs, out);
        self.mac.show(out);
        show_semi(&self.semi_token, out);
    }
}

impl Outlined for ImplItemConst {
    fn show(&self, out: &mut TreeText) {
        out.attributes(&self.attrs);
        self.vis.show(out);
        show_modifier(&self.modifiers.defaultness, out);
        out.token("const", self.const_token.span);
        self.ident.show(out);
        self.generics.show(out);
        out.mark(":", &self.colon_token);
        self.ty.show(out);
        out.mark("=", &self.eq_token);
        self.expr.show(out);
        out.mark(";", &self.semi_token);
    }
}

impl Outlined for ImplItemFn {
    fn show(&self, out: &mut TreeText) {
        out.attributes(&self.attrs);
        self.vis.show(out);
        show_modifier(&self.modifiers.defaultness, out);
        self.sig.show(out);
        self.block.show(out);
    }
}

impl Outlined for ImplItemType {
    fn show(&self, out: &mut TreeText) {
        out.attributes(&self.attrs);
        self.vis.show(out);
        show_modifier(&self.modifiers.defaultness, out);
        out.token("type", self.type_token.span);
        self.ident.show(out);
        self.generics.show(out);
        out.mark("=", &self.eq_token);
        self.ty.show(out);
        out.mark(";", &self.semi_token);
    }
}

impl Outlined for ImplItemMacro {
    fn show(&self, out: &mut TreeText) {
        node("ImplItemMacro", &self.attrs, out);
        self.mac.show(out);
        show_semi(&self.semi_token, out);
    }
}

impl Outlined for ForeignItemFn {
    fn show(&self, out: &mut TreeText) {
        out.attributes(&self.attrs);
        self.vis.show(out);
        show_modifier(&self.modifiers.defaultness, out);
        self.sig.show(out);
        out.mark(";", &self.semi_token);
    }
}

impl Outlined for ForeignItemStatic {
    fn show(&self, out: &mut TreeText) {
        out.attributes(&self.attrs);
        self.vis.show(out);
        self.safety.show(out);
        out.token("static", self.static_token.span);
        self.mutability.show(out);
        self.ident.show(out);
        out.mark(":", &self.colon_token);
        show_type(&self.ty, out);
        out.mark(";", &self.semi_token);
    }
}

impl Outlined for ForeignItemType {
    fn show(&self, out: &mut TreeText) {
        out.attributes(&self.attrs);
        self.vis.show(out);
        show_modifier(&self.modifiers.defaultness, out);
        out.token("type", self.type_token.span);
        self.ident.show(out);
        self.generics.show(out);
        out.mark(";", &self.semi_token);
    }
}

impl Outlined for ForeignItemMacro {
    fn show(&self, out: &mut TreeText) {
        node("ForeignItemMacro", &self.attrs, out);
        self.mac.show(out);
        show_semi(&self.semi_token, out);
    }
}
