//! The members of impls, traits and foreign modules.

use crate::names::kept_as_tokens;
use crate::text::{add_line, named, text_of};
use std::alloc::Global;
use syn::{ForeignItem, ImplItem, Item, Macro, TraitItem, Visibility};

/// Adds the lines of an item's members, where it is an impl, a trait or a foreign module.
pub(crate) fn add_members(
    lines: &mut String,
    indent: &str,
    item: &Item,
    alloc: Global,
) -> syn::Result<()> {
    match item {
        Item::ForeignMod(item) => {
            for member in &item.items {
                let name = foreign_name(member, alloc)?;
                add_line(lines, indent, name.as_str(), member, alloc)?;
            }
        }
        Item::Impl(item) => {
            for member in &item.items {
                let name = impl_name(member, alloc)?;
                add_line(lines, indent, name.as_str(), member, alloc)?;
            }
        }
        Item::Trait(item) => {
            for member in &item.items {
                let name = trait_name(member, alloc)?;
                add_line(lines, indent, name.as_str(), member, alloc)?;
            }
        }
        _ => {}
    }
    Ok(())
}

/// What a member of a foreign module is called.
fn foreign_name(member: &ForeignItem, alloc: Global) -> syn::Result<String> {
    match member {
        ForeignItem::Fn(item) => named(&item.vis, "fn", &item.sig.ident, alloc),
        ForeignItem::Static(item) => named(&item.vis, "static", &item.ident, alloc),
        ForeignItem::Ty(item) => named(&item.vis, "type", &item.ident, alloc),
        ForeignItem::Macro(item) => macro_called(&item.mac, alloc),
        ForeignItem::Verbatim(_) => kept_as_tokens(alloc),
    }
}

/// What a member of an impl is called.
fn impl_name(member: &ImplItem, alloc: Global) -> syn::Result<String> {
    match member {
        ImplItem::Const(item) => named(&item.vis, "const", &item.ident, alloc),
        ImplItem::Fn(item) => named(&item.vis, "fn", &item.sig.ident, alloc),
        ImplItem::Ty(item) => named(&item.vis, "type", &item.ident, alloc),
        ImplItem::Macro(item) => macro_called(&item.mac, alloc),
        ImplItem::Verbatim(_) => kept_as_tokens(alloc),
    }
}

/// What a member of a trait is called. It has no visibility of its own.
fn trait_name(member: &TraitItem, alloc: Global) -> syn::Result<String> {
    let none = Visibility::Inherited;
    match member {
        TraitItem::Const(item) => named(&none, "const", &item.ident, alloc),
        TraitItem::Fn(item) => named(&none, "fn", &item.sig.ident, alloc),
        TraitItem::Ty(item) => named(&none, "type", &item.ident, alloc),
        TraitItem::Macro(item) => macro_called(&item.mac, alloc),
        TraitItem::Verbatim(_) => kept_as_tokens(alloc),
    }
}

/// The macro that is called.
fn macro_called(mac: &Macro, alloc: Global) -> syn::Result<String> {
    let mut text = text_of(&mac.path, alloc)?;
    text.push_str(" !")?;
    Ok(text)
}
