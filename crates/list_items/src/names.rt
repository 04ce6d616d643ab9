//! What items are, and what they are called.

use crate::text::{named, text_of, visible};
use std::alloc::Global;
use std::fmt::Write as _;
use syn::{Item, ItemForeignMod, ItemImpl, ItemMacro, ItemUse};

/// What an item is and what it is called, after its visibility.
pub(crate) fn name_of(item: &Item, alloc: Global) -> syn::Result<String> {
    match item {
        Item::Const(item) => named(&item.vis, "const", &item.ident, alloc),
        Item::Enum(item) => named(&item.vis, "enum", &item.ident, alloc),
        Item::ExternCrate(item) => named(&item.vis, "extern crate", &item.ident, alloc),
        Item::Fn(item) => named(&item.vis, "fn", &item.sig.ident, alloc),
        Item::Mod(item) => named(&item.vis, "mod", &item.ident, alloc),
        Item::Static(item) => named(&item.vis, "static", &item.ident, alloc),
        Item::Struct(item) => named(&item.vis, "struct", &item.ident, alloc),
        Item::Trait(item) => named(&item.vis, "trait", &item.ident, alloc),
        Item::TraitAlias(item) => named(&item.vis, "trait alias", &item.ident, alloc),
        Item::Ty(item) => named(&item.vis, "type", &item.ident, alloc),
        Item::Union(item) => named(&item.vis, "union", &item.ident, alloc),
        Item::ForeignMod(item) => foreign_module(item, alloc),
        Item::Impl(item) => implemented(item, alloc),
        Item::Macro(item) => macro_called(item, alloc),
        Item::Use(item) => used(item, alloc),
        Item::Verbatim(_) => kept_as_tokens(alloc),
    }
}

/// What is said of what the library has no tree for.
pub(crate) fn kept_as_tokens(alloc: Global) -> syn::Result<String> {
    Ok(String::from_str(alloc, "tokens")?)
}

/// A foreign module has no name: `extern` and its ABI.
fn foreign_module(item: &ItemForeignMod, alloc: Global) -> syn::Result<String> {
    text_of(&item.abi, alloc)
}

/// Neither has an impl: the trait, where there is one, and the type.
fn implemented(item: &ItemImpl, alloc: Global) -> syn::Result<String> {
    let mut text = String::from_str(alloc, "impl ")?;
    if item.modifiers.polarity.is_some() {
        text.push_str("! ")?;
    }
    if let Some((path, _)) = &item.trait_ {
        write!(text, "{} for ", text_of(path, alloc)?.as_str())?;
    }
    text.push_str(text_of(&*item.self_ty, alloc)?.as_str())?;
    Ok(text)
}

/// The macro that is called, and the name after its `!`, where there is one.
fn macro_called(item: &ItemMacro, alloc: Global) -> syn::Result<String> {
    let mut text = text_of(&item.mac.path, alloc)?;
    text.push_str(" !")?;
    if let Some(ident) = &item.ident {
        write!(text, " {}", ident.text())?;
    }
    Ok(text)
}

/// A use, with all that it names.
fn used(item: &ItemUse, alloc: Global) -> syn::Result<String> {
    let mut text = visible(&item.vis, alloc)?;
    text.push_str("use ")?;
    if item.leading_colon.is_some() {
        text.push_str(":: ")?;
    }
    text.push_str(text_of(&item.tree, alloc)?.as_str())?;
    Ok(text)
}
