//! Private functions that become visible in the whole crate.

use std::alloc::Global;
use syn::deferred::DeferredItems;
use syn::item::Items;
use syn::reader::read_tokens;
use syn::{Error, File, ImplItem, Item, ItemImpl, ItemMod, TryClone, Visibility, parse2};

/// The depth to which modules are walked.
const DEPTH: usize = 100;

/// Makes each private function of a file `pub(crate)`.
pub(crate) fn widen_file(file: &mut File, alloc: Global) -> syn::Result<()> {
    let vis: Visibility = parse2(read_tokens(alloc, "pub(crate)")?)?;
    widen_items(&mut file.items, &vis, DEPTH, alloc)
}

/// The same of items, in modules too. The walk goes this many modules deeper.
#[cycle(widen)]
fn widen_items(
    items: &mut Vec<Item>,
    vis: &Visibility,
    depth: usize,
    alloc: Global,
) -> syn::Result<()> {
    for item in items.iter_mut() {
        match item {
            Item::Fn(function) => widen(&mut function.vis, vis, alloc)?,
            Item::Impl(item) => widen_methods(item, vis, alloc)?,
            Item::Mod(module) => widen_module(module, vis, depth, alloc)?,
            _ => {}
        }
    }
    Ok(())
}

/// The same of a module: its items are kept verbatim, so they are opened, and kept verbatim again.
#[cycle(widen)]
fn widen_module(
    module: &mut ItemMod,
    vis: &Visibility,
    depth: usize,
    alloc: Global,
) -> syn::Result<()> {
    let Some((_, deferred)) = &mut module.content else {
        return Ok(());
    };
    if depth == 0 {
        return Err(Error::new(module.mod_token.span, "more than 100 modules in each other"));
    }
    let mut content: Items = deferred.open()?;
    widen_items(&mut content.0, vis, depth - 1, alloc)?;
    *deferred = DeferredItems::new(&content, alloc)?;
    Ok(())
}

/// The same of an impl. What is of a trait is as visible as the trait says.
fn widen_methods(item: &mut ItemImpl, vis: &Visibility, alloc: Global) -> syn::Result<()> {
    if item.trait_.is_some() {
        return Ok(());
    }
    for member in item.items.iter_mut() {
        if let ImplItem::Fn(function) = member {
            widen(&mut function.vis, vis, alloc)?;
        }
    }
    Ok(())
}

/// Puts this visibility in the place of one that isn't written.
fn widen(place: &mut Visibility, vis: &Visibility, alloc: Global) -> syn::Result<()> {
    if matches!(place, Visibility::Inherited) {
        *place = vis.try_clone(alloc)?;
    }
    Ok(())
}
