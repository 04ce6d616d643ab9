//! The tree of a file's items.

use crate::members::add_members;
use crate::names::name_of;
use crate::text::add_line;
use std::alloc::{AllocError, Global};
use syn::item::Items;
use syn::{Error, File, Item};

/// The depth to which modules are walked.
const DEPTH: usize = 100;

/// The lines of a file.
pub(crate) fn list_file(file: &File, alloc: Global) -> syn::Result<String> {
    let mut lines = String::new(alloc);
    add_items(&mut lines, "", &file.items, DEPTH, alloc)?;
    Ok(lines)
}

/// Adds the lines of items, with those of what is in them. The walk goes this many modules deeper.
fn add_items(
    lines: &mut String,
    indent: &str,
    items: &Vec<Item>,
    depth: usize,
    alloc: Global,
) -> syn::Result<()> {
    let inside = deeper(indent, alloc)?;
    for item in items {
        let name = name_of(item, alloc)?;
        add_line(lines, indent, name.as_str(), item, alloc)?;
        add_members(lines, inside.as_str(), item, alloc)?;
        let Item::Mod(module) = item else { continue };
        let Some((_, deferred)) = &module.content else {
            continue;
        };
        if depth == 0 {
            return Err(Error::new(module.mod_token.span, "more than 100 modules in each other"));
        }
        let content: Items = deferred.open()?;
        add_items(lines, inside.as_str(), &content.0, depth - 1, alloc)?;
    }
    Ok(())
}

/// The indentation of what is in an item.
fn deeper(indent: &str, alloc: Global) -> Result<String, AllocError> {
    let mut inside = String::from_str(alloc, indent)?;
    inside.push_str("  ")?;
    Ok(inside)
}
