//! Written by tools/kinds.py; edits are lost.
//!
//! Conversions between trees, by their names.

use crate::call::Converted;
use crate::called::called;
use crate::failure::Failure;
use crate::question::{Heading, TreeQuestion};
use crate::row::Row;
use std::alloc::Global;
use syn_item::foreign::{
    ForeignItem, ForeignItemFn, ForeignItemMacro, ForeignItemStatic, ForeignItemType,
    ItemForeignMod,
};
use syn_item::function::ItemFn;
use syn_item::impls::{ImplItem, ImplItemConst, ImplItemFn, ImplItemMacro, ImplItemType, ItemImpl};
use syn_item::item::Item;
use syn_item::sig::{FnArg, Receiver};
use syn_item::simple::{
    ItemConst, ItemExternCrate, ItemMacro, ItemMod, ItemStatic, ItemTraitAlias, ItemType, ItemUse,
};
use syn_item::traits::{
    ItemTrait, TraitItem, TraitItemConst, TraitItemFn, TraitItemMacro, TraitItemType,
};
use syn_tree::data::{Fields, FieldsNamed, FieldsUnnamed};
use syn_tree::derive::DeriveInput;
use syn_tree::item::{ItemEnum, ItemStruct, ItemUnion};

/// The result of the row as a tree made by the conversion of this name.
pub(crate) fn converted_as(
    alloc: Global,
    question: TreeQuestion,
    heading: &Heading<'_>,
    word: &str,
    row: &Row<'_>,
) -> Result<String, Failure> {
    match word {
        "Item::from(ItemConst)" => called::<Converted<ItemConst, Item>>(alloc, question, row),
        "Item::from(ItemEnum)" => called::<Converted<ItemEnum, Item>>(alloc, question, row),
        "Item::from(ItemExternCrate)" => {
            called::<Converted<ItemExternCrate, Item>>(alloc, question, row)
        }
        "Item::from(ItemFn)" => called::<Converted<ItemFn, Item>>(alloc, question, row),
        "Item::from(ItemForeignMod)" => {
            called::<Converted<ItemForeignMod, Item>>(alloc, question, row)
        }
        "Item::from(ItemImpl)" => called::<Converted<ItemImpl, Item>>(alloc, question, row),
        "Item::from(ItemMacro)" => called::<Converted<ItemMacro, Item>>(alloc, question, row),
        "Item::from(ItemMod)" => called::<Converted<ItemMod, Item>>(alloc, question, row),
        "Item::from(ItemStatic)" => called::<Converted<ItemStatic, Item>>(alloc, question, row),
        "Item::from(ItemStruct)" => called::<Converted<ItemStruct, Item>>(alloc, question, row),
        "Item::from(ItemTrait)" => called::<Converted<ItemTrait, Item>>(alloc, question, row),
        "Item::from(ItemTraitAlias)" => {
            called::<Converted<ItemTraitAlias, Item>>(alloc, question, row)
        }
        "Item::from(ItemType)" => called::<Converted<ItemType, Item>>(alloc, question, row),
        "Item::from(ItemUnion)" => called::<Converted<ItemUnion, Item>>(alloc, question, row),
        "Item::from(ItemUse)" => called::<Converted<ItemUse, Item>>(alloc, question, row),
        "TraitItem::from(TraitItemConst)" => {
            called::<Converted<TraitItemConst, TraitItem>>(alloc, question, row)
        }
        _ => converted_as_1(alloc, question, heading, word, row),
    }
}

/// The same for further types.
fn converted_as_1(
    alloc: Global,
    question: TreeQuestion,
    heading: &Heading<'_>,
    word: &str,
    row: &Row<'_>,
) -> Result<String, Failure> {
    match word {
        "TraitItem::from(TraitItemFn)" => {
            called::<Converted<TraitItemFn, TraitItem>>(alloc, question, row)
        }
        "TraitItem::from(TraitItemType)" => {
            called::<Converted<TraitItemType, TraitItem>>(alloc, question, row)
        }
        "TraitItem::from(TraitItemMacro)" => {
            called::<Converted<TraitItemMacro, TraitItem>>(alloc, question, row)
        }
        "ImplItem::from(ImplItemConst)" => {
            called::<Converted<ImplItemConst, ImplItem>>(alloc, question, row)
        }
        "ImplItem::from(ImplItemFn)" => {
            called::<Converted<ImplItemFn, ImplItem>>(alloc, question, row)
        }
        "ImplItem::from(ImplItemType)" => {
            called::<Converted<ImplItemType, ImplItem>>(alloc, question, row)
        }
        "ImplItem::from(ImplItemMacro)" => {
            called::<Converted<ImplItemMacro, ImplItem>>(alloc, question, row)
        }
        "ForeignItem::from(ForeignItemFn)" => {
            called::<Converted<ForeignItemFn, ForeignItem>>(alloc, question, row)
        }
        "ForeignItem::from(ForeignItemStatic)" => {
            called::<Converted<ForeignItemStatic, ForeignItem>>(alloc, question, row)
        }
        "ForeignItem::from(ForeignItemType)" => {
            called::<Converted<ForeignItemType, ForeignItem>>(alloc, question, row)
        }
        "ForeignItem::from(ForeignItemMacro)" => {
            called::<Converted<ForeignItemMacro, ForeignItem>>(alloc, question, row)
        }
        "FnArg::from(Receiver)" => called::<Converted<Receiver, FnArg>>(alloc, question, row),
        "Item::from(DeriveInput)" => called::<Converted<DeriveInput, Item>>(alloc, question, row),
        "DeriveInput::from(ItemStruct)" => {
            called::<Converted<ItemStruct, DeriveInput>>(alloc, question, row)
        }
        "DeriveInput::from(ItemEnum)" => {
            called::<Converted<ItemEnum, DeriveInput>>(alloc, question, row)
        }
        "DeriveInput::from(ItemUnion)" => {
            called::<Converted<ItemUnion, DeriveInput>>(alloc, question, row)
        }
        _ => converted_as_2(alloc, question, heading, word, row),
    }
}

/// The same for further types.
fn converted_as_2(
    alloc: Global,
    question: TreeQuestion,
    heading: &Heading<'_>,
    word: &str,
    row: &Row<'_>,
) -> Result<String, Failure> {
    match word {
        "Fields::from(FieldsNamed)" => {
            called::<Converted<FieldsNamed, Fields>>(alloc, question, row)
        }
        "Fields::from(FieldsUnnamed)" => {
            called::<Converted<FieldsUnnamed, Fields>>(alloc, question, row)
        }
        _ => Err(Failure::Malformed(heading.line, "no such kind")),
    }
}
