//! Written by tools/kinds.py; edits are lost.
//!
//! The types that have canonical prints, by their names.

use crate::failure::Failure;
use crate::form::form;
use crate::question::{FormQuestion, Heading};
use crate::row::Row;
use std::alloc::Global;
use syn::canon::{NamedField, SafeOrUnsafe, Stmts, UnnamedField, UnsafeOnly};
use syn_expr::stmt::{Block, Stmt};
use syn_item::file::File;
use syn_item::foreign::{
    ForeignItem, ForeignItemFn, ForeignItemMacro, ForeignItemStatic, ForeignItemType,
    ItemForeignMod,
};
use syn_item::function::ItemFn;
use syn_item::impls::{ImplItem, ImplItemConst, ImplItemFn, ImplItemMacro, ImplItemType, ItemImpl};
use syn_item::item::Item;
use syn_item::sig::{Abi, FnArg, Receiver, Signature};
use syn_item::simple::{
    ItemConst, ItemExternCrate, ItemMacro, ItemMod, ItemStatic, ItemTraitAlias, ItemType, ItemUse,
    StaticMutability,
};
use syn_item::traits::{
    ItemTrait, TraitItem, TraitItemConst, TraitItemFn, TraitItemMacro, TraitItemType,
};
use syn_item::use_tree::UseTree;
use syn_lower::{LifetimeParam, Path, ReturnType, Type, TypeParamBound, TypePath, WherePredicate};
use syn_pat::mac::Macro;
use syn_pat::pat::Pat;
use syn_tree::data::{FieldsNamed, FieldsUnnamed, Variant};
use syn_tree::derive::DeriveInput;
use syn_tree::item::{ItemEnum, ItemStruct, ItemUnion};
use syn_tree::restriction::Visibility;

/// The result of the row by the canonical print of the type of this name.
pub(crate) fn form_as(
    alloc: Global,
    question: FormQuestion,
    heading: &Heading<'_>,
    word: &str,
    row: &Row<'_>,
) -> Result<String, Failure> {
    match word {
        "File" => form::<File>(alloc, question, row),
        "Item" => form::<Item>(alloc, question, row),
        "DeriveInput" => form::<DeriveInput>(alloc, question, row),
        "Visibility" => form::<Visibility>(alloc, question, row),
        "Variant" => form::<Variant>(alloc, question, row),
        "NamedField" => form::<NamedField>(alloc, question, row),
        "UnnamedField" => form::<UnnamedField>(alloc, question, row),
        "FieldsNamed" => form::<FieldsNamed>(alloc, question, row),
        "FieldsUnnamed" => form::<FieldsUnnamed>(alloc, question, row),
        "Signature" => form::<Signature>(alloc, question, row),
        "FnArg" => form::<FnArg>(alloc, question, row),
        "Receiver" => form::<Receiver>(alloc, question, row),
        "UseTree" => form::<UseTree>(alloc, question, row),
        "TraitItem" => form::<TraitItem>(alloc, question, row),
        "ImplItem" => form::<ImplItem>(alloc, question, row),
        "ForeignItem" => form::<ForeignItem>(alloc, question, row),
        _ => form_as_1(alloc, question, heading, word, row),
    }
}

/// The same for further types.
fn form_as_1(
    alloc: Global,
    question: FormQuestion,
    heading: &Heading<'_>,
    word: &str,
    row: &Row<'_>,
) -> Result<String, Failure> {
    match word {
        "ItemConst" => form::<ItemConst>(alloc, question, row),
        "ItemEnum" => form::<ItemEnum>(alloc, question, row),
        "ItemExternCrate" => form::<ItemExternCrate>(alloc, question, row),
        "ItemFn" => form::<ItemFn>(alloc, question, row),
        "ItemForeignMod" => form::<ItemForeignMod>(alloc, question, row),
        "ItemImpl" => form::<ItemImpl>(alloc, question, row),
        "ItemMacro" => form::<ItemMacro>(alloc, question, row),
        "ItemMod" => form::<ItemMod>(alloc, question, row),
        "ItemStatic" => form::<ItemStatic>(alloc, question, row),
        "ItemStruct" => form::<ItemStruct>(alloc, question, row),
        "ItemTrait" => form::<ItemTrait>(alloc, question, row),
        "ItemTraitAlias" => form::<ItemTraitAlias>(alloc, question, row),
        "ItemType" => form::<ItemType>(alloc, question, row),
        "ItemUnion" => form::<ItemUnion>(alloc, question, row),
        "ItemUse" => form::<ItemUse>(alloc, question, row),
        "Block" => form::<Block>(alloc, question, row),
        _ => form_as_2(alloc, question, heading, word, row),
    }
}

/// The same for further types.
fn form_as_2(
    alloc: Global,
    question: FormQuestion,
    heading: &Heading<'_>,
    word: &str,
    row: &Row<'_>,
) -> Result<String, Failure> {
    match word {
        "Stmt" => form::<Stmt>(alloc, question, row),
        "Stmts" => form::<Stmts>(alloc, question, row),
        "SafeOrUnsafe" => form::<SafeOrUnsafe>(alloc, question, row),
        "UnsafeOnly" => form::<UnsafeOnly>(alloc, question, row),
        "StaticMutability" => form::<StaticMutability>(alloc, question, row),
        "Abi" => form::<Abi>(alloc, question, row),
        "TraitItemConst" => form::<TraitItemConst>(alloc, question, row),
        "TraitItemFn" => form::<TraitItemFn>(alloc, question, row),
        "TraitItemMacro" => form::<TraitItemMacro>(alloc, question, row),
        "TraitItemType" => form::<TraitItemType>(alloc, question, row),
        "ImplItemConst" => form::<ImplItemConst>(alloc, question, row),
        "ImplItemFn" => form::<ImplItemFn>(alloc, question, row),
        "ImplItemMacro" => form::<ImplItemMacro>(alloc, question, row),
        "ImplItemType" => form::<ImplItemType>(alloc, question, row),
        "ForeignItemFn" => form::<ForeignItemFn>(alloc, question, row),
        "ForeignItemMacro" => form::<ForeignItemMacro>(alloc, question, row),
        _ => form_as_3(alloc, question, heading, word, row),
    }
}

/// The same for further types.
fn form_as_3(
    alloc: Global,
    question: FormQuestion,
    heading: &Heading<'_>,
    word: &str,
    row: &Row<'_>,
) -> Result<String, Failure> {
    match word {
        "ForeignItemStatic" => form::<ForeignItemStatic>(alloc, question, row),
        "ForeignItemType" => form::<ForeignItemType>(alloc, question, row),
        "Macro" => form::<Macro>(alloc, question, row),
        "Pat" => form::<Pat>(alloc, question, row),
        "LifetimeParam" => form::<LifetimeParam>(alloc, question, row),
        "Path" => form::<Path>(alloc, question, row),
        "ReturnType" => form::<ReturnType>(alloc, question, row),
        "Type" => form::<Type>(alloc, question, row),
        "TypeParamBound" => form::<TypeParamBound>(alloc, question, row),
        "TypePath" => form::<TypePath>(alloc, question, row),
        "WherePredicate" => form::<WherePredicate>(alloc, question, row),
        _ => Err(Failure::Malformed(heading.line, "no such kind")),
    }
}
