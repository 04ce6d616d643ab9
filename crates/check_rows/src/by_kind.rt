//! Written by tools/kinds.py; edits are lost.
//!
//! The types of trees, by their names.

use crate::answer::answer;
use crate::failure::Failure;
use crate::kinds::other_tree;
use crate::question::{Heading, TreeQuestion};
use crate::row::Row;
use std::alloc::Global;
use syn_expr::expr::Expr;
use syn_expr::stmt::{Block, Stmt};
use syn_item::file::File;
use syn_item::foreign::{
    ForeignItem, ForeignItemFn, ForeignItemMacro, ForeignItemStatic, ForeignItemType,
    ItemForeignMod,
};
use syn_item::function::ItemFn;
use syn_item::impls::{ImplItem, ImplItemConst, ImplItemFn, ImplItemMacro, ImplItemType, ItemImpl};
use syn_item::item::Item;
use syn_item::sig::{Abi, FnArg, Receiver, Signature};
use syn_item::simple::{
    ItemConst, ItemExternCrate, ItemMacro, ItemMod, ItemStatic, ItemTraitAlias, ItemType, ItemUse,
    StaticMutability,
};
use syn_item::traits::{
    ItemTrait, TraitItem, TraitItemConst, TraitItemFn, TraitItemMacro, TraitItemType,
};
use syn_item::use_tree::UseTree;
use syn_lower::{
    Generics, LifetimeParam, Lit, Path, ReturnType, Type, TypeParamBound, TypePath, WhereClause,
    WherePredicate,
};
use syn_pat::mac::Macro;
use syn_pat::pat::Pat;
use syn_tree::data::{FieldsNamed, FieldsUnnamed, Variant};
use syn_tree::derive::DeriveInput;
use syn_tree::item::{ItemEnum, ItemStruct, ItemUnion};
use syn_tree::restriction::Visibility;

/// The result of the row as a tree of the type of this name; else that of `other_tree`.
pub(crate) fn tree_as(
    alloc: Global,
    question: TreeQuestion,
    heading: &Heading<'_>,
    word: &str,
    row: &Row<'_>,
) -> Result<String, Failure> {
    match word {
        "File" => answer::<File>(alloc, question, row),
        "Item" => answer::<Item>(alloc, question, row),
        "DeriveInput" => answer::<DeriveInput>(alloc, question, row),
        "Visibility" => answer::<Visibility>(alloc, question, row),
        "Variant" => answer::<Variant>(alloc, question, row),
        "FieldsNamed" => answer::<FieldsNamed>(alloc, question, row),
        "FieldsUnnamed" => answer::<FieldsUnnamed>(alloc, question, row),
        "Signature" => answer::<Signature>(alloc, question, row),
        "FnArg" => answer::<FnArg>(alloc, question, row),
        "Receiver" => answer::<Receiver>(alloc, question, row),
        "UseTree" => answer::<UseTree>(alloc, question, row),
        "TraitItem" => answer::<TraitItem>(alloc, question, row),
        "ImplItem" => answer::<ImplItem>(alloc, question, row),
        "ForeignItem" => answer::<ForeignItem>(alloc, question, row),
        "ItemConst" => answer::<ItemConst>(alloc, question, row),
        "ItemEnum" => answer::<ItemEnum>(alloc, question, row),
        _ => tree_as_1(alloc, question, heading, word, row),
    }
}

/// The same for further types.
fn tree_as_1(
    alloc: Global,
    question: TreeQuestion,
    heading: &Heading<'_>,
    word: &str,
    row: &Row<'_>,
) -> Result<String, Failure> {
    match word {
        "ItemExternCrate" => answer::<ItemExternCrate>(alloc, question, row),
        "ItemFn" => answer::<ItemFn>(alloc, question, row),
        "ItemForeignMod" => answer::<ItemForeignMod>(alloc, question, row),
        "ItemImpl" => answer::<ItemImpl>(alloc, question, row),
        "ItemMacro" => answer::<ItemMacro>(alloc, question, row),
        "ItemMod" => answer::<ItemMod>(alloc, question, row),
        "ItemStatic" => answer::<ItemStatic>(alloc, question, row),
        "ItemStruct" => answer::<ItemStruct>(alloc, question, row),
        "ItemTrait" => answer::<ItemTrait>(alloc, question, row),
        "ItemTraitAlias" => answer::<ItemTraitAlias>(alloc, question, row),
        "ItemType" => answer::<ItemType>(alloc, question, row),
        "ItemUnion" => answer::<ItemUnion>(alloc, question, row),
        "ItemUse" => answer::<ItemUse>(alloc, question, row),
        "Block" => answer::<Block>(alloc, question, row),
        "Stmt" => answer::<Stmt>(alloc, question, row),
        "StaticMutability" => answer::<StaticMutability>(alloc, question, row),
        _ => tree_as_2(alloc, question, heading, word, row),
    }
}

/// The same for further types.
fn tree_as_2(
    alloc: Global,
    question: TreeQuestion,
    heading: &Heading<'_>,
    word: &str,
    row: &Row<'_>,
) -> Result<String, Failure> {
    match word {
        "Abi" => answer::<Abi>(alloc, question, row),
        "TraitItemConst" => answer::<TraitItemConst>(alloc, question, row),
        "TraitItemFn" => answer::<TraitItemFn>(alloc, question, row),
        "TraitItemMacro" => answer::<TraitItemMacro>(alloc, question, row),
        "TraitItemType" => answer::<TraitItemType>(alloc, question, row),
        "ImplItemConst" => answer::<ImplItemConst>(alloc, question, row),
        "ImplItemFn" => answer::<ImplItemFn>(alloc, question, row),
        "ImplItemMacro" => answer::<ImplItemMacro>(alloc, question, row),
        "ImplItemType" => answer::<ImplItemType>(alloc, question, row),
        "ForeignItemFn" => answer::<ForeignItemFn>(alloc, question, row),
        "ForeignItemMacro" => answer::<ForeignItemMacro>(alloc, question, row),
        "ForeignItemStatic" => answer::<ForeignItemStatic>(alloc, question, row),
        "ForeignItemType" => answer::<ForeignItemType>(alloc, question, row),
        "Macro" => answer::<Macro>(alloc, question, row),
        "Pat" => answer::<Pat>(alloc, question, row),
        "LifetimeParam" => answer::<LifetimeParam>(alloc, question, row),
        _ => tree_as_3(alloc, question, heading, word, row),
    }
}

/// The same for further types.
fn tree_as_3(
    alloc: Global,
    question: TreeQuestion,
    heading: &Heading<'_>,
    word: &str,
    row: &Row<'_>,
) -> Result<String, Failure> {
    match word {
        "Path" => answer::<Path>(alloc, question, row),
        "ReturnType" => answer::<ReturnType>(alloc, question, row),
        "Type" => answer::<Type>(alloc, question, row),
        "TypeParamBound" => answer::<TypeParamBound>(alloc, question, row),
        "TypePath" => answer::<TypePath>(alloc, question, row),
        "WherePredicate" => answer::<WherePredicate>(alloc, question, row),
        "Expr" => answer::<Expr>(alloc, question, row),
        "Generics" => answer::<Generics>(alloc, question, row),
        "Lit" => answer::<Lit>(alloc, question, row),
        "WhereClause" => answer::<WhereClause>(alloc, question, row),
        _ => other_tree(alloc, question, heading, word, row),
    }
}
