//! Written by tools/kinds.py; edits are lost.
//!
//! Each type, by its name.

use crate::failure::Failure;
use crate::given::Input;
use crate::sweep::{as_canonical, as_parsed};
use crate::tally::Tally;
use crate::ways::{ByItself, InField};
use syn::canon::{NamedField, SafeOrUnsafe, Stmts, UnnamedField, UnsafeOnly};
use syn::{Ident, Lifetime};
use syn_expr::expr::Expr;
use syn_expr::stmt::{Block, Stmt};
use syn_item::file::File;
use syn_item::foreign::{
    ForeignItem, ForeignItemFn, ForeignItemMacro, ForeignItemStatic, ForeignItemType,
    ItemForeignMod,
};
use syn_item::function::ItemFn;
use syn_item::impls::{ImplItem, ImplItemConst, ImplItemFn, ImplItemMacro, ImplItemType, ItemImpl};
use syn_item::item::Item;
use syn_item::sig::{Abi, FnArg, Receiver, Signature};
use syn_item::simple::{
    ItemConst, ItemExternCrate, ItemMacro, ItemMod, ItemStatic, ItemTraitAlias, ItemType, ItemUse,
    StaticMutability,
};
use syn_item::traits::{
    ItemTrait, TraitItem, TraitItemConst, TraitItemFn, TraitItemMacro, TraitItemType,
};
use syn_item::use_tree::UseTree;
use syn_lower::{
    Generics, LifetimeParam, Lit, Path, ReturnType, Type, TypeParamBound, TypePath, WhereClause,
    WherePredicate,
};
use syn_pat::mac::Macro;
use syn_pat::pat::Pat;
use syn_tree::data::{FieldsNamed, FieldsUnnamed, Variant};
use syn_tree::derive::DeriveInput;
use syn_tree::item::{ItemEnum, ItemStruct, ItemUnion};
use syn_tree::restriction::Visibility;

/// Makes each call on the input as the type of this name.
pub(crate) fn sweep_as(word: &str, input: &Input<'_>, tally: &mut Tally) -> Result<(), Failure> {
    match word {
        "File" => as_canonical::<File, ByItself>(input, tally),
        "Item" => as_canonical::<Item, ByItself>(input, tally),
        "DeriveInput" => as_canonical::<DeriveInput, ByItself>(input, tally),
        "Visibility" => as_canonical::<Visibility, ByItself>(input, tally),
        "Variant" => as_canonical::<Variant, ByItself>(input, tally),
        "NamedField" => as_canonical::<NamedField, InField>(input, tally),
        "UnnamedField" => as_canonical::<UnnamedField, InField>(input, tally),
        "FieldsNamed" => as_canonical::<FieldsNamed, ByItself>(input, tally),
        "FieldsUnnamed" => as_canonical::<FieldsUnnamed, ByItself>(input, tally),
        "Signature" => as_canonical::<Signature, ByItself>(input, tally),
        "FnArg" => as_canonical::<FnArg, ByItself>(input, tally),
        "Receiver" => as_canonical::<Receiver, ByItself>(input, tally),
        "UseTree" => as_canonical::<UseTree, ByItself>(input, tally),
        "TraitItem" => as_canonical::<TraitItem, ByItself>(input, tally),
        "ImplItem" => as_canonical::<ImplItem, ByItself>(input, tally),
        "ForeignItem" => as_canonical::<ForeignItem, ByItself>(input, tally),
        "ItemConst" => as_canonical::<ItemConst, ByItself>(input, tally),
        "ItemEnum" => as_canonical::<ItemEnum, ByItself>(input, tally),
        "ItemExternCrate" => as_canonical::<ItemExternCrate, ByItself>(input, tally),
        "ItemFn" => as_canonical::<ItemFn, ByItself>(input, tally),
        "ItemForeignMod" => as_canonical::<ItemForeignMod, ByItself>(input, tally),
        "ItemImpl" => as_canonical::<ItemImpl, ByItself>(input, tally),
        "ItemMacro" => as_canonical::<ItemMacro, ByItself>(input, tally),
        "ItemMod" => as_canonical::<ItemMod, ByItself>(input, tally),
        "ItemStatic" => as_canonical::<ItemStatic, ByItself>(input, tally),
        "ItemStruct" => as_canonical::<ItemStruct, ByItself>(input, tally),
        "ItemTrait" => as_canonical::<ItemTrait, ByItself>(input, tally),
        "ItemTraitAlias" => as_canonical::<ItemTraitAlias, ByItself>(input, tally),
        "ItemType" => as_canonical::<ItemType, ByItself>(input, tally),
        "ItemUnion" => as_canonical::<ItemUnion, ByItself>(input, tally),
        "ItemUse" => as_canonical::<ItemUse, ByItself>(input, tally),
        "Block" => as_canonical::<Block, ByItself>(input, tally),
        "Stmt" => as_canonical::<Stmt, ByItself>(input, tally),
        "Stmts" => as_canonical::<Stmts, InField>(input, tally),
        _ => of_others(word, input, tally),
    }
}

/// What is no kind of the program; else what `of_parsed` does.
fn of_others(word: &str, input: &Input<'_>, tally: &mut Tally) -> Result<(), Failure> {
    match word {
        "SafeOrUnsafe" => as_canonical::<SafeOrUnsafe, InField>(input, tally),
        "UnsafeOnly" => as_canonical::<UnsafeOnly, InField>(input, tally),
        "StaticMutability" => as_canonical::<StaticMutability, ByItself>(input, tally),
        "Abi" => as_canonical::<Abi, ByItself>(input, tally),
        "TraitItemConst" => as_canonical::<TraitItemConst, ByItself>(input, tally),
        "TraitItemFn" => as_canonical::<TraitItemFn, ByItself>(input, tally),
        "TraitItemMacro" => as_canonical::<TraitItemMacro, ByItself>(input, tally),
        "TraitItemType" => as_canonical::<TraitItemType, ByItself>(input, tally),
        "ImplItemConst" => as_canonical::<ImplItemConst, ByItself>(input, tally),
        "ImplItemFn" => as_canonical::<ImplItemFn, ByItself>(input, tally),
        "ImplItemMacro" => as_canonical::<ImplItemMacro, ByItself>(input, tally),
        "ImplItemType" => as_canonical::<ImplItemType, ByItself>(input, tally),
        "ForeignItemFn" => as_canonical::<ForeignItemFn, ByItself>(input, tally),
        "ForeignItemMacro" => as_canonical::<ForeignItemMacro, ByItself>(input, tally),
        "ForeignItemStatic" => as_canonical::<ForeignItemStatic, ByItself>(input, tally),
        "ForeignItemType" => as_canonical::<ForeignItemType, ByItself>(input, tally),
        "Macro" => as_canonical::<Macro, ByItself>(input, tally),
        "Pat" => as_canonical::<Pat, ByItself>(input, tally),
        "LifetimeParam" => as_canonical::<LifetimeParam, ByItself>(input, tally),
        "Path" => as_canonical::<Path, ByItself>(input, tally),
        "ReturnType" => as_canonical::<ReturnType, ByItself>(input, tally),
        "Type" => as_canonical::<Type, ByItself>(input, tally),
        "TypeParamBound" => as_canonical::<TypeParamBound, ByItself>(input, tally),
        "TypePath" => as_canonical::<TypePath, ByItself>(input, tally),
        "WherePredicate" => as_canonical::<WherePredicate, ByItself>(input, tally),
        _ => of_parsed(word, input, tally),
    }
}

/// What has a parser, and no canonical print.
fn of_parsed(word: &str, input: &Input<'_>, tally: &mut Tally) -> Result<(), Failure> {
    match word {
        "Expr" => as_parsed::<Expr, ByItself>(input, tally),
        "Generics" => as_parsed::<Generics, ByItself>(input, tally),
        "Lit" => as_parsed::<Lit, ByItself>(input, tally),
        "WhereClause" => as_parsed::<WhereClause, ByItself>(input, tally),
        "Ident" => as_parsed::<Ident, ByItself>(input, tally),
        "Lifetime" => as_parsed::<Lifetime, ByItself>(input, tally),
        _ => Err(Failure::Broken),
    }
}
