//! Written by tools/kinds.py; edits are lost.
//!
//! Each kind, by its trees and by the rule that reads it.

use crate::answer::{Answer, answer_of};
use crate::failure::Failure;
use syn::canon::{NamedField, SafeOrUnsafe, Stmts, UnnamedField, UnsafeOnly};
use syn::token::TokenStream;
use syn_expr::expr::Expr;
use syn_expr::stmt::{Block, Stmt};
use syn_item::file::File;
use syn_item::foreign::{
    ForeignItem, ForeignItemFn, ForeignItemMacro, ForeignItemStatic, ForeignItemType,
    ItemForeignMod,
};
use syn_item::function::ItemFn;
use syn_item::impls::{ImplItem, ImplItemConst, ImplItemFn, ImplItemMacro, ImplItemType, ItemImpl};
use syn_item::item::Item;
use syn_item::sig::{Abi, FnArg, Receiver, Signature};
use syn_item::simple::{
    ItemConst, ItemExternCrate, ItemMacro, ItemMod, ItemStatic, ItemTraitAlias, ItemType, ItemUse,
    StaticMutability,
};
use syn_item::traits::{
    ItemTrait, TraitItem, TraitItemConst, TraitItemFn, TraitItemMacro, TraitItemType,
};
use syn_item::use_tree::UseTree;
use syn_lower::{LifetimeParam, Path, ReturnType, Type, TypeParamBound, TypePath, WherePredicate};
use syn_pat::mac::Macro;
use syn_pat::pat::Pat;
use syn_recognize::Rule;
use syn_tree::data::{FieldsNamed, FieldsUnnamed, Variant};
use syn_tree::derive::DeriveInput;
use syn_tree::item::{ItemEnum, ItemStruct, ItemUnion};
use syn_tree::restriction::Visibility;

/// What is answered about the stream as the kind of this name.
pub(crate) fn answer_as(kind: &str, tokens: &TokenStream) -> Result<Answer, Failure> {
    match kind {
        "File" => answer_of::<File>(Rule::FILE, tokens),
        "Item" => answer_of::<Item>(Rule::ITEM, tokens),
        "DeriveInput" => answer_of::<DeriveInput>(Rule::DERIVE_INPUT, tokens),
        "Visibility" => answer_of::<Visibility>(Rule::VISIBILITY, tokens),
        "Variant" => answer_of::<Variant>(Rule::VARIANT, tokens),
        "NamedField" => answer_of::<NamedField>(Rule::NAMED_FIELD, tokens),
        "UnnamedField" => answer_of::<UnnamedField>(Rule::UNNAMED_FIELD, tokens),
        "FieldsNamed" => answer_of::<FieldsNamed>(Rule::FIELDS_NAMED, tokens),
        "FieldsUnnamed" => answer_of::<FieldsUnnamed>(Rule::FIELDS_UNNAMED, tokens),
        "Signature" => answer_of::<Signature>(Rule::SIGNATURE, tokens),
        "FnArg" => answer_of::<FnArg>(Rule::ARGUMENT, tokens),
        "Receiver" => answer_of::<Receiver>(Rule::RECEIVER, tokens),
        "UseTree" => answer_of::<UseTree>(Rule::USE_TREE, tokens),
        "TraitItem" => answer_of::<TraitItem>(Rule::TRAIT_ITEM, tokens),
        "ImplItem" => answer_of::<ImplItem>(Rule::IMPL_ITEM, tokens),
        "ForeignItem" => answer_of::<ForeignItem>(Rule::FOREIGN_ITEM, tokens),
        _ => answer_as_1(kind, tokens),
    }
}

/// The same of further kinds.
fn answer_as_1(kind: &str, tokens: &TokenStream) -> Result<Answer, Failure> {
    match kind {
        "ItemConst" => answer_of::<ItemConst>(Rule::CONST_ITEM, tokens),
        "ItemEnum" => answer_of::<ItemEnum>(Rule::ENUMERATION, tokens),
        "ItemExternCrate" => answer_of::<ItemExternCrate>(Rule::EXTERN_CRATE, tokens),
        "ItemFn" => answer_of::<ItemFn>(Rule::FUNCTION, tokens),
        "ItemForeignMod" => answer_of::<ItemForeignMod>(Rule::FOREIGN_MODULE, tokens),
        "ItemImpl" => answer_of::<ItemImpl>(Rule::IMPL_DEFINITION, tokens),
        "ItemMacro" => answer_of::<ItemMacro>(Rule::MACRO_ITEM, tokens),
        "ItemMod" => answer_of::<ItemMod>(Rule::MODULE_ITEM, tokens),
        "ItemStatic" => answer_of::<ItemStatic>(Rule::STATIC_ITEM, tokens),
        "ItemStruct" => answer_of::<ItemStruct>(Rule::STRUCTURE, tokens),
        "ItemTrait" => answer_of::<ItemTrait>(Rule::TRAIT_DEFINITION, tokens),
        "ItemTraitAlias" => answer_of::<ItemTraitAlias>(Rule::TRAIT_ALIAS, tokens),
        "ItemType" => answer_of::<ItemType>(Rule::TYPE_ITEM, tokens),
        "ItemUnion" => answer_of::<ItemUnion>(Rule::UNION_ITEM, tokens),
        "ItemUse" => answer_of::<ItemUse>(Rule::USE_ITEM, tokens),
        "Block" => answer_of::<Block>(Rule::BLOCK, tokens),
        _ => answer_as_2(kind, tokens),
    }
}

/// The same of further kinds.
fn answer_as_2(kind: &str, tokens: &TokenStream) -> Result<Answer, Failure> {
    match kind {
        "Stmt" => answer_of::<Stmt>(Rule::STATEMENT, tokens),
        "Stmts" => answer_of::<Stmts>(Rule::STATEMENTS, tokens),
        "SafeOrUnsafe" => answer_of::<SafeOrUnsafe>(Rule::SAFE_OR_UNSAFE, tokens),
        "UnsafeOnly" => answer_of::<UnsafeOnly>(Rule::UNSAFE_ONLY, tokens),
        "StaticMutability" => answer_of::<StaticMutability>(Rule::STATIC_MUTABILITY, tokens),
        "Abi" => answer_of::<Abi>(Rule::ABI, tokens),
        "TraitItemConst" => answer_of::<TraitItemConst>(Rule::TRAIT_CONST, tokens),
        "TraitItemFn" => answer_of::<TraitItemFn>(Rule::TRAIT_FUNCTION, tokens),
        "TraitItemMacro" => answer_of::<TraitItemMacro>(Rule::TRAIT_MACRO, tokens),
        "TraitItemType" => answer_of::<TraitItemType>(Rule::TRAIT_TYPE, tokens),
        "ImplItemConst" => answer_of::<ImplItemConst>(Rule::IMPL_CONST, tokens),
        "ImplItemFn" => answer_of::<ImplItemFn>(Rule::IMPL_FUNCTION, tokens),
        "ImplItemMacro" => answer_of::<ImplItemMacro>(Rule::IMPL_MACRO, tokens),
        "ImplItemType" => answer_of::<ImplItemType>(Rule::IMPL_TYPE, tokens),
        "ForeignItemFn" => answer_of::<ForeignItemFn>(Rule::FOREIGN_FUNCTION, tokens),
        "ForeignItemMacro" => answer_of::<ForeignItemMacro>(Rule::FOREIGN_MACRO, tokens),
        _ => answer_as_3(kind, tokens),
    }
}

/// The same of further kinds.
fn answer_as_3(kind: &str, tokens: &TokenStream) -> Result<Answer, Failure> {
    match kind {
        "ForeignItemStatic" => answer_of::<ForeignItemStatic>(Rule::FOREIGN_STATIC, tokens),
        "ForeignItemType" => answer_of::<ForeignItemType>(Rule::FOREIGN_TYPE, tokens),
        "Macro" => answer_of::<Macro>(Rule::MACRO_INVOCATION, tokens),
        "Pat" => answer_of::<Pat>(Rule::PATTERN, tokens),
        "LifetimeParam" => answer_of::<LifetimeParam>(Rule::LIFETIME_PARAMETER, tokens),
        "Path" => answer_of::<Path>(Rule::TYPE_PATH, tokens),
        "ReturnType" => answer_of::<ReturnType>(Rule::RETURN_TYPE, tokens),
        "Type" => answer_of::<Type>(Rule::TYPE, tokens),
        "TypeParamBound" => answer_of::<TypeParamBound>(Rule::BOUND, tokens),
        "TypePath" => answer_of::<TypePath>(Rule::PATH_AS_TYPE, tokens),
        "WherePredicate" => answer_of::<WherePredicate>(Rule::PREDICATE, tokens),
        "Expr" => answer_of::<Expr>(Rule::WHOLE_EXPRESSION, tokens),
        _ => Err(Failure::Broken),
    }
}
