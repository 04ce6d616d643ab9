//! Written by tools/kinds.py; edits are lost.
//!
//! The types that have canonical prints, each by its rule.
ghost use Rattle.std.specs.Prelude.{refl};
ghost use Rattle.syn_grammar.specs.Rules as rules;

use crate::canon::{NamedField, SafeOrUnsafe, Stmts, UnnamedField, UnsafeOnly};
use crate::lawful::Canonical;
use syn_expr::stmt::{Block, Stmt};
use syn_item::file::File;
use syn_item::foreign::{
    ForeignItem, ForeignItemFn, ForeignItemMacro, ForeignItemStatic, ForeignItemType,
    ItemForeignMod,
};
use syn_item::function::ItemFn;
use syn_item::impls::{ImplItem, ImplItemConst, ImplItemFn, ImplItemMacro, ImplItemType, ItemImpl};
use syn_item::item::Item;
use syn_item::sig::{Abi, FnArg, Receiver, Signature};
use syn_item::simple::{
    ItemConst, ItemExternCrate, ItemMacro, ItemMod, ItemStatic, ItemTraitAlias, ItemType, ItemUse,
    StaticMutability,
};
use syn_item::traits::{
    ItemTrait, TraitItem, TraitItemConst, TraitItemFn, TraitItemMacro, TraitItemType,
};
use syn_item::use_tree::UseTree;
use syn_lower::{LifetimeParam, Path, ReturnType, Type, TypeParamBound, TypePath, WherePredicate};
use syn_pat::mac::Macro;
use syn_pat::pat::Pat;
use syn_tree::data::{FieldsNamed, FieldsUnnamed, Variant};
use syn_tree::derive::DeriveInput;
use syn_tree::item::{ItemEnum, ItemStruct, ItemUnion};
use syn_tree::restriction::Visibility;

impl Canonical for File {
    ghost rule = { rules.file };

    ghost reads_rule = { refl };
}

impl Canonical for Item {
    ghost rule = { rules.item };

    ghost reads_rule = { refl };
}

impl Canonical for DeriveInput {
    ghost rule = { rules.derive_input };

    ghost reads_rule = { refl };
}

impl Canonical for Visibility {
    ghost rule = { rules.visibility };

    ghost reads_rule = { refl };
}

impl Canonical for Variant {
    ghost rule = { rules.variant };

    ghost reads_rule = { refl };
}

impl Canonical for NamedField {
    ghost rule = { rules.named_field };

    ghost reads_rule = { refl };
}

impl Canonical for UnnamedField {
    ghost rule = { rules.unnamed_field };

    ghost reads_rule = { refl };
}

impl Canonical for FieldsNamed {
    ghost rule = { rules.fields_named };

    ghost reads_rule = { refl };
}

impl Canonical for FieldsUnnamed {
    ghost rule = { rules.fields_unnamed };

    ghost reads_rule = { refl };
}

impl Canonical for Signature {
    ghost rule = { rules.signature };

    ghost reads_rule = { refl };
}

impl Canonical for FnArg {
    ghost rule = { rules.argument };

    ghost reads_rule = { refl };
}

impl Canonical for Receiver {
    ghost rule = { rules.receiver };

    ghost reads_rule = { refl };
}

impl Canonical for UseTree {
    ghost rule = { rules.use_tree };

    ghost reads_rule = { refl };
}

impl Canonical for TraitItem {
    ghost rule = { rules.trait_item };

    ghost reads_rule = { refl };
}

impl Canonical for ImplItem {
    ghost rule = { rules.impl_item };

    ghost reads_rule = { refl };
}

impl Canonical for ForeignItem {
    ghost rule = { rules.foreign_item };

    ghost reads_rule = { refl };
}

impl Canonical for ItemConst {
    ghost rule = { rules.const_item };

    ghost reads_rule = { refl };
}

impl Canonical for ItemEnum {
    ghost rule = { rules.enumeration };

    ghost reads_rule = { refl };
}

impl Canonical for ItemExternCrate {
    ghost rule = { rules.extern_crate };

    ghost reads_rule = { refl };
}

impl Canonical for ItemFn {
    ghost rule = { rules.function };

    ghost reads_rule = { refl };
}

impl Canonical for ItemForeignMod {
    ghost rule = { rules.foreign_module };

    ghost reads_rule = { refl };
}

impl Canonical for ItemImpl {
    ghost rule = { rules.impl_definition };

    ghost reads_rule = { refl };
}

impl Canonical for ItemMacro {
    ghost rule = { rules.macro_item };

    ghost reads_rule = { refl };
}

impl Canonical for ItemMod {
    ghost rule = { rules.module_item };

    ghost reads_rule = { refl };
}

impl Canonical for ItemStatic {
    ghost rule = { rules.static_item };

    ghost reads_rule = { refl };
}

impl Canonical for ItemStruct {
    ghost rule = { rules.structure };

    ghost reads_rule = { refl };
}

impl Canonical for ItemTrait {
    ghost rule = { rules.trait_definition };

    ghost reads_rule = { refl };
}

impl Canonical for ItemTraitAlias {
    ghost rule = { rules.trait_alias };

    ghost reads_rule = { refl };
}

impl Canonical for ItemType {
    ghost rule = { rules.type_item };

    ghost reads_rule = { refl };
}

impl Canonical for ItemUnion {
    ghost rule = { rules.union_item };

    ghost reads_rule = { refl };
}

impl Canonical for ItemUse {
    ghost rule = { rules.use_item };

    ghost reads_rule = { refl };
}

impl Canonical for Block {
    ghost rule = { rules.block };

    ghost reads_rule = { refl };
}

impl Canonical for Stmt {
    ghost rule = { rules.statement };

    ghost reads_rule = { refl };
}

impl Canonical for Stmts {
    ghost rule = { rules.statements };

    ghost reads_rule = { refl };
}

impl Canonical for SafeOrUnsafe {
    ghost rule = { rules.safe_or_unsafe };

    ghost reads_rule = { refl };
}

impl Canonical for UnsafeOnly {
    ghost rule = { rules.unsafe_only };

    ghost reads_rule = { refl };
}

impl Canonical for StaticMutability {
    ghost rule = { rules.static_mutability };

    ghost reads_rule = { refl };
}

impl Canonical for Abi {
    ghost rule = { rules.abi };

    ghost reads_rule = { refl };
}

impl Canonical for TraitItemConst {
    ghost rule = { rules.trait_const };

    ghost reads_rule = { refl };
}

impl Canonical for TraitItemFn {
    ghost rule = { rules.trait_function };

    ghost reads_rule = { refl };
}

impl Canonical for TraitItemMacro {
    ghost rule = { rules.trait_macro };

    ghost reads_rule = { refl };
}

impl Canonical for TraitItemType {
    ghost rule = { rules.trait_type };

    ghost reads_rule = { refl };
}

impl Canonical for ImplItemConst {
    ghost rule = { rules.impl_const };

    ghost reads_rule = { refl };
}

impl Canonical for ImplItemFn {
    ghost rule = { rules.impl_function };

    ghost reads_rule = { refl };
}

impl Canonical for ImplItemMacro {
    ghost rule = { rules.impl_macro };

    ghost reads_rule = { refl };
}

impl Canonical for ImplItemType {
    ghost rule = { rules.impl_type };

    ghost reads_rule = { refl };
}

impl Canonical for ForeignItemFn {
    ghost rule = { rules.foreign_function };

    ghost reads_rule = { refl };
}

impl Canonical for ForeignItemMacro {
    ghost rule = { rules.foreign_macro };

    ghost reads_rule = { refl };
}

impl Canonical for ForeignItemStatic {
    ghost rule = { rules.foreign_static };

    ghost reads_rule = { refl };
}

impl Canonical for ForeignItemType {
    ghost rule = { rules.foreign_type };

    ghost reads_rule = { refl };
}

impl Canonical for Macro {
    ghost rule = { rules.macro_invocation };

    ghost reads_rule = { refl };
}

impl Canonical for Pat {
    ghost rule = { rules.pattern };

    ghost reads_rule = { refl };
}

impl Canonical for LifetimeParam {
    ghost rule = { rules.lifetime_parameter };

    ghost reads_rule = { refl };
}

impl Canonical for Path {
    ghost rule = { rules.type_path };

    ghost reads_rule = { refl };
}

impl Canonical for ReturnType {
    ghost rule = { rules.return_type };

    ghost reads_rule = { refl };
}

impl Canonical for Type {
    ghost rule = { rules.type };

    ghost reads_rule = { refl };
}

impl Canonical for TypeParamBound {
    ghost rule = { rules.bound };

    ghost reads_rule = { refl };
}

impl Canonical for TypePath {
    ghost rule = { rules.path_as_type };

    ghost reads_rule = { refl };
}

impl Canonical for WherePredicate {
    ghost rule = { rules.predicate };

    ghost reads_rule = { refl };
}
