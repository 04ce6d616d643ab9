//! Written by tools/kinds.py; edits are lost.
//!
//! Each kind, by its trees and by the rule that reads it.

use crate::case::Case;
use crate::compared::compare;
use crate::failure::Failure;
use crate::tally::Tally;
use syn::canon::{NamedField, Stmts, UnnamedField};
use syn_expr::stmt::{Block, Stmt};
use syn_item::file::File;
use syn_item::foreign::{ForeignItem, ItemForeignMod};
use syn_item::function::ItemFn;
use syn_item::impls::{ImplItem, ItemImpl};
use syn_item::item::Item;
use syn_item::sig::{FnArg, Receiver, Signature};
use syn_item::simple::{
    ItemConst, ItemExternCrate, ItemMacro, ItemMod, ItemStatic, ItemTraitAlias, ItemType, ItemUse,
};
use syn_item::traits::{ItemTrait, TraitItem};
use syn_item::use_tree::UseTree;
use syn_recognize::Rule;
use syn_tree::data::{FieldsNamed, FieldsUnnamed, Variant};
use syn_tree::derive::DeriveInput;
use syn_tree::item::{ItemEnum, ItemStruct, ItemUnion};
use syn_tree::restriction::Visibility;

/// Compares what is answered about the text as each kind.
pub(crate) fn compare_as_each(case: &Case<'_>, tally: &mut Tally) -> Result<(), Failure> {
    compare::<File>(case, "file", Rule::FILE, tally)?;
    compare::<Item>(case, "item", Rule::ITEM, tally)?;
    compare::<DeriveInput>(case, "derive", Rule::DERIVE_INPUT, tally)?;
    compare::<Visibility>(case, "visibility", Rule::VISIBILITY, tally)?;
    compare::<Variant>(case, "variant", Rule::VARIANT, tally)?;
    compare::<NamedField>(case, "named-field", Rule::NAMED_FIELD, tally)?;
    compare::<UnnamedField>(case, "unnamed-field", Rule::UNNAMED_FIELD, tally)?;
    compare::<FieldsNamed>(case, "fields-named", Rule::FIELDS_NAMED, tally)?;
    compare::<FieldsUnnamed>(case, "fields-unnamed", Rule::FIELDS_UNNAMED, tally)?;
    compare::<Signature>(case, "signature", Rule::SIGNATURE, tally)?;
    compare::<FnArg>(case, "fn-arg", Rule::ARGUMENT, tally)?;
    compare::<Receiver>(case, "receiver", Rule::RECEIVER, tally)?;
    compare::<UseTree>(case, "use-tree", Rule::USE_TREE, tally)?;
    compare::<TraitItem>(case, "trait-item", Rule::TRAIT_ITEM, tally)?;
    compare::<ImplItem>(case, "impl-item", Rule::IMPL_ITEM, tally)?;
    compare::<ForeignItem>(case, "foreign-item", Rule::FOREIGN_ITEM, tally)?;
    compare::<ItemConst>(case, "item-const", Rule::CONST_ITEM, tally)?;
    compare::<ItemEnum>(case, "item-enum", Rule::ENUMERATION, tally)?;
    compare::<ItemExternCrate>(case, "item-extern-crate", Rule::EXTERN_CRATE, tally)?;
    compare::<ItemFn>(case, "item-fn", Rule::FUNCTION, tally)?;
    compare::<ItemForeignMod>(case, "item-foreign-mod", Rule::FOREIGN_MODULE, tally)?;
    compare::<ItemImpl>(case, "item-impl", Rule::IMPL_DEFINITION, tally)?;
    compare::<ItemMacro>(case, "item-macro", Rule::MACRO_ITEM, tally)?;
    compare::<ItemMod>(case, "item-mod", Rule::MODULE_ITEM, tally)?;
    compare::<ItemStatic>(case, "item-static", Rule::STATIC_ITEM, tally)?;
    compare::<ItemStruct>(case, "item-struct", Rule::STRUCTURE, tally)?;
    compare::<ItemTrait>(case, "item-trait", Rule::TRAIT_DEFINITION, tally)?;
    compare::<ItemTraitAlias>(case, "item-trait-alias", Rule::TRAIT_ALIAS, tally)?;
    compare::<ItemType>(case, "item-type", Rule::TYPE_ITEM, tally)?;
    compare::<ItemUnion>(case, "item-union", Rule::UNION_ITEM, tally)?;
    compare::<ItemUse>(case, "item-use", Rule::USE_ITEM, tally)?;
    compare::<Block>(case, "block", Rule::BLOCK, tally)?;
    compare::<Stmt>(case, "stmt", Rule::STATEMENT, tally)?;
    compare::<Stmts>(case, "stmts", Rule::STATEMENTS, tally)?;
    Ok(())
}
