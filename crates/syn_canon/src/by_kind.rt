//! Written by tools/kinds.py; edits are lost.
//!
//! By which rule each kind is read.
ghost use Rattle.std.specs.Prelude.{◌≡◌};
ghost use Rattle.syn_recognize.specs.Names as names;
ghost use Rattle.syn_canon.specs.Kinds.{rule_of};

use crate::kind::Kind;
use syn_recognize::Rule;

/// The rule by which a kind is read.
#[tactic(auto, unfolding(syn_recognize::specs::Names::rule_of))]
pub(crate) fn rule_by(kind: Kind) -> Rule
    ensures { names.rule_of result ≡ rule_of kind }
{
    match kind {
        Kind::File => Rule::FILE,
        Kind::Item => Rule::ITEM,
        Kind::Derive => Rule::DERIVE_INPUT,
        Kind::Visibility => Rule::VISIBILITY,
        Kind::Variant => Rule::VARIANT,
        Kind::NamedField => Rule::NAMED_FIELD,
        Kind::UnnamedField => Rule::UNNAMED_FIELD,
        Kind::FieldsNamed => Rule::FIELDS_NAMED,
        Kind::FieldsUnnamed => Rule::FIELDS_UNNAMED,
        Kind::Signature => Rule::SIGNATURE,
        Kind::FnArg => Rule::ARGUMENT,
        Kind::Receiver => Rule::RECEIVER,
        Kind::UseTree => Rule::USE_TREE,
        Kind::TraitItem => Rule::TRAIT_ITEM,
        Kind::ImplItem => Rule::IMPL_ITEM,
        Kind::ForeignItem => Rule::FOREIGN_ITEM,
        Kind::ItemConst => Rule::CONST_ITEM,
        Kind::ItemEnum => Rule::ENUMERATION,
        Kind::ItemExternCrate => Rule::EXTERN_CRATE,
        Kind::ItemFn => Rule::FUNCTION,
        Kind::ItemForeignMod => Rule::FOREIGN_MODULE,
        Kind::ItemImpl => Rule::IMPL_DEFINITION,
        Kind::ItemMacro => Rule::MACRO_ITEM,
        Kind::ItemMod => Rule::MODULE_ITEM,
        Kind::ItemStatic => Rule::STATIC_ITEM,
        Kind::ItemStruct => Rule::STRUCTURE,
        Kind::ItemTrait => Rule::TRAIT_DEFINITION,
        Kind::ItemTraitAlias => Rule::TRAIT_ALIAS,
        Kind::ItemType => Rule::TYPE_ITEM,
        Kind::ItemUnion => Rule::UNION_ITEM,
        Kind::ItemUse => Rule::USE_ITEM,
        Kind::Block => Rule::BLOCK,
        Kind::Stmt => Rule::STATEMENT,
        Kind::Stmts => Rule::STATEMENTS,
    }
}
