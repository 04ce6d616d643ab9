//! Written by tools/kinds.py; edits are lost.
//!
//! The variants of the types.

use crate::named::Named;
use syn::canon::{NamedField, SafeOrUnsafe, Stmts, UnnamedField, UnsafeOnly};
use syn::{Ident, Lifetime};
use syn_expr::expr::Expr;
use syn_expr::stmt::{Block, Stmt};
use syn_item::file::File;
use syn_item::foreign::{
    ForeignItem, ForeignItemFn, ForeignItemMacro, ForeignItemStatic, ForeignItemType,
    ItemForeignMod,
};
use syn_item::function::ItemFn;
use syn_item::impls::{ImplItem, ImplItemConst, ImplItemFn, ImplItemMacro, ImplItemType, ItemImpl};
use syn_item::item::Item;
use syn_item::sig::{Abi, FnArg, Receiver, Signature};
use syn_item::simple::{
    ItemConst, ItemExternCrate, ItemMacro, ItemMod, ItemStatic, ItemTraitAlias, ItemType, ItemUse,
    StaticMutability,
};
use syn_item::traits::{
    ItemTrait, TraitItem, TraitItemConst, TraitItemFn, TraitItemMacro, TraitItemType,
};
use syn_item::use_tree::UseTree;
use syn_lower::{
    Generics, LifetimeParam, Lit, Path, ReturnType, Type, TypeParamBound, TypePath, WhereClause,
    WherePredicate,
};
use syn_pat::mac::Macro;
use syn_pat::pat::Pat;
use syn_tree::data::{FieldsNamed, FieldsUnnamed, Variant};
use syn_tree::derive::{Data, DeriveInput};
use syn_tree::item::{ItemEnum, ItemStruct, ItemUnion};
use syn_tree::restriction::Visibility;

impl Named for File {}

impl Named for Item {
    fn variant(&self) -> &'static str {
        match self {
            Item::Const(_) => "Const",
            Item::Enum(_) => "Enum",
            Item::ExternCrate(_) => "ExternCrate",
            Item::Fn(_) => "Fn",
            Item::ForeignMod(_) => "ForeignMod",
            Item::Impl(_) => "Impl",
            Item::Macro(_) => "Macro",
            Item::Mod(_) => "Mod",
            Item::Static(_) => "Static",
            Item::Struct(_) => "Struct",
            Item::Trait(_) => "Trait",
            Item::TraitAlias(_) => "TraitAlias",
            Item::Ty(_) => "Ty",
            Item::Union(_) => "Union",
            Item::Use(_) => "Use",
            Item::Verbatim(_) => "Verbatim",
        }
    }
}

impl Named for DeriveInput {
    fn variant(&self) -> &'static str {
        match &self.shape {
            Data::Struct(_) => "Struct",
            Data::Enum(_) => "Enum",
            Data::Union(_) => "Union",
        }
    }
}

impl Named for Visibility {
    fn variant(&self) -> &'static str {
        match self {
            Visibility::Public(_) => "Public",
            Visibility::Restricted(_) => "Restricted",
            Visibility::Inherited => "Inherited",
        }
    }
}

impl Named for Variant {}

impl Named for NamedField {}

impl Named for UnnamedField {}

impl Named for FieldsNamed {}

impl Named for FieldsUnnamed {}

impl Named for Signature {}

impl Named for FnArg {
    fn variant(&self) -> &'static str {
        match self {
            FnArg::Receiver(_) => "Receiver",
            FnArg::Typed(_) => "Typed",
        }
    }
}

impl Named for Receiver {}

impl Named for UseTree {
    fn variant(&self) -> &'static str {
        match self {
            UseTree::Path(_) => "Path",
            UseTree::Name(_) => "Name",
            UseTree::Rename(_) => "Rename",
            UseTree::Glob(_) => "Glob",
            UseTree::Group(_) => "Group",
        }
    }
}

impl Named for TraitItem {
    fn variant(&self) -> &'static str {
        match self {
            TraitItem::Const(_) => "Const",
            TraitItem::Fn(_) => "Fn",
            TraitItem::Ty(_) => "Ty",
            TraitItem::Macro(_) => "Macro",
            TraitItem::Verbatim(_) => "Verbatim",
        }
    }
}

impl Named for ImplItem {
    fn variant(&self) -> &'static str {
        match self {
            ImplItem::Const(_) => "Const",
            ImplItem::Fn(_) => "Fn",
            ImplItem::Ty(_) => "Ty",
            ImplItem::Macro(_) => "Macro",
            ImplItem::Verbatim(_) => "Verbatim",
        }
    }
}

impl Named for ForeignItem {
    fn variant(&self) -> &'static str {
        match self {
            ForeignItem::Fn(_) => "Fn",
            ForeignItem::Static(_) => "Static",
            ForeignItem::Ty(_) => "Ty",
            ForeignItem::Macro(_) => "Macro",
            ForeignItem::Verbatim(_) => "Verbatim",
        }
    }
}

impl Named for ItemConst {}

impl Named for ItemEnum {}

impl Named for ItemExternCrate {}

impl Named for ItemFn {}

impl Named for ItemForeignMod {}

impl Named for ItemImpl {}

impl Named for ItemMacro {}

impl Named for ItemMod {}

impl Named for ItemStatic {}

impl Named for ItemStruct {}

impl Named for ItemTrait {}

impl Named for ItemTraitAlias {}

impl Named for ItemType {}

impl Named for ItemUnion {}

impl Named for ItemUse {}

impl Named for Block {}

impl Named for Stmt {
    fn variant(&self) -> &'static str {
        match self {
            Stmt::Local(_) => "Local",
            Stmt::Item(_) => "Item",
            Stmt::Expr(_, _) => "Expr",
            Stmt::Macro(_) => "Macro",
        }
    }
}

impl Named for Stmts {}

impl Named for SafeOrUnsafe {}

impl Named for UnsafeOnly {}

impl Named for StaticMutability {
    fn variant(&self) -> &'static str {
        match self {
            StaticMutability::Mut(_) => "Mut",
            StaticMutability::None => "None",
        }
    }
}

impl Named for Abi {}

impl Named for TraitItemConst {}

impl Named for TraitItemFn {}

impl Named for TraitItemMacro {}

impl Named for TraitItemType {}

impl Named for ImplItemConst {}

impl Named for ImplItemFn {}

impl Named for ImplItemMacro {}

impl Named for ImplItemType {}

impl Named for ForeignItemFn {}

impl Named for ForeignItemMacro {}

impl Named for ForeignItemStatic {}

impl Named for ForeignItemType {}

impl Named for Macro {}

impl Named for Pat {
    fn variant(&self) -> &'static str {
        match self {
            Pat::Ident(_) => "Ident",
            Pat::Paren(_) => "Paren",
            Pat::Path(_) => "Path",
            Pat::Tuple(_) => "Tuple",
            Pat::TupleStruct(_) => "TupleStruct",
            Pat::Ty(_) => "Ty",
            Pat::Wild(_) => "Wild",
        }
    }
}

impl Named for LifetimeParam {}

impl Named for Path {}

impl Named for ReturnType {
    fn variant(&self) -> &'static str {
        match self {
            ReturnType::Default => "Default",
            ReturnType::Ty(_, _) => "Ty",
        }
    }
}

impl Named for Type {
    fn variant(&self) -> &'static str {
        match self {
            Type::Array(_) => "Array",
            Type::Group(_) => "Group",
            Type::Never(_) => "Never",
            Type::Paren(_) => "Paren",
            Type::Path(_) => "Path",
            Type::Ptr(_) => "Ptr",
            Type::Reference(_) => "Reference",
            Type::Slice(_) => "Slice",
            Type::Tuple(_) => "Tuple",
            Type::Verbatim(_) => "Verbatim",
        }
    }
}

impl Named for TypeParamBound {
    fn variant(&self) -> &'static str {
        match self {
            TypeParamBound::Trait(_) => "Trait",
            TypeParamBound::Lifetime(_) => "Lifetime",
        }
    }
}

impl Named for TypePath {}

impl Named for WherePredicate {
    fn variant(&self) -> &'static str {
        match self {
            WherePredicate::Lifetime(_) => "Lifetime",
            WherePredicate::Ty(_) => "Ty",
        }
    }
}

impl Named for Expr {
    fn variant(&self) -> &'static str {
        match self {
            Expr::Array(_) => "Array",
            Expr::Assign(_) => "Assign",
            Expr::Binary(_) => "Binary",
            Expr::Block(_) => "Block",
            Expr::Break(_) => "Break",
            Expr::Call(_) => "Call",
            Expr::Cast(_) => "Cast",
            Expr::Continue(_) => "Continue",
            Expr::Field(_) => "Field",
            Expr::ForLoop(_) => "ForLoop",
            Expr::Group(_) => "Group",
            Expr::If(_) => "If",
            Expr::Index(_) => "Index",
            Expr::Lit(_) => "Lit",
            Expr::Loop(_) => "Loop",
            Expr::Macro(_) => "Macro",
            Expr::MethodCall(_) => "MethodCall",
            Expr::Paren(_) => "Paren",
            Expr::Path(_) => "Path",
            Expr::Reference(_) => "Reference",
            Expr::Repeat(_) => "Repeat",
            Expr::Return(_) => "Return",
            Expr::Struct(_) => "Struct",
            Expr::Try(_) => "Try",
            Expr::Tuple(_) => "Tuple",
            Expr::Unary(_) => "Unary",
            Expr::Unsafe(_) => "Unsafe",
            Expr::Verbatim(_) => "Verbatim",
            Expr::While(_) => "While",
        }
    }
}

impl Named for Generics {}

impl Named for Lit {
    fn variant(&self) -> &'static str {
        match self {
            Lit::Str(_) => "Str",
            Lit::ByteStr(_) => "ByteStr",
            Lit::CStr(_) => "CStr",
            Lit::Byte(_) => "Byte",
            Lit::Char(_) => "Char",
            Lit::Int(_) => "Int",
            Lit::Float(_) => "Float",
            Lit::Bool(_) => "Bool",
        }
    }
}

impl Named for WhereClause {}

impl Named for Ident {}

impl Named for Lifetime {}
