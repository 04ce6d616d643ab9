//! Written by tools/kinds.py; edits are lost.
//!
//! Conversions of items, use trees and parameters into the enums that hold them. Nothing is copied or allocated.
ghost use Rattle.std.specs.Prelude.{◌≡◌};

mod members;

use crate::function::ItemFn;
use crate::item::Item;
use crate::sig::{FnArg, Receiver};
use crate::simple::{
    ItemConst, ItemExternCrate, ItemMacro, ItemMod, ItemStatic, ItemTraitAlias, ItemType, ItemUse,
};
use crate::use_tree::{UseGlob, UseGroup, UseName, UsePath, UseRename, UseTree};
use syn_pat::pat::PatType;

impl From<ItemConst> for Item {
    ghost use Rattle.syn_item.specs.declared.item.Item.TheVariants as items;

    ghost from_gives = { λ part item. item ≡ items.Const part };

    fn from(item: ItemConst) -> Item {
        Item::Const(item)
    }
}

impl From<ItemExternCrate> for Item {
    ghost use Rattle.syn_item.specs.declared.item.Item.TheVariants as items;

    ghost from_gives = { λ part item. item ≡ items.ExternCrate part };

    fn from(item: ItemExternCrate) -> Item {
        Item::ExternCrate(item)
    }
}

impl From<ItemFn> for Item {
    ghost use Rattle.syn_item.specs.declared.item.Item.TheVariants as items;

    ghost from_gives = { λ part item. item ≡ items.Fn part };

    fn from(item: ItemFn) -> Item {
        Item::Fn(item)
    }
}

impl From<ItemMacro> for Item {
    ghost use Rattle.syn_item.specs.declared.item.Item.TheVariants as items;

    ghost from_gives = { λ part item. item ≡ items.Macro part };

    fn from(item: ItemMacro) -> Item {
        Item::Macro(item)
    }
}

impl From<ItemMod> for Item {
    ghost use Rattle.syn_item.specs.declared.item.Item.TheVariants as items;

    ghost from_gives = { λ part item. item ≡ items.Mod part };

    fn from(item: ItemMod) -> Item {
        Item::Mod(item)
    }
}

impl From<ItemStatic> for Item {
    ghost use Rattle.syn_item.specs.declared.item.Item.TheVariants as items;

    ghost from_gives = { λ part item. item ≡ items.Static part };

    fn from(item: ItemStatic) -> Item {
        Item::Static(item)
    }
}

impl From<ItemTraitAlias> for Item {
    ghost use Rattle.syn_item.specs.declared.item.Item.TheVariants as items;

    ghost from_gives = { λ part item. item ≡ items.TraitAlias part };

    fn from(item: ItemTraitAlias) -> Item {
        Item::TraitAlias(item)
    }
}

impl From<ItemType> for Item {
    ghost use Rattle.syn_item.specs.declared.item.Item.TheVariants as items;

    ghost from_gives = { λ part item. item ≡ items.Ty part };

    fn from(item: ItemType) -> Item {
        Item::Ty(item)
    }
}

impl From<ItemUse> for Item {
    ghost use Rattle.syn_item.specs.declared.item.Item.TheVariants as items;

    ghost from_gives = { λ part item. item ≡ items.Use part };

    fn from(item: ItemUse) -> Item {
        Item::Use(item)
    }
}

impl From<UsePath> for UseTree {
    ghost use Rattle.syn_item.specs.declared.use_tree.UseTree.TheVariants as trees;

    ghost from_gives = { λ part tree. tree ≡ trees.Path part };

    fn from(tree: UsePath) -> UseTree {
        UseTree::Path(tree)
    }
}

impl From<UseName> for UseTree {
    ghost use Rattle.syn_item.specs.declared.use_tree.UseTree.TheVariants as trees;

    ghost from_gives = { λ part tree. tree ≡ trees.Name part };

    fn from(tree: UseName) -> UseTree {
        UseTree::Name(tree)
    }
}

impl From<UseRename> for UseTree {
    ghost use Rattle.syn_item.specs.declared.use_tree.UseTree.TheVariants as trees;

    ghost from_gives = { λ part tree. tree ≡ trees.Rename part };

    fn from(tree: UseRename) -> UseTree {
        UseTree::Rename(tree)
    }
}

impl From<UseGlob> for UseTree {
    ghost use Rattle.syn_item.specs.declared.use_tree.UseTree.TheVariants as trees;

    ghost from_gives = { λ part tree. tree ≡ trees.Glob part };

    fn from(tree: UseGlob) -> UseTree {
        UseTree::Glob(tree)
    }
}

impl From<UseGroup> for UseTree {
    ghost use Rattle.syn_item.specs.declared.use_tree.UseTree.TheVariants as trees;

    ghost from_gives = { λ part tree. tree ≡ trees.Group part };

    fn from(tree: UseGroup) -> UseTree {
        UseTree::Group(tree)
    }
}

impl From<Receiver> for FnArg {
    ghost use Rattle.syn_item.specs.declared.sig.FnArg.TheVariants as args;

    ghost from_gives = { λ part arg. arg ≡ args.Receiver part };

    fn from(arg: Receiver) -> FnArg {
        FnArg::Receiver(arg)
    }
}

impl From<PatType> for FnArg {
    ghost use Rattle.syn_item.specs.declared.sig.FnArg.TheVariants as args;

    ghost from_gives = { λ part arg. arg ≡ args.Typed part };

    fn from(arg: PatType) -> FnArg {
        FnArg::Typed(arg)
    }
}
