//! Written by tools/kinds.py; edits are lost.
//!
//! Conversions of items with members, structs, enums and unions into `Item`, and of members into the enums that hold them. Nothing is
//! copied or allocated.
ghost use Rattle.std.specs.Prelude.{◌≡◌};

use crate::foreign::{
    ForeignItem, ForeignItemFn, ForeignItemMacro, ForeignItemStatic, ForeignItemType,
    ItemForeignMod,
};
use crate::impls::{ImplItem, ImplItemConst, ImplItemFn, ImplItemMacro, ImplItemType, ItemImpl};
use crate::item::Item;
use crate::traits::{
    ItemTrait, TraitItem, TraitItemConst, TraitItemFn, TraitItemMacro, TraitItemType,
};
use syn_tree::item::{ItemEnum, ItemStruct, ItemUnion};

impl From<ItemEnum> for Item {
    ghost use Rattle.syn_item.specs.declared.item.Item.TheVariants as items;

    ghost from_gives = { λ part item. item ≡ items.Enum part };

    fn from(item: ItemEnum) -> Item {
        Item::Enum(item)
    }
}

impl From<ItemForeignMod> for Item {
    ghost use Rattle.syn_item.specs.declared.item.Item.TheVariants as items;

    ghost from_gives = { λ part item. item ≡ items.ForeignMod part };

    fn from(item: ItemForeignMod) -> Item {
        Item::ForeignMod(item)
    }
}

impl From<ItemImpl> for Item {
    ghost use Rattle.syn_item.specs.declared.item.Item.TheVariants as items;

    ghost from_gives = { λ part item. item ≡ items.Impl part };

    fn from(item: ItemImpl) -> Item {
        Item::Impl(item)
    }
}

impl From<ItemStruct> for Item {
    ghost use Rattle.syn_item.specs.declared.item.Item.TheVariants as items;

    ghost from_gives = { λ part item. item ≡ items.Struct part };

    fn from(item: ItemStruct) -> Item {
        Item::Struct(item)
    }
}

impl From<ItemTrait> for Item {
    ghost use Rattle.syn_item.specs.declared.item.Item.TheVariants as items;

    ghost from_gives = { λ part item. item ≡ items.Trait part };

    fn from(item: ItemTrait) -> Item {
        Item::Trait(item)
    }
}

impl From<ItemUnion> for Item {
    ghost use Rattle.syn_item.specs.declared.item.Item.TheVariants as items;

    ghost from_gives = { λ part item. item ≡ items.Union part };

    fn from(item: ItemUnion) -> Item {
        Item::Union(item)
    }
}

impl From<TraitItemConst> for TraitItem {
    ghost use Rattle.syn_item.specs.declared.traits.TraitItem.TheVariants as members;

    ghost from_gives = { λ part item. item ≡ members.Const part };

    fn from(item: TraitItemConst) -> TraitItem {
        TraitItem::Const(item)
    }
}

impl From<TraitItemFn> for TraitItem {
    ghost use Rattle.syn_item.specs.declared.traits.TraitItem.TheVariants as members;

    ghost from_gives = { λ part item. item ≡ members.Fn part };

    fn from(item: TraitItemFn) -> TraitItem {
        TraitItem::Fn(item)
    }
}

impl From<TraitItemType> for TraitItem {
    ghost use Rattle.syn_item.specs.declared.traits.TraitItem.TheVariants as members;

    ghost from_gives = { λ part item. item ≡ members.Ty part };

    fn from(item: TraitItemType) -> TraitItem {
        TraitItem::Ty(item)
    }
}

impl From<TraitItemMacro> for TraitItem {
    ghost use Rattle.syn_item.specs.declared.traits.TraitItem.TheVariants as members;

    ghost from_gives = { λ part item. item ≡ members.Macro part };

    fn from(item: TraitItemMacro) -> TraitItem {
        TraitItem::Macro(item)
    }
}

impl From<ImplItemConst> for ImplItem {
    ghost use Rattle.syn_item.specs.declared.impls.ImplItem.TheVariants as members;

    ghost from_gives = { λ part item. item ≡ members.Const part };

    fn from(item: ImplItemConst) -> ImplItem {
        ImplItem::Const(item)
    }
}

impl From<ImplItemFn> for ImplItem {
    ghost use Rattle.syn_item.specs.declared.impls.ImplItem.TheVariants as members;

    ghost from_gives = { λ part item. item ≡ members.Fn part };

    fn from(item: ImplItemFn) -> ImplItem {
        ImplItem::Fn(item)
    }
}

impl From<ImplItemType> for ImplItem {
    ghost use Rattle.syn_item.specs.declared.impls.ImplItem.TheVariants as members;

    ghost from_gives = { λ part item. item ≡ members.Ty part };

    fn from(item: ImplItemType) -> ImplItem {
        ImplItem::Ty(item)
    }
}

impl From<ImplItemMacro> for ImplItem {
    ghost use Rattle.syn_item.specs.declared.impls.ImplItem.TheVariants as members;

    ghost from_gives = { λ part item. item ≡ members.Macro part };

    fn from(item: ImplItemMacro) -> ImplItem {
        ImplItem::Macro(item)
    }
}

impl From<ForeignItemFn> for ForeignItem {
    ghost use Rattle.syn_item.specs.declared.foreign.ForeignItem.TheVariants as members;

    ghost from_gives = { λ part item. item ≡ members.Fn part };

    fn from(item: ForeignItemFn) -> ForeignItem {
        ForeignItem::Fn(item)
    }
}

impl From<ForeignItemStatic> for ForeignItem {
    ghost use Rattle.syn_item.specs.declared.foreign.ForeignItem.TheVariants as members;

    ghost from_gives = { λ part item. item ≡ members.Static part };

    fn from(item: ForeignItemStatic) -> ForeignItem {
        ForeignItem::Static(item)
    }
}

impl From<ForeignItemType> for ForeignItem {
    ghost use Rattle.syn_item.specs.declared.foreign.ForeignItem.TheVariants as members;

    ghost from_gives = { λ part item. item ≡ members.Ty part };

    fn from(item: ForeignItemType) -> ForeignItem {
        ForeignItem::Ty(item)
    }
}

impl From<ForeignItemMacro> for ForeignItem {
    ghost use Rattle.syn_item.specs.declared.foreign.ForeignItem.TheVariants as members;

    ghost from_gives = { λ part item. item ≡ members.Macro part };

    fn from(item: ForeignItemMacro) -> ForeignItem {
        ForeignItem::Macro(item)
    }
}
