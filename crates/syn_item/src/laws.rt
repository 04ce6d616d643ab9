//! What conversions give there and back, as the contracts of functions.
ghost use Rattle.std.specs.Prelude.{◌≡◌};
ghost use Rattle.syn_item.specs.declared.item.Item.TheVariants as items;

use crate::item::Item;
use syn_tree::derive::DeriveInput;
use syn_tree::item::{ItemEnum, ItemStruct, ItemUnion};

/// An enum as the input of a derive, and that as an item, is the same enum, field by field, spans included.
pub fn enum_there_and_back(item: ItemEnum) -> Item
    ensures { result ≡ items.Enum item }
{
    Item::from(DeriveInput::from(item))
}

/// A struct as the input of a derive, and that as an item, is the same struct, field by field, spans included.
pub fn struct_there_and_back(item: ItemStruct) -> Item
    ensures { result ≡ items.Struct item }
{
    Item::from(DeriveInput::from(item))
}

/// A union as the input of a derive, and that as an item, is the same union, field by field, spans included.
pub fn union_there_and_back(item: ItemUnion) -> Item
    ensures { result ≡ items.Union item }
{
    Item::from(DeriveInput::from(item))
}
