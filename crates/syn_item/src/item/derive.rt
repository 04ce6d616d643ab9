//! Items of the inputs of derives.
ghost use Rattle.std.specs.Prelude.{◌≡◌};
ghost use Rattle.syn_item.specs.Items.{item_in, syntax_of_Item};

use super::Item;
use syn_tree::derive::{Data, DeriveInput};
use syn_tree::item::{item_enum, item_struct, item_union};

/// All fields are moved, spans included: the item represents what the input represents. An input that was made of an item gives
/// that item back.
impl From<DeriveInput> for Item {
    ghost from_gives = { λ input item. item ≡ item_in input };

    fn from(input: DeriveInput) -> Item
        ensures same { syntax_of_Item result ≡ input }
        ensures gives { result ≡ item_in input }
    {
        let DeriveInput {
            attrs,
            vis,
            ident,
            generics,
            shape,
        } = input;
        match shape {
            Data::Enum(data) => Item::Enum(item_enum(attrs, vis, ident, generics, data)),
            Data::Struct(data) => Item::Struct(item_struct(attrs, vis, ident, generics, data)),
            Data::Union(data) => Item::Union(item_union(attrs, vis, ident, generics, data)),
        }
    }
}
