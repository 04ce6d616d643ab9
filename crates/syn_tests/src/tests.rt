//! What is no row of `check_rows`: trees and tokens made by hand, copies of parts, walks from both ends, nested texts, deferred
//! trees and scarce memory, by examples; and items, whole.
mod asserts;
mod attributes;
mod canonical_prints;
mod chains;
mod copies;
mod deep;
mod deferred;
mod deferred_items;
mod flat;
mod handmade;
mod handmade_exprs;
mod handmade_generics;
mod handmade_items;
mod handmade_types;
mod invisible;
mod invisible_impls;
mod item_conversions;
mod items_after_visibility;
mod literals;
mod members;
mod modifiers;
mod opened_items;
mod scarce_memory;
mod spacings;
mod type_groups;
mod visibilities;
