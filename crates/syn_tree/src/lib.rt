//! The syntax trees of structs, enums, unions and inputs of derives, with their parsers, prints, copies and comparisons.
#![tactic(auto)]

mod comma_lists;
mod compare;
mod copies;
pub mod data;
pub mod derive;
pub mod item;
mod prints;
pub mod restriction;
