//! The syntax trees of items and files: functions, traits, impls and all else that is beside structs, enums and unions. They hold
//! no expression and no item: bodies, values and the content of modules are kept verbatim.
#![tactic(auto)]

mod bodies;
mod compare;
mod conversions;
mod copies;
pub mod file;
pub mod foreign;
pub mod function;
pub mod impls;
pub mod item;
pub mod laws;
mod names;
mod nested;
mod parts;
mod pieces;
mod prints;
pub mod sig;
pub mod simple;
pub mod traits;
pub mod use_tree;
