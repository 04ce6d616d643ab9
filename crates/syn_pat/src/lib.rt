//! The syntax trees of patterns and macros, with their parsers, prints, copies and comparisons; and what expressions share with them:
//! paths in expression style, and prints, copies and comparisons of what leads back to itself.
#![tactic(auto)]

mod compare;
mod copies;
mod looks;
pub mod mac;
pub mod nested;
pub mod parsing;
pub mod pat;
pub mod paths;
mod prints;

pub use mac::Macro;
pub use pat::{Pat, PatIdent, PatParen, PatPath, PatTuple, PatTupleStruct, PatType, PatWild};
