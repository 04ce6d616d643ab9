//! Parsers of expressions, blocks and statements. What they make of what they read is said by the trait `Trees`: a parser knows no tree, and is
//! proved once for all.
#![tactic(auto)]

mod compare;
mod copies;
pub mod op;
pub mod parsing;
mod prints;
pub mod trees;
