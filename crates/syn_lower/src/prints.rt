//! Written by tools/kinds.py; edits are lost.
//!
//! Prints of trees.
#![tactic(auto, using(syn_tokens::proofs::Prints::prints))]

mod attr;
mod bounds;
mod generics;
mod lit;
mod member;
mod path;
mod ty;
mod where_clause;
