//! Written by tools/kinds.py; edits are lost.
//!
//! Copies of trees.

mod attr;
mod bounds;
mod generics;
mod lit;
mod member;
mod path;
mod ty;
mod where_clause;
