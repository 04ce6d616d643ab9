//! Written by tools/kinds.py; edits are lost.
//!
//! Comparisons of trees.

mod data;
mod derive;
mod item;
mod restriction;
