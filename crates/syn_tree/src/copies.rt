//! Written by tools/kinds.py; edits are lost.
//!
//! Copies of trees.

mod data;
mod derive;
mod item;
mod restriction;
