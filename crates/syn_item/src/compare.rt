//! Written by tools/kinds.py; edits are lost.
//!
//! Comparisons of trees.

mod file;
mod foreign;
mod function;
mod impls;
mod item;
mod sig;
mod simple;
mod traits;
mod use_tree;
