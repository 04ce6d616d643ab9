//! Written by tools/kinds.py; edits are lost.
//!
//! Prints of trees.
#![tactic(auto, using(syn_tokens::proofs::Prints::prints))]

mod file;
mod foreign;
mod function;
mod impls;
mod item;
mod sig;
mod simple;
mod traits;
mod use_tree;
