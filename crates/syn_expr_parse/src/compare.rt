//! Written by tools/kinds.py; edits are lost.
//!
//! Comparisons of trees.

mod op;
