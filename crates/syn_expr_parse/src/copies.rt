//! Written by tools/kinds.py; edits are lost.
//!
//! Copies of trees.

mod op;
