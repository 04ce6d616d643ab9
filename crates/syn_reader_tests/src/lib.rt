//! Tests of the reader of text by its public calls. They are a crate of their own, since a crate with tests is proved twice, and are
//! on the reader alone, so that they are proved beside the crates of trees.
#![tactic(auto)]

#[cfg(test)]
mod tests;
