//! Tests of `syn` by its public calls, but for what is a row of `check_rows`. They are a crate of their own, since a crate with
//! tests is proved twice.
#![tactic(auto)]

#[cfg(test)]
mod tests;
