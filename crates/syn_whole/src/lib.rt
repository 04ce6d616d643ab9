//! Parsing whole token streams, with invisible groups replaced by their contents where the grammar doesn't accept them.
#![tactic(auto)]

mod invisible;
pub mod parse;
