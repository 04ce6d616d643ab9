//! Canonical prints by recognition: the tokens that a rule reads are written again as they are printed, and no tree is built. Files of
//! items are joined, and the items of a file listed, in the same way.
#![tactic(auto)]

pub mod answers;
mod faults;
mod guess;
pub mod list;
mod names;
