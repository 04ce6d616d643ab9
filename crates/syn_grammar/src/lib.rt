// Grammars as data, and their laws.
#![tactic(auto)]

mod computed;
mod entry_points;
mod equality;
mod laws;
