//! Tokens, token streams, and lists with separators.
#![tactic(auto)]

pub mod delimiter;
pub mod error;
pub mod ident;
pub mod lifetime;
pub mod literal;
pub mod print;
pub mod punct;
pub mod punctuated;
pub mod span;
pub mod stream;
pub mod syntactic;
pub mod text;
pub mod token;
