//! The reader: token streams from text, and text from token streams.
#![tactic(auto)]

pub mod reader;
