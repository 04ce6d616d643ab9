//! Tokens of texts, and texts of tokens, by examples.
mod asserts;
mod bytes;
mod characters;
mod comments;
mod docs;
mod groups;
mod handmade;
mod identifiers;
mod marks;
mod numbers;
mod raw_strings;
mod spaces;
mod strings;
mod support;
mod written;
