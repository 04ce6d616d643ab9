//! Parsers.

mod mac;
mod pat;
mod path;

pub use mac::{any_group, bang, macro_invocation};
pub use pat::typed_pattern;
pub use path::path_as_expression;
