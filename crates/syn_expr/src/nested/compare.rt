//! Comparisons of what leads back to an expression.

mod exprs;
mod fields;

pub use exprs::{is_same_expr, same_else, same_exprs, same_maybe, same_statements};
pub use fields::{same_fields, same_value};
pub use syn_pat::nested::compare::{CompareNested, CompareOf, Knot, same_list, same_local_pattern};
