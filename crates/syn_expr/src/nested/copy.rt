//! Copies of what leads back to an expression.

mod exprs;
mod fields;

pub use exprs::{copy_else, copy_expr, copy_exprs, copy_maybe, copy_operand, copy_statements};
pub use fields::{copy_fields, copy_value};
pub use syn_pat::nested::copy::{
    CopyNested, CopyOf, Knot, copied, copy_boxed, copy_each, copy_list,
};
