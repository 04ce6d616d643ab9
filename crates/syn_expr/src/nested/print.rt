//! Prints of what leads back to an expression.

mod bodies;
mod branches;
mod exprs;
mod fields;
mod stmts;

pub use bodies::print_body;
pub use branches::{print_diverging, print_else};
pub use exprs::{print_expr, print_exprs, print_maybe};
pub use fields::{print_fields, print_value};
pub use stmts::print_statements;
pub use syn_pat::nested::print::{Knot, PrintNested, PrintOf, print_list, print_lone_comma};
