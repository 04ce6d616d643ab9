//! The syntax trees of expressions, blocks and statements, with their parsers, prints, copies and comparisons. Patterns and macros are
//! below, in `syn_pat`.
#![tactic(auto)]

mod compare;
mod copies;
pub mod expr;
mod nested;
mod prints;
mod recursion;
pub mod stmt;
mod trees;

pub use expr::Expr;
pub use stmt::{Block, Stmt};
pub use syn_expr_parse::op;
