//! Parsers. An expression holds expressions and blocks, and a block holds expressions: each parser is given parsers for these.

mod blocks;
mod chains;
mod groups;
mod knot;
mod levels;
mod literals;
mod nested;
mod postfix;
mod primary;
mod recursion;
mod stmts;
mod trailing;
mod unary;

pub use blocks::block;
pub use chains::refuse_long_chains;
pub use knot::{Inside, Knot};
pub use nested::{Block, Expr, FieldValue, LocalInit, Nested, Rung, Spot, Stmt};
pub use primary::constant;
pub use recursion::{expression_within, statements_within};
pub use stmts::statement;
