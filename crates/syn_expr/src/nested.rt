//! Prints, copies and comparisons of expressions go through one entry point each, on the traits of `syn_pat`, so that the function of
//! each kind of syntax is a recursion of its own.

pub mod compare;
pub mod copy;
mod fields;
pub mod print;
