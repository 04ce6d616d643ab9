//! What leads back to itself: prints, copies and comparisons of types go through one entry point each, so that the function
//! of each kind of syntax is a recursion of its own.

pub mod compare;
pub mod copy;
pub mod print;
