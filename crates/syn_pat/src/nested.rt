//! What leads back to itself: prints, copies and comparisons of such a family go through one entry point, so that the function of each
//! kind of syntax is a recursion of its own. Those of patterns are here; those of expressions are above, on the same traits.

pub mod compare;
pub mod copy;
pub mod print;
