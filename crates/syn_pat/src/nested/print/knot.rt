//! The print that leads back to itself, as a value.
ghost use Rattle.syn_pat.specs.Ties.{PrintTies};

use crate::nested::print::PrintOf;
use std::alloc::AllocError;
use syn_tokens::stream::builder::StreamBuilder;
use syn_tokens::syntactic::Syntactic;

/// The print of an expression or of a pattern, as a value.
#[derive(Clone, Copy)]
pub struct Knot<F> {
    pub print: F,
}

impl<T: Syntactic, F: Fn(&T, &mut StreamBuilder) -> Result<(), AllocError>> PrintOf<T> for Knot<F> {
    ghost may = { λ k n. PrintTies T.syntax n (F.pre k.print) (F.post k.print) };

    fn print_one(&self, value: &T, out: &mut StreamBuilder) -> Result<(), AllocError> {
        (self.print)(value, out)
    }
}
