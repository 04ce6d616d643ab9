//! The copy that leads back to itself, as a value.
ghost use Rattle.syn_pat.specs.Ties.{CopyTies};

use crate::nested::copy::CopyOf;
use std::alloc::{AllocError, Global};
use syn_tokens::syntactic::Syntactic;

/// The copy of an expression or of a pattern, as a value.
#[derive(Clone, Copy)]
pub struct Knot<F> {
    pub copy: F,
}

impl<T: Syntactic, F: Fn(&T, Global) -> Result<T, AllocError>> CopyOf<T> for Knot<F> {
    ghost may = { λ k n. CopyTies T.syntax n (F.pre k.copy) (F.post k.copy) };

    fn copy_one(&self, value: &T, alloc: Global) -> Result<T, AllocError> {
        (self.copy)(value, alloc)
    }
}
