//! The comparison that leads back to itself, as a value.
ghost use Rattle.syn_pat.specs.Ties.{CompareTies};

use crate::nested::compare::CompareOf;
use syn_tokens::syntactic::Syntactic;

/// The comparison of expressions or of patterns, as a value.
#[derive(Clone, Copy)]
pub struct Knot<F> {
    pub is_same: F,
}

impl<T: Syntactic, F: Fn(&T, &T) -> bool> CompareOf<T> for Knot<F> {
    ghost may = { λ k n. CompareTies T.syntax n (F.pre k.is_same) (F.post k.is_same) };

    fn is_same_one(&self, value: &T, other: &T) -> bool {
        (self.is_same)(value, other)
    }
}
