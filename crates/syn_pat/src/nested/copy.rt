//! Copies of what leads back to itself.
ghost use Rattle.std.specs.Prelude.{◌≡◌, ◌<◌, ℕ, IfOk};
ghost use Rattle.syn_lower.specs.Sizes.{tree_size};

mod knot;
mod lists;
mod pats;

pub use knot::Knot;
pub use lists::{copy_boxed, copy_each, copy_list};
pub use pats::copy_pat;
use std::alloc::{AllocError, Global};
use syn_tokens::syntactic::Syntactic;
use syn_tokens::syntactic::try_clone::TryClone;

/// The copy of a value of this type that is in another tree.
pub trait CopyOf<T: Syntactic> {
    /// It may be called for values of this size.
    ghost may: { Self → ℕ → Type 0 };

    /// As `TryClone::try_clone`.
    fn copy_one(&self, value: &T, alloc: Global) -> Result<T, AllocError>
        requires { may self.now (tree_size (T.syntax value.now)) }
        ensures copy { IfOk result (λ copy. T.syntax copy ≡ T.syntax value.now) };
}

/// What is copied with the help of the copy of this type.
pub trait CopyNested<T: Syntactic>: Syntactic {
    /// As `TryClone::try_clone`.
    fn copy_nested<N: CopyOf<T>>(&self, nested: &N, alloc: Global) -> Result<Self, AllocError>
        requires { (n : ℕ) → n < tree_size (Self.syntax self.now) → N.may nested.now n }
        ensures copy { IfOk result (λ copy. Self.syntax copy ≡ Self.syntax self.now) };
}

impl<T: Syntactic, V: CopyNested<T>> CopyNested<T> for Option<V> {
    fn copy_nested<N: CopyOf<T>>(
        &self,
        nested: &N,
        alloc: Global,
    ) -> Result<Option<V>, AllocError> {
        match self {
            Some(value) => Ok(Some(value.copy_nested(nested, alloc)?)),
            None => Ok(None),
        }
    }
}

/// A copy of what doesn't lead back to itself; it is refused only where memory is.
pub fn copied<T: TryClone>(value: &T, alloc: Global) -> Result<T, AllocError>
    ensures copy { IfOk result (λ copy. T.syntax copy ≡ T.syntax value.now) }
{
    match value.try_clone(alloc) {
        Ok(copy) => Ok(copy),
        Err(error) => Err(error.into_alloc_error()),
    }
}
