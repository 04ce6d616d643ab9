//! Copies of what leads back to itself.
ghost use Rattle.std.specs.Prelude.{◌≡◌, ◌≤◌, ℕ, IfOk};
ghost use Rattle.syn_lower.specs.Sizes.{tree_size};
ghost use Rattle.syn_lower.specs.Types.{syntax_of_Type};

mod knot;
mod lists;

use crate::Type;
pub use knot::{Knot, copy_type};
pub use lists::copy_list;
use std::alloc::{AllocError, Global};
use syn_tokens::syntactic::Syntactic;
use syn_tokens::syntactic::try_clone::TryClone;

/// The copy of a type that is in another tree.
pub trait CopyType {
    /// It may be called for types of this size.
    ghost may: { Self → ℕ → Type 0 };

    /// As `TryClone::try_clone`.
    fn copy_type(&self, ty: &Type, alloc: Global) -> Result<Type, AllocError>
        requires { may self.now (tree_size (syntax_of_Type ty.now)) }
        ensures copy { IfOk result (λ copy. syntax_of_Type copy ≡ syntax_of_Type ty.now) };
}

/// What is copied with the help of the copy of a type.
pub trait CopyNested: Syntactic {
    /// As `TryClone::try_clone`.
    fn copy_nested<N: CopyType>(&self, nested: &N, alloc: Global) -> Result<Self, AllocError>
        requires { (n : ℕ) → n ≤ tree_size (Self.syntax self.now) → N.may nested.now n }
        ensures copy { IfOk result (λ copy. Self.syntax copy ≡ Self.syntax self.now) };
}

impl CopyNested for Type {
    fn copy_nested<N: CopyType>(&self, nested: &N, alloc: Global) -> Result<Type, AllocError> {
        nested.copy_type(self, alloc)
    }
}

impl<T: CopyNested> CopyNested for Option<T> {
    fn copy_nested<N: CopyType>(&self, nested: &N, alloc: Global) -> Result<Option<T>, AllocError> {
        match self {
            Some(value) => Ok(Some(value.copy_nested(nested, alloc)?)),
            None => Ok(None),
        }
    }
}

/// A copy of what doesn't lead back to itself; it is refused only where memory is.
pub fn copied<T: TryClone>(value: &T, alloc: Global) -> Result<T, AllocError>
    ensures copy { IfOk result (λ copy. T.syntax copy ≡ T.syntax value.now) }
{
    match value.try_clone(alloc) {
        Ok(copy) => Ok(copy),
        Err(error) => Err(error.into_alloc_error()),
    }
}
