//! Comparisons of what leads back to itself.
ghost use Rattle.std.specs.Prelude.{◌≡◌, ◌≤◌, ℕ};
ghost use Rattle.syn_grammar.specs.Same.{same_syntax};
ghost use Rattle.syn_lower.specs.Sizes.{tree_size};
ghost use Rattle.syn_lower.specs.Types.{syntax_of_Type};

mod knot;
mod lists;
mod ordered;
mod qualified;

use crate::Type;
pub use knot::{Knot, is_same_type};
pub use lists::same_list;
pub use ordered::same_ordered;
pub use qualified::same_qualified;
use syn_tokens::syntactic::Syntactic;

/// The comparison of types that are in other trees.
pub trait CompareType {
    /// It may be called for types of this size.
    ghost may: { Self → ℕ → Type 0 };

    /// As `Compared::is_same`.
    fn is_same_type(&self, ty: &Type, other: &Type) -> bool
        requires { may self.now (tree_size (syntax_of_Type ty.now)) }
        ensures same { result ≡ same_syntax (syntax_of_Type ty.now) (syntax_of_Type other.now) };
}

/// What is compared with the help of the comparison of types.
pub trait CompareNested: Syntactic {
    /// As `Compared::is_same`.
    fn is_same_nested<N: CompareType>(&self, nested: &N, other: &Self) -> bool
        requires { (n : ℕ) → n ≤ tree_size (Self.syntax self.now) → N.may nested.now n }
        ensures same { result ≡ same_syntax (Self.syntax self.now) (Self.syntax other.now) };
}

impl CompareNested for Type {
    fn is_same_nested<N: CompareType>(&self, nested: &N, other: &Type) -> bool {
        nested.is_same_type(self, other)
    }
}
