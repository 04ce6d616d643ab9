//! Comparisons of what leads back to itself.
ghost use Rattle.std.specs.Prelude.{◌≡◌, ◌<◌, ℕ};
ghost use Rattle.syn_grammar.specs.Same.{same_syntax};
ghost use Rattle.syn_lower.specs.Sizes.{tree_size};

mod knot;
mod lists;
mod locals;
mod pats;

pub use knot::Knot;
pub use lists::same_list;
pub use locals::same_local_pattern;
pub use pats::is_same_pat;
use syn_tokens::syntactic::Syntactic;

/// The comparison of values of this type that are in other trees.
pub trait CompareOf<T: Syntactic> {
    /// It may be called for values of this size.
    ghost may: { Self → ℕ → Type 0 };

    /// As `Compared::is_same`.
    fn is_same_one(&self, value: &T, other: &T) -> bool
        requires { may self.now (tree_size (T.syntax value.now)) }
        ensures same { result ≡ same_syntax (T.syntax value.now) (T.syntax other.now) };
}

/// What is compared with the help of the comparison of this type.
pub trait CompareNested<T: Syntactic>: Syntactic {
    /// As `Compared::is_same`.
    fn is_same_nested<N: CompareOf<T>>(&self, nested: &N, other: &Self) -> bool
        requires { (n : ℕ) → n < tree_size (Self.syntax self.now) → N.may nested.now n }
        ensures same { result ≡ same_syntax (Self.syntax self.now) (Self.syntax other.now) };
}

/// Both are there and the same, or neither is there.
impl<T: Syntactic, V: CompareNested<T>> CompareNested<T> for Option<V> {
    fn is_same_nested<N: CompareOf<T>>(&self, nested: &N, other: &Option<V>) -> bool {
        match (self, other) {
            (Some(a), Some(b)) => a.is_same_nested(nested, b),
            (None, None) => true,
            (Some(_), None) => false,
            (None, Some(_)) => false,
        }
    }
}
