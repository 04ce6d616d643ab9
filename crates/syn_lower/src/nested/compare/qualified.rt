//! Qualified paths.
ghost use Rattle.std.specs.Prelude.{◌≡◌, ◌≤◌, ℕ};
ghost use Rattle.syn_grammar.specs.Same.{same_syntax};
ghost use Rattle.syn_lower.specs.QualifiedPaths.{syntax_of_TypePath, with_qself};
ghost use Rattle.syn_lower.specs.Sizes.{tree_size};

use crate::nested::compare::{CompareNested, CompareType};
use crate::{Path, QSelf};

/// Whether both have the same type in `< >`, the same position, and the same path.
#[tactic(auto, using(crate::proofs::Smaller::qself_smaller, crate::proofs::Smaller::path_smaller))]
pub fn same_qualified<N: CompareType>(
    nested: &N,
    a: &QSelf,
    path: &Path,
    b: &QSelf,
    other: &Path,
) -> bool
    requires { (n : ℕ) → n ≤ tree_size (syntax_of_TypePath (with_qself a.now path.now)) → N.may nested.now n }
    ensures { result ≡ same_syntax (syntax_of_TypePath (with_qself a.now path.now)) (syntax_of_TypePath (with_qself b.now other.now)) }
{
    let (_words, _others) = (&path.segments, &other.segments);
    let (_ty, _other) = (&a.ty, &b.ty);
    a.is_same_nested(nested, b) && path.is_same_nested(nested, other)
}
