//! Where the copies of patterns lead back to each other.
ghost use Rattle.std.specs.Prelude.{◌≡◌, ◌<◌, ℕ, IfOk};
ghost use Rattle.syn_lower.specs.Sizes.{tree_size};
ghost use Rattle.syn_pat.specs.Patterns.{syntax_of_Pat};

use crate::Pat;
use crate::nested::copy::{CopyNested, CopyOf, Knot, copied};
use std::alloc::{AllocError, Global};

/// A pattern, by what it is.
fn copy_variant<N: CopyOf<Pat>>(nested: &N, pat: &Pat, alloc: Global) -> Result<Pat, AllocError>
    requires { (n : ℕ) → n < tree_size (syntax_of_Pat pat.now) → N.may nested.now n }
    ensures copy { IfOk result (λ copy. syntax_of_Pat copy ≡ syntax_of_Pat pat.now) }
{
    match pat {
        Pat::Ident(value) => Ok(Pat::Ident(copied(value, alloc)?)),
        Pat::Paren(value) => Ok(Pat::Paren(value.copy_nested(nested, alloc)?)),
        Pat::Path(value) => Ok(Pat::Path(copied(value, alloc)?)),
        Pat::Tuple(value) => Ok(Pat::Tuple(value.copy_nested(nested, alloc)?)),
        Pat::TupleStruct(value) => Ok(Pat::TupleStruct(value.copy_nested(nested, alloc)?)),
        Pat::Ty(value) => Ok(Pat::Ty(value.copy_nested(nested, alloc)?)),
        Pat::Wild(value) => Ok(Pat::Wild(copied(value, alloc)?)),
    }
}

/// The copy of a pattern.
#[cycle(copy_patterns)]
pub fn copy_pat(pat: &Pat, alloc: Global) -> Result<Pat, AllocError>
    ensures copy { IfOk result (λ copy. syntax_of_Pat copy ≡ syntax_of_Pat pat.now) }
{
    copy_variant(&Knot { copy: copy_pat }, pat, alloc)
}
