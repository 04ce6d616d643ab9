//! Lists of what leads back to itself.
ghost use Rattle.std.specs.Prelude.{◌≡◌, ◌≤◌, ℕ, IfOk, None, map};
ghost use Rattle.syn_tokens.specs.InOrder.{pair_of};
ghost use Rattle.syn_tokens.specs.Listing.{list_of, joined_of};
ghost use Rattle.syn_lower.specs.Sizes.{values_size};

use crate::nested::copy::{CopyNested, CopyType, copied};
use std::alloc::{AllocError, Global};
use syn_tokens::punctuated::Punctuated;
use syn_tokens::syntactic::try_clone::TryClone;

/// A copy of the values and separators, whichever rule of the grammar the list is of.
#[tactic(auto, using(syn_tokens::proofs::Copied::copied_list, syn_tokens::proofs::Copied::copied_joined, crate::proofs::Smaller::last_smaller))]
pub fn copy_list<N: CopyType, T: CopyNested + Drop, P: TryClone + Drop>(
    nested: &N,
    list: &Punctuated<T, P>,
    alloc: Global,
) -> Result<Punctuated<T, P>, AllocError>
    requires { (n : ℕ) → n ≤ values_size T.syntax list.now.pairs list.now.last → N.may nested.now n }
    ensures list { IfOk result (λ copy. list_of T.syntax P.syntax copy.pairs copy.last ≡ list_of T.syntax P.syntax list.now.pairs list.now.last) }
    ensures joined { IfOk result (λ copy. joined_of T.syntax P.syntax copy.pairs copy.last ≡ joined_of T.syntax P.syntax list.now.pairs list.now.last) }
{
    let mut copy = copy_pairs(nested, list, alloc)?;
    match list.trailing_value() {
        Some(value) => {
            copy.push_value(value.copy_nested(nested, alloc)?)?;
            Ok(copy)
        }
        None => Ok(copy),
    }
}

/// A copy of the values that a separator follows, and of those.
#[tactic(auto, using(crate::proofs::Smaller::value_smaller))]
fn copy_pairs<N: CopyType, T: CopyNested + Drop, P: TryClone + Drop>(
    nested: &N,
    list: &Punctuated<T, P>,
    alloc: Global,
) -> Result<Punctuated<T, P>, AllocError>
    requires { (n : ℕ) → n ≤ values_size T.syntax list.now.pairs list.now.last → N.may nested.now n }
    ensures pairs { IfOk result (λ copy. map (pair_of T.syntax P.syntax) copy.pairs ≡ map (pair_of T.syntax P.syntax) list.now.pairs) }
    ensures last { IfOk result (λ copy. copy.last ≡ None) }
{
    let mut copy = Punctuated::new(alloc);
    for (value, punct) in list.pairs() {
        copy.push_pair(value.copy_nested(nested, alloc)?, copied(punct, alloc)?)?;
    }
    Ok(copy)
}
