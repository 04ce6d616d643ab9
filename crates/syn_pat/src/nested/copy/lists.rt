//! Boxes and lists of what leads back to itself. A large value is made and moved here alone: each call of a generic function at its type
//! is costly to check.
ghost use Rattle.std.specs.Prelude.{◌≡◌, ◌≤◌, ℕ, IfOk, None, map};
ghost use Rattle.syn_tokens.specs.InOrder.{in_order, pair_of};
ghost use Rattle.syn_tokens.specs.Listing.{list_of};
ghost use Rattle.syn_lower.specs.Sizes.{tree_size, values_size};

use crate::nested::copy::{CopyNested, CopyOf, copied};
use std::alloc::{AllocError, Global};
use syn_tokens::punctuated::Punctuated;
use syn_tokens::syntactic::Syntactic;
use syn_tokens::syntactic::try_clone::TryClone;

/// A copy of a value in a box.
pub fn copy_boxed<T: Syntactic + Drop, N: CopyOf<T>>(
    nested: &N,
    value: &Box<T>,
    alloc: Global,
) -> Result<Box<T>, AllocError>
    requires { N.may nested.now (tree_size (T.syntax value.now.value)) }
    ensures copy { IfOk result (λ copy. T.syntax copy.value ≡ T.syntax value.now.value) }
{
    Ok(Box::new(alloc, nested.copy_one(value, alloc)?)?)
}

/// A copy of each value.
#[tactic(auto, using(crate::proofs::Lists::one_smaller))]
pub fn copy_each<T: Syntactic, V: CopyNested<T> + Drop, N: CopyOf<T>>(
    nested: &N,
    values: &Vec<V>,
    alloc: Global,
) -> Result<Vec<V>, AllocError>
    requires { (n : ℕ) → n ≤ tree_size (in_order V.syntax values.now.items) → N.may nested.now n }
    ensures copy { IfOk result (λ copy. map V.syntax copy.items ≡ map V.syntax values.now.items) }
{
    let mut copy = Vec::new(alloc);
    for value in values {
        copy.push(value.copy_nested(nested, alloc)?)?;
    }
    Ok(copy)
}

/// A copy of the values and separators.
#[tactic(auto, using(syn_tokens::proofs::Copied::copied_list, syn_lower::proofs::Smaller::last_smaller))]
pub fn copy_list<T: Syntactic + Drop, N: CopyOf<T>, P: TryClone + Drop>(
    nested: &N,
    list: &Punctuated<T, P>,
    alloc: Global,
) -> Result<Punctuated<T, P>, AllocError>
    requires { (n : ℕ) → n ≤ values_size T.syntax list.now.pairs list.now.last → N.may nested.now n }
    ensures list { IfOk result (λ copy. list_of T.syntax P.syntax copy.pairs copy.last ≡ list_of T.syntax P.syntax list.now.pairs list.now.last) }
{
    let mut copy = copy_pairs(nested, list, alloc)?;
    match list.trailing_value() {
        Some(value) => {
            copy.push_value(nested.copy_one(value, alloc)?)?;
            Ok(copy)
        }
        None => Ok(copy),
    }
}

/// A copy of the values that a separator follows, and of those.
#[tactic(auto, using(syn_lower::proofs::Smaller::value_smaller))]
fn copy_pairs<T: Syntactic + Drop, N: CopyOf<T>, P: TryClone + Drop>(
    nested: &N,
    list: &Punctuated<T, P>,
    alloc: Global,
) -> Result<Punctuated<T, P>, AllocError>
    requires { (n : ℕ) → n ≤ values_size T.syntax list.now.pairs list.now.last → N.may nested.now n }
    ensures pairs { IfOk result (λ copy. map (pair_of T.syntax P.syntax) copy.pairs ≡ map (pair_of T.syntax P.syntax) list.now.pairs) }
    ensures last { IfOk result (λ copy. copy.last ≡ None) }
{
    let mut copy = Punctuated::new(alloc);
    for (value, punct) in list.pairs() {
        copy.push_pair(nested.copy_one(value, alloc)?, copied(punct, alloc)?)?;
    }
    Ok(copy)
}
