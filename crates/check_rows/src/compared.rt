//! Whether trees are equal, by each way to ask that.

use std::alloc::Global;
use syn::{Result, TryClone};
use syn_tokens::syntactic::compare::Compared;

/// `equal` or `differs`; `unsure` where two ways to ask that disagree, or copies aren't as their trees.
pub(crate) fn compared<T: TryClone + Compared + PartialEq + Drop>(
    alloc: Global,
    left: &T,
    right: &T,
) -> Result<String> {
    let verdict = verdict(left, right);
    let is_sure = is_verdict_of_copy(alloc, verdict, left, right)?
        && is_verdict_of_copy(alloc, verdict, right, left)?;
    Ok(String::from_str(alloc, if is_sure { verdict } else { "unsure" })?)
}

/// Whether the tree's copy is equal to it.
pub(crate) fn is_copied<T: TryClone + Compared + PartialEq + Drop>(
    alloc: Global,
    tree: &T,
) -> Result<bool> {
    is_verdict_of_copy(alloc, "equal", tree, tree)
}

/// Whether that comes of comparing a copy of the first with the second.
fn is_verdict_of_copy<T: TryClone + Compared + PartialEq + Drop>(
    alloc: Global,
    want: &str,
    tree: &T,
    other: &T,
) -> Result<bool> {
    let copy = tree.try_clone(alloc)?;
    Ok(verdict(&copy, other) == want)
}

/// What `==` says in both orders, and `is_same`.
fn verdict<T: Compared + PartialEq>(left: &T, right: &T) -> &'static str {
    let is_equal = left == right;
    if (right == left) != is_equal || left.is_same(right) != is_equal {
        "unsure"
    } else if is_equal {
        "equal"
    } else {
        "differs"
    }
}
