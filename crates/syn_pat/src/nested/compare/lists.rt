//! Lists of what leads back to itself.
ghost use Rattle.std.specs.Prelude.{◌≡◌, ◌≤◌, ℕ, None};
ghost use Rattle.syn_grammar.specs.Same.{same_syntax};
ghost use Rattle.syn_tokens.specs.InOrder.{in_order, pair_of};
ghost use Rattle.syn_tokens.specs.Leaves.{maybe};
ghost use Rattle.syn_tokens.specs.Listing.{list_of};
ghost use Rattle.syn_lower.specs.Sizes.{values_size};

use crate::nested::compare::CompareOf;
use syn_tokens::punctuated::Punctuated;
use syn_tokens::syntactic::Syntactic;
use syn_tokens::syntactic::compare::Compared;

/// Whether both have the same values and separators in turn.
#[tactic(auto, using(syn_tokens::proofs::Comparisons::same_list, syn_lower::proofs::Smaller::pairs_smaller))]
pub fn same_list<T: Syntactic, N: CompareOf<T>, P: Compared>(
    nested: &N,
    list: &Punctuated<T, P>,
    other: &Punctuated<T, P>,
) -> bool
    requires { (n : ℕ) → n ≤ values_size T.syntax list.now.pairs list.now.last → N.may nested.now n }
    ensures list { result ≡ same_syntax (list_of T.syntax P.syntax list.now.pairs list.now.last) (list_of T.syntax P.syntax other.now.pairs other.now.last) }
{
    same_pairs(nested, list.pairs(), other.pairs()) && same_end(nested, list, other)
}

/// Whether they are as many, and the same in turn.
#[tactic(auto, using(syn_lower::proofs::SameLists::unlike, syn_lower::proofs::SameLists::same_step, syn_lower::proofs::SameLists::same_done, syn_lower::proofs::Smaller::value_smaller))]
fn same_pairs<T: Syntactic, N: CompareOf<T>, P: Compared>(
    nested: &N,
    a: &[(T, P)],
    b: &[(T, P)],
) -> bool
    requires { (n : ℕ) → n ≤ values_size T.syntax a.now None → N.may nested.now n }
    ensures { result ≡ same_syntax (in_order (pair_of T.syntax P.syntax) a.now) (in_order (pair_of T.syntax P.syntax) b.now) }
{
    if a.len() != b.len() {
        return false;
    }
    for i in 0..a.len() {
        if !(nested.is_same_one(&a[i].0, &b[i].0) && a[i].1.is_same(&b[i].1)) {
            return false;
        }
    }
    true
}

/// Whether both lists end with a value that no separator follows, and these are the same, or neither does.
#[tactic(auto, using(syn_lower::proofs::Smaller::last_smaller))]
fn same_end<T: Syntactic, N: CompareOf<T>, P>(
    nested: &N,
    list: &Punctuated<T, P>,
    other: &Punctuated<T, P>,
) -> bool
    requires { (n : ℕ) → n ≤ values_size T.syntax list.now.pairs list.now.last → N.may nested.now n }
    ensures { result ≡ same_syntax (maybe T.syntax list.now.last) (maybe T.syntax other.now.last) }
{
    match (list.trailing_value(), other.trailing_value()) {
        (Some(a), Some(b)) => nested.is_same_one(a, b),
        (None, None) => true,
        (Some(_), None) => false,
        (None, Some(_)) => false,
    }
}
