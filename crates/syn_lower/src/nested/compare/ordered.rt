//! Lists in `< >`, whose members of one form are printed first.
ghost use Rattle.std.specs.Prelude.{◌≡◌, ◌≤◌, ℕ, None};
ghost use Rattle.syn_grammar.specs.Same.{same_syntax};
ghost use Rattle.syn_tokens.specs.InOrder.{in_order};
ghost use Rattle.syn_tokens.specs.Kinds.{comma_syntax};
ghost use Rattle.syn_tokens.specs.Listing.{list_of};
ghost use Rattle.syn_lower.specs.Ordered.{ordered_of};
ghost use Rattle.syn_lower.specs.Sizes.{values_size};

use crate::nested::compare::lists::same_end;
use crate::nested::compare::{CompareNested, CompareType};
use crate::nested::print::Ordered;
use syn_tokens::punctuated::Punctuated;
use syn_tokens::token::Comma;

/// Whether both have the same members in turn, and a comma after the last or none.
#[tactic(auto, using(crate::proofs::Smaller::pairs_smaller))]
pub fn same_ordered<N: CompareType, T: CompareNested + Ordered>(
    nested: &N,
    list: &Punctuated<T, Comma>,
    other: &Punctuated<T, Comma>,
) -> bool
    requires { (n : ℕ) → n ≤ values_size T.syntax list.now.pairs list.now.last → N.may nested.now n }
    ensures same { result ≡ same_syntax (ordered_of T.is_first (list_of T.syntax comma_syntax list.now.pairs list.now.last)) (ordered_of T.is_first (list_of T.syntax comma_syntax other.now.pairs other.now.last)) }
{
    same_members(nested, list.pairs(), other.pairs()) && same_end(nested, list, other)
}

/// Whether they are as many, and the same in turn; commas don't count.
#[tactic(auto, using(crate::proofs::SameLists::unlike, crate::proofs::SameLists::same_step, crate::proofs::SameLists::same_done, crate::proofs::Smaller::value_smaller))]
fn same_members<N: CompareType, T: CompareNested>(
    nested: &N,
    a: &[(T, Comma)],
    b: &[(T, Comma)],
) -> bool
    requires { (n : ℕ) → n ≤ values_size T.syntax a.now None → N.may nested.now n }
    ensures { result ≡ same_syntax (in_order (λ x. T.syntax x.0) a.now) (in_order (λ x. T.syntax x.0) b.now) }
{
    if a.len() != b.len() {
        return false;
    }
    for i in 0..a.len() {
        if !a[i].0.is_same_nested(nested, &b[i].0) {
            return false;
        }
    }
    true
}
