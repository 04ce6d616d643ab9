//! Lists of what leads back to itself.
ghost use Rattle.std.specs.Prelude.{◌≡◌, ◌≤◌, ℕ, OnOk};
ghost use Rattle.syn_grammar.specs.Grammar.{print};
ghost use Rattle.syn_tokens.specs.Building.{added};
ghost use Rattle.syn_tokens.specs.Listing.{list_of, joined_of};
ghost use Rattle.syn_tokens.specs.Rows.{row};
ghost use Rattle.syn_lower.specs.Sizes.{values_size};

use crate::nested::print::{PrintNested, PrintType};
use std::alloc::AllocError;
use syn_tokens::print::Print;
use syn_tokens::punctuated::Punctuated;
use syn_tokens::stream::builder::StreamBuilder;

/// Adds the values of a list and its separators at the end, whichever rule of the grammar the list is of.
#[tactic(auto, using(syn_tokens::proofs::Rows::list_row, syn_tokens::proofs::Rows::joined_row))]
pub fn print_list<N: PrintType, T: PrintNested, P: Print>(
    nested: &N,
    list: &Punctuated<T, P>,
    out: &mut StreamBuilder,
) -> Result<(), AllocError>
    requires { (n : ℕ) → n ≤ values_size T.syntax list.now.pairs list.now.last → N.may nested.now n }
    ensures list { OnOk result (out.new ≡ added out.old (print (list_of T.syntax P.syntax list.now.pairs list.now.last))) }
    ensures joined { OnOk result (out.new ≡ added out.old (print (joined_of T.syntax P.syntax list.now.pairs list.now.last))) }
    ensures begins { out.new.before ≡ out.old.before }
{
    print_row(nested, list, out)
}

/// The same, where the clause says only in which order.
#[tactic(auto, using(syn_tokens::proofs::Prints::prints, syn_tokens::proofs::Rows::row_step, syn_tokens::proofs::Rows::row_done, crate::proofs::Smaller::value_smaller, crate::proofs::Smaller::last_smaller))]
fn print_row<N: PrintType, T: PrintNested, P: Print>(
    nested: &N,
    list: &Punctuated<T, P>,
    out: &mut StreamBuilder,
) -> Result<(), AllocError>
    requires { (n : ℕ) → n ≤ values_size T.syntax list.now.pairs list.now.last → N.may nested.now n }
    ensures row { OnOk result (out.new ≡ added out.old (row T.syntax P.syntax list.now.pairs list.now.last)) }
    ensures begins { out.new.before ≡ out.old.before }
{
    for (value, separator) in list.pairs() {
        value.print_nested(nested, out)?;
        separator.print_in(out)?;
    }
    if let Some(last) = list.trailing_value() {
        last.print_nested(nested, out)?;
    }
    Ok(())
}
