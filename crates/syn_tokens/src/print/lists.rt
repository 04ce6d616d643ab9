//! The prints of lists.
ghost use Rattle.std.specs.Prelude.{◌≡◌, OnOk};
ghost use Rattle.syn_grammar.specs.Grammar.{print};
ghost use Rattle.syn_tokens.specs.Building.{added};
ghost use Rattle.syn_tokens.specs.Listing.{list_of, joined_of};
ghost use Rattle.syn_tokens.specs.Rows.{row};

use crate::print::{Print, ToTokens};
use crate::punctuated::Punctuated;
use crate::stream::builder::StreamBuilder;
use std::alloc::AllocError;

/// Appends the values of a list and its separators, whichever rule of the grammar the list belongs to.
#[tactic(auto, using(crate::proofs::Rows::list_row, crate::proofs::Rows::joined_row))]
pub fn print_list<T: Print, P: Print>(
    list: &Punctuated<T, P>,
    out: &mut StreamBuilder,
) -> Result<(), AllocError>
    ensures list { OnOk result (out.new ≡ added out.old (print (list_of T.syntax P.syntax list.now.pairs list.now.last))) }
    ensures joined { OnOk result (out.new ≡ added out.old (print (joined_of T.syntax P.syntax list.now.pairs list.now.last))) }
    ensures begins { out.new.before ≡ out.old.before }
{
    print_row(list, out)
}

/// The same, with a clause about the order only.
#[tactic(auto, using(crate::proofs::Prints::prints, crate::proofs::Rows::row_step, crate::proofs::Rows::row_done))]
fn print_row<T: Print, P: Print>(
    list: &Punctuated<T, P>,
    out: &mut StreamBuilder,
) -> Result<(), AllocError>
    ensures row { OnOk result (out.new ≡ added out.old (row T.syntax P.syntax list.now.pairs list.now.last)) }
    ensures begins { out.new.before ≡ out.old.before }
{
    for (value, separator) in list.pairs() {
        value.print_in(out)?;
        separator.print_in(out)?;
    }
    if let Some(last) = list.trailing_value() {
        last.print_in(out)?;
    }
    Ok(())
}

impl<T: Print, P: Print> Print for Punctuated<T, P> {
    fn print_in(&self, out: &mut StreamBuilder) -> Result<(), AllocError> {
        print_list(self, out)
    }
}

impl<T: ToTokens, P: ToTokens> ToTokens for Punctuated<T, P> {}
