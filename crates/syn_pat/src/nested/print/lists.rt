//! Lists of what leads back to itself.
ghost use Rattle.std.specs.Prelude.{◌≡◌, ◌≤◌, ℕ, OnOk};
ghost use Rattle.syn_grammar.specs.Grammar.{print};
ghost use Rattle.syn_tokens.specs.Building.{added};
ghost use Rattle.syn_tokens.specs.Listing.{list_of};
ghost use Rattle.syn_tokens.specs.Rows.{row};
ghost use Rattle.syn_lower.specs.Sizes.{values_size};
ghost use Rattle.syn_lower.specs.Types.{lone_comma};

use crate::nested::print::PrintOf;
use std::alloc::AllocError;
use syn_tokens::print::Print;
use syn_tokens::punctuated::Punctuated;
use syn_tokens::span::Span;
use syn_tokens::stream::builder::StreamBuilder;
use syn_tokens::syntactic::Syntactic;
use syn_tokens::token::Comma;

/// Adds the values of a list and its separators at the end.
#[tactic(auto, using(syn_tokens::proofs::Rows::list_row))]
pub fn print_list<T: Syntactic, N: PrintOf<T>, P: Print>(
    nested: &N,
    list: &Punctuated<T, P>,
    out: &mut StreamBuilder,
) -> Result<(), AllocError>
    requires { (n : ℕ) → n ≤ values_size T.syntax list.now.pairs list.now.last → N.may nested.now n }
    ensures list { OnOk result (out.new ≡ added out.old (print (list_of T.syntax P.syntax list.now.pairs list.now.last))) }
    ensures begins { out.new.before ≡ out.old.before }
{
    print_row(nested, list, out)
}

/// The same, where the clause says only in which order.
#[tactic(auto, using(syn_tokens::proofs::Prints::prints, syn_tokens::proofs::Rows::row_step, syn_tokens::proofs::Rows::row_done, syn_lower::proofs::Smaller::value_smaller, syn_lower::proofs::Smaller::last_smaller))]
fn print_row<T: Syntactic, N: PrintOf<T>, P: Print>(
    nested: &N,
    list: &Punctuated<T, P>,
    out: &mut StreamBuilder,
) -> Result<(), AllocError>
    requires { (n : ℕ) → n ≤ values_size T.syntax list.now.pairs list.now.last → N.may nested.now n }
    ensures row { OnOk result (out.new ≡ added out.old (row T.syntax P.syntax list.now.pairs list.now.last)) }
    ensures begins { out.new.before ≡ out.old.before }
{
    for (value, separator) in list.pairs() {
        nested.print_one(value, out)?;
        separator.print_in(out)?;
    }
    if let Some(last) = list.trailing_value() {
        nested.print_one(last, out)?;
    }
    Ok(())
}

/// The comma that a tuple of one value lacks.
#[tactic(auto, using(syn_tokens::proofs::Prints::prints))]
pub fn print_lone_comma<T: Syntactic>(
    elems: &Punctuated<T, Comma>,
    out: &mut StreamBuilder,
) -> Result<(), AllocError>
    ensures prints { OnOk result (out.new ≡ added out.old (lone_comma elems.now.pairs elems.now.last)) }
    ensures begins { out.new.before ≡ out.old.before }
{
    if elems.pairs().is_empty() && elems.trailing_value().is_some() {
        return Comma::new([Span::call_site()]).print_in(out);
    }
    Ok(())
}
