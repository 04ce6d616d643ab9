//! Lists in `< >`, whose members of one form are printed first.
ghost use Rattle.std.specs.Prelude.{◌≡◌, ◌≤◌, ℕ, Bool, true, Some, not, OnOk};
ghost use Rattle.std.specs.List.{list_any};
ghost use Rattle.syn_grammar.specs.Grammar.{Syntax};
ghost use Rattle.syn_grammar.specs.Tokens.{and};
ghost use Rattle.syn_grammar.specs.Same.{same_syntax};
ghost use Rattle.syn_tokens.specs.Building.{added};
ghost use Rattle.syn_tokens.specs.Kinds.{comma_syntax};
ghost use Rattle.syn_tokens.specs.Listing.{list_of};
ghost use Rattle.syn_lower.specs.Ordered.{ordered_of, place_of};
ghost use Rattle.syn_lower.specs.OrderedPrints.{sorted_print, comma_at, pair_part, last_part, part_row, comma_between, ordered_row};
ghost use Rattle.syn_lower.specs.Sizes.{tree_size, values_size};

use crate::nested::print::{PrintNested, PrintType};
use std::alloc::AllocError;
use syn_tokens::print::Print;
use syn_tokens::punct::Spacing;
use syn_tokens::punctuated::Punctuated;
use syn_tokens::span::Span;
use syn_tokens::stream::builder::StreamBuilder;
use syn_tokens::syntactic::Syntactic;
use syn_tokens::token::Comma;

/// A member of a list in `< >`: a generic argument.
pub trait Ordered: Syntactic {
    ghost is_first: { Syntax → Bool };

    /// Whether it is printed before the members of the other form.
    fn is_first(&self) -> bool
        ensures { result ≡ Self.is_first (Self.syntax self.now) };

    /// Members that are the same, spans aside, are of one form.
    ghost apart: { (s t : Syntax) → same_syntax s t ≡ true → Self.is_first s ≡ Self.is_first t };
}

/// Adds the members of a list: first those that are printed first, in their order, each with its comma, and then the others.
/// After the last one a comma is added where it isn't the last any more.
#[tactic(auto, using(crate::proofs::Ordered::sorted_row))]
pub fn print_ordered<N: PrintType, T: PrintNested + Ordered>(
    nested: &N,
    list: &Punctuated<T, Comma>,
    out: &mut StreamBuilder,
) -> Result<(), AllocError>
    requires { (n : ℕ) → n ≤ values_size T.syntax list.now.pairs list.now.last → N.may nested.now n }
    ensures prints { OnOk result (out.new ≡ added out.old (sorted_print (ordered_of T.is_first (list_of T.syntax comma_syntax list.now.pairs list.now.last)))) }
    ensures begins { out.new.before ≡ out.old.before }
{
    print_rows(nested, list, out)
}

/// The same, where the clause says only in which order.
#[tactic(auto, using(syn_tokens::proofs::Prints::prints))]
fn print_rows<N: PrintType, T: PrintNested + Ordered>(
    nested: &N,
    list: &Punctuated<T, Comma>,
    out: &mut StreamBuilder,
) -> Result<(), AllocError>
    requires { (n : ℕ) → n ≤ values_size T.syntax list.now.pairs list.now.last → N.may nested.now n }
    ensures row { OnOk result (out.new ≡ added out.old (ordered_row T.is_first T.syntax comma_syntax list.now.pairs list.now.last)) }
    ensures begins { out.new.before ≡ out.old.before }
{
    print_members(true, nested, list, out)?;
    print_comma_between(list, out)?;
    print_members(false, nested, list, out)
}

/// The members that are printed first, or the others, each with its comma.
#[tactic(auto, using(syn_tokens::proofs::Prints::prints, crate::proofs::Ordered::part_step, crate::proofs::Ordered::part_done, crate::proofs::Ordered::no_last, crate::proofs::Smaller::value_smaller, crate::proofs::Smaller::last_smaller))]
fn print_members<N: PrintType, T: PrintNested + Ordered>(
    first: bool,
    nested: &N,
    list: &Punctuated<T, Comma>,
    out: &mut StreamBuilder,
) -> Result<(), AllocError>
    requires { (n : ℕ) → n ≤ values_size T.syntax list.now.pairs list.now.last → N.may nested.now n }
    ensures row { OnOk result (out.new ≡ added out.old (part_row T.is_first T.syntax comma_syntax first list.now.pairs list.now.last)) }
    ensures begins { out.new.before ≡ out.old.before }
{
    for pair in list.pairs() {
        print_pair(first, nested, pair, out)?;
    }
    match list.trailing_value() {
        Some(last) => print_last(first, nested, last, out),
        None => Ok(()),
    }
}

/// A member with its comma, if it is one of those that are needed.
#[tactic(auto, using(syn_tokens::proofs::Prints::prints), unfolding(crate::specs::OrderedPrints::pair_part))]
fn print_pair<N: PrintType, T: PrintNested + Ordered>(
    first: bool,
    nested: &N,
    pair: &(T, Comma),
    out: &mut StreamBuilder,
) -> Result<(), AllocError>
    requires { (n : ℕ) → n ≤ tree_size (T.syntax pair.now.0) → N.may nested.now n }
    ensures prints { OnOk result (out.new ≡ added out.old (pair_part T.is_first T.syntax comma_syntax first pair.now)) }
    ensures begins { out.new.before ≡ out.old.before }
{
    let (value, comma) = pair;
    if value.is_first() == first {
        value.print_nested(nested, out)?;
        return print_comma(comma, out);
    }
    Ok(())
}

/// A member that no comma follows, if it is one of those that are needed.
#[tactic(auto, using(syn_tokens::proofs::Prints::prints), unfolding(crate::specs::OrderedPrints::last_part))]
fn print_last<N: PrintType, T: PrintNested + Ordered>(
    first: bool,
    nested: &N,
    value: &T,
    out: &mut StreamBuilder,
) -> Result<(), AllocError>
    requires { (n : ℕ) → n ≤ tree_size (T.syntax value.now) → N.may nested.now n }
    ensures prints { OnOk result (out.new ≡ added out.old (last_part T.is_first T.syntax first (Some value.now))) }
    ensures begins { out.new.before ≡ out.old.before }
{
    if value.is_first() == first {
        return value.print_nested(nested, out);
    }
    Ok(())
}

/// A comma, which is at one place.
#[tactic(auto, unfolding(syn_tokens::specs::Punct::is_punct_character))]
fn print_comma(comma: &Comma, out: &mut StreamBuilder) -> Result<(), AllocError>
    ensures prints { OnOk result (out.new ≡ added out.old (comma_at (place_of (comma_syntax comma.now)))) }
    ensures begins { out.new.before ≡ out.old.before }
{
    let [span] = comma.spans;
    out.add_punct(',', Spacing::Alone, span)
}

/// The comma after the last member, where that is printed first and others follow it then.
#[tactic(auto, using(syn_tokens::proofs::Prints::prints))]
fn print_comma_between<T: Ordered>(
    list: &Punctuated<T, Comma>,
    out: &mut StreamBuilder,
) -> Result<(), AllocError>
    ensures prints { OnOk result (out.new ≡ added out.old (comma_between T.is_first T.syntax comma_syntax list.now.pairs list.now.last)) }
    ensures begins { out.new.before ≡ out.old.before }
{
    match list.trailing_value() {
        Some(last) => print_comma_after(last, list.pairs(), out),
        None => Ok(()),
    }
}

/// The comma after this last member, if it is needed.
#[tactic(auto, using(syn_tokens::proofs::Prints::prints))]
fn print_comma_after<T: Ordered>(
    last: &T,
    pairs: &[(T, Comma)],
    out: &mut StreamBuilder,
) -> Result<(), AllocError>
    ensures prints { OnOk result (out.new ≡ added out.old (comma_between T.is_first T.syntax comma_syntax pairs.now (Some last.now))) }
    ensures begins { out.new.before ≡ out.old.before }
{
    if is_moved(last, pairs) {
        return Comma::new([Span::call_site()]).print_in(out);
    }
    Ok(())
}

/// Whether the last member is printed before some of the others.
fn is_moved<T: Ordered>(last: &T, pairs: &[(T, Comma)]) -> bool
    ensures { result ≡ and (T.is_first (T.syntax last.now)) (list_any (λ x. not (T.is_first (T.syntax x.0))) pairs.now) }
{
    last.is_first() && has_others(pairs)
}

/// Whether some member isn't printed first.
fn has_others<T: Ordered>(pairs: &[(T, Comma)]) -> bool
    ensures { result ≡ list_any (λ x. not (T.is_first (T.syntax x.0))) pairs.now }
{
    pairs.iter().any(|(value, _)| !value.is_first())
}
