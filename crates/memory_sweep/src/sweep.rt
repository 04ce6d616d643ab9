//! All runs of the calls on an input.

use crate::calls::{
    CanonicalPrint, JoinItems, ParseAfter, ParseWhole, SameForm, ToHeldTokens, TreeCopy,
};
use crate::ends::Call;
use crate::failure::Failure;
use crate::given::{Given, Input};
use crate::named::Named;
use crate::tally::Tally;
use crate::ways::Ways;
use syn::canon::Canonical;
use syn::parse::Parse;
use syn::{Item, ToTokens};

/// No call asks for memory so often.
const MOST: usize = 1_000_000;

/// Makes the call with its first request refused, then its second, and so on, until it asks no more.
pub(crate) fn sweep<G, C: Call<G>>(
    given: &G,
    call: &'static str,
    tally: &mut Tally,
) -> Result<(), Failure> {
    tally.begin(call);
    for number in 1..MOST {
        let run = C::once(given, number)?;
        tally.add(number, &run)?;
        if !run.is_refused {
            return tally.end();
        }
    }
    tally.add_wrong(MOST, "requests without an end")?;
    tally.end()
}

/// What each type is asked: it has a parser and a print.
fn parsed<T: Parse + ToTokens + Named + Drop, W: Ways<T>>(
    input: &Input<'_>,
    tally: &mut Tally,
) -> Result<Given<T>, Failure> {
    let given: Given<T> = Given::new(input)?;
    if given.tree.variant() != input.variant {
        return Err(Failure::Broken);
    }
    sweep::<Given<T>, ParseWhole<W>>(&given, "parse2", tally)?;
    sweep::<Given<T>, ParseAfter<W>>(&given, "parse", tally)?;
    sweep::<Given<T>, ToHeldTokens>(&given, "to_tokens", tally)?;
    sweep::<Given<T>, TreeCopy<W>>(&given, "try_clone", tally)?;
    Ok(given)
}

/// Makes each call on the input as a type that has a parser, and no canonical print.
pub(crate) fn as_parsed<T: Parse + ToTokens + Named + Drop, W: Ways<T>>(
    input: &Input<'_>,
    tally: &mut Tally,
) -> Result<(), Failure> {
    let _given: Given<T> = parsed::<T, W>(input, tally)?;
    Ok(())
}

/// The same as one that has a canonical print.
pub(crate) fn as_canonical<T: Canonical + Named + Drop, W: Ways<T>>(
    input: &Input<'_>,
    tally: &mut Tally,
) -> Result<(), Failure> {
    let given: Given<T> = parsed::<T, W>(input, tally)?;
    sweep::<Given<T>, CanonicalPrint>(&given, "canonical", tally)?;
    sweep::<Given<T>, SameForm>(&given, "same_form", tally)
}

/// What is asked of an item besides.
pub(crate) fn as_piece(input: &Input<'_>, tally: &mut Tally) -> Result<(), Failure> {
    let given: Given<Item> = Given::new(input)?;
    sweep::<Given<Item>, JoinItems>(&given, "join_items", tally)
}
