//! Opening invisible groups: a group at which the parser fails is replaced by its contents.
ghost use Rattle.std.specs.Prelude.{◌≡◌};
ghost use Rattle.syn_tokens.specs.Entries.{encode};
ghost use Rattle.syn_whole.specs.HiddenGroups.{invisible_in};

use crate::invisible::choice::{Usage, looked_through_at, refused_at, usage_of};
use crate::invisible::opening::{Opening, is_invisible};
use crate::invisible::rebuilt::opened;
use syn_parse::parse::{Parse, parse_whole};
use syn_tokens::error::Result;
use syn_tokens::stream::TokenStream;

mod beginnings;
mod choice;
mod opening;
mod rebuilt;

/// The largest number of rounds that open groups; each round parses the whole stream to find where.
const MOST: usize = 256;

/// Whether the stream contains an invisible group, at any depth.
#[tactic(auto, using(crate::proofs::HiddenGroups::invisible_step, crate::proofs::HiddenGroups::invisible_done))]
pub(crate) fn has_invisible(tokens: &TokenStream) -> bool
    ensures { result ≡ invisible_in (encode tokens.now) }
{
    for entry in tokens.entries() {
        if is_invisible(entry) {
            return true;
        }
    }
    false
}

/// Parses the stream as a `T`, with invisible groups opened where that is needed. Then it fails as `parse_whole` does.
pub(crate) fn parse_opened<T: Parse + Drop>(tokens: &TokenStream) -> Result<T> {
    let mut opening = Opening::new(tokens)?;
    if !open_traits::<T>(&mut opening)? {
        match parse_whole(tokens) {
            Ok(tree) => return Ok(tree),
            Err(error) if error.is_memory() || error.is_too_deep() => return Err(error),
            Err(_) => {}
        }
    }
    open_where_refused::<T>(&mut opening)?;
    parse_whole(&opened(&opening)?)
}

/// Opens the groups at which the parser of a `T` fails, and traits of impls that it reaches only then.
fn open_where_refused<T: Parse + Drop>(opening: &mut Opening<'_>) -> Result<()> {
    for _parse in 0..MOST {
        let Some(place) = refused_at::<T>(opening)? else {
            return Ok(());
        };
        if !opening.open_level(place) {
            let Some(group) = looked_through_at::<T>(opening, place)? else {
                return Ok(());
            };
            opening.open_run(group);
        }
        let _found = open_traits::<T>(opening)?;
    }
    Ok(())
}

/// Opens the groups around the traits of impls, since an impl is parsed by what the group of its first type contains. Stops at the
/// first one that the parser doesn't reach, since it fails at a group before it. Returns whether a group was opened.
fn open_traits<T: Parse + Drop>(opening: &mut Opening<'_>) -> Result<bool> {
    let mut found = false;
    for group in 0..opening.len() {
        if opening.is_trait(group) {
            match usage_of::<T>(opening, group)? {
                Usage::Parsed => {
                    opening.open_run(group);
                    found = true;
                }
                Usage::Stored => opening.mark_stored(group),
                Usage::Unreached => return Ok(found),
            }
        }
    }
    Ok(found)
}
