//! The choice of the invisible group that is opened next.
use crate::invisible::beginnings::{
    begins_binding, begins_item_or_macro, begins_operand, begins_type, is_mark, is_word,
};
use crate::invisible::opening::Opening;
use crate::invisible::rebuilt::{Probe, numbered};
use syn_parse::parse::{Parse, parse_whole};
use syn_tokens::error::Result;
use syn_tokens::stream::TokenStream;

/// How the parser uses the tokens of a group.
#[derive(Clone, Copy)]
pub(crate) enum Usage {
    /// It parses them.
    Parsed,
    /// It stores them verbatim.
    Stored,
    /// It fails before them.
    Unreached,
}

/// How the parser uses a group at its position.
enum Position {
    Operand,
    Type,
    Other,
}

/// The index of the token at which the parser of a `T` fails. None if it succeeds, or if the nesting is too deep.
pub(crate) fn refused_at<T: Parse + Drop>(opening: &Opening<'_>) -> Result<Option<usize>> {
    refusal::<T>(numbered(opening, None)?)
}

/// The same for tokens whose spans are their indices.
fn refusal<T: Parse + Drop>(numbered: TokenStream) -> Result<Option<usize>> {
    match parse_whole::<T>(&numbered) {
        Ok(_tree) => Ok(None),
        Err(error) => {
            if error.is_too_deep() {
                return Ok(None);
            }
            if error.is_memory() {
                return Err(error);
            }
            Ok(Some(error.span().start))
        }
    }
}

/// The group to open if the parser fails at a token: one that starts there; one right before it, or before the modifiers before it,
/// that was taken for an empty visibility; one right before it or around it that is not an operand or a type; or one right after
/// it, inside a mark.
pub(crate) fn looked_through_at<T: Parse + Drop>(
    opening: &Opening<'_>,
    place: usize,
) -> Result<Option<usize>> {
    if opening.begins_group(place) {
        return Ok(Some(place));
    }
    if let Some(group) = opening.group_before(place) {
        if is_looked_through::<T>(opening, group)? {
            return Ok(Some(group));
        }
    }
    if let Some(group) = opening.empty_before_modifiers(place) {
        if is_looked_through::<T>(opening, group)? {
            return Ok(Some(group));
        }
    }
    if let Some(group) = opening.group_around(place) {
        if is_looked_through::<T>(opening, group)? {
            return Ok(Some(group));
        }
    }
    Ok(after_mark(opening, place))
}

/// The group right after the characters of the mark at this index.
fn after_mark(opening: &Opening<'_>, place: usize) -> Option<usize> {
    let mut last = place;
    for _character in 0..2 {
        let following = opening.following(last)?;
        if opening.begins_group(following) {
            return Some(following);
        }
        if !opening.is_joint(following) {
            return None;
        }
        last = following;
    }
    None
}

/// Whether the group is neither an operand nor a type: its position allows none, or its contents start something else.
fn is_looked_through<T: Parse + Drop>(opening: &Opening<'_>, group: usize) -> Result<bool> {
    let first = opening.seen_from(group.saturating_add(1));
    if is_word(opening, first, "pub") {
        return Ok(false);
    }
    match position_of::<T>(opening, group)? {
        Position::Other => Ok(true),
        Position::Operand => {
            if !begins_operand(opening, first) {
                return Ok(true);
            }
            Ok(begins_item_or_macro(opening, first) && passes::<T>(opening, group, Probe::Item)?)
        }
        Position::Type => {
            if !begins_type(opening, first) || is_after_impl(opening, group, first) {
                return Ok(true);
            }
            Ok(begins_binding(opening, first) && passes::<T>(opening, group, Probe::Lifetime)?)
        }
    }
}

/// Whether the generics of an impl start here.
fn is_after_impl(opening: &Opening<'_>, group: usize, first: usize) -> bool {
    match opening.before(group) {
        Some(word) => is_word(opening, word, "impl") && is_mark(opening, first, '<'),
        None => false,
    }
}

/// How the parser uses a group at this position.
fn position_of<T: Parse + Drop>(opening: &Opening<'_>, group: usize) -> Result<Position> {
    if passes::<T>(opening, group, Probe::Number)? {
        Ok(Position::Operand)
    } else if passes::<T>(opening, group, Probe::Name)? {
        Ok(Position::Type)
    } else {
        Ok(Position::Other)
    }
}

/// How the parser uses the tokens in place of the group.
pub(crate) fn usage_of<T: Parse + Drop>(opening: &Opening<'_>, group: usize) -> Result<Usage> {
    let usage = match refusal::<T>(numbered(opening, Some((group, Probe::Mark)))?)? {
        Some(place) if place < group => Usage::Unreached,
        Some(place) if place == group => Usage::Parsed,
        _ => Usage::Stored,
    };
    Ok(usage)
}

/// Whether the parser doesn't fail at a probe in place of the group.
fn passes<T: Parse + Drop>(opening: &Opening<'_>, group: usize, probe: Probe) -> Result<bool> {
    match refusal::<T>(numbered(opening, Some((group, probe)))?)? {
        Some(place) => Ok(place != group),
        None => Ok(true),
    }
}
