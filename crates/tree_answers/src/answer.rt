//! What is answered to a question.

use crate::failure::Failure;
use std::alloc::Global;
use std::fmt;
use syn::token::TokenStream;
use syn::{Error, Result};
use syn_outlines::stream_shown;

/// Where a text is refused: the byte of which is told, and the one at which reading it stopped. A fault that more than one token tells is
/// told of at another byte than that.
#[derive(Clone, Copy, PartialEq, Eq)]
pub(crate) struct Place {
    pub(crate) reported: usize,
    pub(crate) stopped: usize,
    /// What is told is a fault of which trees tell at the byte at which reading stopped, where they keep the item as its tokens.
    pub(crate) is_of_item: bool,
}

/// What is told of an impl's trait, and of the receiver of a function, as of one among statements.
const OF_ITEMS: [&str; 4] = [
    "expected trait path",
    "inherent impls cannot be negative",
    "unexpected method receiver",
    "unexpected second method receiver",
];

/// What is answered to a question about a text.
#[derive(PartialEq, Drop)]
pub(crate) enum Answer {
    /// The tokens of its print, each with its spans.
    Printed(String),
    /// It can be read.
    Read,
    /// Whether it has the form of another text.
    Compared(bool),
    /// It is refused.
    Refused(Place),
    /// Memory is refused.
    Memory,
}

impl Answer {
    /// The answer that a print is.
    pub(crate) fn of_print(
        alloc: Global,
        found: &Result<TokenStream>,
    ) -> std::result::Result<Answer, Failure> {
        match found {
            Ok(tokens) => Ok(Answer::Printed(stream_shown(alloc, tokens)?)),
            Err(error) => Ok(Answer::of_error(error)),
        }
    }

    /// The answer whether there is a print.
    pub(crate) fn of_check(found: &Result<()>) -> Answer {
        match found {
            Ok(()) => Answer::Read,
            Err(error) => Answer::of_error(error),
        }
    }

    /// The answer whether there is a print, where this is the answer what it is.
    pub(crate) fn as_check(&self) -> Answer {
        match self {
            Answer::Printed(_) | Answer::Read | Answer::Compared(_) => Answer::Read,
            Answer::Refused(place) => Answer::Refused(*place),
            Answer::Memory => Answer::Memory,
        }
    }

    /// The answer whether two texts have the same form.
    pub(crate) fn of_form(found: &Result<bool>) -> Answer {
        match found {
            Ok(is_same) => Answer::Compared(*is_same),
            Err(error) => Answer::of_error(error),
        }
    }

    fn of_error(error: &Error) -> Answer {
        if error.is_memory() || error.is_too_deep() {
            return Answer::Memory;
        }
        let start = error.span().start;
        Answer::Refused(Place {
            reported: start,
            stopped: start,
            is_of_item: error
                .faults()
                .iter()
                .any(|fault| OF_ITEMS.contains(&fault.text)),
        })
    }

    /// Whether this answer by trees is the same as that by the rule. Of an item that is kept as its tokens some faults are told at the
    /// byte at which reading stopped.
    pub(crate) fn is_as_by_rule(&self, by_rule: &Answer) -> bool {
        match (self, by_rule) {
            (Answer::Refused(tree), Answer::Refused(rule)) => {
                tree.reported == rule.reported || rule.is_of_item && tree.reported == rule.stopped
            }
            _ => self == by_rule,
        }
    }
}

impl fmt::Display for Answer {
    fn fmt<W: fmt::Write>(&self, f: &mut fmt::Formatter<W>) -> fmt::Result {
        match self {
            Answer::Printed(shown) => write!(f, "{shown:?}"),
            Answer::Read => f.write_str("read"),
            Answer::Compared(true) => f.write_str("the same"),
            Answer::Compared(false) => f.write_str("another"),
            Answer::Refused(place) if place.reported == place.stopped => {
                write!(f, "refused at {}", place.reported)
            }
            Answer::Refused(place) => {
                write!(f, "refused at {} or {}", place.reported, place.stopped)
            }
            Answer::Memory => f.write_str("memory refused"),
        }
    }
}
