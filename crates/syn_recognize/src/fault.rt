//! Error messages of forms that have a text of their own.
ghost use Rattle.syn_recognize.specs.Stops.{IsFault};

use crate::stop::{Stop, unexpected};
use syn_parse::buffer::ParseBuffer;

/// Why a form isn't read.
#[derive(Clone, Copy)]
pub enum Fault {
    /// Nothing is accepted here.
    Unexpected,
    /// A list of statements doesn't end here.
    MissingEnd,
    /// A statement doesn't end.
    MissingSemi,
    /// A field without a name has a default.
    DefaultValue,
    /// `break` has a value.
    BreakValue,
}

impl Fault {
    /// The fault at the next token; of a default value, at the token after its `=`.
    pub(crate) fn stop(self, input: &ParseBuffer<'_>) -> Stop
        ensures { IsFault result }
    {
        match self {
            Fault::Unexpected => unexpected(input, "unexpected token"),
            Fault::MissingEnd => unexpected(input, "unexpected token, expected `;`"),
            Fault::MissingSemi => unexpected(input, "expected semicolon"),
            Fault::DefaultValue => unexpected(
                &input.past(),
                "field default value is only supported in structs with named fields",
            ),
            Fault::BreakValue => unexpected(input, "`break` with a value is not read here"),
        }
    }
}
