//! The kind of the next token tree, from a single lookup.
ghost use Rattle.syn_tokens.specs.Cursors.{before_next};
ghost use Rattle.syn_parse.specs.Firsts.{Begins};

use crate::buffer::ParseBuffer;
use syn_tokens::delimiter::Delimiter;
use syn_tokens::stream::cursor::{Cursor, TokenTreeRef};

/// The kind of the next token tree.
#[derive(Clone, Copy)]
pub enum First {
    /// There is no next tree.
    Ended,
    /// An identifier that is not a keyword.
    Name,
    /// A keyword.
    Keyword,
    Literal,
    /// A character of a mark.
    Mark(char),
    Group(Delimiter),
}

/// The kind of a token tree.
fn first_of(next: &TokenTreeRef<'_>, rest: &Cursor<'_>) -> First
    ensures { Begins result (before_next next.now rest.now) }
{
    match next {
        TokenTreeRef::Ident(ident) => {
            if ident.is_keyword() {
                First::Keyword
            } else {
                First::Name
            }
        }
        TokenTreeRef::Literal(_) => First::Literal,
        TokenTreeRef::Punct(punct) => First::Mark(punct.character()),
        TokenTreeRef::Group(group) => First::Group(group.delimiter),
    }
}

impl<'a> ParseBuffer<'a> {
    /// The kind of the next token tree: a caller fetches it once, and tests many conditions on it.
    pub fn first(&self) -> First
        ensures { Begins result self.now }
    {
        match self.tokens.split() {
            Some((next, rest)) => first_of(&next, &rest),
            None => First::Ended,
        }
    }
}
