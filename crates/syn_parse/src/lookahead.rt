//! Lookahead at one position of a buffer, with an error for all that was tried.
ghost use Rattle.std.specs.Prelude.{◌≡◌, [], ◌∷◌, ◌++◌, ◌≤◌, length, take};
ghost use Rattle.syn_parse.specs.Form.{meets};
ghost use Rattle.syn_parse.specs.Looked.{HasFaultsNext, MissedBy, texts, reported, unexpected};

use crate::buffer::ParseBuffer;
use crate::read::Peek;
use std::marker::Model;
use syn_tokens::error::Error;

/// The largest number of names in an error.
const MOST: usize = 4;

/// A position in a buffer, and the names of the tokens that were tried there without success: the first four.
#[derive(Drop)]
pub struct Lookahead1<'a> {
    buffer: ParseBuffer<'a>,
    missed: [&'static str; 4],
    count: usize,
}

impl<'a> Model for Lookahead1<'a> {
    ghost use Rattle.std.specs.Prelude.{◌≡◌, ◌≤◌, length, take};
    ghost use Rattle.syn_parse.specs.Looked.{LookaheadValue, coded_lookahead, texts};

    ghost Value = { LookaheadValue };

    ghost coded = { coded_lookahead };

    ghost view = { λ l. record { stream = l.buffer; missed = texts (take l.count l.missed) } };

    ghost invariant = { λ l. (l.count ≤ 4) × (length l.missed ≡ 4) };
}

impl<'a> ParseBuffer<'a> {
    ghost use Rattle.syn_parse.specs.Looked.{nothing_missed};

    /// Starts a lookahead at this position of the buffer. It allocates nothing.
    pub fn lookahead1(&self) -> Lookahead1<'a>
        ensures { result ≡ nothing_missed self.now }
    {
        Lookahead1 {
            buffer: self.fork(),
            missed: ["unexpected token"; 4],
            count: 0,
        }
    }
}

impl<'a> Lookahead1<'a> {
    /// Whether the next token is a `T`. If not, the name of `T` is recorded for the error, if there are fewer than four. It
    /// allocates nothing.
    pub fn peek<T: Peek>(&mut self) -> bool
        ensures seen { result ≡ meets T.look self.old.stream }
        ensures place { self.new.stream ≡ self.old.stream }
        ensures missed { MissedBy result T.fault self.old.missed self.new.missed }
    {
        if self.buffer.peek::<T>() {
            return true;
        }
        self.miss(T::expected());
        false
    }

    /// Records a name, if there are fewer than four.
    fn miss(&mut self, name: &'static str)
        ensures { self.new ≡ record self.old { missed = take 4 (self.old.missed ++ name.now ∷ []) } }
    {
        if self.count < MOST {
            self.missed[self.count] = name;
            self.count += 1;
        }
    }

    /// The error that none of the tried tokens is next: at the next token, one fault such as ``expected `struct` `` for each of
    /// the first four names; if none was tried, `unexpected token`, or `unexpected end of input` at the end of a group or
    /// stream. It allocates nothing.
    pub fn error(self) -> Error
        ensures { HasFaultsNext self.entry.stream (reported self.entry.stream self.entry.missed) result }
    {
        let here = self.buffer.span();
        let Some((first, others)) = self.missed().split_first() else {
            return Error::new(here, self.unexpected());
        };
        let mut error = Error::new(here, *first);
        for name in others {
            error.combine(Error::new(here, *name));
        }
        error
    }

    /// The names that were tried without success.
    fn missed(&self) -> &[&'static str]
        ensures names { texts result.now ≡ self.now.missed }
        ensures few { length result.now ≤ 4 }
    {
        &self.missed[..self.count]
    }

    /// The error message for any next token, or for none.
    fn unexpected(&self) -> &'static str
        ensures { result.now ≡ unexpected self.now.stream }
    {
        if self.buffer.is_empty() {
            "unexpected end of input"
        } else {
            "unexpected token"
        }
    }
}
