//! Calls of parse functions.
ghost use Rattle.std.specs.Prelude.{◌≡◌, Result, OnErr};
ghost use Rattle.std.specs.Fn.{FnOnceTakesAtMut};
ghost use Rattle.syn_parse.specs.Calls.{IsAnswer};

use crate::buffer::ParseBuffer;
use syn_tokens::error::{Error, Result};

/// The return type of a parse function: a `Result`, whose error may hold a reference. (A function with the bound `F: Fn(..) ->
/// Result<T>` can't be called if the error holds one.)
pub trait Answer<E> {
    /// The parsed value.
    type Node;

    ghost answers: { Self → Result Self.Node E };

    /// The result itself.
    fn answer(self) -> std::result::Result<Self::Node, E>
        ensures { result ≡ answers self };
}

impl<T, E> Answer<E> for std::result::Result<T, E> {
    type Node = T;

    ghost answers = { λ r. r };

    fn answer(self) -> std::result::Result<T, E> {
        self
    }
}

impl<'a> ParseBuffer<'a> {
    /// Calls a parse function with this buffer, and returns its result. On an error, the buffer keeps its position, whatever
    /// the function consumed.
    pub fn call<R: Answer<Error>, F: FnOnce(&mut ParseBuffer<'_>) -> R>(
        &mut self,
        f: F,
    ) -> Result<R::Node>
        requires { FnOnceTakesAtMut F.FnOnce f self.old }
        ensures answered { IsAnswer F.FnOnce R.answers f self.old result self.new }
        ensures unchanged { OnErr result (self.new ≡ self.old) }
    {
        let mut ahead = self.fork();
        let value = f(&mut ahead).answer()?;
        self.advance_to(&ahead);
        Ok(value)
    }
}
