//! The iterator over the trees of a stream.
ghost use Rattle.std.specs.Prelude.{◌≡◌, ◌<◌, ◌^◌, length};
ghost use Rattle.std.specs.Iterator.{YieldsFirst, item_count};
ghost use Rattle.syn_tokens.specs.Walks.{trees_of, in_turn};

use crate::stream::TokenStream;
use crate::stream::cursor::{Cursor, TokenTreeRef};
use std::alloc::AllocError;
use std::marker::Model;

/// The trees of a stream or of a group in it, in order and borrowed. A group is one tree, which is skipped in constant time
/// like a token; its content has an iterator of its own.
#[derive(Drop)]
pub struct Iter<'a> {
    rest: Cursor<'a>,
}

impl<'a> Model for Iter<'a> {
    ghost use Rattle.syn_grammar.specs.Tokens.{Stream};
    ghost use Rattle.syn_grammar.specs.Codes.{stream_code};

    ghost Value = { Stream };

    ghost coded = { stream_code };

    ghost view = { λ i. i.rest };
}

impl TokenStream {
    /// The trees, in order and borrowed. It allocates nothing.
    pub fn iter(&self) -> Iter<'_>
        ensures stream { result ≡ self.now }
        ensures whole { in_turn (trees_of result) ≡ self.now }
        ensures bound { length (trees_of result) < 2 ^ 64 }
    {
        self.cursor().iter()
    }
}

impl<'a> Iter<'a> {
    /// The trees from this position on.
    pub(super) fn new(rest: Cursor<'a>) -> Iter<'a>
        ensures { result ≡ rest.entry }
    {
        Iter { rest }
    }
}

impl<'a> Iterator for Iter<'a> {
    type Item = TokenTreeRef<'a>;

    ghost next_gives = { YieldsFirst trees_of };

    ghost remaining = { item_count trees_of };

    #[tactic(auto, using(crate::proofs::Walks::first_tree))]
    fn next(&mut self) -> Option<TokenTreeRef<'a>> {
        let (tree, rest) = self.rest.split()?;
        self.rest = rest;
        Some(tree)
    }
}

impl<'a> Clone for Iter<'a> {
    ghost is_clone = { λ i copy. copy ≡ i };

    ghost is_infallible = { λ _. Unit {0} };

    fn clone(&self) -> Result<Iter<'a>, AllocError> {
        Ok(Iter {
            rest: self.rest.fork(),
        })
    }
}

impl<'a> IntoIterator for &'a TokenStream {
    type Item = TokenTreeRef<'a>;

    type IntoIter = Iter<'a>;

    ghost into_iter_gives = { λ stream i. i ≡ stream.now };

    fn into_iter(self) -> Iter<'a> {
        self.iter()
    }
}
