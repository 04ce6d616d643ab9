//! Cursors over the token trees of a stream.
ghost use Rattle.std.specs.Prelude.{◌≡◌, ◌<◌, ◌^◌, [], ◌∷◌, ◌++◌, length, MatchOption};
ghost use Rattle.syn_grammar.specs.Tokens.{end, ident, leaf, punct};
ghost use Rattle.syn_grammar.specs.Take as grammar;
ghost use Rattle.syn_grammar.specs.Take.{is_end, taken, take_group};
ghost use Rattle.syn_tokens.specs.Entries.{encode, decode, IsFlat};
ghost use Rattle.syn_tokens.specs.Places.{after};
ghost use Rattle.syn_tokens.specs.Cursors.{before_next, next_span, Closes};
ghost use Rattle.syn_tokens.specs.Delimiters.{delimiter_of};
ghost use Rattle.syn_tokens.specs.Firsts.{NoIdentFirst, NoPunctFirst};
ghost use Rattle.syn_tokens.specs.Punct.{is_joint};
ghost use Rattle.syn_tokens.specs.Spans.{at};
ghost use Rattle.syn_tokens.specs.Walks.{trees_of, in_turn};
ghost use Rattle.syn_tokens.specs.declared.stream.entry.Token.TheVariants as E;

use crate::delimiter::Delimiter;
use crate::ident::ident_ref::IdentRef;
use crate::literal::literal_ref::LiteralRef;
use crate::punct::Punct;
use crate::span::Span;
use crate::stream::entry::{Close, Entry, Token};
use crate::stream::iter::Iter;
use std::marker::Model;

/// A position in a stream: the token trees from there on, up to the end of the stream or of the enclosing group. They are
/// borrowed, so a cursor allocates nothing; `fork` makes another one at the same position.
#[derive(Drop)]
pub struct Cursor<'a> {
    entries: &'a [Entry],
    /// The number of trees.
    trees: usize,
}

impl<'a> Model for Cursor<'a> {
    ghost use Rattle.syn_grammar.specs.Tokens.{Stream};
    ghost use Rattle.syn_grammar.specs.Codes.{stream_code};
    ghost use Rattle.syn_tokens.specs.Entries.{decode, IsFlat};

    ghost Value = { Stream };

    ghost coded = { stream_code };

    ghost view = { λ c. decode c.entries.now };

    ghost invariant = { λ c. IsFlat c.entries.now c.trees };
}

/// A group in a stream: its delimiters, their spans, and a cursor over its content.
#[derive(Drop)]
pub struct GroupRef<'a> {
    pub delimiter: Delimiter,
    pub opening: Span,
    pub closing: Span,
    pub content: Cursor<'a>,
}

/// A borrowed token tree.
#[derive(Drop)]
pub enum TokenTreeRef<'a> {
    Ident(IdentRef<'a>),
    Literal(LiteralRef<'a>),
    Punct(Punct),
    Group(GroupRef<'a>),
}

/// The first entry, and the others.
#[inline(always)]
fn split_first(entries: &[Entry]) -> Option<(&Entry, &[Entry])>
    ensures { MatchOption result (entries.now ≡ []) (λ p. entries.now ≡ p.0.now ∷ p.1.now) }
{
    entries.split_first()
}

/// The first so many entries, the closing delimiter after them, and the others.
#[inline(always)]
fn split_close(entries: &[Entry], count: usize) -> Option<(&[Entry], Close, &[Entry])>
    ensures { MatchOption result (Closes entries.now count → ⊥)
        (λ p. (entries.now ≡ p.0.now ++ E.Close p.1 ∷ p.2.now) × (length p.0.now ≡ count)) }
{
    let (content, rest) = entries.split_at_checked(count)?;
    let (closing, rest) = split_first(rest)?;
    match closing.token() {
        Token::Close(close) => Some((content, close, rest)),
        Token::Ident(_) => None,
        Token::Literal(_) => None,
        Token::Punct(_) => None,
        Token::Open(_) => None,
    }
}

impl<'a> TokenTreeRef<'a> {
    /// The span; of a group, the span of its opening delimiter.
    pub fn span(&self) -> Span
        ensures { result ≡ next_span self.now }
    {
        match self {
            TokenTreeRef::Ident(ident) => ident.span,
            TokenTreeRef::Literal(literal) => literal.span,
            TokenTreeRef::Punct(punct) => punct.span,
            TokenTreeRef::Group(group) => group.opening,
        }
    }
}

impl<'a> Cursor<'a> {
    /// The cursor over these entries, which form so many trees.
    pub(crate) fn new(entries: &'a [Entry], trees: usize) -> Cursor<'a>
        requires { IsFlat entries.now trees }
        ensures { result ≡ decode entries.now }
    {
        Cursor { entries, trees }
    }

    /// An empty cursor.
    pub fn none() -> Cursor<'a>
        ensures { result ≡ end }
    {
        Cursor {
            entries: &[],
            trees: 0,
        }
    }

    /// Another cursor at the same position.
    pub fn fork(&self) -> Cursor<'a>
        ensures { result ≡ self.now }
    {
        Cursor {
            entries: self.entries,
            trees: self.trees,
        }
    }

    /// The entries of the trees.
    pub(crate) fn entries(&self) -> &'a [Entry]
        ensures { result.now ≡ encode self.now }
    {
        self.entries
    }

    /// The number of trees from here on; a group counts as one.
    pub fn len(&self) -> usize
        ensures { result ≡ grammar.length self.now }
    {
        self.trees
    }

    /// The first tree, and a cursor after it; none at the end. It allocates nothing, and takes constant time even for a group.
    #[inline(always)]
    pub fn split(&self) -> Option<(TokenTreeRef<'a>, Cursor<'a>)>
        ensures { MatchOption result (self.now ≡ end) (λ p. self.now ≡ before_next p.0 p.1) }
    {
        let (first, rest) = split_first(self.entries)?;
        let following = self.trees.saturating_sub(1);
        match first.token() {
            Token::Ident(ident) => Some((TokenTreeRef::Ident(ident), Cursor::new(rest, following))),
            Token::Literal(literal) => Some((
                TokenTreeRef::Literal(literal),
                Cursor::new(rest, following),
            )),
            Token::Punct(punct) => Some((TokenTreeRef::Punct(punct), Cursor::new(rest, following))),
            Token::Open(open) => {
                let (content, close, rest) = split_close(rest, open.skip)?;
                let inner = GroupRef {
                    delimiter: open.delimiter,
                    opening: open.span,
                    closing: close.span,
                    content: Cursor::new(content, close.trees),
                };
                Some((TokenTreeRef::Group(inner), Cursor::new(rest, following)))
            }
            Token::Close(_) => None,
        }
    }

    /// Whether there is no tree from here on.
    #[tactic(auto, using(crate::proofs::Streams::is_end_of))]
    #[inline(always)]
    pub fn is_empty(&self) -> bool
        ensures { result ≡ is_end self.now }
    {
        self.trees == 0
    }

    /// The identifier that is the first tree, and a cursor after it; none if the first tree is not an identifier, or there is
    /// none. This depends on the kind of one token only.
    #[inline(always)]
    pub fn split_ident(&self) -> Option<(IdentRef<'a>, Cursor<'a>)>
        ensures { MatchOption result (NoIdentFirst self.now) (λ p. self.now ≡ leaf (ident p.0.text) (at p.0.span) p.1) }
    {
        let (first, rest) = split_first(self.entries)?;
        let ident = first.as_ident()?;
        Some((ident, Cursor::new(rest, self.trees.saturating_sub(1))))
    }

    /// The character of a mark that is the first tree, and a cursor after it; none if the first tree is not such a character,
    /// or there is none. This depends on the kind of one token only.
    #[inline(always)]
    pub fn split_punct(&self) -> Option<(Punct, Cursor<'a>)>
        ensures { MatchOption result (NoPunctFirst self.now) (λ p. self.now ≡ punct p.0.character (is_joint p.0.spacing) (at p.0.span) p.1) }
    {
        let (first, rest) = split_first(self.entries)?;
        let punct = first.as_punct()?;
        Some((punct, Cursor::new(rest, self.trees.saturating_sub(1))))
    }

    /// Whether the first tree is a group with these delimiters. It doesn't search for the end of the group.
    #[inline(always)]
    pub fn is_at_group(&self, delimiter: Delimiter) -> bool
        ensures { result ≡ taken (take_group (delimiter_of delimiter) self.now) }
    {
        match split_first(self.entries) {
            Some((first, _)) => first.opens(delimiter),
            None => false,
        }
    }

    /// The trees from here on, in order and borrowed. It allocates nothing.
    #[tactic(auto, using(crate::proofs::Walks::whole, crate::proofs::Walks::counted))]
    pub fn iter(&self) -> Iter<'a>
        ensures stream { result ≡ self.now }
        ensures whole { in_turn (trees_of result) ≡ self.now }
        ensures bound { length (trees_of result) < 2 ^ 64 }
    {
        Iter::new(Cursor::new(self.entries, self.trees))
    }

    /// Skips so many trees, or all if there are fewer.
    pub(crate) fn skip(&mut self, count: usize)
        ensures { self.new ≡ after count self.old }
    {
        for i in 0..count {
            let Some((_, rest)) = self.split() else {
                return;
            };
            *self = rest;
        }
    }

    /// The entries of the first so many trees, or of all if there are fewer.
    pub(crate) fn front(&self, count: usize) -> &'a [Entry]
        ensures { result.now ≡ encode (grammar.first count self.now) }
    {
        let mut rest = self.fork();
        rest.skip(count);
        let (front, _) = self
            .entries
            .split_at(self.entries.len() - rest.entries.len());
        front
    }
}
