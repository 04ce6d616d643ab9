//! The entries of a token stream: one for each token, and two for each group, its delimiters.
ghost use Rattle.std.specs.Prelude.{◌≡◌, IfOk, MatchOption};
ghost use Rattle.syn_tokens.specs.Entries.{entry_span};
ghost use Rattle.syn_tokens.specs.Firsts as firsts;
ghost use Rattle.syn_tokens.specs.Firsts.{IsNoIdent, IsNoPunct};
ghost use Rattle.syn_tokens.specs.declared.stream.entry.Token.TheVariants as E;

use crate::delimiter::Delimiter;
use crate::ident::Ident;
use crate::ident::ident_ref::IdentRef;
use crate::literal::literal_ref::LiteralRef;
use crate::literal::{LitKind, Literal};
use crate::punct::{Punct, Spacing};
use crate::span::Span;
use crate::stream::compact_span::CompactSpan;
use crate::text::Text;
use std::alloc::{AllocError, Global};
use std::marker::Model;
use std::rc::Rc;

/// The opening delimiter of a group.
#[derive(Clone, Copy, Debug)]
pub struct Open {
    pub delimiter: Delimiter,
    pub span: Span,
    /// The number of entries between it and its closing delimiter.
    pub skip: usize,
}

/// The closing delimiter of a group.
#[derive(Clone, Copy, Debug)]
pub struct Close {
    pub delimiter: Delimiter,
    pub span: Span,
    /// The number of token trees in the group.
    pub trees: usize,
}

/// A token in a stream, or a delimiter of a group.
#[derive(Drop)]
pub enum Token<'a> {
    Ident(IdentRef<'a>),
    Literal(LiteralRef<'a>),
    Punct(Punct),
    Open(Open),
    Close(Close),
}

/// The stored form of a token or delimiter: 16 bytes, if it has a compact span.
#[derive(Drop)]
pub struct Entry {
    inner: Packed,
}

/// The token or delimiter, with its span.
#[derive(Drop)]
enum Packed {
    /// Whether it is a keyword, its span, and its text.
    Ident(bool, CompactSpan, Text),
    Literal(LitKind, CompactSpan, Text),
    Punct(Spacing, char, CompactSpan),
    /// With the number of entries before its closing delimiter.
    Open(Delimiter, CompactSpan, usize),
    /// With the number of token trees in the group.
    Close(Delimiter, CompactSpan, usize),
    Far(Rc<Far>),
}

/// A token or delimiter whose span is not compact.
#[derive(Drop)]
enum Far {
    Ident(Ident),
    Literal(Literal),
    Punct(Punct),
    Open(Open),
    Close(Close),
}

impl Model for Entry {
    ghost use Rattle.syn_tokens.specs.declared.stream.entry.Token.{Token};
    ghost use Rattle.syn_tokens.specs.Packed.{unpacked, IsPacked};

    ghost Value = { Token };

    ghost view = { λ e. unpacked e.inner };

    ghost invariant = { λ e. IsPacked e.inner };
}

impl Far {
    ghost use Rattle.syn_tokens.specs.Packed.{far_token};

    /// The token or delimiter.
    fn token(&self) -> Token<'_>
        ensures { result ≡ far_token self.now }
    {
        match self {
            Far::Ident(ident) => Token::Ident(ident.as_ref()),
            Far::Literal(literal) => Token::Literal(literal.as_ref()),
            Far::Punct(punct) => Token::Punct(*punct),
            Far::Open(open) => Token::Open(*open),
            Far::Close(close) => Token::Close(*close),
        }
    }

    /// The identifier, if it is one.
    #[cold]
    fn as_ident(&self) -> Option<IdentRef<'_>>
        ensures { MatchOption result (IsNoIdent (far_token self.now)) (λ ident. far_token self.now ≡ E.Ident ident) }
    {
        match self {
            Far::Ident(ident) => Some(ident.as_ref()),
            Far::Literal(_) => None,
            Far::Punct(_) => None,
            Far::Open(_) => None,
            Far::Close(_) => None,
        }
    }

    /// The character of a mark, if it is one.
    #[cold]
    fn as_punct(&self) -> Option<Punct>
        ensures { MatchOption result (IsNoPunct (far_token self.now)) (λ punct. far_token self.now ≡ E.Punct punct) }
    {
        match self {
            Far::Ident(_) => None,
            Far::Literal(_) => None,
            Far::Punct(punct) => Some(*punct),
            Far::Open(_) => None,
            Far::Close(_) => None,
        }
    }

    /// Whether it is the opening delimiter of a group with these delimiters.
    #[cold]
    fn opens(&self, delimiter: Delimiter) -> bool
        ensures { result ≡ firsts.opens delimiter (far_token self.now) }
    {
        match self {
            Far::Ident(_) => false,
            Far::Literal(_) => false,
            Far::Punct(_) => false,
            Far::Open(open) => delimiter == open.delimiter,
            Far::Close(_) => false,
        }
    }
}

impl Entry {
    ghost use Rattle.syn_tokens.specs.Packed.{far_token};

    fn far(alloc: Global, far: Far) -> Result<Entry, AllocError>
        ensures { IfOk result (λ entry. entry ≡ far_token far) }
    {
        Ok(Entry {
            inner: Packed::Far(Rc::new(alloc, far)?),
        })
    }

    /// The entry of an identifier. It allocates only if the span is not compact.
    #[inline(always)]
    pub fn ident(alloc: Global, ident: Ident) -> Result<Entry, AllocError>
        ensures { IfOk result (λ entry. entry ≡ E.Ident ident) }
    {
        let Some(place) = CompactSpan::of(ident.span) else {
            return Entry::far(alloc, Far::Ident(ident));
        };
        let (keyword, text) = ident.into_parts();
        Ok(Entry {
            inner: Packed::Ident(keyword, place, text),
        })
    }

    /// The entry of a literal. It allocates only if the span is not compact.
    #[inline(always)]
    pub fn literal(alloc: Global, literal: Literal) -> Result<Entry, AllocError>
        ensures { IfOk result (λ entry. entry ≡ E.Literal literal) }
    {
        let Some(place) = CompactSpan::of(literal.span) else {
            return Entry::far(alloc, Far::Literal(literal));
        };
        let (kind, text) = literal.into_parts();
        Ok(Entry {
            inner: Packed::Literal(kind, place, text),
        })
    }

    /// The entry of a mark's character. It allocates only if the span is not compact.
    #[inline(always)]
    pub fn punct(alloc: Global, punct: Punct) -> Result<Entry, AllocError>
        ensures { IfOk result (λ entry. entry ≡ E.Punct punct) }
    {
        let Some(place) = CompactSpan::of(punct.span) else {
            return Entry::far(alloc, Far::Punct(punct));
        };
        Ok(Entry {
            inner: Packed::Punct(punct.spacing, punct.character(), place),
        })
    }

    /// The entry of an opening delimiter. It allocates only if the span is not compact.
    #[inline(always)]
    pub(crate) fn open(alloc: Global, opening: Open) -> Result<Entry, AllocError>
        ensures { IfOk result (λ entry. entry ≡ E.Open opening) }
    {
        let Some(place) = CompactSpan::of(opening.span) else {
            return Entry::far(alloc, Far::Open(opening));
        };
        Ok(Entry {
            inner: Packed::Open(opening.delimiter, place, opening.skip),
        })
    }

    /// The entry of a closing delimiter. It allocates only if the span is not compact.
    #[inline(always)]
    pub(crate) fn close(alloc: Global, closing: Close) -> Result<Entry, AllocError>
        ensures { IfOk result (λ entry. entry ≡ E.Close closing) }
    {
        let Some(place) = CompactSpan::of(closing.span) else {
            return Entry::far(alloc, Far::Close(closing));
        };
        Ok(Entry {
            inner: Packed::Close(closing.delimiter, place, closing.trees),
        })
    }

    /// The token or delimiter.
    #[inline(always)]
    pub fn token(&self) -> Token<'_>
        ensures { result ≡ self.now }
    {
        match &self.inner {
            Packed::Ident(keyword, place, text) => {
                Token::Ident(IdentRef::new(text, *keyword, place.span()))
            }
            Packed::Literal(kind, place, text) => {
                Token::Literal(LiteralRef::new(*kind, text, place.span()))
            }
            Packed::Punct(spacing, character, place) => {
                Token::Punct(Punct::new(*character, *spacing, place.span()))
            }
            Packed::Open(delimiter, place, skip) => Token::Open(Open {
                delimiter: *delimiter,
                span: place.span(),
                skip: *skip,
            }),
            Packed::Close(delimiter, place, trees) => Token::Close(Close {
                delimiter: *delimiter,
                span: place.span(),
                trees: *trees,
            }),
            Packed::Far(far) => far.token(),
        }
    }

    /// The identifier; none if it is something else, which depends on its kind only.
    #[inline(always)]
    pub(crate) fn as_ident(&self) -> Option<IdentRef<'_>>
        ensures { MatchOption result (IsNoIdent self.now) (λ ident. self.now ≡ E.Ident ident) }
    {
        match &self.inner {
            Packed::Ident(keyword, place, text) => {
                Some(IdentRef::new(text, *keyword, place.span()))
            }
            Packed::Literal(_, _, _) => None,
            Packed::Punct(_, _, _) => None,
            Packed::Open(_, _, _) => None,
            Packed::Close(_, _, _) => None,
            Packed::Far(far) => far.as_ident(),
        }
    }

    /// The character of a mark; none if it is something else, which depends on its kind only.
    #[inline(always)]
    pub(crate) fn as_punct(&self) -> Option<Punct>
        ensures { MatchOption result (IsNoPunct self.now) (λ punct. self.now ≡ E.Punct punct) }
    {
        match &self.inner {
            Packed::Ident(_, _, _) => None,
            Packed::Literal(_, _, _) => None,
            Packed::Punct(spacing, character, place) => {
                Some(Punct::new(*character, *spacing, place.span()))
            }
            Packed::Open(_, _, _) => None,
            Packed::Close(_, _, _) => None,
            Packed::Far(far) => far.as_punct(),
        }
    }

    /// Whether it is the opening delimiter of a group with these delimiters.
    #[inline(always)]
    pub(crate) fn opens(&self, delimiter: Delimiter) -> bool
        ensures { result ≡ firsts.opens delimiter self.now }
    {
        match &self.inner {
            Packed::Ident(_, _, _) => false,
            Packed::Literal(_, _, _) => false,
            Packed::Punct(_, _, _) => false,
            Packed::Open(opening, _, _) => delimiter == *opening,
            Packed::Close(_, _, _) => false,
            Packed::Far(far) => far.opens(delimiter),
        }
    }

    /// A copy with the same span. It allocates nothing, and fails only if there are 2^64 - 1 copies of it or of its text.
    pub fn copy(&self) -> Result<Entry, AllocError>
        ensures { IfOk result (λ entry. entry ≡ self.now) }
    {
        let inner = match &self.inner {
            Packed::Ident(keyword, place, text) => Packed::Ident(*keyword, *place, text.share()?),
            Packed::Literal(kind, place, text) => Packed::Literal(*kind, *place, text.share()?),
            Packed::Punct(spacing, character, place) => Packed::Punct(*spacing, *character, *place),
            Packed::Open(delimiter, place, skip) => Packed::Open(*delimiter, *place, *skip),
            Packed::Close(delimiter, place, trees) => Packed::Close(*delimiter, *place, *trees),
            Packed::Far(far) => Packed::Far(far.clone()?),
        };
        Ok(Entry { inner })
    }

    /// The span.
    pub fn span(&self) -> Span
        ensures { result ≡ entry_span self.now }
    {
        match self.token() {
            Token::Ident(ident) => ident.span,
            Token::Literal(literal) => literal.span,
            Token::Punct(punct) => punct.span,
            Token::Open(open) => open.span,
            Token::Close(close) => close.span,
        }
    }
}
