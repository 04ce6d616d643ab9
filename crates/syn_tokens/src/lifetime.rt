//! Lifetimes.
ghost use Rattle.syn_tokens.specs.Leaves.{syntax_of_apostrophe};

use crate::ident::Ident;
use crate::span::Span;
use crate::syntactic::Syntactic;

/// A lifetime, such as `'a`: the span of its `'`, and its identifier, which may have any text. Two are equal if their
/// identifiers are.
#[derive(Debug, Drop)]
#[derive_where(PartialEq, Eq)]
pub struct Lifetime {
    #[derive_where(skip(EqHashOrd))]
    pub apostrophe: Span,
    pub ident: Ident,
}

impl Syntactic for Lifetime {
    ghost syntax = { λ l. syntax_of_apostrophe (l.apostrophe, l.ident) };
}
