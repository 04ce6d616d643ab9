//! Words, such as `struct`.
ghost use Rattle.std.specs.Prelude.{◌≡◌, true, IfOk};
ghost use Rattle.syn_grammar.specs.Words.{Text};
ghost use Rattle.syn_tokens.specs.Spelled.{is_plain_word};
ghost use Rattle.syn_tokens.specs.Faults.{expected};
ghost use Rattle.syn_tokens.specs.Leaves.{syntax_of_word, is_known_word};

use crate::ident::Ident;
use crate::span::Span;
use crate::syntactic::Syntactic;
use std::alloc::{AllocError, Global};
use std::marker::PhantomData;

/// A kind of word, by its text.
pub trait WordKind {
    ghost text: { Text };

    /// The text.
    fn text() -> &'static str
        ensures { result.now ≡ text };

    /// The error message if the word is missing: ``expected `struct` ``, with its text.
    fn expected() -> &'static str
        ensures { result.now ≡ expected text };

    /// Some rule of the grammar may require it.
    ghost known: { is_known_word text ≡ true };

    /// It consists of letters, or is `_`.
    ghost plain: { is_plain_word text ≡ true };
}

/// A word, such as `struct`. Words of one kind are equal; spans are ignored.
#[derive_where(Clone, Copy, Debug, PartialEq, Eq)]
pub struct Word<K> {
    #[derive_where(skip(EqHashOrd))]
    pub span: Span,
    kind: PhantomData<K>,
}

impl<K> Word<K> {
    /// The word with this span.
    pub fn new(span: Span) -> Word<K>
        ensures { result.span ≡ span }
    {
        Word {
            span,
            kind: PhantomData,
        }
    }
}

impl<K> Default for Word<K> {
    /// The word without a position: its span is 0 to 0.
    fn default() -> Word<K>
        ensures { result.span ≡ record { start = 0; end = 0 } }
    {
        Word::new(Span::call_site())
    }
}

impl<K: WordKind> Word<K> {
    /// The word as an identifier.
    #[tactic(auto, using(crate::specs::Spelled::word_is_identifier))]
    pub fn to_ident(&self, alloc: Global) -> Result<Ident, AllocError>
        ensures { IfOk result (λ i. i ≡ record { text = K.text; span = self.now.span }) }
    {
        Ident::of_identifier(alloc, K::text(), self.span)
    }
}

impl<K: WordKind> Syntactic for Word<K> {
    ghost syntax = { λ w. syntax_of_word K.text w.span };
}
