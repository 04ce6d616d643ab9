//! Custom keywords and marks, which the grammar of Rust need not know.
ghost use Rattle.std.specs.Prelude.{◌≡◌, ◌<◌, ◌+◌, nat_lt, true, IfOk};
ghost use Rattle.syn_grammar.specs.Words.{Text};
ghost use Rattle.syn_tokens.specs.Spelled.{is_plain_word};
ghost use Rattle.syn_tokens.specs.Faults.{expected};
ghost use Rattle.syn_tokens.specs.Leaves.{syntax_of_mark, syntax_of_word};
ghost use Rattle.syn_tokens.specs.Punct.{all_punct, is_joint};

use crate::error;
use crate::ident::Ident;
use crate::print::{Print, ToTokens};
use crate::punct::Spacing;
use crate::span::Span;
use crate::stream::builder::StreamBuilder;
use crate::syntactic::Syntactic;
use crate::syntactic::compare::Compared;
use crate::syntactic::try_clone::TryClone;
use std::alloc::{AllocError, Global};
use std::marker::PhantomData;

/// A kind of custom keyword, by its text: ASCII letters and `_`.
pub trait CustomKeywordKind {
    ghost text: { Text };

    /// The text.
    fn text() -> &'static str
        ensures { result.now ≡ text };

    /// The error message if the keyword is missing: ``expected `route` ``, with its text.
    fn expected() -> &'static str
        ensures { result.now ≡ expected text };

    /// It consists of ASCII letters and `_`.
    ghost plain: { is_plain_word text ≡ true };
}

/// A custom keyword: the identifier of this text, whether or not it is a keyword of Rust. Keywords of one kind are equal; spans
/// are ignored.
#[derive_where(Clone, Copy, Debug, PartialEq, Eq)]
pub struct CustomKeyword<K> {
    #[derive_where(skip(EqHashOrd))]
    pub span: Span,
    kind: PhantomData<K>,
}

impl<K> CustomKeyword<K> {
    /// The keyword with this span.
    pub fn new(span: Span) -> CustomKeyword<K>
        ensures { result.span ≡ span }
    {
        CustomKeyword {
            span,
            kind: PhantomData,
        }
    }
}

impl<K> Default for CustomKeyword<K> {
    /// The keyword without a position: its span is 0 to 0.
    fn default() -> CustomKeyword<K>
        ensures { result.span ≡ record { start = 0; end = 0 } }
    {
        CustomKeyword::new(Span::call_site())
    }
}

impl<K: CustomKeywordKind> CustomKeyword<K> {
    /// The keyword as an identifier; fails only if memory is refused.
    #[tactic(auto, using(crate::specs::Spelled::word_is_identifier))]
    pub fn to_ident(&self, alloc: Global) -> Result<Ident, AllocError>
        ensures { IfOk result (λ i. i ≡ record { text = K.text; span = self.now.span }) }
    {
        Ident::of_identifier(alloc, K::text(), self.span)
    }
}

impl<K: CustomKeywordKind> Syntactic for CustomKeyword<K> {
    ghost syntax = { λ w. syntax_of_word K.text w.span };
}

impl<K: CustomKeywordKind> TryClone for CustomKeyword<K> {
    fn try_clone(&self, _alloc: Global) -> error::Result<CustomKeyword<K>> {
        Ok(CustomKeyword::new(self.span))
    }
}

/// Two keywords of one kind are the same.
impl<K: CustomKeywordKind> Compared for CustomKeyword<K> {
    #[tactic(auto, using(syn_grammar::proofs::Sets::same_text_refl))]
    fn is_same(&self, _other: &CustomKeyword<K>) -> bool {
        true
    }
}

impl<K: CustomKeywordKind> Print for CustomKeyword<K> {
    #[tactic(auto, using(crate::specs::Spelled::word_is_identifier))]
    fn print_in(&self, out: &mut StreamBuilder) -> Result<(), AllocError> {
        out.add_word(K::text(), self.span)
    }
}

impl<K: CustomKeywordKind> ToTokens for CustomKeyword<K> {}

/// A kind of custom mark, by its `N` characters, two or three.
pub trait CustomPunctuationKind<const N: usize> {
    ghost text: { Text };

    /// Its characters.
    fn characters() -> [char; N]
        ensures { result ≡ text };

    /// The error message if the mark is missing: ``expected `~>` ``, with its characters.
    fn expected() -> &'static str
        ensures { result.now ≡ expected text };

    /// Marks are made of its characters.
    ghost printable: { all_punct text ≡ true };
}

/// A custom mark: these characters, all but the last joint, whether or not they are a mark of Rust. Marks of one kind are
/// equal; spans are ignored.
#[derive_where(Clone, Copy, Debug, PartialEq, Eq)]
pub struct CustomPunctuation<K, const N: usize> {
    /// The spans of its characters.
    #[derive_where(skip(EqHashOrd))]
    pub spans: [Span; N],
    kind: PhantomData<K>,
}

impl<K, const N: usize> CustomPunctuation<K, N> {
    /// The mark with these spans of its characters.
    pub fn new(spans: [Span; N]) -> CustomPunctuation<K, N>
        ensures { result.spans ≡ spans.entry }
    {
        CustomPunctuation {
            spans,
            kind: PhantomData,
        }
    }
}

impl<K: CustomPunctuationKind<N>, const N: usize> Syntactic for CustomPunctuation<K, N> {
    ghost syntax = { λ m. syntax_of_mark K.text m.spans };
}

impl<K: CustomPunctuationKind<N>, const N: usize> TryClone for CustomPunctuation<K, N> {
    fn try_clone(&self, _alloc: Global) -> error::Result<CustomPunctuation<K, N>> {
        Ok(CustomPunctuation::new(self.spans))
    }
}

/// Two marks of one kind are the same.
impl<K: CustomPunctuationKind<N>, const N: usize> Compared for CustomPunctuation<K, N> {
    #[tactic(auto, using(crate::proofs::Comparisons::same_placed))]
    fn is_same(&self, _other: &CustomPunctuation<K, N>) -> bool {
        true
    }
}

impl<K: CustomPunctuationKind<N>, const N: usize> Print for CustomPunctuation<K, N> {
    #[tactic(auto, using(crate::proofs::Prints::prints, crate::proofs::Marks::marks))]
    fn print_in(&self, out: &mut StreamBuilder) -> Result<(), AllocError> {
        let characters = K::characters();
        for i in 0..N {
            out.add_punct(characters[i], spacing(i, N), self.spans[i])?;
        }
        Ok(())
    }
}

/// The spacing of the character at this index in a mark of so many.
fn spacing(index: usize, count: usize) -> Spacing
    requires { index < count }
    ensures { is_joint result ≡ nat_lt (index + 1) count }
{
    if index + 1 < count {
        Spacing::Joint
    } else {
        Spacing::Alone
    }
}

impl<K: CustomPunctuationKind<N>, const N: usize> ToTokens for CustomPunctuation<K, N> {}
