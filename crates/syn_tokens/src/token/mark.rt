//! Marks, such as `::`.
ghost use Rattle.std.specs.Prelude.{◌≡◌, OnOk, replicate};
ghost use Rattle.syn_grammar.specs.Words.{Text};
ghost use Rattle.syn_grammar.specs.Tokens.{end};
ghost use Rattle.syn_grammar.specs.Grammar.{spell};
ghost use Rattle.syn_tokens.specs.Building.{added};
ghost use Rattle.syn_tokens.specs.Faults.{expected};
ghost use Rattle.syn_tokens.specs.Leaves.{placed, syntax_of_mark};

use crate::span::Span;
use crate::stream::builder::StreamBuilder;
use crate::syntactic::Syntactic;
use std::alloc::AllocError;
use std::marker::PhantomData;

/// A kind of mark, by its `N` characters.
pub trait MarkKind<const N: usize> {
    ghost text: { Text };

    /// Appends the mark, its characters with these spans.
    fn print(spans: &[Span; N], out: &mut StreamBuilder) -> Result<(), AllocError>
        ensures prints { OnOk result (out.new ≡ added out.old (spell (placed text spans.now) end)) }
        ensures begins { out.new.before ≡ out.old.before };

    /// The error message if the mark is missing.
    fn expected() -> &'static str
        ensures { result.now ≡ expected text };
}

/// A mark of `N` characters, such as `::`. Marks of one kind are equal; spans are ignored.
#[derive_where(Clone, Copy, Debug, PartialEq, Eq)]
pub struct Mark<K, const N: usize> {
    /// The spans of its characters.
    #[derive_where(skip(EqHashOrd))]
    pub spans: [Span; N],
    kind: PhantomData<K>,
}

impl<K, const N: usize> Mark<K, N> {
    /// The mark with these spans of its characters.
    pub fn new(spans: [Span; N]) -> Mark<K, N>
        ensures { result.spans ≡ spans.entry }
    {
        Mark {
            spans,
            kind: PhantomData,
        }
    }
}

impl<K, const N: usize> Default for Mark<K, N> {
    /// The mark without a position: each of its characters has the span 0 to 0.
    fn default() -> Mark<K, N>
        ensures { result.spans ≡ replicate N (record { start = 0; end = 0 }) }
    {
        Mark::new([Span::call_site(); N])
    }
}

impl<K: MarkKind<N>, const N: usize> Syntactic for Mark<K, N> {
    ghost syntax = { λ m. syntax_of_mark K.text m.spans };
}
