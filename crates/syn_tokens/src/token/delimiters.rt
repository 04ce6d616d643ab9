//! The delimiters of groups.
ghost use Rattle.std.specs.Prelude.{◌≡◌, true, OnOk};
ghost use Rattle.syn_grammar.specs.Words.{Text};
ghost use Rattle.syn_grammar.specs.Tokens.{Delimiter};
ghost use Rattle.syn_tokens.specs.Building.{into_group, is_open, out_of_group};
ghost use Rattle.syn_tokens.specs.Spans.{at};

use crate::delimiter::Delimiter;
use crate::span::Span;
use crate::stream::builder::StreamBuilder;
use std::alloc::AllocError;
use std::marker::PhantomData;

/// A kind of group, by its delimiters.
pub trait DelimiterKind {
    ghost delimiter: { Delimiter };

    /// The delimiters.
    fn delimiter() -> Delimiter
        ensures { delimiter_of result ≡ delimiter };

    /// The error message if the group is missing.
    ghost fault: { Text };

    /// The text of that message, such as `expected parentheses`.
    fn expected() -> &'static str
        ensures { result.now ≡ fault };

    ghost use Rattle.syn_tokens.specs.Delimiters.{delimiter_of};
}

/// The two delimiters of a group. Delimiters of one kind are equal; spans are ignored.
#[derive_where(Clone, Copy, Debug, PartialEq, Eq)]
pub struct Delimiters<K> {
    #[derive_where(skip(EqHashOrd))]
    pub opening: Span,
    #[derive_where(skip(EqHashOrd))]
    pub closing: Span,
    kind: PhantomData<K>,
}

impl<K> Delimiters<K> {
    /// The delimiters with these spans.
    pub fn new(opening: Span, closing: Span) -> Delimiters<K>
        ensures open { result.opening ≡ opening }
        ensures close { result.closing ≡ closing }
    {
        Delimiters {
            opening,
            closing,
            kind: PhantomData,
        }
    }
}

impl<K> Default for Delimiters<K> {
    /// The delimiters without a position: their spans are 0 to 0.
    fn default() -> Delimiters<K>
        ensures open { result.opening ≡ record { start = 0; end = 0 } }
        ensures close { result.closing ≡ record { start = 0; end = 0 } }
    {
        Delimiters::new(Span::call_site(), Span::call_site())
    }
}

impl<K: DelimiterKind> Delimiters<K> {
    /// Opens a group with these delimiters.
    #[tactic(auto, using(crate::proofs::Prints::opened_group))]
    pub fn open(&self, out: &mut StreamBuilder) -> Result<(), AllocError>
        ensures opens { OnOk result (out.new ≡ into_group K.delimiter (at self.now.opening) out.old) }
        ensures begins { out.new.before ≡ out.old.before }
    {
        out.open(K::delimiter(), self.opening)
    }

    /// Closes the innermost open group, with this closing delimiter.
    pub fn close(&self, out: &mut StreamBuilder) -> Result<(), AllocError>
        requires { is_open out.old ≡ true }
        ensures closes { OnOk result (out.new ≡ out_of_group (at self.now.closing) out.old) }
        ensures begins { out.new.before ≡ out.old.before }
    {
        out.close_group(self.closing)
    }
}
