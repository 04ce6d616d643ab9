//! Literals borrowed from a stream.
ghost use Rattle.std.specs.Prelude.{◌≡◌, IfOk};
ghost use Rattle.syn_grammar.specs.Tokens.{same_text};
ghost use Rattle.syn_tokens.specs.Literals.{spelling};

use crate::literal::{LitKind, Literal};
use crate::span::Span;
use crate::text::Text;
use std::alloc::AllocError;
use std::marker::Model;

/// A borrowed literal: of a stream, or of an owned literal.
#[derive(Drop)]
pub struct LiteralRef<'a> {
    kind: LitKind,
    text: &'a Text,
    pub span: Span,
}

impl<'a> Model for LiteralRef<'a> {
    ghost use Rattle.syn_tokens.specs.Literals.{LiteralValue};

    ghost Value = { LiteralValue };

    ghost view = { λ l. record { kind = l.kind; text = l.text.now; span = l.span } };
}

impl<'a> LiteralRef<'a> {
    /// The literal of this kind with this text.
    #[inline(always)]
    pub(crate) fn new(kind: LitKind, text: &'a Text, span: Span) -> LiteralRef<'a>
        ensures { result ≡ record { kind = kind; text = text.now; span = span } }
    {
        LiteralRef { kind, text, span }
    }

    /// An owned copy with the same span. It allocates nothing, and fails only if there are 2^64 - 1 copies of the text.
    pub fn to_literal(&self) -> Result<Literal, AllocError>
        ensures { IfOk result (λ l. l ≡ self.now) }
    {
        Ok(Literal::of_text(self.kind, self.text.share()?, self.span))
    }

    /// The kind.
    pub fn kind(&self) -> LitKind
        ensures { result ≡ self.now.kind }
    {
        self.kind
    }

    /// The text, with quotes and suffix.
    pub fn text(&self) -> &'a str
        ensures { result.now ≡ self.now.text }
    {
        self.text.as_str()
    }

    /// Whether both have the same kind and text; spans are ignored.
    #[tactic(auto, using(syn_grammar::proofs::Same::bytes_same_text))]
    pub(crate) fn is_same(&self, other: &LiteralRef<'_>) -> bool
        ensures { result ≡ same_text (spelling self.now) (spelling other.now) }
    {
        self.kind == other.kind && self.text() == other.text()
    }
}
