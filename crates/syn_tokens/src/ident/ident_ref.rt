//! Identifiers borrowed from a stream.
ghost use Rattle.std.specs.Prelude.{◌≡◌, IfOk};
ghost use Rattle.syn_grammar.specs.Tokens.{same_text};
ghost use Rattle.syn_tokens.specs.Idents.{is_keyword};

use crate::ident::Ident;
use crate::span::Span;
use crate::text::Text;
use std::alloc::AllocError;
use std::marker::Model;

/// A borrowed identifier: of a stream, or of an owned identifier.
#[derive(Drop)]
pub struct IdentRef<'a> {
    text: &'a Text,
    keyword: bool,
    pub span: Span,
}

impl<'a> Model for IdentRef<'a> {
    ghost use Rattle.std.specs.Prelude.{◌≡◌};
    ghost use Rattle.syn_tokens.specs.Idents.{IdentValue, is_keyword};

    ghost Value = { IdentValue };

    ghost view = { λ i. record { text = i.text.now; span = i.span } };

    ghost invariant = { λ i. i.keyword ≡ is_keyword i.text.now };
}

impl<'a> IdentRef<'a> {
    /// The identifier of this text; the caller knows whether it is a keyword.
    #[inline(always)]
    pub(crate) fn new(text: &'a Text, keyword: bool, span: Span) -> IdentRef<'a>
        requires { keyword ≡ is_keyword text.now }
        ensures { result ≡ record { text = text.now; span = span } }
    {
        IdentRef {
            text,
            keyword,
            span,
        }
    }

    /// An owned copy with the same span. It allocates nothing, and fails only if there are 2^64 - 1 copies of the text.
    pub fn to_ident(&self) -> Result<Ident, AllocError>
        ensures { IfOk result (λ i. i ≡ self.now) }
    {
        Ok(Ident::of_text(self.text.share()?, self.keyword, self.span))
    }

    /// The text, with `r#` if the identifier is raw.
    pub fn text(&self) -> &'a str
        ensures { result.now ≡ self.now.text }
    {
        self.text.as_str()
    }

    /// Whether it is a keyword, such as `struct`; `r#struct` is a name.
    pub fn is_keyword(&self) -> bool
        ensures { result ≡ is_keyword self.now.text }
    {
        self.keyword
    }

    /// Whether its text is this one.
    #[tactic(auto, using(syn_grammar::proofs::Same::bytes_same_text))]
    pub fn is(&self, text: &str) -> bool
        ensures { result ≡ same_text self.now.text text.now }
    {
        self.text() == text
    }
}
