//! Token trees.
ghost use Rattle.std.specs.Prelude.{◌≡◌};

use crate::delimiter::Delimiter;
use crate::ident::Ident;
use crate::literal::Literal;
use crate::punct::Punct;
use crate::span::Span;
use crate::stream::TokenStream;

/// A delimited stream.
#[derive(Drop)]
pub struct Group {
    pub delimiter: Delimiter,
    pub stream: TokenStream,
    /// The span of the opening delimiter.
    pub opening: Span,
    /// The span of the closing delimiter.
    pub closing: Span,
}

/// A token, or a group of token trees.
#[derive(Drop)]
pub enum TokenTree {
    Group(Group),
    Ident(Ident),
    Punct(Punct),
    Literal(Literal),
}

impl TokenTree {
    ghost use Rattle.syn_tokens.specs.Trees.{span_of};

    /// The span; of a group, the span of its opening delimiter.
    pub fn span(&self) -> Span
        ensures { result ≡ span_of self.now }
    {
        match self {
            TokenTree::Group(group) => group.opening,
            TokenTree::Ident(ident) => ident.span,
            TokenTree::Punct(punct) => punct.span,
            TokenTree::Literal(literal) => literal.span,
        }
    }
}
