//! Equality of token trees and streams, which ignores spans and keeps spacing.
ghost use Rattle.std.specs.Prelude.{◌≡◌, ◌↔◌, ◌∷◌, [], IsTrue};
ghost use Rattle.syn_grammar.specs.Tokens.{end, plain};
ghost use Rattle.syn_grammar.specs.Same.{same_stream};
ghost use Rattle.syn_tokens.specs.Trees.{before};
ghost use Rattle.syn_tokens.specs.SameEntries.{same_entry, same_entries};

use crate::stream::TokenStream;
use crate::stream::entry::{Entry, Token};
use crate::stream::tree::TokenTree;

/// Whether both are the same token, or the same delimiter. All closing delimiters count as the same: the opening delimiters
/// distinguish the groups.
fn same_entry(a: &Entry, b: &Entry) -> bool
    ensures { result ≡ same_entry a.now b.now }
{
    let (a, b) = (a.token(), b.token());
    match (&a, &b) {
        (Token::Ident(x), Token::Ident(y)) => x.is(y.text()),
        (Token::Literal(x), Token::Literal(y)) => x.is_same(y),
        (Token::Punct(x), Token::Punct(y)) => x == y,
        (Token::Open(x), Token::Open(y)) => x.delimiter == y.delimiter,
        (Token::Close(_), Token::Close(_)) => true,
        _ => false,
    }
}

/// Whether both have the same entries in order.
#[tactic(auto, using(crate::proofs::SameEntries::unlike_lengths))]
fn same_entries(a: &[Entry], b: &[Entry]) -> bool
    ensures { result ≡ same_entries a.now b.now }
{
    a.len() == b.len() && a.iter().zip(b).all(|(x, y)| same_entry(x, y))
}

/// Two are equal exactly if they are once every span is 0 to 0: the same tokens with the same spacing.
impl PartialEq for TokenStream {
    ghost use Rattle.syn_tokens.specs.SameStreams.{same_stream_per};

    ghost eq = { same_stream };

    ghost laws = { same_stream_per };

    #[tactic(auto, using(crate::proofs::SameEntries::same_encoded, syn_grammar::proofs::Same::same_stream_plain))]
    fn eq(&self, other: &TokenStream) -> bool
        ensures same { result ≡ same_stream self.now other.now }
        ensures plain { IsTrue result ↔ (plain self.now ≡ plain other.now) }
    {
        same_entries(self.entries(), other.entries())
    }
}

impl Eq for TokenStream {
    ghost use Rattle.syn_tokens.specs.SameStreams.{same_stream_equiv};

    ghost laws = { same_stream_equiv };
}

impl PartialEq for TokenTree {
    ghost use Rattle.std.specs.Cmp.{on_per};
    ghost use Rattle.syn_tokens.specs.SameStreams.{same_stream_per};

    ghost eq = { λ a b. same_stream (before a end) (before b end) };

    ghost laws = { on_per (λ t. before t end) same_stream_per };

    #[tactic(auto, using(syn_grammar::proofs::Same::and_true))]
    fn eq(&self, other: &TokenTree) -> bool {
        match (self, other) {
            (TokenTree::Ident(x), TokenTree::Ident(y)) => x == y,
            (TokenTree::Literal(x), TokenTree::Literal(y)) => x == y,
            (TokenTree::Punct(x), TokenTree::Punct(y)) => x == y,
            (TokenTree::Group(x), TokenTree::Group(y)) => {
                x.delimiter == y.delimiter && x.stream == y.stream
            }
            _ => false,
        }
    }
}

impl Eq for TokenTree {
    ghost use Rattle.std.specs.Cmp.{on_equiv};
    ghost use Rattle.syn_tokens.specs.SameStreams.{same_stream_equiv};

    ghost laws = { on_equiv (λ t. before t end) same_stream_equiv };
}
