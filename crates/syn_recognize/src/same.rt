//! Whether tokens are the same, spans included.
ghost use Rattle.std.specs.Prelude.{◌≡◌, IsTrue};

use syn_tokens::stream::TokenStream;
use syn_tokens::stream::entry::{Entry, Token};

/// Whether both are the same tokens, spans included.
#[tactic(auto, using(crate::proofs::Exact::drop_same, crate::proofs::Exact::all_same))]
pub(crate) fn are_same(one: &TokenStream, other: &TokenStream) -> bool
    ensures { IsTrue result → one.now ≡ other.now }
{
    let (ones, others) = (one.entries(), other.entries());
    if ones.len() != others.len() {
        return false;
    }
    for i in 0..ones.len() {
        if !is_same_entry(&ones[i], &others[i]) {
            return false;
        }
    }
    true
}

/// Whether both are the same token or delimiter, spans included.
fn is_same_entry(one: &Entry, other: &Entry) -> bool
    ensures { IsTrue result → one.now ≡ other.now }
{
    let (one, other) = (one.token(), other.token());
    match (&one, &other) {
        (Token::Ident(x), Token::Ident(y)) => x.text() == y.text() && x.span == y.span,
        (Token::Literal(x), Token::Literal(y)) => {
            x.kind() == y.kind() && x.text() == y.text() && x.span == y.span
        }
        (Token::Punct(x), Token::Punct(y)) => {
            x.character() == y.character() && x.spacing == y.spacing && x.span == y.span
        }
        (Token::Open(x), Token::Open(y)) => {
            x.delimiter == y.delimiter && x.span == y.span && x.skip == y.skip
        }
        (Token::Close(x), Token::Close(y)) => {
            x.delimiter == y.delimiter && x.span == y.span && x.trees == y.trees
        }
        _ => false,
    }
}
