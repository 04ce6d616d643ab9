//! Comparisons that ignore spans.
ghost use Rattle.std.specs.Prelude.{◌≡◌, ◌↔◌, IsTrue};
ghost use Rattle.syn_grammar.specs.Grammar.{plain_syntax};
ghost use Rattle.syn_grammar.specs.Same.{same_syntax};
ghost use Rattle.syn_tokens.specs.Comparison.{same_by, same_equiv, same_per};
ghost use Rattle.syn_tokens.specs.InOrder.{in_order};
ghost use Rattle.syn_tokens.specs.Listing.{syntax_of_list};

use crate::ident::Ident;
use crate::lifetime::Lifetime;
use crate::literal::Literal;
use crate::punctuated::Punctuated;
use crate::stream::TokenStream;
use crate::syntactic::Syntactic;
use crate::token::{Mark, MarkKind, Word, WordKind};

/// Values that can be compared without their spans.
pub trait Compared: Syntactic {
    /// Whether both represent the same syntax, ignoring spans.
    fn is_same(&self, other: &Self) -> bool
        ensures same { result ≡ same_syntax (Self.syntax self.now) (Self.syntax other.now) };
}

impl Compared for Ident {
    #[tactic(auto, using(syn_grammar::proofs::Same::bytes_same_text))]
    fn is_same(&self, other: &Ident) -> bool {
        self == other
    }
}

impl Compared for Literal {
    #[tactic(auto, using(syn_grammar::proofs::Same::bytes_same_text))]
    fn is_same(&self, other: &Literal) -> bool {
        self == other
    }
}

impl Compared for Lifetime {
    fn is_same(&self, other: &Lifetime) -> bool {
        self.ident.is_same(&other.ident)
    }
}

impl Compared for TokenStream {
    fn is_same(&self, other: &TokenStream) -> bool {
        self == other
    }
}

/// Two words of one kind are the same.
impl<K: WordKind> Compared for Word<K> {
    #[tactic(auto, using(syn_grammar::proofs::Sets::same_text_refl))]
    fn is_same(&self, _other: &Word<K>) -> bool {
        true
    }
}

/// Two marks of one kind are the same.
impl<K: MarkKind<N>, const N: usize> Compared for Mark<K, N> {
    #[tactic(auto, using(crate::proofs::Comparisons::same_placed))]
    fn is_same(&self, _other: &Mark<K, N>) -> bool {
        true
    }
}

/// Both are present and the same, or both are absent.
impl<T: Compared> Compared for Option<T> {
    fn is_same(&self, other: &Option<T>) -> bool {
        match (self, other) {
            (Some(value), Some(other)) => value.is_same(other),
            (None, None) => true,
            (Some(_), None) => false,
            (None, Some(_)) => false,
        }
    }
}

impl<T: Compared> Compared for Box<T> {
    fn is_same(&self, other: &Box<T>) -> bool {
        (**self).is_same(&**other)
    }
}

impl<T: Compared, P: Compared> Compared for (T, P) {
    fn is_same(&self, other: &(T, P)) -> bool {
        self.0.is_same(&other.0) && self.1.is_same(&other.1)
    }
}

/// The same length, and the same values in order.
impl<T: Compared> Compared for Vec<T> {
    fn is_same(&self, other: &Vec<T>) -> bool {
        same_in_order(self.as_slice(), other.as_slice())
    }
}

#[tactic(auto, using(crate::proofs::Comparisons::unlike_lengths))]
fn same_in_order<T: Compared>(a: &[T], b: &[T]) -> bool
    ensures { result ≡ same_syntax (in_order T.syntax a.now) (in_order T.syntax b.now) }
{
    a.len() == b.len() && a.iter().zip(b).all(|(x, y)| x.is_same(y))
}

impl<T: Compared, P: Compared> Punctuated<T, P> {
    ghost use Rattle.syn_tokens.specs.Listing.{list_of, joined_of};

    /// Whether both have the same values and separators in order, ignoring spans.
    #[tactic(auto, using(crate::proofs::Comparisons::same_list, crate::proofs::Comparisons::same_joined))]
    pub fn is_same(&self, other: &Punctuated<T, P>) -> bool
        ensures list { result ≡ same_syntax (list_of T.syntax P.syntax self.now.pairs self.now.last) (list_of T.syntax P.syntax other.now.pairs other.now.last) }
        ensures joined { result ≡ same_syntax (joined_of T.syntax P.syntax self.now.pairs self.now.last) (joined_of T.syntax P.syntax other.now.pairs other.now.last) }
    {
        if !same_in_order(self.pairs(), other.pairs()) {
            return false;
        }
        match (self.trailing_value(), other.trailing_value()) {
            (Some(a), Some(b)) => a.is_same(b),
            (None, None) => true,
            (Some(_), None) => false,
            (None, Some(_)) => false,
        }
    }
}

impl<T: Compared, P: Compared> Compared for Punctuated<T, P> {
    fn is_same(&self, other: &Punctuated<T, P>) -> bool {
        self.is_same(other)
    }
}

/// Two are equal exactly if they are once every span is 0 to 0: the same values and separators in order.
impl<T: Compared, P: Compared> PartialEq for Punctuated<T, P> {
    ghost eq = { same_by (syntax_of_list T.syntax P.syntax) };

    ghost laws = { same_per (syntax_of_list T.syntax P.syntax) };

    #[tactic(auto, using(syn_grammar::proofs::Same::same_syntax_plain))]
    fn eq(&self, other: &Punctuated<T, P>) -> bool
        ensures same { result ≡ same_syntax (syntax_of_list T.syntax P.syntax self.now) (syntax_of_list T.syntax P.syntax other.now) }
        ensures equal { IsTrue result ↔ (plain_syntax (syntax_of_list T.syntax P.syntax self.now) ≡ plain_syntax (syntax_of_list T.syntax P.syntax other.now)) }
    {
        self.is_same(other)
    }
}

impl<T: Compared, P: Compared> Eq for Punctuated<T, P> {
    ghost laws = { same_equiv (syntax_of_list T.syntax P.syntax) };
}
