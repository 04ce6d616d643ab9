//! The next token, split off the remaining tokens.
ghost use Rattle.std.specs.Prelude.{ℕ, ◌≡◌, ◌∷◌, [], ◌<◌, IfSome, MatchOption, None, Some, true};
ghost use Rattle.syn_grammar.specs.Words.{Text};
ghost use Rattle.syn_grammar.specs.Tokens.{leaf, punct, group};
ghost use Rattle.syn_grammar.specs.Take.{left, add_char, take_lifetime, take_group};
ghost use Rattle.syn_tokens.specs.Spans.{at};
ghost use Rattle.syn_tokens.specs.Delimiters.{delimiter_of};
ghost use Rattle.syn_tokens.specs.Punct.{is_joint};
ghost use Rattle.syn_tokens.specs.Leaves.{ident_leaf, literal_leaf};
ghost use Rattle.syn_parse.specs.FirstTokens.{spelled, NoIdent, NoLiteral, NoPunct};

use syn_tokens::delimiter::Delimiter;
use syn_tokens::ident::ident_ref::IdentRef;
use syn_tokens::literal::literal_ref::LiteralRef;
use syn_tokens::punct::{Punct, Spacing};
use syn_tokens::span::Span;
use syn_tokens::stream::cursor::{Cursor, GroupRef, TokenTreeRef};

/// The identifier that is next, and the tokens after it.
#[tactic(auto, using(crate::proofs::FirstTokens::no_ident_first))]
#[inline(always)]
pub(crate) fn split_ident<'a>(cursor: &Cursor<'a>) -> Option<(IdentRef<'a>, Cursor<'a>)>
    ensures { MatchOption result (NoIdent cursor.now)
        (λ p. cursor.now ≡ leaf (ident_leaf p.0) (at p.0.span) p.1) }
{
    let (ident, rest) = cursor.split_ident()?;
    Some((ident, rest))
}

/// The literal that is next, and the tokens after it.
#[tactic(auto, using(crate::proofs::FirstTokens::no_literal_at_ident), unfolding(syn_grammar::specs::Take::take_token))]
#[inline(always)]
pub(crate) fn split_literal<'a>(cursor: &Cursor<'a>) -> Option<(LiteralRef<'a>, Cursor<'a>)>
    ensures { MatchOption result (NoLiteral cursor.now)
        (λ p. cursor.now ≡ leaf (literal_leaf p.0) (at p.0.span) p.1) }
{
    let (next, rest) = cursor.split()?;
    match next {
        TokenTreeRef::Ident(_) => None,
        TokenTreeRef::Literal(literal) => Some((literal, rest)),
        TokenTreeRef::Punct(_) => None,
        TokenTreeRef::Group(_) => None,
    }
}

/// The character of a mark that is next, and the tokens after it.
#[tactic(auto, using(crate::proofs::FirstTokens::no_punct_first))]
#[inline(always)]
pub(crate) fn split_punct<'a>(cursor: &Cursor<'a>) -> Option<(Punct, Cursor<'a>)>
    ensures { MatchOption result (NoPunct cursor.now)
        (λ p. cursor.now ≡ punct p.0.character (is_joint p.0.spacing) (at p.0.span) p.1) }
{
    let (punct, rest) = cursor.split_punct()?;
    Some((punct, rest))
}

/// The last character of a mark, whatever its spacing, and the tokens after it.
#[tactic(auto, using(crate::proofs::FirstTokens::last_is), unfolding(syn_grammar::specs::Take::left))]
#[inline(always)]
pub(crate) fn split_last<'a>(cursor: &Cursor<'a>, c: char) -> Option<(Span, Cursor<'a>)>
    ensures found { MatchOption result (spelled (c ∷ []) cursor.now ≡ None)
        (λ p. spelled (c ∷ []) cursor.now ≡ Some ((c, at p.0) ∷ [], p.1)) }
    ensures following { IfSome result (λ p. left p.1 < left cursor.now) }
{
    let (punct, rest) = split_punct(cursor)?;
    if punct.character() == c {
        Some((punct.span, rest))
    } else {
        None
    }
}

/// A character that is joint to the next one of its mark, and the tokens after it.
#[tactic(auto, using(crate::proofs::FirstTokens::joint_is, crate::proofs::FirstTokens::alone_is), unfolding(syn_grammar::specs::Take::left))]
#[inline(always)]
pub(crate) fn split_joint<'a>(cursor: &Cursor<'a>, c: char) -> Option<(Span, Cursor<'a>)>
    ensures found { MatchOption result ((e : ℕ) (l : Text) → spelled (c ∷ e ∷ l) cursor.now ≡ None)
        (λ p. (e : ℕ) (l : Text) → spelled (c ∷ e ∷ l) cursor.now ≡ add_char c (at p.0) (spelled (e ∷ l) p.1)) }
    ensures following { IfSome result (λ p. left p.1 < left cursor.now) }
{
    let (punct, rest) = split_punct(cursor)?;
    if punct.character() == c && punct.spacing == Spacing::Joint {
        Some((punct.span, rest))
    } else {
        None
    }
}

/// The group with these delimiters that is next, and the tokens after it.
#[tactic(auto, unfolding(syn_grammar::specs::Take::take_group, syn_grammar::specs::Take::left))]
pub(crate) fn split_group<'a>(
    cursor: &Cursor<'a>,
    delimiter: Delimiter,
) -> Option<(GroupRef<'a>, Cursor<'a>)>
    ensures found { MatchOption result (take_group (delimiter_of delimiter) cursor.now ≡ None)
        (λ p. take_group (delimiter_of delimiter) cursor.now
        ≡ Some (record { opening = at p.0.opening; closing = at p.0.closing; content = p.0.content; rest = p.1 })) }
    ensures inside { IfSome result (λ p. left p.0.content < left cursor.now) }
    ensures following { IfSome result (λ p. left p.1 < left cursor.now) }
{
    let (next, rest) = cursor.split()?;
    match next {
        TokenTreeRef::Ident(_) => None,
        TokenTreeRef::Literal(_) => None,
        TokenTreeRef::Punct(_) => None,
        TokenTreeRef::Group(inner) => {
            if inner.delimiter == delimiter {
                Some((inner, rest))
            } else {
                None
            }
        }
    }
}

/// The `'` and the identifier of the lifetime that is next, and the tokens after them.
#[tactic(auto, unfolding(syn_grammar::specs::Take::take_lifetime))]
pub(crate) fn split_lifetime<'a>(cursor: &Cursor<'a>) -> Option<(Punct, IdentRef<'a>, Cursor<'a>)>
    ensures { MatchOption result (take_lifetime cursor.now ≡ None)
        (λ p. cursor.now ≡ punct 39 true (at p.0.span) (leaf (ident_leaf p.1) (at p.1.span) p.2)) }
{
    let (apostrophe, rest) = split_punct(cursor)?;
    if apostrophe.character() != '\'' || apostrophe.spacing != Spacing::Joint {
        return None;
    }
    let (next, rest) = rest.split()?;
    match next {
        TokenTreeRef::Ident(ident) => Some((apostrophe, ident, rest)),
        TokenTreeRef::Literal(_) => None,
        TokenTreeRef::Punct(_) => None,
        TokenTreeRef::Group(_) => None,
    }
}
