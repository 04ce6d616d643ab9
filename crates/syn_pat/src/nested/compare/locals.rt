//! Patterns of locals, with a type or without one.
ghost use Rattle.std.specs.Prelude.{◌≡◌};
ghost use Rattle.syn_grammar.specs.Grammar.{Both, Nothing, Right, Syntax};
ghost use Rattle.syn_grammar.specs.Same.{same_syntax};
ghost use Rattle.syn_pat.specs.Patterns.{syntax_of_Pat};
ghost use Rattle.syn_pat.specs.Patterns.{local_pattern};

use crate::Pat;
use crate::pat::PatType;
use syn_tokens::syntactic::compare::Compared;

/// Whether both are the same, each with its type or without one.
pub fn same_local_pattern(pat: &Pat, other: &Pat) -> bool
    ensures { result ≡ same_syntax (local_pattern (syntax_of_Pat pat.now)) (local_pattern (syntax_of_Pat other.now)) }
{
    match pat {
        Pat::Ident(_) => same_as_untyped(pat, other),
        Pat::Paren(_) => same_as_untyped(pat, other),
        Pat::Path(_) => same_as_untyped(pat, other),
        Pat::Tuple(_) => same_as_untyped(pat, other),
        Pat::TupleStruct(_) => same_as_untyped(pat, other),
        Pat::Ty(typed) => same_as_typed(typed, other),
        Pat::Wild(_) => same_as_untyped(pat, other),
    }
}

/// Whether the other is the same as one without a type.
#[tactic(auto, using(syn_grammar::proofs::Same::and_true))]
fn same_as_untyped(pat: &Pat, other: &Pat) -> bool
    ensures { result ≡ same_syntax (Both (syntax_of_Pat pat.now) (Right Nothing)) (local_pattern (syntax_of_Pat other.now)) }
{
    match other {
        Pat::Ident(_) => pat.is_same(other),
        Pat::Paren(_) => pat.is_same(other),
        Pat::Path(_) => pat.is_same(other),
        Pat::Tuple(_) => pat.is_same(other),
        Pat::TupleStruct(_) => pat.is_same(other),
        Pat::Ty(typed) => is_untyped(typed),
        Pat::Wild(_) => pat.is_same(other),
    }
}

/// Whether the other is the same as one with its type.
fn same_as_typed(typed: &PatType, other: &Pat) -> bool
    ensures { result ≡ same_syntax (local_pattern typed.now) (local_pattern (syntax_of_Pat other.now)) }
{
    match other {
        Pat::Ident(_) => is_untyped(typed),
        Pat::Paren(_) => is_untyped(typed),
        Pat::Path(_) => is_untyped(typed),
        Pat::Tuple(_) => is_untyped(typed),
        Pat::TupleStruct(_) => is_untyped(typed),
        Pat::Ty(other) => same_typed(typed, other),
        Pat::Wild(_) => is_untyped(typed),
    }
}

/// Whether both are the same, where both have a type.
#[tactic(auto, using(crate::proofs::Patterns::typed_local))]
fn same_typed(typed: &PatType, other: &PatType) -> bool
    ensures { result ≡ same_syntax (local_pattern typed.now) (local_pattern other.now) }
{
    let (_pat, _other) = (&typed.pat, &other.pat);
    typed.is_same(other)
}

/// Never: one that has a type isn't one without.
#[tactic(auto, using(crate::proofs::Patterns::typed_local, crate::proofs::Patterns::untyped_apart, crate::proofs::Patterns::apart_untyped))]
fn is_untyped(typed: &PatType) -> bool
    ensures same { (s : Syntax) → result ≡ same_syntax (local_pattern typed.now) (Both s (Right Nothing)) }
    ensures turned { (s : Syntax) → result ≡ same_syntax (Both s (Right Nothing)) (local_pattern typed.now) }
{
    let _pat = &typed.pat;
    false
}
