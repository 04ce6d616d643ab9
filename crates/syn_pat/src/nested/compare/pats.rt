//! Where the comparisons of patterns lead back to each other.
ghost use Rattle.std.specs.Prelude.{◌≡◌, ◌<◌, ℕ};
ghost use Rattle.syn_grammar.specs.Same.{same_syntax};
ghost use Rattle.syn_lower.specs.Sizes.{tree_size};
ghost use Rattle.syn_grammar.specs.Grammar.{Syntax, Both, Right, Nothing, Node};
ghost use Rattle.syn_pat.specs.Patterns.{by_path, in_parentheses, syntax_of_Pat};

use crate::Pat;
use crate::nested::compare::{CompareNested, CompareOf, Knot};
use crate::pat::{PatParen, PatPath, PatTuple, PatTupleStruct, PatType};
use syn_tokens::syntactic::compare::Compared;

/// Never: after one pattern alone a tuple has a comma.
#[tactic(auto, using(syn_lower::proofs::Types::paren_no_tuple, syn_lower::proofs::Types::tuple_no_paren))]
fn is_tuple(paren: &PatParen, tuple: &PatTuple) -> bool
    ensures same { result ≡ same_syntax (in_parentheses paren.now) (in_parentheses tuple.now) }
    ensures turned { result ≡ same_syntax (in_parentheses tuple.now) (in_parentheses paren.now) }
{
    let (_pat, _elems) = (&paren.pat, &tuple.elems);
    false
}

/// Never: no parentheses follow a path alone.
#[tactic(auto, using(syn_grammar::proofs::Same::and_false))]
fn is_tuple_struct(path: &PatPath, tuple: &PatTupleStruct) -> bool
    ensures same { result ≡ same_syntax (by_path (Both path.now (Right Nothing))) (by_path tuple.now) }
    ensures turned { result ≡ same_syntax (by_path tuple.now) (by_path (Both path.now (Right Nothing))) }
{
    let (_path, _elems) = (&path.path, &tuple.elems);
    false
}

/// Never: a pattern with its type is in no node.
#[tactic(auto, using(crate::proofs::Patterns::typed_apart, crate::proofs::Patterns::apart_typed))]
fn is_untyped(typed: &PatType) -> bool
    ensures same { (s : Syntax) → result ≡ same_syntax typed.now (Node s) }
    ensures turned { (s : Syntax) → result ≡ same_syntax (Node s) typed.now }
{
    let _pat = &typed.pat;
    false
}

/// Two patterns, by what they are.
#[tactic(auto, using(syn_grammar::proofs::Same::and_true))]
fn same_variant<N: CompareOf<Pat>>(nested: &N, pat: &Pat, other: &Pat) -> bool
    requires { (n : ℕ) → n < tree_size (syntax_of_Pat pat.now) → N.may nested.now n }
    ensures same { result ≡ same_syntax (syntax_of_Pat pat.now) (syntax_of_Pat other.now) }
{
    match (pat, other) {
        (Pat::Ident(a), Pat::Ident(b)) => a.is_same(b),
        (Pat::Paren(a), Pat::Paren(b)) => a.is_same_nested(nested, b),
        (Pat::Paren(a), Pat::Tuple(b)) => is_tuple(a, b),
        (Pat::Path(a), Pat::Path(b)) => a.is_same(b),
        (Pat::Path(a), Pat::TupleStruct(b)) => is_tuple_struct(a, b),
        (Pat::Tuple(a), Pat::Paren(b)) => is_tuple(b, a),
        (Pat::Tuple(a), Pat::Tuple(b)) => a.is_same_nested(nested, b),
        (Pat::TupleStruct(a), Pat::Path(b)) => is_tuple_struct(b, a),
        (Pat::TupleStruct(a), Pat::TupleStruct(b)) => a.is_same_nested(nested, b),
        (Pat::Ty(a), Pat::Ty(b)) => a.is_same_nested(nested, b),
        (Pat::Ty(a), Pat::Ident(_)) => is_untyped(a),
        (Pat::Ty(a), Pat::Paren(_)) => is_untyped(a),
        (Pat::Ty(a), Pat::Path(_)) => is_untyped(a),
        (Pat::Ty(a), Pat::Tuple(_)) => is_untyped(a),
        (Pat::Ty(a), Pat::TupleStruct(_)) => is_untyped(a),
        (Pat::Ty(a), Pat::Wild(_)) => is_untyped(a),
        (Pat::Ident(_), Pat::Ty(b)) => is_untyped(b),
        (Pat::Paren(_), Pat::Ty(b)) => is_untyped(b),
        (Pat::Path(_), Pat::Ty(b)) => is_untyped(b),
        (Pat::Tuple(_), Pat::Ty(b)) => is_untyped(b),
        (Pat::TupleStruct(_), Pat::Ty(b)) => is_untyped(b),
        (Pat::Wild(_), Pat::Ty(b)) => is_untyped(b),
        (Pat::Wild(a), Pat::Wild(b)) => a.is_same(b),
        _ => false,
    }
}

/// The comparison of patterns.
#[cycle(compare_patterns)]
pub fn is_same_pat(pat: &Pat, other: &Pat) -> bool
    ensures same { result ≡ same_syntax (syntax_of_Pat pat.now) (syntax_of_Pat other.now) }
{
    same_variant(
        &Knot {
            is_same: is_same_pat,
        },
        pat,
        other,
    )
}
