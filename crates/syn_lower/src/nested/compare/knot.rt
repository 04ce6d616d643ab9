//! Where the comparisons lead back to each other.
ghost use Rattle.std.specs.Prelude.{◌≡◌, ◌<◌, ℕ};
ghost use Rattle.syn_grammar.specs.Same.{same_syntax};
ghost use Rattle.syn_lower.specs.Sizes.{tree_size};
ghost use Rattle.syn_lower.specs.Ties.{CompareTies};
ghost use Rattle.syn_lower.specs.Types.{syntax_of_Type};

use crate::nested::compare::{CompareNested, CompareType};
use crate::{Type, TypeArray, TypeParen, TypeSlice, TypeTuple};
use syn_tokens::syntactic::compare::Compared;

/// The comparison of types, as a value.
#[derive(Clone, Copy)]
pub struct Knot<T> {
    pub is_same_type: T,
}

impl<T: Fn(&Type, &Type) -> bool> CompareType for Knot<T> {
    ghost may = { λ k n. CompareTies n (T.pre k.is_same_type) (T.post k.is_same_type) };

    fn is_same_type(&self, ty: &Type, other: &Type) -> bool {
        (self.is_same_type)(ty, other)
    }
}

/// Never: after one type alone a tuple has a comma.
#[tactic(auto, using(crate::proofs::Types::paren_no_tuple, crate::proofs::Types::tuple_no_paren))]
fn is_tuple(paren: &TypeParen, tuple: &TypeTuple) -> bool
    ensures same { result ≡ same_syntax paren.now tuple.now }
    ensures turned { result ≡ same_syntax tuple.now paren.now }
{
    let (_elem, _elems) = (&paren.elem, &tuple.elems);
    false
}

/// Never: an array has a length.
#[tactic(auto, using(syn_grammar::proofs::Same::and_false))]
fn is_array(slice: &TypeSlice, array: &TypeArray) -> bool
    ensures same { result ≡ same_syntax slice.now array.now }
    ensures turned { result ≡ same_syntax array.now slice.now }
{
    let (_elem, _len) = (&slice.elem, &array.len);
    false
}

/// Two types, by what they are.
fn same_variant<N: CompareType>(nested: &N, ty: &Type, other: &Type) -> bool
    requires { (n : ℕ) → n < tree_size (syntax_of_Type ty.now) → N.may nested.now n }
    ensures same { result ≡ same_syntax (syntax_of_Type ty.now) (syntax_of_Type other.now) }
{
    match (ty, other) {
        (Type::Array(a), Type::Array(b)) => a.is_same_nested(nested, b),
        (Type::Array(a), Type::Slice(b)) => is_array(b, a),
        (Type::Group(a), Type::Group(b)) => a.is_same_nested(nested, b),
        (Type::Never(a), Type::Never(b)) => a.is_same(b),
        (Type::Paren(a), Type::Paren(b)) => a.is_same_nested(nested, b),
        (Type::Paren(a), Type::Tuple(b)) => is_tuple(a, b),
        (Type::Path(a), Type::Path(b)) => a.is_same_nested(nested, b),
        (Type::Ptr(a), Type::Ptr(b)) => a.is_same_nested(nested, b),
        (Type::Reference(a), Type::Reference(b)) => a.is_same_nested(nested, b),
        (Type::Slice(a), Type::Array(b)) => is_array(a, b),
        (Type::Slice(a), Type::Slice(b)) => a.is_same_nested(nested, b),
        (Type::Tuple(a), Type::Paren(b)) => is_tuple(b, a),
        (Type::Tuple(a), Type::Tuple(b)) => a.is_same_nested(nested, b),
        (Type::Verbatim(a), Type::Verbatim(b)) => a.is_same(b),
        _ => false,
    }
}

/// The comparison of types.
#[cycle(compare)]
pub fn is_same_type(ty: &Type, other: &Type) -> bool
    ensures same { result ≡ same_syntax (syntax_of_Type ty.now) (syntax_of_Type other.now) }
{
    same_variant(&Knot { is_same_type }, ty, other)
}
