//! Where types begin.
ghost use Rattle.std.specs.Prelude.{◌≡◌, ◌∷◌, []};
ghost use Rattle.syn_grammar.specs.Grammar.{print};
ghost use Rattle.syn_tree.specs.Members.{first_place};
ghost use Rattle.syn_lower.specs.QualifiedPaths.{syntax_of_TypePath};
ghost use Rattle.syn_lower.specs.Types.{syntax_of_Type};

use syn_lower::{Path, Type, TypePath};
use syn_tokens::span::Span;
use syn_tokens::stream::TokenStream;
use syn_tokens::token::Mark;

/// The span of the first token of the type's print; 0 to 0 if nothing is printed.
pub(crate) fn first_span(ty: &Type) -> Span
    ensures { result ≡ first_place (print (syntax_of_Type ty.now)) }
{
    match ty {
        Type::Array(ty) => ty.bracket_token.opening,
        Type::Group(ty) => ty.group_token.opening,
        Type::Never(ty) => place_of(&ty.bang_token),
        Type::Paren(ty) => ty.paren_token.opening,
        Type::Path(ty) => first_of_type_path(ty),
        Type::Ptr(ty) => place_of(&ty.star_token),
        Type::Reference(ty) => place_of(&ty.and_token),
        Type::Slice(ty) => ty.bracket_token.opening,
        Type::Tuple(ty) => ty.paren_token.opening,
        Type::Verbatim(tokens) => first_of_tokens(tokens),
    }
}

/// The span of a mark of one character.
fn place_of<K>(mark: &Mark<K, 1>) -> Span
    ensures { mark.now.spans ≡ result ∷ [] }
{
    let [span] = mark.spans;
    span
}

/// Of a path as a type: the span of `<`, or else of the path's first token.
fn first_of_type_path(ty: &TypePath) -> Span
    ensures { result ≡ first_place (print (syntax_of_TypePath ty.now)) }
{
    match &ty.qself {
        Some(qself) => place_of(&qself.lt_token),
        None => first_of_path(&ty.path),
    }
}

/// Of a path: the span of `::`, or else of its first word.
#[tactic(auto, using(crate::proofs::Members::words_begin, crate::proofs::Members::no_words_begin))]
fn first_of_path(path: &Path) -> Span
    ensures { result ≡ first_place (print path.now) }
{
    if let Some(colons) = &path.leading_colon {
        return colons.spans[0];
    }
    match path.segments.first() {
        Some(segment) => segment.ident.span,
        None => Span::call_site(),
    }
}

/// Of tokens: the span of the first one.
fn first_of_tokens(tokens: &TokenStream) -> Span
    ensures { result ≡ first_place tokens.now }
{
    match tokens.cursor().split() {
        Some((tree, _)) => tree.span(),
        None => Span::call_site(),
    }
}
