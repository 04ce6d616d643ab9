//! Comparisons of the fields of struct literals.
ghost use Rattle.std.specs.Prelude.{◌≡◌, ◌≤◌, ◌<◌, ℕ};
ghost use Rattle.syn_grammar.specs.Promises.{itself};
ghost use Rattle.syn_grammar.specs.Same.{same_syntax};
ghost use Rattle.syn_tokens.specs.Kinds.{comma_syntax};
ghost use Rattle.syn_tokens.specs.Listing.{list_of};
ghost use Rattle.syn_lower.specs.Sizes.{values_size};
ghost use Rattle.syn_expr.specs.Expressions.{syntax_of_Expr};
ghost use Rattle.syn_expr.specs.Fields.{size_unless_path};

use crate::Expr;
use crate::expr::FieldValue;
use crate::nested::compare::{CompareOf, same_list};
use crate::nested::fields::{OfFields, as_path};
use syn_tokens::punctuated::Punctuated;
use syn_tokens::syntactic::compare::Compared;
use syn_tokens::token::Comma;

/// Whether both have the same fields and commas in turn.
pub fn same_fields<N: CompareOf<Expr>>(
    nested: &N,
    list: &Punctuated<FieldValue, Comma>,
    other: &Punctuated<FieldValue, Comma>,
) -> bool
    requires { (n : ℕ) → n < values_size itself list.now.pairs list.now.last → N.may nested.now n }
    ensures same { result ≡ same_syntax (list_of itself comma_syntax list.now.pairs list.now.last) (list_of itself comma_syntax other.now.pairs other.now.last) }
{
    same_list(&OfFields { nested }, list, other)
}

/// Whether two values of fields are the same. A path leads back to no expression; after a name alone it isn't shown.
#[tactic(auto, using(crate::proofs::Fields::no_path_size, crate::proofs::Fields::unlike_path))]
pub fn same_value<N: CompareOf<Expr>>(nested: &N, expr: &Expr, other: &Expr) -> bool
    requires { (n : ℕ) → n ≤ size_unless_path (syntax_of_Expr expr.now) → N.may nested.now n }
    ensures same { result ≡ same_syntax (syntax_of_Expr expr.now) (syntax_of_Expr other.now) }
{
    let Some(path) = as_path(expr) else {
        return nested.is_same_one(expr, other);
    };
    match as_path(other) {
        Some(other_path) => path.is_same(other_path),
        None => false,
    }
}
