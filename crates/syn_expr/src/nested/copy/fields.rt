//! Copies of the fields of struct literals.
ghost use Rattle.std.specs.Prelude.{◌≡◌, ◌≤◌, ◌<◌, ℕ, IfOk};
ghost use Rattle.syn_grammar.specs.Promises.{itself};
ghost use Rattle.syn_tokens.specs.Kinds.{comma_syntax};
ghost use Rattle.syn_tokens.specs.Listing.{list_of};
ghost use Rattle.syn_lower.specs.Sizes.{values_size};
ghost use Rattle.syn_expr.specs.Expressions.{syntax_of_Expr};
ghost use Rattle.syn_expr.specs.Fields.{size_unless_path};

use crate::Expr;
use crate::expr::FieldValue;
use crate::nested::copy::{CopyOf, copied, copy_list};
use crate::nested::fields::{OfFields, as_path};
use std::alloc::{AllocError, Global};
use syn_tokens::punctuated::Punctuated;
use syn_tokens::token::Comma;

/// A copy of the fields of a list and its commas.
pub fn copy_fields<N: CopyOf<Expr>>(
    nested: &N,
    list: &Punctuated<FieldValue, Comma>,
    alloc: Global,
) -> Result<Punctuated<FieldValue, Comma>, AllocError>
    requires { (n : ℕ) → n < values_size itself list.now.pairs list.now.last → N.may nested.now n }
    ensures copy { IfOk result (λ copy. list_of itself comma_syntax copy.pairs copy.last ≡ list_of itself comma_syntax list.now.pairs list.now.last) }
{
    copy_list(&OfFields { nested }, list, alloc)
}

/// A copy of the value of a field. A path leads back to no expression; after a name alone it isn't shown.
#[tactic(auto, using(crate::proofs::Fields::no_path_size))]
pub fn copy_value<N: CopyOf<Expr>>(
    nested: &N,
    expr: &Expr,
    alloc: Global,
) -> Result<Expr, AllocError>
    requires { (n : ℕ) → n ≤ size_unless_path (syntax_of_Expr expr.now) → N.may nested.now n }
    ensures copy { IfOk result (λ copy. syntax_of_Expr copy ≡ syntax_of_Expr expr.now) }
{
    match as_path(expr) {
        Some(path) => Ok(Expr::Path(copied(path, alloc)?)),
        None => nested.copy_one(expr, alloc),
    }
}
