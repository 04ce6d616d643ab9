//! Prints of the fields of struct literals.
ghost use Rattle.std.specs.Prelude.{◌≡◌, ◌≤◌, ◌<◌, ℕ, OnOk};
ghost use Rattle.syn_grammar.specs.Grammar.{print};
ghost use Rattle.syn_grammar.specs.Promises.{itself};
ghost use Rattle.syn_tokens.specs.Building.{added};
ghost use Rattle.syn_tokens.specs.Kinds.{colon_syntax, comma_syntax};
ghost use Rattle.syn_tokens.specs.Leaves.{maybe};
ghost use Rattle.syn_tokens.specs.Listing.{list_of};
ghost use Rattle.syn_lower.specs.Sizes.{tree_size, values_size};
ghost use Rattle.syn_expr.specs.Expressions.{syntax_of_Expr};
ghost use Rattle.syn_expr.specs.Fields.{following_member};

use crate::Expr;
use crate::expr::FieldValue;
use crate::nested::fields::OfFields;
use crate::nested::print::{PrintOf, print_list};
use std::alloc::AllocError;
use syn_tokens::print::Print;
use syn_tokens::punctuated::Punctuated;
use syn_tokens::stream::builder::StreamBuilder;
use syn_tokens::token::{Colon, Comma};

/// Adds the fields of a list and its commas at the end.
pub fn print_fields<N: PrintOf<Expr>>(
    nested: &N,
    list: &Punctuated<FieldValue, Comma>,
    out: &mut StreamBuilder,
) -> Result<(), AllocError>
    requires { (n : ℕ) → n < values_size itself list.now.pairs list.now.last → N.may nested.now n }
    ensures prints { OnOk result (out.new ≡ added out.old (print (list_of itself comma_syntax list.now.pairs list.now.last))) }
    ensures begins { out.new.before ≡ out.old.before }
{
    print_list(&OfFields { nested }, list, out)
}

/// A colon and the value of a field; nothing, where the colon is missing.
#[tactic(auto, using(syn_tokens::proofs::Prints::prints))]
pub fn print_value<N: PrintOf<Expr>>(
    nested: &N,
    colon_token: &Option<Colon>,
    expr: &Expr,
    out: &mut StreamBuilder,
) -> Result<(), AllocError>
    requires { (n : ℕ) → n ≤ tree_size (following_member (maybe colon_syntax colon_token.now) (syntax_of_Expr expr.now)) → N.may nested.now n }
    ensures prints { OnOk result (out.new ≡ added out.old (print (following_member (maybe colon_syntax colon_token.now) (syntax_of_Expr expr.now)))) }
    ensures begins { out.new.before ≡ out.old.before }
{
    match colon_token {
        Some(colon) => {
            colon.print_in(out)?;
            nested.print_one(expr, out)
        }
        None => Ok(()),
    }
}
