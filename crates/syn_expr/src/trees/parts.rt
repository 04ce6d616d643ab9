//! What the makers of trees share.
ghost use Rattle.std.specs.Prelude.{◌≡◌};
ghost use Rattle.syn_grammar.specs.Promises.{OrMemory, itself};
ghost use Rattle.syn_tokens.specs.Leaves.{maybe, syntax_of_ident};
ghost use Rattle.syn_parse.specs.Refusals.{IsSyntax};
ghost use Rattle.syn_expr_parse.specs.Parts.{label_syntax};
ghost use Rattle.syn_expr_parse.specs.StructLiterals.{named_path};
ghost use Rattle.syn_expr.specs.Expressions.{syntax_of_Expr};

use crate::Expr;
use crate::expr::{ExprPath, Label};
use crate::nested::copy::copied;
use std::alloc::Global;
use syn_lower::{Path, PathArguments, PathSegment};
use syn_parse::read::refusal::Parsed;
use syn_tokens::ident::Ident;
use syn_tokens::lifetime::Lifetime;
use syn_tokens::punctuated::Punctuated;
use syn_tokens::token::Colon;

/// This expression in a box.
pub(super) fn boxed(expr: Expr, alloc: Global) -> Parsed<Box<Expr>>
    ensures { OrMemory IsSyntax result (λ e. e.value ≡ expr) }
{
    Ok(Box::new(alloc, expr)?)
}

/// The expression in this box.
pub(super) fn out_of_box(expr: Box<Expr>) -> Expr
    ensures { result ≡ expr.value }
{
    Box::into_inner(expr)
}

/// The variable of this name, as an expression.
#[tactic(auto, using(crate::proofs::Attributes::no_attributes))]
pub(super) fn named(name: &Ident, alloc: Global) -> Parsed<Expr>
    ensures { OrMemory IsSyntax result (λ e. syntax_of_Expr e ≡ named_path (syntax_of_ident name.now)) }
{
    let ident = copied(name, alloc)?;
    let mut segments = Punctuated::new(alloc);
    segments.push_value(PathSegment {
        ident,
        arguments: PathArguments::None,
    })?;
    Ok(Expr::Path(ExprPath {
        attrs: Vec::new(alloc),
        qself: None,
        path: Path {
            leading_colon: None,
            segments,
        },
    }))
}

/// A label, or none.
pub(super) fn labelled(label: Option<(Lifetime, Colon)>) -> Option<Label>
    ensures { maybe itself result ≡ label_syntax label }
{
    match label {
        Some((name, colon_token)) => Some(Label { name, colon_token }),
        None => None,
    }
}
