//! Where the prints of expressions lead back to each other.
ghost use Rattle.std.specs.Prelude.{◌≡◌, ◌≤◌, ◌<◌, ℕ, OnOk};
ghost use Rattle.syn_grammar.specs.Grammar.{print};
ghost use Rattle.syn_tokens.specs.Building.{added};
ghost use Rattle.syn_tokens.specs.Kinds.{comma_syntax};
ghost use Rattle.syn_tokens.specs.Leaves.{maybe};
ghost use Rattle.syn_tokens.specs.Listing.{list_of};
ghost use Rattle.syn_lower.specs.Sizes.{tree_size, values_size};
ghost use Rattle.syn_expr.specs.Expressions.{syntax_of_Expr, whole};

use crate::Expr;
use crate::nested::print::{Knot, PrintNested, PrintOf, print_list};
use std::alloc::AllocError;
use syn_tokens::print::Print;
use syn_tokens::punctuated::Punctuated;
use syn_tokens::stream::builder::StreamBuilder;
use syn_tokens::token::Comma;

/// Adds the expressions of a list and its commas at the end.
#[tactic(auto, using(crate::proofs::Lists::print_whole, crate::proofs::Lists::whole_larger))]
pub fn print_exprs<N: PrintOf<Expr>>(
    nested: &N,
    list: &Punctuated<Expr, Comma>,
    out: &mut StreamBuilder,
) -> Result<(), AllocError>
    requires { (n : ℕ) → n ≤ values_size whole list.now.pairs list.now.last → N.may nested.now n }
    ensures prints { OnOk result (out.new ≡ added out.old (print (list_of whole comma_syntax list.now.pairs list.now.last))) }
    ensures begins { out.new.before ≡ out.old.before }
{
    print_list(nested, list, out)
}

/// An expression, if there is one.
#[tactic(auto, using(syn_tokens::proofs::Prints::prints))]
pub fn print_maybe<N: PrintOf<Expr>>(
    nested: &N,
    value: &Option<Box<Expr>>,
    out: &mut StreamBuilder,
) -> Result<(), AllocError>
    requires { (n : ℕ) → n ≤ tree_size (maybe (λ e. whole e.value) value.now) → N.may nested.now n }
    ensures prints { OnOk result (out.new ≡ added out.old (print (maybe (λ e. whole e.value) value.now))) }
    ensures begins { out.new.before ≡ out.old.before }
{
    match value {
        Some(expr) => nested.print_one(expr, out),
        None => Ok(()),
    }
}

/// An expression, by what it is.
fn print_variant<N: PrintOf<Expr>>(
    nested: &N,
    expr: &Expr,
    out: &mut StreamBuilder,
) -> Result<(), AllocError>
    requires { (n : ℕ) → n < tree_size (syntax_of_Expr expr.now) → N.may nested.now n }
    ensures prints { OnOk result (out.new ≡ added out.old (print (syntax_of_Expr expr.now))) }
    ensures begins { out.new.before ≡ out.old.before }
{
    match expr {
        Expr::Array(value) => value.print_nested(nested, out),
        Expr::Assign(value) => value.print_nested(nested, out),
        Expr::Binary(value) => value.print_nested(nested, out),
        Expr::Block(value) => value.print_nested(nested, out),
        Expr::Break(value) => value.print_in(out),
        Expr::Call(value) => value.print_nested(nested, out),
        Expr::Cast(value) => value.print_nested(nested, out),
        Expr::Continue(value) => value.print_in(out),
        Expr::Field(value) => value.print_nested(nested, out),
        Expr::ForLoop(value) => value.print_nested(nested, out),
        Expr::Group(value) => value.print_nested(nested, out),
        Expr::If(value) => value.print_nested(nested, out),
        Expr::Index(value) => value.print_nested(nested, out),
        Expr::Lit(value) => value.print_in(out),
        Expr::Loop(value) => value.print_nested(nested, out),
        Expr::Macro(value) => value.print_in(out),
        Expr::MethodCall(value) => value.print_nested(nested, out),
        Expr::Paren(value) => value.print_nested(nested, out),
        Expr::Path(value) => value.print_in(out),
        Expr::Reference(value) => value.print_nested(nested, out),
        Expr::Repeat(value) => value.print_nested(nested, out),
        Expr::Return(value) => value.print_nested(nested, out),
        Expr::Struct(value) => value.print_nested(nested, out),
        Expr::Try(value) => value.print_nested(nested, out),
        Expr::Tuple(value) => value.print_nested(nested, out),
        Expr::Unary(value) => value.print_nested(nested, out),
        Expr::Unsafe(value) => value.print_nested(nested, out),
        Expr::Verbatim(tokens) => tokens.print_in(out),
        Expr::While(value) => value.print_nested(nested, out),
    }
}

/// The print of an expression.
#[cycle(print_expressions)]
pub fn print_expr(expr: &Expr, out: &mut StreamBuilder) -> Result<(), AllocError>
    ensures prints { OnOk result (out.new ≡ added out.old (print (syntax_of_Expr expr.now))) }
    ensures begins { out.new.before ≡ out.old.before }
{
    print_variant(&Knot { print: print_expr }, expr, out)
}
