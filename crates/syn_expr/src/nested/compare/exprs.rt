//! Where the comparisons of expressions lead back to each other.
ghost use Rattle.std.specs.Prelude.{◌≡◌, ◌≤◌, ◌<◌, ℕ};
ghost use Rattle.syn_grammar.specs.Grammar.{Both};
ghost use Rattle.syn_grammar.specs.Same.{same_syntax};
ghost use Rattle.syn_tokens.specs.InOrder.{in_order};
ghost use Rattle.syn_tokens.specs.Kinds.{comma_syntax, else_syntax};
ghost use Rattle.syn_tokens.specs.Leaves.{maybe};
ghost use Rattle.syn_tokens.specs.Listing.{list_of};
ghost use Rattle.syn_lower.specs.Sizes.{tree_size, values_size};
ghost use Rattle.syn_expr.specs.Expressions.{syntax_of_Expr, whole};
ghost use Rattle.syn_expr.specs.Statements.{statements_syntax, statement_of};

use crate::nested::compare::{CompareNested, CompareOf, Knot, same_list};
use crate::{Expr, Stmt};
use syn_tokens::punctuated::Punctuated;
use syn_tokens::syntactic::compare::Compared;
use syn_tokens::token::{Comma, Else};

/// Whether both have the same expressions and commas in turn.
#[tactic(auto, using(crate::proofs::Lists::same_whole, crate::proofs::Lists::whole_larger))]
pub fn same_exprs<N: CompareOf<Expr>>(
    nested: &N,
    list: &Punctuated<Expr, Comma>,
    other: &Punctuated<Expr, Comma>,
) -> bool
    requires { (n : ℕ) → n ≤ values_size whole list.now.pairs list.now.last → N.may nested.now n }
    ensures same { result ≡ same_syntax (list_of whole comma_syntax list.now.pairs list.now.last) (list_of whole comma_syntax other.now.pairs other.now.last) }
{
    same_list(nested, list, other)
}

/// Whether both are there and the same, or neither is there.
pub fn same_maybe<N: CompareOf<Expr>>(
    nested: &N,
    value: &Option<Box<Expr>>,
    other: &Option<Box<Expr>>,
) -> bool
    requires { (n : ℕ) → n ≤ tree_size (maybe (λ e. whole e.value) value.now) → N.may nested.now n }
    ensures same { result ≡ same_syntax (maybe (λ e. whole e.value) value.now) (maybe (λ e. whole e.value) other.now) }
{
    match (value, other) {
        (Some(a), Some(b)) => nested.is_same_one(a, b),
        (None, None) => true,
        (Some(_), None) => false,
        (None, Some(_)) => false,
    }
}

/// Whether both have `else` and the same expression after it, or neither has. How this is printed, by itself or in braces, adds nothing
/// to that.
pub fn same_else<N: CompareOf<Expr>>(
    nested: &N,
    branch: &Option<(Else, Box<Expr>)>,
    other: &Option<(Else, Box<Expr>)>,
) -> bool
    requires { (n : ℕ) → n ≤ tree_size (maybe (λ p. syntax_of_Expr p.1.value) branch.now) → N.may nested.now n }
    ensures same { result ≡ same_syntax (maybe (λ p. Both (else_syntax p.0) (syntax_of_Expr p.1.value)) branch.now) (maybe (λ p. Both (else_syntax p.0) (syntax_of_Expr p.1.value)) other.now) }
{
    match (branch, other) {
        (Some((else_token, a)), Some((other_token, b))) => {
            else_token.is_same(other_token) && nested.is_same_one(a, b)
        }
        (None, None) => true,
        (Some(_), None) => false,
        (None, Some(_)) => false,
    }
}

/// Whether both have the same statements in turn.
#[tactic(auto, using(crate::proofs::Lists::same_in_turn))]
pub fn same_statements<N: CompareOf<Expr>>(nested: &N, stmts: &Vec<Stmt>, other: &Vec<Stmt>) -> bool
    requires { (n : ℕ) → n ≤ tree_size (statements_syntax stmts.now.items) → N.may nested.now n }
    ensures same { result ≡ same_syntax (statements_syntax stmts.now.items) (statements_syntax other.now.items) }
{
    same_each(nested, stmts.as_slice(), other.as_slice())
}

/// The same, of statements in order.
#[tactic(auto, using(syn_lower::proofs::SameLists::unlike, syn_lower::proofs::SameLists::same_step, syn_lower::proofs::SameLists::same_done, crate::proofs::Lists::statement_smaller))]
fn same_each<N: CompareOf<Expr>>(nested: &N, a: &[Stmt], b: &[Stmt]) -> bool
    requires { (n : ℕ) → n ≤ tree_size (statements_syntax a.now) → N.may nested.now n }
    ensures { result ≡ same_syntax (in_order statement_of a.now) (in_order statement_of b.now) }
{
    if a.len() != b.len() {
        return false;
    }
    for i in 0..a.len() {
        if !a[i].is_same_nested(nested, &b[i]) {
            return false;
        }
    }
    true
}

/// Two expressions, by what they are.
fn same_variant<N: CompareOf<Expr>>(nested: &N, expr: &Expr, other: &Expr) -> bool
    requires { (n : ℕ) → n < tree_size (syntax_of_Expr expr.now) → N.may nested.now n }
    ensures same { result ≡ same_syntax (syntax_of_Expr expr.now) (syntax_of_Expr other.now) }
{
    match (expr, other) {
        (Expr::Array(a), Expr::Array(b)) => a.is_same_nested(nested, b),
        (Expr::Assign(a), Expr::Assign(b)) => a.is_same_nested(nested, b),
        (Expr::Binary(a), Expr::Binary(b)) => a.is_same_nested(nested, b),
        (Expr::Block(a), Expr::Block(b)) => a.is_same_nested(nested, b),
        (Expr::Break(a), Expr::Break(b)) => a.is_same(b),
        (Expr::Call(a), Expr::Call(b)) => a.is_same_nested(nested, b),
        (Expr::Cast(a), Expr::Cast(b)) => a.is_same_nested(nested, b),
        (Expr::Continue(a), Expr::Continue(b)) => a.is_same(b),
        (Expr::Field(a), Expr::Field(b)) => a.is_same_nested(nested, b),
        (Expr::ForLoop(a), Expr::ForLoop(b)) => a.is_same_nested(nested, b),
        (Expr::Group(a), Expr::Group(b)) => a.is_same_nested(nested, b),
        (Expr::If(a), Expr::If(b)) => a.is_same_nested(nested, b),
        (Expr::Index(a), Expr::Index(b)) => a.is_same_nested(nested, b),
        (Expr::Lit(a), Expr::Lit(b)) => a.is_same(b),
        (Expr::Loop(a), Expr::Loop(b)) => a.is_same_nested(nested, b),
        (Expr::Macro(a), Expr::Macro(b)) => a.is_same(b),
        (Expr::MethodCall(a), Expr::MethodCall(b)) => a.is_same_nested(nested, b),
        (Expr::Paren(a), Expr::Paren(b)) => a.is_same_nested(nested, b),
        (Expr::Path(a), Expr::Path(b)) => a.is_same(b),
        (Expr::Reference(a), Expr::Reference(b)) => a.is_same_nested(nested, b),
        (Expr::Repeat(a), Expr::Repeat(b)) => a.is_same_nested(nested, b),
        (Expr::Return(a), Expr::Return(b)) => a.is_same_nested(nested, b),
        (Expr::Struct(a), Expr::Struct(b)) => a.is_same_nested(nested, b),
        (Expr::Try(a), Expr::Try(b)) => a.is_same_nested(nested, b),
        (Expr::Tuple(a), Expr::Tuple(b)) => a.is_same_nested(nested, b),
        (Expr::Unary(a), Expr::Unary(b)) => a.is_same_nested(nested, b),
        (Expr::Unsafe(a), Expr::Unsafe(b)) => a.is_same_nested(nested, b),
        (Expr::Verbatim(a), Expr::Verbatim(b)) => a.is_same(b),
        (Expr::While(a), Expr::While(b)) => a.is_same_nested(nested, b),
        _ => false,
    }
}

/// The comparison of expressions.
#[cycle(compare_expressions)]
pub fn is_same_expr(expr: &Expr, other: &Expr) -> bool
    ensures same { result ≡ same_syntax (syntax_of_Expr expr.now) (syntax_of_Expr other.now) }
{
    same_variant(
        &Knot {
            is_same: is_same_expr,
        },
        expr,
        other,
    )
}
