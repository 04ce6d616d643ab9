//! Fields of struct literals, by what is done with the expressions in them.
ghost use Rattle.std.specs.Prelude.{◌≡◌, ◌<◌, ℕ, false, MatchOption};
ghost use Rattle.syn_grammar.specs.Grammar.{Shaped};
ghost use Rattle.syn_grammar.specs.Shape.{Path as Paths, expr as expr_shape};
ghost use Rattle.syn_expr.specs.Expressions.{syntax_of_Expr};
ghost use Rattle.syn_expr.specs.Fields.{is_path};

use crate::Expr;
use crate::expr::{ExprPath, FieldValue};
use crate::nested::compare::{CompareNested, CompareOf};
use crate::nested::copy::{CopyNested, CopyOf};
use crate::nested::print::{PrintNested, PrintOf};
use std::alloc::{AllocError, Global};
use syn_tokens::stream::builder::StreamBuilder;

/// What does something with a field, by what does it with expressions.
#[derive(Clone, Copy)]
pub struct OfFields<'a, N> {
    pub nested: &'a N,
}

impl<N: PrintOf<Expr>> PrintOf<FieldValue> for OfFields<'_, N> {
    ghost may = { λ k n. (m : ℕ) → m < n → N.may k.nested.now m };

    fn print_one(&self, value: &FieldValue, out: &mut StreamBuilder) -> Result<(), AllocError> {
        value.print_nested(self.nested, out)
    }
}

impl<N: CopyOf<Expr>> CopyOf<FieldValue> for OfFields<'_, N> {
    ghost may = { λ k n. (m : ℕ) → m < n → N.may k.nested.now m };

    fn copy_one(&self, value: &FieldValue, alloc: Global) -> Result<FieldValue, AllocError> {
        value.copy_nested(self.nested, alloc)
    }
}

impl<N: CompareOf<Expr>> CompareOf<FieldValue> for OfFields<'_, N> {
    ghost may = { λ k n. (m : ℕ) → m < n → N.may k.nested.now m };

    fn is_same_one(&self, value: &FieldValue, other: &FieldValue) -> bool {
        value.is_same_nested(self.nested, other)
    }
}

/// The path that an expression is, if it is one.
pub fn as_path(expr: &Expr) -> Option<&ExprPath>
    ensures { MatchOption result (is_path (syntax_of_Expr expr.now) ≡ false) (λ path. syntax_of_Expr expr.now ≡ Shaped (expr_shape Paths) path.now) }
{
    match expr {
        Expr::Path(path) => Some(path),
        _ => None,
    }
}
