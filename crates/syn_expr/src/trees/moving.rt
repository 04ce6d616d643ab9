//! A statement's attributes, which belong to the leftmost operand below its operators.
ghost use Rattle.std.specs.Prelude.{◌≡◌, true};
ghost use Rattle.syn_grammar.specs.Promises.{OrMemory};
ghost use Rattle.syn_grammar.specs.Values.{moved as moved_syntax};
ghost use Rattle.syn_lower.specs.Attributes.{all_attributes_syntax, attributes_syntax};
ghost use Rattle.syn_lower.specs.Parsing.{IsSyntax};
ghost use Rattle.syn_expr.specs.Expressions.{syntax_of_Expr};
ghost use Rattle.syn_expr_parse.specs.Spines.{is_bare, spine_shown};

use super::attributes::put_before;
use crate::Expr;
use syn_lower::Attribute;
use syn_parse::read::refusal::Parsed;

/// Outer attributes before those of the leftmost operand below operators.
pub(super) fn moved(attrs: Vec<Attribute>, expr: Box<Expr>) -> Parsed<Box<Expr>>
    requires outer { all_attributes_syntax attrs.items ≡ attributes_syntax attrs.items }
    requires shown { spine_shown (syntax_of_Expr expr.value) ≡ true }
    ensures { OrMemory IsSyntax result (λ e. syntax_of_Expr e.value ≡ moved_syntax (attributes_syntax attrs.items) (syntax_of_Expr expr.value)) }
{
    let mut expr = expr;
    move_down(attrs, &mut expr)?;
    Ok(expr)
}

/// Puts outer attributes before those of the leftmost operand below operators without attributes of their own.
#[tactic(auto, using(crate::proofs::Moving::not_moved, crate::proofs::Moving::not_down))]
fn move_down(attrs: Vec<Attribute>, expr: &mut Expr) -> Parsed<()>
    requires outer { all_attributes_syntax attrs.items ≡ attributes_syntax attrs.items }
    requires shown { spine_shown (syntax_of_Expr expr.old) ≡ true }
    ensures { OrMemory IsSyntax result (λ _. syntax_of_Expr expr.new ≡ moved_syntax (attributes_syntax attrs.items) (syntax_of_Expr expr.old)) }
{
    if !is_bare_operation(expr) {
        return put_before(attrs, expr);
    }
    match expr {
        Expr::Assign(e) => move_down(attrs, &mut e.left),
        Expr::Binary(e) => move_down(attrs, &mut e.left),
        Expr::Cast(e) => move_down(attrs, &mut e.expr),
        Expr::Array(_) => Ok(()),
        Expr::Block(_) => Ok(()),
        Expr::Break(_) => Ok(()),
        Expr::Call(_) => Ok(()),
        Expr::Continue(_) => Ok(()),
        Expr::Field(_) => Ok(()),
        Expr::ForLoop(_) => Ok(()),
        Expr::Group(_) => Ok(()),
        Expr::If(_) => Ok(()),
        Expr::Index(_) => Ok(()),
        Expr::Lit(_) => Ok(()),
        Expr::Loop(_) => Ok(()),
        Expr::Macro(_) => Ok(()),
        Expr::MethodCall(_) => Ok(()),
        Expr::Paren(_) => Ok(()),
        Expr::Path(_) => Ok(()),
        Expr::Reference(_) => Ok(()),
        Expr::Repeat(_) => Ok(()),
        Expr::Return(_) => Ok(()),
        Expr::Struct(_) => Ok(()),
        Expr::Try(_) => Ok(()),
        Expr::Tuple(_) => Ok(()),
        Expr::Unary(_) => Ok(()),
        Expr::Unsafe(_) => Ok(()),
        Expr::Verbatim(_) => Ok(()),
        Expr::While(_) => Ok(()),
    }
}

/// Whether an expression has an operand before its operator, and no attributes.
#[tactic(auto, using(crate::proofs::Moving::attributes_are_none))]
fn is_bare_operation(expr: &Expr) -> bool
    ensures { result ≡ is_bare (syntax_of_Expr expr.now) }
{
    match expr {
        Expr::Assign(e) => e.attrs.is_empty(),
        Expr::Binary(e) => e.attrs.is_empty(),
        Expr::Cast(e) => e.attrs.is_empty(),
        Expr::Array(_) => false,
        Expr::Block(_) => false,
        Expr::Break(_) => false,
        Expr::Call(_) => false,
        Expr::Continue(_) => false,
        Expr::Field(_) => false,
        Expr::ForLoop(_) => false,
        Expr::Group(_) => false,
        Expr::If(_) => false,
        Expr::Index(_) => false,
        Expr::Lit(_) => false,
        Expr::Loop(_) => false,
        Expr::Macro(_) => false,
        Expr::MethodCall(_) => false,
        Expr::Paren(_) => false,
        Expr::Path(_) => false,
        Expr::Reference(_) => false,
        Expr::Repeat(_) => false,
        Expr::Return(_) => false,
        Expr::Struct(_) => false,
        Expr::Try(_) => false,
        Expr::Tuple(_) => false,
        Expr::Unary(_) => false,
        Expr::Unsafe(_) => false,
        Expr::Verbatim(_) => false,
        Expr::While(_) => false,
    }
}
