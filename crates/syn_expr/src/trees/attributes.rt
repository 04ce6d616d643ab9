//! Attributes before an expression.
ghost use Rattle.std.specs.Prelude.{◌≡◌, true};
ghost use Rattle.syn_grammar.specs.Values as values;
ghost use Rattle.syn_grammar.specs.Values.{attributes_before};
ghost use Rattle.syn_grammar.specs.Promises.{OrMemory};
ghost use Rattle.syn_lower.specs.Attributes.{all_attributes_syntax, attributes_syntax};
ghost use Rattle.syn_lower.specs.Parsing.{IsSyntax};
ghost use Rattle.syn_lower.specs.Bodies.{attributes_before_body, attributes_in_body};
ghost use Rattle.syn_expr_parse.specs.Unary.{all_shown, own_shown};
ghost use Rattle.syn_expr.specs.Expressions.{syntax_of_Expr};

use crate::Expr;
use syn_lower::Attribute;
use syn_parse::read::refusal::{Parsed, Refusal};

/// The expression with these outer attributes before its own, of which none may be an inner one that its print leaves out.
pub(super) fn with_attributes(attrs: Vec<Attribute>, expr: Box<Expr>) -> Parsed<Box<Expr>>
    requires outer { all_attributes_syntax attrs.items ≡ attributes_syntax attrs.items }
    requires shown { own_shown (syntax_of_Expr expr.value) ≡ true }
    ensures { OrMemory IsSyntax result (λ e. syntax_of_Expr e.value ≡ values.with_attributes (attributes_syntax attrs.items) (syntax_of_Expr expr.value)) }
{
    let mut expr = expr;
    put_before(attrs, &mut expr)?;
    Ok(expr)
}

/// Puts these outer attributes before the expression's own.
pub(super) fn put_before(attrs: Vec<Attribute>, expr: &mut Expr) -> Parsed<()>
    requires outer { all_attributes_syntax attrs.items ≡ attributes_syntax attrs.items }
    requires shown { own_shown (syntax_of_Expr expr.old) ≡ true }
    ensures { OrMemory IsSyntax result (λ _. syntax_of_Expr expr.new ≡ values.with_attributes (attributes_syntax attrs.items) (syntax_of_Expr expr.old)) }
{
    match expr {
        Expr::Array(e) => join(attrs, &mut e.attrs),
        Expr::Assign(e) => join(attrs, &mut e.attrs),
        Expr::Binary(e) => join(attrs, &mut e.attrs),
        Expr::Block(e) => join(attrs, &mut e.attrs),
        Expr::Break(e) => join(attrs, &mut e.attrs),
        Expr::Call(e) => join(attrs, &mut e.attrs),
        Expr::Cast(e) => join(attrs, &mut e.attrs),
        Expr::Continue(e) => join(attrs, &mut e.attrs),
        Expr::Field(e) => join(attrs, &mut e.attrs),
        Expr::ForLoop(e) => join(attrs, &mut e.attrs),
        Expr::Group(e) => join(attrs, &mut e.attrs),
        Expr::If(e) => join(attrs, &mut e.attrs),
        Expr::Index(e) => join(attrs, &mut e.attrs),
        Expr::Lit(e) => join(attrs, &mut e.attrs),
        Expr::Loop(e) => join(attrs, &mut e.attrs),
        Expr::Macro(e) => join(attrs, &mut e.attrs),
        Expr::MethodCall(e) => join(attrs, &mut e.attrs),
        Expr::Paren(e) => join(attrs, &mut e.attrs),
        Expr::Path(e) => join(attrs, &mut e.attrs),
        Expr::Reference(e) => join(attrs, &mut e.attrs),
        Expr::Repeat(e) => join(attrs, &mut e.attrs),
        Expr::Return(e) => join(attrs, &mut e.attrs),
        Expr::Struct(e) => join(attrs, &mut e.attrs),
        Expr::Try(e) => join(attrs, &mut e.attrs),
        Expr::Tuple(e) => join(attrs, &mut e.attrs),
        Expr::Unary(e) => join(attrs, &mut e.attrs),
        Expr::Unsafe(e) => join(attrs, &mut e.attrs),
        Expr::Verbatim(_) => Ok(()),
        Expr::While(e) => join(attrs, &mut e.attrs),
    }
}

/// Puts some outer attributes before others.
#[tactic(auto, using(crate::proofs::Attributes::outer_joined, crate::proofs::Attributes::before_joined, crate::proofs::Attributes::inside_joined))]
fn join(attrs: Vec<Attribute>, own: &mut Vec<Attribute>) -> Parsed<()>
    requires { all_attributes_syntax attrs.items ≡ attributes_syntax attrs.items }
    ensures outer { OrMemory IsSyntax result (λ _. all_shown (attributes_syntax own.old.items) ≡ true → attributes_syntax own.new.items ≡ attributes_before (attributes_syntax attrs.items) (attributes_syntax own.old.items)) }
    ensures before { OrMemory IsSyntax result (λ _. all_shown (attributes_before_body own.old.items) ≡ true → attributes_before_body own.new.items ≡ attributes_before (attributes_syntax attrs.items) (attributes_before_body own.old.items)) }
    ensures inside { OrMemory IsSyntax result (λ _. attributes_in_body own.new.items ≡ attributes_in_body own.old.items) }
{
    let mut all = attrs;
    match all.append(own) {
        Ok(_) => {
            *own = all;
            Ok(())
        }
        Err(error) => Err(Refusal::from(error)),
    }
}
