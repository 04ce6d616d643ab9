//! Expressions as statements.
ghost use Rattle.std.specs.Prelude.{◌≡◌, true, false, IfOk, IfErr};
ghost use Rattle.syn_grammar.specs.Grammar.{Both, Shaped};
ghost use Rattle.syn_grammar.specs.Shape.{Macro, expr, said_macro};
ghost use Rattle.syn_grammar.specs.Values.{sentence};
ghost use Rattle.syn_tokens.specs.Kinds.{semi_syntax};
ghost use Rattle.syn_tokens.specs.Leaves.{maybe};
ghost use Rattle.syn_expr.specs.Expressions.{syntax_of_Expr};
ghost use Rattle.syn_expr.specs.Statements.{is_macro, statement_of, value_of_local};

use crate::Expr;
use crate::expr::ExprMacro;
use crate::stmt::{LocalInit, Stmt, StmtMacro};
use syn_tokens::token::{Eq, Semi};

impl Expr {
    /// The macro that an expression is; or the expression, where it is none.
    fn into_macro(self) -> Result<ExprMacro, Expr>
        ensures macros { IfOk result (λ m. syntax_of_Expr self ≡ Shaped (expr Macro) m) }
        ensures other { IfErr result (λ e. e ≡ self) }
        ensures none { IfErr result (λ e. is_macro (syntax_of_Expr e) ≡ false) }
    {
        match self {
            Expr::Macro(e) => Ok(e),
            Expr::Array(e) => Err(Expr::Array(e)),
            Expr::Assign(e) => Err(Expr::Assign(e)),
            Expr::Binary(e) => Err(Expr::Binary(e)),
            Expr::Block(e) => Err(Expr::Block(e)),
            Expr::Break(e) => Err(Expr::Break(e)),
            Expr::Call(e) => Err(Expr::Call(e)),
            Expr::Cast(e) => Err(Expr::Cast(e)),
            Expr::Continue(e) => Err(Expr::Continue(e)),
            Expr::Field(e) => Err(Expr::Field(e)),
            Expr::ForLoop(e) => Err(Expr::ForLoop(e)),
            Expr::Group(e) => Err(Expr::Group(e)),
            Expr::If(e) => Err(Expr::If(e)),
            Expr::Index(e) => Err(Expr::Index(e)),
            Expr::Lit(e) => Err(Expr::Lit(e)),
            Expr::Loop(e) => Err(Expr::Loop(e)),
            Expr::MethodCall(e) => Err(Expr::MethodCall(e)),
            Expr::Paren(e) => Err(Expr::Paren(e)),
            Expr::Path(e) => Err(Expr::Path(e)),
            Expr::Reference(e) => Err(Expr::Reference(e)),
            Expr::Repeat(e) => Err(Expr::Repeat(e)),
            Expr::Return(e) => Err(Expr::Return(e)),
            Expr::Struct(e) => Err(Expr::Struct(e)),
            Expr::Try(e) => Err(Expr::Try(e)),
            Expr::Tuple(e) => Err(Expr::Tuple(e)),
            Expr::Unary(e) => Err(Expr::Unary(e)),
            Expr::Unsafe(e) => Err(Expr::Unsafe(e)),
            Expr::Verbatim(e) => Err(Expr::Verbatim(e)),
            Expr::While(e) => Err(Expr::While(e)),
        }
    }
}

impl LocalInit {
    /// The value of a local that holds this expression, to make a statement of it.
    pub(crate) fn holding(expr: Box<Expr>) -> LocalInit
        ensures { value_of_local result ≡ syntax_of_Expr expr.value }
    {
        LocalInit {
            eq_token: Eq::default(),
            expr,
            diverge: None,
        }
    }

    /// The statement of the expression that this holds. A macro with `;` is a macro's, and so is one in braces (`braces`).
    #[tactic(auto, using(crate::proofs::Statements::other_sentence, crate::proofs::Statements::plain_sentence))]
    pub(crate) fn into_stmt(self, braces: bool, semi: Option<Semi>) -> Stmt
        ensures { statement_of result ≡ sentence braces (value_of_local self) (maybe semi_syntax semi) }
    {
        let expr = Box::into_inner(self.expr);
        if !braces && semi.is_none() {
            return Stmt::Expr(expr, None);
        }
        match expr.into_macro() {
            Ok(value) => macro_stmt(value, semi),
            Err(expr) => Stmt::Expr(expr, semi),
        }
    }
}

/// A macro as a statement.
fn macro_stmt(value: ExprMacro, semi: Option<Semi>) -> Stmt
    ensures { statement_of result ≡ Shaped said_macro (Both value (maybe semi_syntax semi)) }
{
    Stmt::Macro(StmtMacro {
        attrs: value.attrs,
        mac: value.mac,
        semi_token: semi,
    })
}
