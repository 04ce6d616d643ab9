//! Expressions.

mod blocks;
mod groups;
mod operators;
mod postfix;
mod primary;
mod statement;
mod structs;

pub use blocks::{ExprBlock, ExprForLoop, ExprIf, ExprLoop, ExprUnsafe, ExprWhile, Label};
pub use groups::{ExprArray, ExprGroup, ExprParen, ExprRepeat, ExprTuple};
pub use operators::{ExprAssign, ExprBinary, ExprCast, ExprReference, ExprUnary};
pub use postfix::{ExprCall, ExprField, ExprIndex, ExprMethodCall, ExprTry};
pub use primary::{ExprBreak, ExprContinue, ExprLit, ExprMacro, ExprPath, ExprReturn};
pub use structs::{ExprStruct, FieldValue};
use syn_tokens::punctuated::Punctuated;
use syn_tokens::stream::TokenStream;

/// An expression. What precedes an operator, a call's arguments and the like is a part of it, so chains nest to the left.
#[cycle(expressions)]
pub enum Expr {
    /// `[a, b]`
    Array(ExprArray),
    /// `a = b`
    Assign(ExprAssign),
    /// `a + b`, `a == b`, `a += b`
    Binary(ExprBinary),
    /// `{ a }`, `'a: { b }`
    Block(ExprBlock),
    /// `break`, `break 'a`
    Break(ExprBreak),
    /// `f(a, b)`
    Call(ExprCall),
    /// `a as T`
    Cast(ExprCast),
    /// `continue`, `continue 'a`
    Continue(ExprContinue),
    /// `a.b`, `a.0`
    Field(ExprField),
    /// `for p in a { }`
    ForLoop(ExprForLoop),
    /// An expression in a group without delimiters.
    Group(ExprGroup),
    /// `if a { } else { }`
    If(ExprIf),
    /// `a[b]`
    Index(ExprIndex),
    /// `1`, `"a"`, `true`
    Lit(ExprLit),
    /// `loop { }`
    Loop(ExprLoop),
    /// `m!(a)`
    Macro(ExprMacro),
    /// `a.b(c)`, `a.b::<T>(c)`
    MethodCall(ExprMethodCall),
    /// `(a)`
    Paren(ExprParen),
    /// `a::b`, `<T as A>::b`
    Path(ExprPath),
    /// `&a`, `&mut a`
    Reference(ExprReference),
    /// `[a; n]`
    Repeat(ExprRepeat),
    /// `return`, `return a`
    Return(ExprReturn),
    /// `A { b: c, d }`, `A { ..e }`
    Struct(ExprStruct),
    /// `a?`
    Try(ExprTry),
    /// `()`, `(a, b)`
    Tuple(ExprTuple),
    /// `-a`, `!a`, `*a`
    Unary(ExprUnary),
    /// `unsafe { }`
    Unsafe(ExprUnsafe),
    /// Tokens that are no expression: none, before a `;` alone.
    Verbatim(TokenStream),
    /// `while a { }`
    While(ExprWhile),
}

/// By hand: if it is derived, each crate that drops an expression proves the drops of all its types again.
impl Drop for Expr {
    #[cycle(gone)]
    fn drop(self) {
        match self {
            Expr::Array(value) => {
                let ExprArray {
                    attrs: _attrs,
                    bracket_token: _,
                    elems,
                } = value;
                let_go(elems)
            }
            Expr::Assign(_value) => (),
            Expr::Binary(_value) => (),
            Expr::Block(_value) => (),
            Expr::Break(_value) => (),
            Expr::Call(value) => {
                let ExprCall {
                    attrs: _attrs,
                    func: _func,
                    paren_token: _,
                    args,
                } = value;
                let_go(args)
            }
            Expr::Cast(_value) => (),
            Expr::Continue(_value) => (),
            Expr::Field(_value) => (),
            Expr::ForLoop(_value) => (),
            Expr::Group(_value) => (),
            Expr::If(_value) => (),
            Expr::Index(_value) => (),
            Expr::Lit(_value) => (),
            Expr::Loop(_value) => (),
            Expr::Macro(_value) => (),
            Expr::MethodCall(value) => {
                let ExprMethodCall {
                    attrs: _attrs,
                    receiver: _receiver,
                    dot_token: _,
                    method: _method,
                    turbofish: _turbofish,
                    paren_token: _,
                    args,
                } = value;
                let_go(args)
            }
            Expr::Paren(_value) => (),
            Expr::Path(_value) => (),
            Expr::Reference(_value) => (),
            Expr::Repeat(_value) => (),
            Expr::Return(_value) => (),
            Expr::Struct(value) => {
                let ExprStruct {
                    attrs: _attrs,
                    qself: _qself,
                    path: _path,
                    brace_token: _,
                    fields,
                    dot2_token: _,
                    rest: _rest,
                } = value;
                let_go(fields)
            }
            Expr::Try(_value) => (),
            Expr::Tuple(value) => {
                let ExprTuple {
                    attrs: _attrs,
                    paren_token: _,
                    elems,
                } = value;
                let_go(elems)
            }
            Expr::Unary(_value) => (),
            Expr::Unsafe(_value) => (),
            Expr::Verbatim(_value) => (),
            Expr::While(_value) => (),
        }
    }
}

/// Lets a list go, in a function of its own: there a drop of `Expr` by hand is one of its values.
fn let_go<T: Drop, P: Drop>(_list: Punctuated<T, P>) {}

// Written by tools/kinds.py from here to the end; edits are lost.

impl syn_tokens::syntactic::Syntactic for Expr {
    ghost use Rattle.syn_expr.specs.Expressions.{syntax_of_Expr};

    ghost syntax = { syntax_of_Expr };
}
