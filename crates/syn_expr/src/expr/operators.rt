//! Expressions with operators.

use crate::Expr;
use crate::op::{BinOp, UnOp};
use syn_lower::{Attribute, Type};
use syn_tokens::token::{And, As, Eq, Mut};

/// An assignment. It groups from the right.
#[cycle(expressions)]
#[derive(Drop)]
pub struct ExprAssign {
    pub attrs: Vec<Attribute>,
    pub left: Box<Expr>,
    pub eq_token: Eq,
    pub right: Box<Expr>,
}

/// Two operands and an operator between them; one with `=` too, such as `+=`.
#[cycle(expressions)]
#[derive(Drop)]
pub struct ExprBinary {
    pub attrs: Vec<Attribute>,
    pub left: Box<Expr>,
    pub op: BinOp,
    pub right: Box<Expr>,
}

/// A cast: an expression, `as` and a type.
#[cycle(expressions)]
#[derive(Drop)]
pub struct ExprCast {
    pub attrs: Vec<Attribute>,
    pub expr: Box<Expr>,
    pub as_token: As,
    pub ty: Box<Type>,
}

/// A reference: `&`, perhaps `mut`, and an expression.
#[cycle(expressions)]
#[derive(Drop)]
pub struct ExprReference {
    pub attrs: Vec<Attribute>,
    pub and_token: And,
    pub mutability: Option<Mut>,
    pub expr: Box<Expr>,
}

/// `-`, `!` or `*`, and an expression.
#[cycle(expressions)]
#[derive(Drop)]
pub struct ExprUnary {
    pub attrs: Vec<Attribute>,
    pub op: UnOp,
    pub expr: Box<Expr>,
}

// Written by tools/kinds.py from here to the end; edits are lost.

impl std::marker::Model for ExprAssign {
    ghost use Rattle.syn_grammar.specs.Grammar.{Syntax};
    ghost use Rattle.syn_grammar.specs.TreeCodes.{syntax_code};

    ghost Value = { Syntax };

    ghost coded = { syntax_code };

    ghost use Rattle.syn_expr.specs.Expressions.{view_ExprAssign};

    ghost view = { view_ExprAssign };

    ghost use Rattle.syn_lower.specs.Sizes.{tree_size};

    ghost size = { tree_size };

    ghost use Rattle.syn_expr.specs.Falls.{falls_ExprAssign};

    ghost size_decreases = { λ a h. falls_ExprAssign a };
}

impl std::marker::Model for ExprBinary {
    ghost use Rattle.syn_grammar.specs.Grammar.{Syntax};
    ghost use Rattle.syn_grammar.specs.TreeCodes.{syntax_code};

    ghost Value = { Syntax };

    ghost coded = { syntax_code };

    ghost use Rattle.syn_expr.specs.Expressions.{view_ExprBinary};

    ghost view = { view_ExprBinary };

    ghost use Rattle.syn_lower.specs.Sizes.{tree_size};

    ghost size = { tree_size };

    ghost use Rattle.syn_expr.specs.Falls.{falls_ExprBinary};

    ghost size_decreases = { λ a h. falls_ExprBinary a };
}

impl std::marker::Model for ExprCast {
    ghost use Rattle.syn_grammar.specs.Grammar.{Syntax};
    ghost use Rattle.syn_grammar.specs.TreeCodes.{syntax_code};

    ghost Value = { Syntax };

    ghost coded = { syntax_code };

    ghost use Rattle.syn_expr.specs.Expressions.{view_ExprCast};

    ghost view = { view_ExprCast };

    ghost use Rattle.syn_lower.specs.Sizes.{tree_size};

    ghost size = { tree_size };

    ghost use Rattle.syn_expr.specs.Falls.{falls_ExprCast};

    ghost size_decreases = { λ a h. falls_ExprCast a };
}

impl std::marker::Model for ExprReference {
    ghost use Rattle.syn_grammar.specs.Grammar.{Syntax};
    ghost use Rattle.syn_grammar.specs.TreeCodes.{syntax_code};

    ghost Value = { Syntax };

    ghost coded = { syntax_code };

    ghost use Rattle.syn_expr.specs.Expressions.{view_ExprReference};

    ghost view = { view_ExprReference };

    ghost use Rattle.syn_lower.specs.Sizes.{tree_size};

    ghost size = { tree_size };

    ghost use Rattle.syn_expr.specs.Falls.{falls_ExprReference};

    ghost size_decreases = { λ a h. falls_ExprReference a };
}

impl std::marker::Model for ExprUnary {
    ghost use Rattle.syn_grammar.specs.Grammar.{Syntax};
    ghost use Rattle.syn_grammar.specs.TreeCodes.{syntax_code};

    ghost Value = { Syntax };

    ghost coded = { syntax_code };

    ghost use Rattle.syn_expr.specs.Expressions.{view_ExprUnary};

    ghost view = { view_ExprUnary };

    ghost use Rattle.syn_lower.specs.Sizes.{tree_size};

    ghost size = { tree_size };

    ghost use Rattle.syn_expr.specs.Falls.{falls_ExprUnary};

    ghost size_decreases = { λ a h. falls_ExprUnary a };
}

impl syn_tokens::syntactic::Syntactic for ExprAssign {
    ghost use Rattle.syn_grammar.specs.Promises.{itself};

    ghost syntax = { itself };
}

impl syn_tokens::syntactic::Syntactic for ExprBinary {
    ghost use Rattle.syn_grammar.specs.Promises.{itself};

    ghost syntax = { itself };
}

impl syn_tokens::syntactic::Syntactic for ExprCast {
    ghost use Rattle.syn_grammar.specs.Promises.{itself};

    ghost syntax = { itself };
}

impl syn_tokens::syntactic::Syntactic for ExprReference {
    ghost use Rattle.syn_grammar.specs.Promises.{itself};

    ghost syntax = { itself };
}

impl syn_tokens::syntactic::Syntactic for ExprUnary {
    ghost use Rattle.syn_grammar.specs.Promises.{itself};

    ghost syntax = { itself };
}
