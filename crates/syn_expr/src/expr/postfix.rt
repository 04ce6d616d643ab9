//! Expressions that continue another: calls, indices, members, operators.

use crate::Expr;
use syn_lower::{AngleBracketedGenericArguments, Attribute, Member};
use syn_tokens::ident::Ident;
use syn_tokens::punctuated::Punctuated;
use syn_tokens::token::{Bracket, Comma, Dot, Paren, Question};

/// A call: an expression, and arguments in parentheses.
#[cycle(expressions)]
#[derive(Drop)]
pub struct ExprCall {
    pub attrs: Vec<Attribute>,
    pub func: Box<Expr>,
    pub paren_token: Paren,
    pub args: Punctuated<Expr, Comma>,
}

/// A field of an expression: `.` and its name or number.
#[cycle(expressions)]
#[derive(Drop)]
pub struct ExprField {
    pub attrs: Vec<Attribute>,
    pub base: Box<Expr>,
    pub dot_token: Dot,
    pub member: Member,
}

/// An expression, and another in brackets after it.
#[cycle(expressions)]
#[derive(Drop)]
pub struct ExprIndex {
    pub attrs: Vec<Attribute>,
    pub expr: Box<Expr>,
    pub bracket_token: Bracket,
    pub index: Box<Expr>,
}

/// A call of a method: `.` and its name, perhaps generic arguments after `::`, and arguments in parentheses.
#[cycle(expressions)]
#[derive(Drop)]
pub struct ExprMethodCall {
    pub attrs: Vec<Attribute>,
    pub receiver: Box<Expr>,
    pub dot_token: Dot,
    pub method: Ident,
    pub turbofish: Option<AngleBracketedGenericArguments>,
    pub paren_token: Paren,
    pub args: Punctuated<Expr, Comma>,
}

/// An expression and `?`.
#[cycle(expressions)]
#[derive(Drop)]
pub struct ExprTry {
    pub attrs: Vec<Attribute>,
    pub expr: Box<Expr>,
    pub question_token: Question,
}

// Written by tools/kinds.py from here to the end; edits are lost.

impl std::marker::Model for ExprCall {
    ghost use Rattle.syn_grammar.specs.Grammar.{Syntax};
    ghost use Rattle.syn_grammar.specs.TreeCodes.{syntax_code};

    ghost Value = { Syntax };

    ghost coded = { syntax_code };

    ghost use Rattle.syn_expr.specs.Expressions.{view_ExprCall};

    ghost view = { view_ExprCall };

    ghost use Rattle.syn_lower.specs.Sizes.{tree_size};

    ghost size = { tree_size };

    ghost use Rattle.syn_expr.specs.Falls.{falls_ExprCall};

    ghost size_decreases = { λ a h. falls_ExprCall a };
}

impl std::marker::Model for ExprField {
    ghost use Rattle.syn_grammar.specs.Grammar.{Syntax};
    ghost use Rattle.syn_grammar.specs.TreeCodes.{syntax_code};

    ghost Value = { Syntax };

    ghost coded = { syntax_code };

    ghost use Rattle.syn_expr.specs.Expressions.{view_ExprField};

    ghost view = { view_ExprField };

    ghost use Rattle.syn_lower.specs.Sizes.{tree_size};

    ghost size = { tree_size };

    ghost use Rattle.syn_expr.specs.Falls.{falls_ExprField};

    ghost size_decreases = { λ a h. falls_ExprField a };
}

impl std::marker::Model for ExprIndex {
    ghost use Rattle.syn_grammar.specs.Grammar.{Syntax};
    ghost use Rattle.syn_grammar.specs.TreeCodes.{syntax_code};

    ghost Value = { Syntax };

    ghost coded = { syntax_code };

    ghost use Rattle.syn_expr.specs.Expressions.{view_ExprIndex};

    ghost view = { view_ExprIndex };

    ghost use Rattle.syn_lower.specs.Sizes.{tree_size};

    ghost size = { tree_size };

    ghost use Rattle.syn_expr.specs.Falls.{falls_ExprIndex};

    ghost size_decreases = { λ a h. falls_ExprIndex a };
}

impl std::marker::Model for ExprMethodCall {
    ghost use Rattle.syn_grammar.specs.Grammar.{Syntax};
    ghost use Rattle.syn_grammar.specs.TreeCodes.{syntax_code};

    ghost Value = { Syntax };

    ghost coded = { syntax_code };

    ghost use Rattle.syn_expr.specs.Expressions.{view_ExprMethodCall};

    ghost view = { view_ExprMethodCall };

    ghost use Rattle.syn_lower.specs.Sizes.{tree_size};

    ghost size = { tree_size };

    ghost use Rattle.syn_expr.specs.Falls.{falls_ExprMethodCall};

    ghost size_decreases = { λ a h. falls_ExprMethodCall a };
}

impl std::marker::Model for ExprTry {
    ghost use Rattle.syn_grammar.specs.Grammar.{Syntax};
    ghost use Rattle.syn_grammar.specs.TreeCodes.{syntax_code};

    ghost Value = { Syntax };

    ghost coded = { syntax_code };

    ghost use Rattle.syn_expr.specs.Expressions.{view_ExprTry};

    ghost view = { view_ExprTry };

    ghost use Rattle.syn_lower.specs.Sizes.{tree_size};

    ghost size = { tree_size };

    ghost use Rattle.syn_expr.specs.Falls.{falls_ExprTry};

    ghost size_decreases = { λ a h. falls_ExprTry a };
}

impl syn_tokens::syntactic::Syntactic for ExprCall {
    ghost use Rattle.syn_grammar.specs.Promises.{itself};

    ghost syntax = { itself };
}

impl syn_tokens::syntactic::Syntactic for ExprField {
    ghost use Rattle.syn_grammar.specs.Promises.{itself};

    ghost syntax = { itself };
}

impl syn_tokens::syntactic::Syntactic for ExprIndex {
    ghost use Rattle.syn_grammar.specs.Promises.{itself};

    ghost syntax = { itself };
}

impl syn_tokens::syntactic::Syntactic for ExprMethodCall {
    ghost use Rattle.syn_grammar.specs.Promises.{itself};

    ghost syntax = { itself };
}

impl syn_tokens::syntactic::Syntactic for ExprTry {
    ghost use Rattle.syn_grammar.specs.Promises.{itself};

    ghost syntax = { itself };
}
