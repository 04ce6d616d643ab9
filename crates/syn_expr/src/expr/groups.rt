//! Expressions in groups.

use crate::Expr;
use crate::nested::compare::{CompareNested, CompareOf, same_exprs};
use crate::nested::print::{PrintNested, PrintOf, print_exprs, print_lone_comma};
use std::alloc::AllocError;
use syn_lower::Attribute;
use syn_lower::attr::print_outer;
use syn_tokens::punctuated::Punctuated;
use syn_tokens::stream::builder::StreamBuilder;
use syn_tokens::syntactic::compare::Compared;
use syn_tokens::token::{Bracket, Comma, Group, Paren, Semi};

/// An array of expressions.
#[cycle(expressions)]
#[derive(Drop)]
pub struct ExprArray {
    pub attrs: Vec<Attribute>,
    pub bracket_token: Bracket,
    pub elems: Punctuated<Expr, Comma>,
}

/// An expression in a group without delimiters, as macros make them.
#[cycle(expressions)]
#[derive(Drop)]
pub struct ExprGroup {
    pub attrs: Vec<Attribute>,
    pub group_token: Group,
    pub expr: Box<Expr>,
}

/// An expression in parentheses.
#[cycle(expressions)]
#[derive(Drop)]
pub struct ExprParen {
    pub attrs: Vec<Attribute>,
    pub paren_token: Paren,
    pub expr: Box<Expr>,
}

/// An array of copies: an expression, and how many.
#[cycle(expressions)]
#[derive(Drop)]
pub struct ExprRepeat {
    pub attrs: Vec<Attribute>,
    pub bracket_token: Bracket,
    pub expr: Box<Expr>,
    pub semi_token: Semi,
    pub len: Box<Expr>,
}

/// A tuple. One value without a comma after it is printed with one, since it would be an expression in parentheses else.
#[cycle(expressions)]
#[derive(Drop)]
pub struct ExprTuple {
    pub attrs: Vec<Attribute>,
    pub paren_token: Paren,
    pub elems: Punctuated<Expr, Comma>,
}

/// After one expression alone a comma is printed in any case.
impl PrintNested<Expr> for ExprTuple {
    #[tactic(auto, using(syn_tokens::proofs::Prints::groups, syn_lower::proofs::Types::print_elements, syn_lower::proofs::Smaller::lists))]
    fn print_nested<N: PrintOf<Expr>>(
        &self,
        nested: &N,
        out: &mut StreamBuilder,
    ) -> Result<(), AllocError> {
        print_outer(&self.attrs, out)?;
        self.paren_token.open(out)?;
        print_exprs(nested, &self.elems, out)?;
        print_lone_comma(&self.elems, out)?;
        self.paren_token.close(out)
    }
}

impl CompareNested<Expr> for ExprTuple {
    #[tactic(auto, using(syn_lower::proofs::Attributes::same_attributes, syn_lower::proofs::Types::same_elements, syn_lower::proofs::Smaller::lists))]
    fn is_same_nested<N: CompareOf<Expr>>(&self, nested: &N, other: &ExprTuple) -> bool {
        self.attrs.is_same(&other.attrs) && same_exprs(nested, &self.elems, &other.elems)
    }
}

// Written by tools/kinds.py from here to the end; edits are lost.

impl std::marker::Model for ExprArray {
    ghost use Rattle.syn_grammar.specs.Grammar.{Syntax};
    ghost use Rattle.syn_grammar.specs.TreeCodes.{syntax_code};

    ghost Value = { Syntax };

    ghost coded = { syntax_code };

    ghost use Rattle.syn_expr.specs.Expressions.{view_ExprArray};

    ghost view = { view_ExprArray };

    ghost use Rattle.syn_lower.specs.Sizes.{tree_size};

    ghost size = { tree_size };

    ghost use Rattle.syn_expr.specs.Falls.{falls_ExprArray};

    ghost size_decreases = { λ a h. falls_ExprArray a };
}

impl std::marker::Model for ExprGroup {
    ghost use Rattle.syn_grammar.specs.Grammar.{Syntax};
    ghost use Rattle.syn_grammar.specs.TreeCodes.{syntax_code};

    ghost Value = { Syntax };

    ghost coded = { syntax_code };

    ghost use Rattle.syn_expr.specs.Expressions.{view_ExprGroup};

    ghost view = { view_ExprGroup };

    ghost use Rattle.syn_lower.specs.Sizes.{tree_size};

    ghost size = { tree_size };

    ghost use Rattle.syn_expr.specs.Falls.{falls_ExprGroup};

    ghost size_decreases = { λ a h. falls_ExprGroup a };
}

impl std::marker::Model for ExprParen {
    ghost use Rattle.syn_grammar.specs.Grammar.{Syntax};
    ghost use Rattle.syn_grammar.specs.TreeCodes.{syntax_code};

    ghost Value = { Syntax };

    ghost coded = { syntax_code };

    ghost use Rattle.syn_expr.specs.Expressions.{view_ExprParen};

    ghost view = { view_ExprParen };

    ghost use Rattle.syn_lower.specs.Sizes.{tree_size};

    ghost size = { tree_size };

    ghost use Rattle.syn_expr.specs.Falls.{falls_ExprParen};

    ghost size_decreases = { λ a h. falls_ExprParen a };
}

impl std::marker::Model for ExprRepeat {
    ghost use Rattle.syn_grammar.specs.Grammar.{Syntax};
    ghost use Rattle.syn_grammar.specs.TreeCodes.{syntax_code};

    ghost Value = { Syntax };

    ghost coded = { syntax_code };

    ghost use Rattle.syn_expr.specs.Expressions.{view_ExprRepeat};

    ghost view = { view_ExprRepeat };

    ghost use Rattle.syn_lower.specs.Sizes.{tree_size};

    ghost size = { tree_size };

    ghost use Rattle.syn_expr.specs.Falls.{falls_ExprRepeat};

    ghost size_decreases = { λ a h. falls_ExprRepeat a };
}

impl std::marker::Model for ExprTuple {
    ghost use Rattle.syn_grammar.specs.Grammar.{Syntax};
    ghost use Rattle.syn_grammar.specs.TreeCodes.{syntax_code};

    ghost Value = { Syntax };

    ghost coded = { syntax_code };

    ghost use Rattle.syn_expr.specs.Expressions.{view_ExprTuple};

    ghost view = { view_ExprTuple };

    ghost use Rattle.syn_lower.specs.Sizes.{tree_size};

    ghost size = { tree_size };

    ghost use Rattle.syn_expr.specs.Falls.{falls_ExprTuple};

    ghost size_decreases = { λ a h. falls_ExprTuple a };
}

impl syn_tokens::syntactic::Syntactic for ExprArray {
    ghost use Rattle.syn_grammar.specs.Promises.{itself};

    ghost syntax = { itself };
}

impl syn_tokens::syntactic::Syntactic for ExprGroup {
    ghost use Rattle.syn_grammar.specs.Promises.{itself};

    ghost syntax = { itself };
}

impl syn_tokens::syntactic::Syntactic for ExprParen {
    ghost use Rattle.syn_grammar.specs.Promises.{itself};

    ghost syntax = { itself };
}

impl syn_tokens::syntactic::Syntactic for ExprRepeat {
    ghost use Rattle.syn_grammar.specs.Promises.{itself};

    ghost syntax = { itself };
}

impl syn_tokens::syntactic::Syntactic for ExprTuple {
    ghost use Rattle.syn_grammar.specs.Promises.{itself};

    ghost syntax = { itself };
}
