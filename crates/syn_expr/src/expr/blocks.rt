//! Blocks, loops and `if` as expressions. Inner attributes among `attrs` are in the braces of the block.

use crate::nested::compare::{CompareNested, CompareOf, same_else, same_statements};
use crate::nested::copy::{CopyNested, CopyOf, copied, copy_else, copy_operand};
use crate::nested::print::{PrintNested, PrintOf, print_body, print_else};
use crate::{Block, Expr};
use std::alloc::{AllocError, Global};
use syn_lower::Attribute;
use syn_lower::attr::{print_before_body, print_outer};
use syn_pat::Pat;
use syn_tokens::lifetime::Lifetime;
use syn_tokens::print::Print;
use syn_tokens::stream::builder::StreamBuilder;
use syn_tokens::syntactic::compare::Compared;
use syn_tokens::token::{Colon, Else, For, If, In, Loop, Unsafe, While};

/// A label before a loop or a block: a lifetime and a colon.
#[derive(Drop)]
pub struct Label {
    pub name: Lifetime,
    pub colon_token: Colon,
}

/// A block, perhaps with a label.
#[cycle(expressions)]
#[derive(Drop)]
pub struct ExprBlock {
    pub attrs: Vec<Attribute>,
    pub label: Option<Label>,
    pub block: Block,
}

/// A `for` loop.
#[cycle(expressions)]
#[derive(Drop)]
pub struct ExprForLoop {
    pub attrs: Vec<Attribute>,
    pub label: Option<Label>,
    pub for_token: For,
    pub pat: Box<Pat>,
    pub in_token: In,
    pub expr: Box<Expr>,
    pub body: Block,
}

/// `if` and its branches. What follows `else` is a block or another `if`; of a tree made by hand anything else is printed in braces.
#[cycle(expressions)]
#[derive(Drop)]
pub struct ExprIf {
    pub attrs: Vec<Attribute>,
    pub if_token: If,
    pub cond: Box<Expr>,
    pub then_branch: Block,
    pub else_branch: Option<(Else, Box<Expr>)>,
}

/// A loop without an end.
#[cycle(expressions)]
#[derive(Drop)]
pub struct ExprLoop {
    pub attrs: Vec<Attribute>,
    pub label: Option<Label>,
    pub loop_token: Loop,
    pub body: Block,
}

/// An `unsafe` block.
#[cycle(expressions)]
#[derive(Drop)]
pub struct ExprUnsafe {
    pub attrs: Vec<Attribute>,
    pub unsafe_token: Unsafe,
    pub block: Block,
}

/// A `while` loop.
#[cycle(expressions)]
#[derive(Drop)]
pub struct ExprWhile {
    pub attrs: Vec<Attribute>,
    pub label: Option<Label>,
    pub while_token: While,
    pub cond: Box<Expr>,
    pub body: Block,
}

impl PrintNested<Expr> for ExprBlock {
    #[tactic(auto, using(syn_tokens::proofs::Prints::prints, crate::specs::Falls::inner_size))]
    fn print_nested<N: PrintOf<Expr>>(
        &self,
        nested: &N,
        out: &mut StreamBuilder,
    ) -> Result<(), AllocError> {
        print_before_body(&self.attrs, out)?;
        self.label.print_in(out)?;
        print_body(nested, &self.attrs, &self.block, out)
    }
}

impl CompareNested<Expr> for ExprBlock {
    #[tactic(auto, using(syn_lower::proofs::Bodies::same_after_one))]
    fn is_same_nested<N: CompareOf<Expr>>(&self, nested: &N, other: &ExprBlock) -> bool {
        self.attrs.is_same(&other.attrs)
            && self.label.is_same(&other.label)
            && same_statements(nested, &self.block.stmts, &other.block.stmts)
    }
}

impl PrintNested<Expr> for ExprForLoop {
    #[tactic(auto, using(syn_tokens::proofs::Prints::prints, crate::specs::Falls::inner_size))]
    fn print_nested<N: PrintOf<Expr>>(
        &self,
        nested: &N,
        out: &mut StreamBuilder,
    ) -> Result<(), AllocError> {
        print_before_body(&self.attrs, out)?;
        self.label.print_in(out)?;
        self.for_token.print_in(out)?;
        self.pat.print_in(out)?;
        self.in_token.print_in(out)?;
        nested.print_one(&self.expr, out)?;
        print_body(nested, &self.attrs, &self.body, out)
    }
}

impl CompareNested<Expr> for ExprForLoop {
    #[tactic(auto, using(syn_lower::proofs::Bodies::same_after_five))]
    fn is_same_nested<N: CompareOf<Expr>>(&self, nested: &N, other: &ExprForLoop) -> bool {
        self.attrs.is_same(&other.attrs)
            && self.label.is_same(&other.label)
            && self.for_token.is_same(&other.for_token)
            && self.pat.is_same(&other.pat)
            && self.in_token.is_same(&other.in_token)
            && nested.is_same_one(&self.expr, &other.expr)
            && same_statements(nested, &self.body.stmts, &other.body.stmts)
    }
}

impl PrintNested<Expr> for ExprLoop {
    #[tactic(auto, using(syn_tokens::proofs::Prints::prints, crate::specs::Falls::inner_size))]
    fn print_nested<N: PrintOf<Expr>>(
        &self,
        nested: &N,
        out: &mut StreamBuilder,
    ) -> Result<(), AllocError> {
        print_before_body(&self.attrs, out)?;
        self.label.print_in(out)?;
        self.loop_token.print_in(out)?;
        print_body(nested, &self.attrs, &self.body, out)
    }
}

impl CompareNested<Expr> for ExprLoop {
    #[tactic(auto, using(syn_lower::proofs::Bodies::same_after_two))]
    fn is_same_nested<N: CompareOf<Expr>>(&self, nested: &N, other: &ExprLoop) -> bool {
        self.attrs.is_same(&other.attrs)
            && self.label.is_same(&other.label)
            && self.loop_token.is_same(&other.loop_token)
            && same_statements(nested, &self.body.stmts, &other.body.stmts)
    }
}

impl PrintNested<Expr> for ExprUnsafe {
    #[tactic(auto, using(syn_tokens::proofs::Prints::prints, crate::specs::Falls::inner_size))]
    fn print_nested<N: PrintOf<Expr>>(
        &self,
        nested: &N,
        out: &mut StreamBuilder,
    ) -> Result<(), AllocError> {
        print_before_body(&self.attrs, out)?;
        self.unsafe_token.print_in(out)?;
        print_body(nested, &self.attrs, &self.block, out)
    }
}

impl CompareNested<Expr> for ExprUnsafe {
    #[tactic(auto, using(syn_lower::proofs::Bodies::same_after_one))]
    fn is_same_nested<N: CompareOf<Expr>>(&self, nested: &N, other: &ExprUnsafe) -> bool {
        self.attrs.is_same(&other.attrs)
            && self.unsafe_token.is_same(&other.unsafe_token)
            && same_statements(nested, &self.block.stmts, &other.block.stmts)
    }
}

impl PrintNested<Expr> for ExprWhile {
    #[tactic(auto, using(syn_tokens::proofs::Prints::prints, crate::specs::Falls::inner_size))]
    fn print_nested<N: PrintOf<Expr>>(
        &self,
        nested: &N,
        out: &mut StreamBuilder,
    ) -> Result<(), AllocError> {
        print_before_body(&self.attrs, out)?;
        self.label.print_in(out)?;
        self.while_token.print_in(out)?;
        nested.print_one(&self.cond, out)?;
        print_body(nested, &self.attrs, &self.body, out)
    }
}

impl CompareNested<Expr> for ExprWhile {
    #[tactic(auto, using(syn_lower::proofs::Bodies::same_after_three))]
    fn is_same_nested<N: CompareOf<Expr>>(&self, nested: &N, other: &ExprWhile) -> bool {
        self.attrs.is_same(&other.attrs)
            && self.label.is_same(&other.label)
            && self.while_token.is_same(&other.while_token)
            && nested.is_same_one(&self.cond, &other.cond)
            && same_statements(nested, &self.body.stmts, &other.body.stmts)
    }
}

impl PrintNested<Expr> for ExprIf {
    #[tactic(auto, using(syn_tokens::proofs::Prints::prints))]
    fn print_nested<N: PrintOf<Expr>>(
        &self,
        nested: &N,
        out: &mut StreamBuilder,
    ) -> Result<(), AllocError> {
        print_outer(&self.attrs, out)?;
        self.if_token.print_in(out)?;
        nested.print_one(&self.cond, out)?;
        self.then_branch.print_nested(nested, out)?;
        print_else(nested, &self.else_branch, out)
    }
}

impl CompareNested<Expr> for ExprIf {
    #[tactic(auto, using(syn_lower::proofs::Attributes::same_attributes, crate::proofs::Else::branch_smaller))]
    fn is_same_nested<N: CompareOf<Expr>>(&self, nested: &N, other: &ExprIf) -> bool {
        self.attrs.is_same(&other.attrs)
            && self.if_token.is_same(&other.if_token)
            && nested.is_same_one(&self.cond, &other.cond)
            && self.then_branch.is_same_nested(nested, &other.then_branch)
            && same_else(nested, &self.else_branch, &other.else_branch)
    }
}

impl CopyNested<Expr> for ExprIf {
    #[tactic(auto, using(crate::proofs::Else::branch_smaller))]
    fn copy_nested<N: CopyOf<Expr>>(
        &self,
        nested: &N,
        alloc: Global,
    ) -> Result<ExprIf, AllocError> {
        Ok(ExprIf {
            attrs: copied(&self.attrs, alloc)?,
            if_token: self.if_token,
            cond: copy_operand(nested, &self.cond, alloc)?,
            then_branch: self.then_branch.copy_nested(nested, alloc)?,
            else_branch: copy_else(nested, &self.else_branch, alloc)?,
        })
    }
}

// Written by tools/kinds.py from here to the end; edits are lost.

impl std::marker::Model for Label {
    ghost use Rattle.syn_grammar.specs.Grammar.{Syntax};
    ghost use Rattle.syn_grammar.specs.TreeCodes.{syntax_code};

    ghost Value = { Syntax };

    ghost coded = { syntax_code };

    ghost use Rattle.syn_expr.specs.Expressions.{view_Label};

    ghost view = { view_Label };
}

impl std::marker::Model for ExprBlock {
    ghost use Rattle.syn_grammar.specs.Grammar.{Syntax};
    ghost use Rattle.syn_grammar.specs.TreeCodes.{syntax_code};

    ghost Value = { Syntax };

    ghost coded = { syntax_code };

    ghost use Rattle.syn_expr.specs.Expressions.{view_ExprBlock};

    ghost view = { view_ExprBlock };

    ghost use Rattle.syn_lower.specs.Sizes.{tree_size};

    ghost size = { tree_size };

    ghost use Rattle.syn_expr.specs.Falls.{falls_ExprBlock};

    ghost size_decreases = { λ a h. falls_ExprBlock a };
}

impl std::marker::Model for ExprForLoop {
    ghost use Rattle.syn_grammar.specs.Grammar.{Syntax};
    ghost use Rattle.syn_grammar.specs.TreeCodes.{syntax_code};

    ghost Value = { Syntax };

    ghost coded = { syntax_code };

    ghost use Rattle.syn_expr.specs.Expressions.{view_ExprForLoop};

    ghost view = { view_ExprForLoop };

    ghost use Rattle.syn_lower.specs.Sizes.{tree_size};

    ghost size = { tree_size };

    ghost use Rattle.syn_expr.specs.Falls.{falls_ExprForLoop};

    ghost size_decreases = { λ a h. falls_ExprForLoop a };
}

impl std::marker::Model for ExprIf {
    ghost use Rattle.syn_grammar.specs.Grammar.{Syntax};
    ghost use Rattle.syn_grammar.specs.TreeCodes.{syntax_code};

    ghost Value = { Syntax };

    ghost coded = { syntax_code };

    ghost use Rattle.syn_expr.specs.Expressions.{view_ExprIf};

    ghost view = { view_ExprIf };

    ghost use Rattle.syn_lower.specs.Sizes.{tree_size};

    ghost size = { tree_size };

    ghost use Rattle.syn_expr.specs.Falls.{falls_ExprIf};

    ghost size_decreases = { λ a h. falls_ExprIf a };
}

impl std::marker::Model for ExprLoop {
    ghost use Rattle.syn_grammar.specs.Grammar.{Syntax};
    ghost use Rattle.syn_grammar.specs.TreeCodes.{syntax_code};

    ghost Value = { Syntax };

    ghost coded = { syntax_code };

    ghost use Rattle.syn_expr.specs.Expressions.{view_ExprLoop};

    ghost view = { view_ExprLoop };

    ghost use Rattle.syn_lower.specs.Sizes.{tree_size};

    ghost size = { tree_size };

    ghost use Rattle.syn_expr.specs.Falls.{falls_ExprLoop};

    ghost size_decreases = { λ a h. falls_ExprLoop a };
}

impl std::marker::Model for ExprUnsafe {
    ghost use Rattle.syn_grammar.specs.Grammar.{Syntax};
    ghost use Rattle.syn_grammar.specs.TreeCodes.{syntax_code};

    ghost Value = { Syntax };

    ghost coded = { syntax_code };

    ghost use Rattle.syn_expr.specs.Expressions.{view_ExprUnsafe};

    ghost view = { view_ExprUnsafe };

    ghost use Rattle.syn_lower.specs.Sizes.{tree_size};

    ghost size = { tree_size };

    ghost use Rattle.syn_expr.specs.Falls.{falls_ExprUnsafe};

    ghost size_decreases = { λ a h. falls_ExprUnsafe a };
}

impl std::marker::Model for ExprWhile {
    ghost use Rattle.syn_grammar.specs.Grammar.{Syntax};
    ghost use Rattle.syn_grammar.specs.TreeCodes.{syntax_code};

    ghost Value = { Syntax };

    ghost coded = { syntax_code };

    ghost use Rattle.syn_expr.specs.Expressions.{view_ExprWhile};

    ghost view = { view_ExprWhile };

    ghost use Rattle.syn_lower.specs.Sizes.{tree_size};

    ghost size = { tree_size };

    ghost use Rattle.syn_expr.specs.Falls.{falls_ExprWhile};

    ghost size_decreases = { λ a h. falls_ExprWhile a };
}

impl syn_tokens::syntactic::Syntactic for Label {
    ghost use Rattle.syn_grammar.specs.Promises.{itself};

    ghost syntax = { itself };
}

impl syn_tokens::syntactic::Syntactic for ExprBlock {
    ghost use Rattle.syn_grammar.specs.Promises.{itself};

    ghost syntax = { itself };
}

impl syn_tokens::syntactic::Syntactic for ExprForLoop {
    ghost use Rattle.syn_grammar.specs.Promises.{itself};

    ghost syntax = { itself };
}

impl syn_tokens::syntactic::Syntactic for ExprIf {
    ghost use Rattle.syn_grammar.specs.Promises.{itself};

    ghost syntax = { itself };
}

impl syn_tokens::syntactic::Syntactic for ExprLoop {
    ghost use Rattle.syn_grammar.specs.Promises.{itself};

    ghost syntax = { itself };
}

impl syn_tokens::syntactic::Syntactic for ExprUnsafe {
    ghost use Rattle.syn_grammar.specs.Promises.{itself};

    ghost syntax = { itself };
}

impl syn_tokens::syntactic::Syntactic for ExprWhile {
    ghost use Rattle.syn_grammar.specs.Promises.{itself};

    ghost syntax = { itself };
}
