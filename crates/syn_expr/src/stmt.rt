//! Blocks and statements.
ghost use Rattle.std.specs.Prelude.{IsOk};

use crate::Expr;
use crate::nested::compare::{
    CompareNested, CompareOf, same_else, same_local_pattern, same_statements,
};
use crate::nested::copy::{CopyNested, CopyOf, copied, copy_else, copy_operand, copy_statements};
use crate::nested::print::{PrintNested, PrintOf, print_diverging, print_statements};
use std::alloc::{AllocError, Global};
use syn_lower::Attribute;
use syn_pat::{Macro, Pat};
use syn_recognize::deferred::DeferredItem;
use syn_tokens::error;
use syn_tokens::print::Print;
use syn_tokens::stream::builder::StreamBuilder;
use syn_tokens::syntactic::compare::Compared;
use syn_tokens::token::{Brace, Else, Eq, Let, Semi};

/// A block: statements in braces.
#[cycle(expressions)]
#[derive(Drop)]
pub struct Block {
    pub brace_token: Brace,
    pub stmts: Vec<Stmt>,
}

/// A statement.
#[cycle(expressions)]
#[derive(Drop)]
pub enum Stmt {
    /// `let a = b;`
    Local(Local),
    /// An item, kept verbatim.
    Item(DeferredItem),
    /// An expression, followed by `;` or without it.
    Expr(Expr, Option<Semi>),
    /// `m! { a }`, `m!(a);`
    Macro(StmtMacro),
}

/// A local: `let`, a pattern, perhaps with a type, perhaps with a value, and `;`.
#[cycle(expressions)]
#[derive(Drop)]
pub struct Local {
    pub attrs: Vec<Attribute>,
    pub let_token: Let,
    pub modifiers: LocalModifiers,
    pub pat: Pat,
    pub init: Option<LocalInit>,
    pub semi_token: Semi,
}

/// The modifiers of a local. There are none.
#[derive(Clone, Copy, Debug, Default)]
pub struct LocalModifiers {}

impl LocalModifiers {
    /// Always `Ok`, as there are no modifiers.
    pub fn require_empty(&self) -> error::Result<()>
        ensures { IsOk result }
    {
        Ok(())
    }
}

/// The value of a local: `=`, an expression, and perhaps `else` and a block. Of a tree made by hand, anything else than a block after
/// `else` is printed in braces.
#[cycle(expressions)]
#[derive(Drop)]
pub struct LocalInit {
    pub eq_token: Eq,
    pub expr: Box<Expr>,
    pub diverge: Option<(Else, Box<Expr>)>,
}

/// A macro as a statement: one followed by braces, or one with `;`.
#[derive(Drop)]
pub struct StmtMacro {
    pub attrs: Vec<Attribute>,
    pub mac: Macro,
    pub semi_token: Option<Semi>,
}

impl PrintNested<Expr> for Block {
    #[tactic(auto, using(syn_tokens::proofs::Prints::groups))]
    fn print_nested<N: PrintOf<Expr>>(
        &self,
        nested: &N,
        out: &mut StreamBuilder,
    ) -> Result<(), AllocError> {
        self.brace_token.open(out)?;
        print_statements(nested, &self.stmts, out)?;
        self.brace_token.close(out)
    }
}

impl CompareNested<Expr> for Block {
    fn is_same_nested<N: CompareOf<Expr>>(&self, nested: &N, other: &Block) -> bool {
        same_statements(nested, &self.stmts, &other.stmts)
    }
}

impl CopyNested<Expr> for Block {
    fn copy_nested<N: CopyOf<Expr>>(&self, nested: &N, alloc: Global) -> Result<Block, AllocError> {
        Ok(Block {
            brace_token: self.brace_token,
            stmts: copy_statements(nested, &self.stmts, alloc)?,
        })
    }
}

impl PrintNested<Expr> for Stmt {
    #[tactic(auto, using(syn_tokens::proofs::Prints::prints))]
    fn print_nested<N: PrintOf<Expr>>(
        &self,
        nested: &N,
        out: &mut StreamBuilder,
    ) -> Result<(), AllocError> {
        match self {
            Stmt::Local(value) => value.print_nested(nested, out),
            Stmt::Expr(expr, semi) => {
                nested.print_one(expr, out)?;
                semi.print_in(out)
            }
            Stmt::Item(item) => item.print_in(out),
            Stmt::Macro(value) => value.print_in(out),
        }
    }
}

impl CompareNested<Expr> for Stmt {
    fn is_same_nested<N: CompareOf<Expr>>(&self, nested: &N, other: &Stmt) -> bool {
        match (self, other) {
            (Stmt::Local(a), Stmt::Local(b)) => a.is_same_nested(nested, b),
            (Stmt::Expr(a, semi), Stmt::Expr(b, other_semi)) => {
                nested.is_same_one(a, b) && semi.is_same(other_semi)
            }
            (Stmt::Item(a), Stmt::Item(b)) => a.is_same(b),
            (Stmt::Macro(a), Stmt::Macro(b)) => a.is_same(b),
            _ => false,
        }
    }
}

impl CopyNested<Expr> for Stmt {
    fn copy_nested<N: CopyOf<Expr>>(&self, nested: &N, alloc: Global) -> Result<Stmt, AllocError> {
        match self {
            Stmt::Local(value) => Ok(Stmt::Local(value.copy_nested(nested, alloc)?)),
            Stmt::Expr(expr, semi) => Ok(Stmt::Expr(nested.copy_one(expr, alloc)?, *semi)),
            Stmt::Item(item) => Ok(Stmt::Item(copied(item, alloc)?)),
            Stmt::Macro(value) => Ok(Stmt::Macro(copied(value, alloc)?)),
        }
    }
}

impl CompareNested<Expr> for Local {
    #[tactic(auto, using(syn_lower::proofs::Attributes::same_attributes))]
    fn is_same_nested<N: CompareOf<Expr>>(&self, nested: &N, other: &Local) -> bool {
        self.attrs.is_same(&other.attrs)
            && self.let_token.is_same(&other.let_token)
            && same_local_pattern(&self.pat, &other.pat)
            && self.init.is_same_nested(nested, &other.init)
            && self.semi_token.is_same(&other.semi_token)
    }
}

impl PrintNested<Expr> for LocalInit {
    #[tactic(auto, using(syn_tokens::proofs::Prints::prints, crate::proofs::Else::print_diverging, crate::proofs::Else::diverging_smaller))]
    fn print_nested<N: PrintOf<Expr>>(
        &self,
        nested: &N,
        out: &mut StreamBuilder,
    ) -> Result<(), AllocError> {
        self.eq_token.print_in(out)?;
        nested.print_one(&self.expr, out)?;
        print_diverging(nested, &self.diverge, out)
    }
}

impl CompareNested<Expr> for LocalInit {
    #[tactic(auto, using(crate::proofs::Else::diverge_smaller))]
    fn is_same_nested<N: CompareOf<Expr>>(&self, nested: &N, other: &LocalInit) -> bool {
        self.eq_token.is_same(&other.eq_token)
            && nested.is_same_one(&self.expr, &other.expr)
            && same_else(nested, &self.diverge, &other.diverge)
    }
}

impl CopyNested<Expr> for LocalInit {
    #[tactic(auto, using(crate::proofs::Else::diverge_smaller))]
    fn copy_nested<N: CopyOf<Expr>>(
        &self,
        nested: &N,
        alloc: Global,
    ) -> Result<LocalInit, AllocError> {
        Ok(LocalInit {
            eq_token: self.eq_token,
            expr: copy_operand(nested, &self.expr, alloc)?,
            diverge: copy_else(nested, &self.diverge, alloc)?,
        })
    }
}

// Written by tools/kinds.py from here to the end; edits are lost.

impl std::marker::Model for Block {
    ghost use Rattle.syn_grammar.specs.Grammar.{Syntax};
    ghost use Rattle.syn_grammar.specs.TreeCodes.{syntax_code};

    ghost Value = { Syntax };

    ghost coded = { syntax_code };

    ghost use Rattle.syn_expr.specs.Statements.{view_Block};

    ghost view = { view_Block };

    ghost use Rattle.syn_lower.specs.Sizes.{tree_size};

    ghost size = { tree_size };

    ghost use Rattle.syn_expr.specs.Falls.{falls_Block};

    ghost size_decreases = { λ a h. falls_Block a };
}

impl std::marker::Model for Local {
    ghost use Rattle.syn_grammar.specs.Grammar.{Syntax};
    ghost use Rattle.syn_grammar.specs.TreeCodes.{syntax_code};

    ghost Value = { Syntax };

    ghost coded = { syntax_code };

    ghost use Rattle.syn_expr.specs.Statements.{view_Local};

    ghost view = { view_Local };

    ghost use Rattle.syn_lower.specs.Sizes.{tree_size};

    ghost size = { tree_size };

    ghost use Rattle.syn_expr.specs.Falls.{falls_Local};

    ghost size_decreases = { λ a h. falls_Local a };
}

impl std::marker::Model for LocalInit {
    ghost use Rattle.syn_grammar.specs.Grammar.{Syntax};
    ghost use Rattle.syn_grammar.specs.TreeCodes.{syntax_code};

    ghost Value = { Syntax };

    ghost coded = { syntax_code };

    ghost use Rattle.syn_expr.specs.Statements.{view_LocalInit};

    ghost view = { view_LocalInit };

    ghost use Rattle.syn_lower.specs.Sizes.{tree_size};

    ghost size = { tree_size };

    ghost use Rattle.syn_expr.specs.Falls.{falls_LocalInit};

    ghost size_decreases = { λ a h. falls_LocalInit a };
}

impl std::marker::Model for StmtMacro {
    ghost use Rattle.syn_grammar.specs.Grammar.{Syntax};
    ghost use Rattle.syn_grammar.specs.TreeCodes.{syntax_code};

    ghost Value = { Syntax };

    ghost coded = { syntax_code };

    ghost use Rattle.syn_expr.specs.Statements.{view_StmtMacro};

    ghost view = { view_StmtMacro };
}

impl syn_tokens::syntactic::Syntactic for Block {
    ghost use Rattle.syn_grammar.specs.Promises.{itself};

    ghost syntax = { itself };
}

impl syn_tokens::syntactic::Syntactic for Stmt {
    ghost use Rattle.syn_expr.specs.Statements.{syntax_of_Stmt};

    ghost syntax = { syntax_of_Stmt };
}

impl syn_tokens::syntactic::Syntactic for Local {
    ghost use Rattle.syn_grammar.specs.Promises.{itself};

    ghost syntax = { itself };
}

impl syn_tokens::syntactic::Syntactic for LocalModifiers {
    ghost use Rattle.syn_expr.specs.Statements.{syntax_of_LocalModifiers};

    ghost syntax = { syntax_of_LocalModifiers };
}

impl syn_tokens::syntactic::Syntactic for LocalInit {
    ghost use Rattle.syn_grammar.specs.Promises.{itself};

    ghost syntax = { itself };
}

impl syn_tokens::syntactic::Syntactic for StmtMacro {
    ghost use Rattle.syn_grammar.specs.Promises.{itself};

    ghost syntax = { itself };
}
