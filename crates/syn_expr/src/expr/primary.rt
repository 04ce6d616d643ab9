//! Expressions without operands: literals, paths, macros and jumps.

use crate::Expr;
use std::alloc::AllocError;
use syn_lower::attr::print_outer;
use syn_lower::{Attribute, Lit, Path, QSelf};
use syn_pat::mac::Macro;
use syn_pat::paths::{print_path, same_path};
use syn_tokens::lifetime::Lifetime;
use syn_tokens::print::Print;
use syn_tokens::stream::builder::StreamBuilder;
use syn_tokens::syntactic::compare::Compared;
use syn_tokens::token::{Break, Continue, Return};

/// `break`, perhaps with a label.
#[derive(Drop)]
pub struct ExprBreak {
    pub attrs: Vec<Attribute>,
    pub break_token: Break,
    pub label: Option<Lifetime>,
}

/// `continue`, perhaps with a label.
#[derive(Drop)]
pub struct ExprContinue {
    pub attrs: Vec<Attribute>,
    pub continue_token: Continue,
    pub label: Option<Lifetime>,
}

/// A literal.
#[derive(Drop)]
pub struct ExprLit {
    pub attrs: Vec<Attribute>,
    pub lit: Lit,
}

/// A macro.
#[derive(Drop)]
pub struct ExprMacro {
    pub attrs: Vec<Attribute>,
    pub mac: Macro,
}

/// A path, perhaps with a type in `< >` before it.
#[derive(Drop)]
pub struct ExprPath {
    pub attrs: Vec<Attribute>,
    pub qself: Option<QSelf>,
    pub path: Path,
}

/// `return`, perhaps with an expression.
#[cycle(expressions)]
#[derive(Drop)]
pub struct ExprReturn {
    pub attrs: Vec<Attribute>,
    pub return_token: Return,
    pub expr: Option<Box<Expr>>,
}

impl Print for ExprPath {
    #[tactic(auto, using(syn_tokens::proofs::Prints::prints))]
    fn print_in(&self, out: &mut StreamBuilder) -> Result<(), AllocError> {
        print_outer(&self.attrs, out)?;
        print_path(&self.qself, &self.path, out)
    }
}

impl Compared for ExprPath {
    #[tactic(auto, using(syn_lower::proofs::Attributes::same_attributes))]
    fn is_same(&self, other: &ExprPath) -> bool {
        self.attrs.is_same(&other.attrs)
            && same_path(&self.qself, &self.path, &other.qself, &other.path)
    }
}

// Written by tools/kinds.py from here to the end; edits are lost.

impl std::marker::Model for ExprBreak {
    ghost use Rattle.syn_grammar.specs.Grammar.{Syntax};
    ghost use Rattle.syn_grammar.specs.TreeCodes.{syntax_code};

    ghost Value = { Syntax };

    ghost coded = { syntax_code };

    ghost use Rattle.syn_expr.specs.Expressions.{view_ExprBreak};

    ghost view = { view_ExprBreak };
}

impl std::marker::Model for ExprContinue {
    ghost use Rattle.syn_grammar.specs.Grammar.{Syntax};
    ghost use Rattle.syn_grammar.specs.TreeCodes.{syntax_code};

    ghost Value = { Syntax };

    ghost coded = { syntax_code };

    ghost use Rattle.syn_expr.specs.Expressions.{view_ExprContinue};

    ghost view = { view_ExprContinue };
}

impl std::marker::Model for ExprLit {
    ghost use Rattle.syn_grammar.specs.Grammar.{Syntax};
    ghost use Rattle.syn_grammar.specs.TreeCodes.{syntax_code};

    ghost Value = { Syntax };

    ghost coded = { syntax_code };

    ghost use Rattle.syn_expr.specs.Expressions.{view_ExprLit};

    ghost view = { view_ExprLit };
}

impl std::marker::Model for ExprMacro {
    ghost use Rattle.syn_grammar.specs.Grammar.{Syntax};
    ghost use Rattle.syn_grammar.specs.TreeCodes.{syntax_code};

    ghost Value = { Syntax };

    ghost coded = { syntax_code };

    ghost use Rattle.syn_expr.specs.Expressions.{view_ExprMacro};

    ghost view = { view_ExprMacro };
}

impl std::marker::Model for ExprPath {
    ghost use Rattle.syn_grammar.specs.Grammar.{Syntax};
    ghost use Rattle.syn_grammar.specs.TreeCodes.{syntax_code};

    ghost Value = { Syntax };

    ghost coded = { syntax_code };

    ghost use Rattle.syn_expr.specs.Expressions.{view_ExprPath};

    ghost view = { view_ExprPath };
}

impl std::marker::Model for ExprReturn {
    ghost use Rattle.syn_grammar.specs.Grammar.{Syntax};
    ghost use Rattle.syn_grammar.specs.TreeCodes.{syntax_code};

    ghost Value = { Syntax };

    ghost coded = { syntax_code };

    ghost use Rattle.syn_expr.specs.Expressions.{view_ExprReturn};

    ghost view = { view_ExprReturn };

    ghost use Rattle.syn_lower.specs.Sizes.{tree_size};

    ghost size = { tree_size };

    ghost use Rattle.syn_expr.specs.Falls.{falls_ExprReturn};

    ghost size_decreases = { λ a h. falls_ExprReturn a };
}

impl syn_tokens::syntactic::Syntactic for ExprBreak {
    ghost use Rattle.syn_grammar.specs.Promises.{itself};

    ghost syntax = { itself };
}

impl syn_tokens::syntactic::Syntactic for ExprContinue {
    ghost use Rattle.syn_grammar.specs.Promises.{itself};

    ghost syntax = { itself };
}

impl syn_tokens::syntactic::Syntactic for ExprLit {
    ghost use Rattle.syn_grammar.specs.Promises.{itself};

    ghost syntax = { itself };
}

impl syn_tokens::syntactic::Syntactic for ExprMacro {
    ghost use Rattle.syn_grammar.specs.Promises.{itself};

    ghost syntax = { itself };
}

impl syn_tokens::syntactic::Syntactic for ExprPath {
    ghost use Rattle.syn_grammar.specs.Promises.{itself};

    ghost syntax = { itself };
}

impl syn_tokens::syntactic::Syntactic for ExprReturn {
    ghost use Rattle.syn_grammar.specs.Promises.{itself};

    ghost syntax = { itself };
}
