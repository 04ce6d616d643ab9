//! What reads expressions and statements inside of others.
ghost use Rattle.syn_grammar.specs.Grammar.{Node};
ghost use Rattle.syn_grammar.specs.Tokens.{Stream};
ghost use Rattle.syn_grammar.specs.Rules as rules;
ghost use Rattle.syn_lower.specs.Parsing.{Parses, MayParse, IsSyntax};
ghost use Rattle.syn_expr_parse.specs.Parsers.{rule_of};
ghost use Rattle.syn_expr_parse.specs.Parts.{statements_of};

use crate::trees::Trees;
use syn_parse::buffer::ParseBuffer;
use syn_parse::read::refusal::Parsed;

/// The place of an expression: whether a path may take braces.
#[derive(Clone, Copy)]
pub enum Spot {
    /// Anywhere, but where only the other is meant.
    Anywhere,
    /// In the head of an `if`, a `while` or a `for`: there a path takes none.
    Head,
}

/// Which expressions are read inside of another.
#[derive(Clone, Copy)]
pub enum Rung {
    /// Any.
    Whole(Spot),
    /// A unary level: after a sign.
    Unary(Spot),
    /// `if`, after `else`.
    If,
}

/// What reads expressions and statements inside of others, as these trees.
pub trait Nested {
    type Trees: Trees;

    /// The streams at which it may be called.
    ghost may: { Self → Stream → Type 0 };

    /// Reads an expression.
    fn expr(
        &self,
        rung: Rung,
        input: &mut ParseBuffer<'_>,
    ) -> Parsed<Box<<Self::Trees as Trees>::Expr>>
        requires { may self.now input.old }
        ensures parses { Parses IsSyntax (λ e. Node (Self.Trees.expr_syntax e.value)) (rule_of rung) input.old result input.new };

    /// Reads statements to the end.
    fn statements(&self, input: &mut ParseBuffer<'_>) -> Parsed<Vec<<Self::Trees as Trees>::Stmt>>
        requires { may self.now input.old }
        ensures parses { MayParse IsSyntax (λ v. statements_of Self.Trees.stmt_syntax v.items) rules.statements input.old result input.new };
}

/// The expressions that it reads.
pub type Expr<N> = <<N as Nested>::Trees as Trees>::Expr;

/// The blocks that it reads.
pub type Block<N> = <<N as Nested>::Trees as Trees>::Block;

/// The statements that it reads.
pub type Stmt<N> = <<N as Nested>::Trees as Trees>::Stmt;

/// The fields of struct literals that it reads.
pub type FieldValue<N> = <<N as Nested>::Trees as Trees>::FieldValue;

/// The values of locals that it reads.
pub type LocalInit<N> = <<N as Nested>::Trees as Trees>::LocalInit;
