//! Blocks with the inner attributes of what they are the body of.
ghost use Rattle.std.specs.Prelude.{◌≡◌, ◌≤◌, ℕ, OnOk};
ghost use Rattle.syn_grammar.specs.Grammar.{print};
ghost use Rattle.syn_tokens.specs.Building.{added};
ghost use Rattle.syn_lower.specs.Sizes.{tree_size};
ghost use Rattle.syn_lower.specs.Bodies.{body};

use crate::nested::print::{PrintOf, print_statements};
use crate::{Block, Expr};
use std::alloc::AllocError;
use syn_lower::Attribute;
use syn_lower::attr::print_inner;
use syn_tokens::stream::builder::StreamBuilder;

/// A block, with the inner ones of these attributes in its braces.
#[tactic(auto, using(syn_tokens::proofs::Prints::groups))]
pub fn print_body<N: PrintOf<Expr>>(
    nested: &N,
    attrs: &Vec<Attribute>,
    block: &Block,
    out: &mut StreamBuilder,
) -> Result<(), AllocError>
    requires { (n : ℕ) → n ≤ tree_size (body attrs.now.items block.now) → N.may nested.now n }
    ensures prints { OnOk result (out.new ≡ added out.old (print (body attrs.now.items block.now))) }
    ensures begins { out.new.before ≡ out.old.before }
{
    block.brace_token.open(out)?;
    print_inner(attrs, out)?;
    print_statements(nested, &block.stmts, out)?;
    block.brace_token.close(out)
}
