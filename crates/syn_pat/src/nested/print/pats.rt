//! Where the prints of patterns lead back to each other.
ghost use Rattle.std.specs.Prelude.{◌≡◌, ◌<◌, ℕ, OnOk};
ghost use Rattle.syn_grammar.specs.Grammar.{print};
ghost use Rattle.syn_tokens.specs.Building.{added};
ghost use Rattle.syn_lower.specs.Sizes.{tree_size};
ghost use Rattle.syn_pat.specs.Patterns.{syntax_of_Pat};

use crate::Pat;
use crate::nested::print::{Knot, PrintNested, PrintOf};
use std::alloc::AllocError;
use syn_tokens::print::Print;
use syn_tokens::stream::builder::StreamBuilder;

/// A pattern, by what it is.
#[tactic(auto, using(syn_tokens::proofs::Prints::prints))]
fn print_variant<N: PrintOf<Pat>>(
    nested: &N,
    pat: &Pat,
    out: &mut StreamBuilder,
) -> Result<(), AllocError>
    requires { (n : ℕ) → n < tree_size (syntax_of_Pat pat.now) → N.may nested.now n }
    ensures prints { OnOk result (out.new ≡ added out.old (print (syntax_of_Pat pat.now))) }
    ensures begins { out.new.before ≡ out.old.before }
{
    match pat {
        Pat::Ident(value) => value.print_in(out),
        Pat::Paren(value) => value.print_nested(nested, out),
        Pat::Path(value) => value.print_in(out),
        Pat::Tuple(value) => value.print_nested(nested, out),
        Pat::TupleStruct(value) => value.print_nested(nested, out),
        Pat::Ty(value) => value.print_nested(nested, out),
        Pat::Wild(value) => value.print_in(out),
    }
}

/// The print of a pattern.
#[cycle(print_patterns)]
pub fn print_pat(pat: &Pat, out: &mut StreamBuilder) -> Result<(), AllocError>
    ensures prints { OnOk result (out.new ≡ added out.old (print (syntax_of_Pat pat.now))) }
    ensures begins { out.new.before ≡ out.old.before }
{
    print_variant(&Knot { print: print_pat }, pat, out)
}
