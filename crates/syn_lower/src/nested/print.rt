//! Prints of what leads back to itself.
ghost use Rattle.std.specs.Prelude.{◌≡◌, ◌≤◌, ◌<◌, ℕ, OnOk};
ghost use Rattle.syn_grammar.specs.Grammar.{print};
ghost use Rattle.syn_tokens.specs.Building.{added};
ghost use Rattle.syn_lower.specs.Sizes.{tree_size};
ghost use Rattle.syn_lower.specs.Types.{syntax_of_Type};

mod knot;
mod lists;
mod ordered;
mod qualified;

use crate::Type;
pub use knot::{Knot, print_type};
pub use lists::print_list;
pub use ordered::{Ordered, print_ordered};
pub use qualified::print_qualified;
use std::alloc::AllocError;
use syn_tokens::stream::builder::StreamBuilder;
use syn_tokens::syntactic::Syntactic;

/// The print of a type that is in another tree.
pub trait PrintType {
    /// It may be called for types of this size.
    ghost may: { Self → ℕ → Type 0 };

    /// As `Print::print_in`.
    fn print_type(&self, ty: &Type, out: &mut StreamBuilder) -> Result<(), AllocError>
        requires { may self.now (tree_size (syntax_of_Type ty.now)) }
        ensures prints { OnOk result (out.new ≡ added out.old (print (syntax_of_Type ty.now))) }
        ensures begins { out.new.before ≡ out.old.before };
}

/// A print that is given the print of a type. It defines what is added, for all such prints.
pub trait PrintNested: Syntactic {
    /// As `Print::print_in`.
    fn print_nested<N: PrintType>(
        &self,
        nested: &N,
        out: &mut StreamBuilder,
    ) -> Result<(), AllocError>
        requires { (n : ℕ) → n ≤ tree_size (Self.syntax self.now) → N.may nested.now n }
        ensures prints { OnOk result (out.new ≡ added out.old (print (Self.syntax self.now))) }
        ensures begins { out.new.before ≡ out.old.before };
}

impl PrintNested for Type {
    fn print_nested<N: PrintType>(
        &self,
        nested: &N,
        out: &mut StreamBuilder,
    ) -> Result<(), AllocError> {
        nested.print_type(self, out)
    }
}
