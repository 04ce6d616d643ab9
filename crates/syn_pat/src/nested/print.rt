//! Prints of what leads back to itself.
#![tactic(auto, using(syn_tokens::proofs::Prints::prints))]

ghost use Rattle.std.specs.Prelude.{◌≡◌, ◌<◌, ℕ, OnOk};
ghost use Rattle.syn_grammar.specs.Grammar.{print};
ghost use Rattle.syn_tokens.specs.Building.{added};
ghost use Rattle.syn_lower.specs.Sizes.{tree_size};

mod knot;
mod lists;
mod pats;

pub use knot::Knot;
pub use lists::{print_list, print_lone_comma};
pub use pats::print_pat;
use std::alloc::AllocError;
use syn_tokens::stream::builder::StreamBuilder;
use syn_tokens::syntactic::Syntactic;

/// The print of a value of this type that is in another tree.
pub trait PrintOf<T: Syntactic> {
    /// It may be called for values of this size.
    ghost may: { Self → ℕ → Type 0 };

    /// As `Print::print_in`.
    fn print_one(&self, value: &T, out: &mut StreamBuilder) -> Result<(), AllocError>
        requires { may self.now (tree_size (T.syntax value.now)) }
        ensures prints { OnOk result (out.new ≡ added out.old (print (T.syntax value.now))) }
        ensures begins { out.new.before ≡ out.old.before };
}

/// A print that is given the print of this type. It defines what is added, for all such prints.
pub trait PrintNested<T: Syntactic>: Syntactic {
    /// As `Print::print_in`.
    fn print_nested<N: PrintOf<T>>(
        &self,
        nested: &N,
        out: &mut StreamBuilder,
    ) -> Result<(), AllocError>
        requires { (n : ℕ) → n < tree_size (Self.syntax self.now) → N.may nested.now n }
        ensures prints { OnOk result (out.new ≡ added out.old (print (Self.syntax self.now))) }
        ensures begins { out.new.before ≡ out.old.before };
}

impl<T: Syntactic, V: PrintNested<T>> PrintNested<T> for Option<V> {
    fn print_nested<N: PrintOf<T>>(
        &self,
        nested: &N,
        out: &mut StreamBuilder,
    ) -> Result<(), AllocError> {
        match self {
            Some(value) => value.print_nested(nested, out),
            None => Ok(()),
        }
    }
}
