//! Where the prints lead back to each other.
ghost use Rattle.std.specs.Prelude.{◌≡◌, ◌<◌, ℕ, OnOk};
ghost use Rattle.syn_grammar.specs.Grammar.{print};
ghost use Rattle.syn_tokens.specs.Building.{added};
ghost use Rattle.syn_lower.specs.Sizes.{tree_size};
ghost use Rattle.syn_lower.specs.Types.{syntax_of_Type};
ghost use Rattle.syn_lower.specs.Ties.{PrintTies};

use crate::Type;
use crate::nested::print::{PrintNested, PrintType};
use std::alloc::AllocError;
use syn_tokens::print::Print;
use syn_tokens::stream::builder::StreamBuilder;

/// The print of a type, as a value.
#[derive(Clone, Copy)]
pub struct Knot<T> {
    pub print_type: T,
}

impl<T: Fn(&Type, &mut StreamBuilder) -> Result<(), AllocError>> PrintType for Knot<T> {
    ghost may = { λ k n. PrintTies n (T.pre k.print_type) (T.post k.print_type) };

    fn print_type(&self, ty: &Type, out: &mut StreamBuilder) -> Result<(), AllocError> {
        (self.print_type)(ty, out)
    }
}

/// A type, by what it is.
fn print_variant<N: PrintType>(
    nested: &N,
    ty: &Type,
    out: &mut StreamBuilder,
) -> Result<(), AllocError>
    requires { (n : ℕ) → n < tree_size (syntax_of_Type ty.now) → N.may nested.now n }
    ensures prints { OnOk result (out.new ≡ added out.old (print (syntax_of_Type ty.now))) }
    ensures begins { out.new.before ≡ out.old.before }
{
    match ty {
        Type::Array(value) => value.print_nested(nested, out),
        Type::Group(value) => value.print_nested(nested, out),
        Type::Never(value) => value.print_in(out),
        Type::Paren(value) => value.print_nested(nested, out),
        Type::Path(value) => value.print_nested(nested, out),
        Type::Ptr(value) => value.print_nested(nested, out),
        Type::Reference(value) => value.print_nested(nested, out),
        Type::Slice(value) => value.print_nested(nested, out),
        Type::Tuple(value) => value.print_nested(nested, out),
        Type::Verbatim(tokens) => tokens.print_in(out),
    }
}

/// The print of a type.
#[cycle(print)]
pub fn print_type(ty: &Type, out: &mut StreamBuilder) -> Result<(), AllocError>
    ensures prints { OnOk result (out.new ≡ added out.old (print (syntax_of_Type ty.now))) }
    ensures begins { out.new.before ≡ out.old.before }
{
    print_variant(&Knot { print_type }, ty, out)
}
