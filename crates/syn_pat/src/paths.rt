//! Paths in patterns and expressions, perhaps with a type in `< >` before them.
ghost use Rattle.std.specs.Prelude.{◌≡◌, OnOk};
ghost use Rattle.syn_grammar.specs.Grammar.{print};
ghost use Rattle.syn_grammar.specs.Same.{same_syntax};
ghost use Rattle.syn_tokens.specs.Building.{added};
ghost use Rattle.syn_pat.specs.Patterns.{path_of};

use std::alloc::AllocError;
use syn_lower::nested::compare::{CompareType, is_same_type, same_qualified};
use syn_lower::nested::print::{PrintType, print_qualified, print_type};
use syn_lower::{Path, QSelf, Type};
use syn_tokens::print::Print;
use syn_tokens::stream::builder::StreamBuilder;
use syn_tokens::syntactic::compare::Compared;

/// The print and the comparison of any type: a function of another crate can't be handed on as a value.
struct AnyType {}

impl PrintType for AnyType {
    ghost may = { λ k n. Unit {0} };

    fn print_type(&self, ty: &Type, out: &mut StreamBuilder) -> Result<(), AllocError> {
        print_type(ty, out)
    }
}

impl CompareType for AnyType {
    ghost may = { λ k n. Unit {0} };

    fn is_same_type(&self, ty: &Type, other: &Type) -> bool {
        is_same_type(ty, other)
    }
}

/// Adds a path, with the type before it if there is one.
pub fn print_path(
    qself: &Option<QSelf>,
    path: &Path,
    out: &mut StreamBuilder,
) -> Result<(), AllocError>
    ensures prints { OnOk result (out.new ≡ added out.old (print (path_of qself.now path.now))) }
    ensures begins { out.new.before ≡ out.old.before }
{
    match qself {
        Some(qself) => print_qualified(&AnyType {}, qself, path, out),
        None => path.print_in(out),
    }
}

/// Whether both have the same type before them, or none, and are the same.
#[tactic(auto, using(syn_lower::proofs::SameQualified::qualified_no_path, syn_lower::proofs::SameQualified::path_no_qualified))]
pub fn same_path(
    qself: &Option<QSelf>,
    path: &Path,
    other_qself: &Option<QSelf>,
    other: &Path,
) -> bool
    ensures same { result ≡ same_syntax (path_of qself.now path.now) (path_of other_qself.now other.now) }
{
    match (qself, other_qself) {
        (Some(a), Some(b)) => same_qualified(&AnyType {}, a, path, b, other),
        (None, None) => path.is_same(other),
        (Some(_), None) => false,
        (None, Some(_)) => false,
    }
}
