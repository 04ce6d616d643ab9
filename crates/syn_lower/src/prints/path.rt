//! Written by tools/kinds.py; edits are lost.
//!
//! Prints of `path`.

use crate::nested::print::{Knot, PrintNested, PrintType, print_list, print_type};
use crate::{
    AngleBracketedGenericArguments, AssocType, GenericArgument, ParenthesizedGenericArguments,
    Path, PathArguments, PathSegment, ReturnType,
};
use std::alloc::AllocError;
use syn_tokens::print::{Print, ToTokens};
use syn_tokens::stream::builder::StreamBuilder;

impl PrintNested for Path {
    #[tactic(auto, using(syn_tokens::proofs::Prints::prints, crate::proofs::Smaller::lists))]
    fn print_nested<N: PrintType>(
        &self,
        nested: &N,
        out: &mut StreamBuilder,
    ) -> Result<(), AllocError> {
        self.leading_colon.print_in(out)?;
        print_list(nested, &self.segments, out)
    }
}

impl Print for Path {
    fn print_in(&self, out: &mut StreamBuilder) -> Result<(), AllocError> {
        self.print_nested(&Knot { print_type }, out)
    }
}

impl ToTokens for Path {}

impl PrintNested for PathSegment {
    fn print_nested<N: PrintType>(
        &self,
        nested: &N,
        out: &mut StreamBuilder,
    ) -> Result<(), AllocError> {
        self.ident.print_in(out)?;
        self.arguments.print_nested(nested, out)
    }
}

impl Print for PathSegment {
    fn print_in(&self, out: &mut StreamBuilder) -> Result<(), AllocError> {
        self.print_nested(&Knot { print_type }, out)
    }
}

impl ToTokens for PathSegment {}

impl PrintNested for PathArguments {
    fn print_nested<N: PrintType>(
        &self,
        nested: &N,
        out: &mut StreamBuilder,
    ) -> Result<(), AllocError> {
        match self {
            PathArguments::None => Ok(()),
            PathArguments::AngleBracketed(value) => value.print_nested(nested, out),
            PathArguments::Parenthesized(value) => value.print_nested(nested, out),
        }
    }
}

impl Print for PathArguments {
    fn print_in(&self, out: &mut StreamBuilder) -> Result<(), AllocError> {
        self.print_nested(&Knot { print_type }, out)
    }
}

impl ToTokens for PathArguments {}

impl Print for AngleBracketedGenericArguments {
    fn print_in(&self, out: &mut StreamBuilder) -> Result<(), AllocError> {
        self.print_nested(&Knot { print_type }, out)
    }
}

impl ToTokens for AngleBracketedGenericArguments {}

impl PrintNested for GenericArgument {
    fn print_nested<N: PrintType>(
        &self,
        nested: &N,
        out: &mut StreamBuilder,
    ) -> Result<(), AllocError> {
        match self {
            GenericArgument::Lifetime(value) => value.print_in(out),
            GenericArgument::Ty(value) => value.print_nested(nested, out),
            GenericArgument::Const(value) => value.print_in(out),
            GenericArgument::AssocType(value) => value.print_nested(nested, out),
        }
    }
}

impl Print for GenericArgument {
    fn print_in(&self, out: &mut StreamBuilder) -> Result<(), AllocError> {
        self.print_nested(&Knot { print_type }, out)
    }
}

impl ToTokens for GenericArgument {}

impl PrintNested for AssocType {
    fn print_nested<N: PrintType>(
        &self,
        nested: &N,
        out: &mut StreamBuilder,
    ) -> Result<(), AllocError> {
        self.ident.print_in(out)?;
        self.eq_token.print_in(out)?;
        nested.print_type(&self.ty, out)
    }
}

impl Print for AssocType {
    fn print_in(&self, out: &mut StreamBuilder) -> Result<(), AllocError> {
        self.print_nested(&Knot { print_type }, out)
    }
}

impl ToTokens for AssocType {}

impl Print for ParenthesizedGenericArguments {
    fn print_in(&self, out: &mut StreamBuilder) -> Result<(), AllocError> {
        self.print_nested(&Knot { print_type }, out)
    }
}

impl ToTokens for ParenthesizedGenericArguments {}

impl Print for ReturnType {
    fn print_in(&self, out: &mut StreamBuilder) -> Result<(), AllocError> {
        self.print_nested(&Knot { print_type }, out)
    }
}

impl ToTokens for ReturnType {}
