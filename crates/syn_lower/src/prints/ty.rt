//! Written by tools/kinds.py; edits are lost.
//!
//! Prints of `ty`.

use crate::nested::print::{Knot, PrintNested, PrintType, print_type};
use crate::{
    Type, TypeArray, TypeGroup, TypeNever, TypeParen, TypePath, TypePtr, TypeReference, TypeSlice,
    TypeTuple,
};
use std::alloc::AllocError;
use syn_tokens::print::{Print, ToTokens};
use syn_tokens::stream::builder::StreamBuilder;

impl Print for Type {
    fn print_in(&self, out: &mut StreamBuilder) -> Result<(), AllocError> {
        print_type(self, out)
    }
}

impl ToTokens for Type {}

impl PrintNested for TypeArray {
    #[tactic(auto, using(syn_tokens::proofs::Prints::groups))]
    fn print_nested<N: PrintType>(
        &self,
        nested: &N,
        out: &mut StreamBuilder,
    ) -> Result<(), AllocError> {
        self.bracket_token.open(out)?;
        nested.print_type(&self.elem, out)?;
        self.semi_token.print_in(out)?;
        self.len.print_in(out)?;
        self.bracket_token.close(out)
    }
}

impl Print for TypeArray {
    fn print_in(&self, out: &mut StreamBuilder) -> Result<(), AllocError> {
        self.print_nested(&Knot { print_type }, out)
    }
}

impl ToTokens for TypeArray {}

impl PrintNested for TypeGroup {
    #[tactic(auto, using(syn_tokens::proofs::Prints::groups))]
    fn print_nested<N: PrintType>(
        &self,
        nested: &N,
        out: &mut StreamBuilder,
    ) -> Result<(), AllocError> {
        self.group_token.open(out)?;
        nested.print_type(&self.elem, out)?;
        self.group_token.close(out)
    }
}

impl Print for TypeGroup {
    fn print_in(&self, out: &mut StreamBuilder) -> Result<(), AllocError> {
        self.print_nested(&Knot { print_type }, out)
    }
}

impl ToTokens for TypeGroup {}

impl Print for TypeNever {
    fn print_in(&self, out: &mut StreamBuilder) -> Result<(), AllocError> {
        self.bang_token.print_in(out)
    }
}

impl ToTokens for TypeNever {}

impl PrintNested for TypeParen {
    #[tactic(auto, using(syn_tokens::proofs::Prints::groups))]
    fn print_nested<N: PrintType>(
        &self,
        nested: &N,
        out: &mut StreamBuilder,
    ) -> Result<(), AllocError> {
        self.paren_token.open(out)?;
        nested.print_type(&self.elem, out)?;
        self.paren_token.close(out)
    }
}

impl Print for TypeParen {
    fn print_in(&self, out: &mut StreamBuilder) -> Result<(), AllocError> {
        self.print_nested(&Knot { print_type }, out)
    }
}

impl ToTokens for TypeParen {}

impl Print for TypePath {
    fn print_in(&self, out: &mut StreamBuilder) -> Result<(), AllocError> {
        self.print_nested(&Knot { print_type }, out)
    }
}

impl ToTokens for TypePath {}

impl Print for TypePtr {
    fn print_in(&self, out: &mut StreamBuilder) -> Result<(), AllocError> {
        self.print_nested(&Knot { print_type }, out)
    }
}

impl ToTokens for TypePtr {}

impl PrintNested for TypeReference {
    fn print_nested<N: PrintType>(
        &self,
        nested: &N,
        out: &mut StreamBuilder,
    ) -> Result<(), AllocError> {
        self.and_token.print_in(out)?;
        self.lifetime.print_in(out)?;
        self.mutability.print_in(out)?;
        nested.print_type(&self.elem, out)
    }
}

impl Print for TypeReference {
    fn print_in(&self, out: &mut StreamBuilder) -> Result<(), AllocError> {
        self.print_nested(&Knot { print_type }, out)
    }
}

impl ToTokens for TypeReference {}

impl PrintNested for TypeSlice {
    #[tactic(auto, using(syn_tokens::proofs::Prints::groups))]
    fn print_nested<N: PrintType>(
        &self,
        nested: &N,
        out: &mut StreamBuilder,
    ) -> Result<(), AllocError> {
        self.bracket_token.open(out)?;
        nested.print_type(&self.elem, out)?;
        self.bracket_token.close(out)
    }
}

impl Print for TypeSlice {
    fn print_in(&self, out: &mut StreamBuilder) -> Result<(), AllocError> {
        self.print_nested(&Knot { print_type }, out)
    }
}

impl ToTokens for TypeSlice {}

impl Print for TypeTuple {
    fn print_in(&self, out: &mut StreamBuilder) -> Result<(), AllocError> {
        self.print_nested(&Knot { print_type }, out)
    }
}

impl ToTokens for TypeTuple {}
