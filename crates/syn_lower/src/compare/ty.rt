//! Written by tools/kinds.py; edits are lost.
//!
//! Comparisons of `ty`.
ghost use Rattle.syn_lower.specs.Types.{syntax_of_Type};
ghost use Rattle.syn_lower.specs.Equality.{IsSame, IsEqual, PrintsAlike};
ghost use Rattle.syn_tokens.specs.Comparison.{same_by, same_equiv, same_per};
ghost use Rattle.syn_grammar.specs.Promises.{itself};
ghost use Rattle.syn_lower.specs.QualifiedPaths.{syntax_of_TypePath};

use crate::nested::compare::{CompareNested, CompareType, Knot, is_same_type};
use crate::{
    Type, TypeArray, TypeGroup, TypeNever, TypeParen, TypePath, TypePtr, TypeReference, TypeSlice,
    TypeTuple,
};
use syn_tokens::syntactic::compare::Compared;

impl Compared for Type {
    fn is_same(&self, other: &Type) -> bool {
        is_same_type(self, other)
    }
}

/// Two are equal exactly where they are once every span is 0 to 0.
impl PartialEq for Type {
    ghost eq = { same_by syntax_of_Type };

    ghost laws = { same_per syntax_of_Type };

    #[tactic(auto, using(crate::proofs::Equality::equals))]
    fn eq(&self, other: &Type) -> bool
        ensures same { IsSame syntax_of_Type self.now other.now result }
        ensures equal { IsEqual syntax_of_Type self.now other.now result }
        ensures prints { PrintsAlike syntax_of_Type self.now other.now result }
    {
        self.is_same(other)
    }
}

impl Eq for Type {
    ghost laws = { same_equiv syntax_of_Type };
}

impl CompareNested for TypeArray {
    fn is_same_nested<N: CompareType>(&self, nested: &N, other: &TypeArray) -> bool {
        nested.is_same_type(&self.elem, &other.elem)
            && self.semi_token.is_same(&other.semi_token)
            && self.len.is_same(&other.len)
    }
}

impl Compared for TypeArray {
    fn is_same(&self, other: &TypeArray) -> bool {
        self.is_same_nested(&Knot { is_same_type }, other)
    }
}

/// Two are equal exactly where they are once every span is 0 to 0.
impl PartialEq for TypeArray {
    ghost eq = { same_by itself };

    ghost laws = { same_per itself };

    #[tactic(auto, using(crate::proofs::Equality::equals))]
    fn eq(&self, other: &TypeArray) -> bool
        ensures same { IsSame itself self.now other.now result }
        ensures equal { IsEqual itself self.now other.now result }
        ensures prints { PrintsAlike itself self.now other.now result }
    {
        self.is_same(other)
    }
}

impl Eq for TypeArray {
    ghost laws = { same_equiv itself };
}

impl CompareNested for TypeGroup {
    fn is_same_nested<N: CompareType>(&self, nested: &N, other: &TypeGroup) -> bool {
        nested.is_same_type(&self.elem, &other.elem)
    }
}

impl Compared for TypeGroup {
    fn is_same(&self, other: &TypeGroup) -> bool {
        self.is_same_nested(&Knot { is_same_type }, other)
    }
}

/// Two are equal exactly where they are once every span is 0 to 0.
impl PartialEq for TypeGroup {
    ghost eq = { same_by itself };

    ghost laws = { same_per itself };

    #[tactic(auto, using(crate::proofs::Equality::equals))]
    fn eq(&self, other: &TypeGroup) -> bool
        ensures same { IsSame itself self.now other.now result }
        ensures equal { IsEqual itself self.now other.now result }
        ensures prints { PrintsAlike itself self.now other.now result }
    {
        self.is_same(other)
    }
}

impl Eq for TypeGroup {
    ghost laws = { same_equiv itself };
}

impl Compared for TypeNever {
    fn is_same(&self, other: &TypeNever) -> bool {
        self.bang_token.is_same(&other.bang_token)
    }
}

/// Two are equal exactly where they are once every span is 0 to 0.
impl PartialEq for TypeNever {
    ghost eq = { same_by itself };

    ghost laws = { same_per itself };

    #[tactic(auto, using(crate::proofs::Equality::equals))]
    fn eq(&self, other: &TypeNever) -> bool
        ensures same { IsSame itself self.now other.now result }
        ensures equal { IsEqual itself self.now other.now result }
        ensures prints { PrintsAlike itself self.now other.now result }
    {
        self.is_same(other)
    }
}

impl Eq for TypeNever {
    ghost laws = { same_equiv itself };
}

impl CompareNested for TypeParen {
    fn is_same_nested<N: CompareType>(&self, nested: &N, other: &TypeParen) -> bool {
        nested.is_same_type(&self.elem, &other.elem)
    }
}

impl Compared for TypeParen {
    fn is_same(&self, other: &TypeParen) -> bool {
        self.is_same_nested(&Knot { is_same_type }, other)
    }
}

/// Two are equal exactly where they are once every span is 0 to 0.
impl PartialEq for TypeParen {
    ghost eq = { same_by itself };

    ghost laws = { same_per itself };

    #[tactic(auto, using(crate::proofs::Equality::equals))]
    fn eq(&self, other: &TypeParen) -> bool
        ensures same { IsSame itself self.now other.now result }
        ensures equal { IsEqual itself self.now other.now result }
        ensures prints { PrintsAlike itself self.now other.now result }
    {
        self.is_same(other)
    }
}

impl Eq for TypeParen {
    ghost laws = { same_equiv itself };
}

impl Compared for TypePath {
    fn is_same(&self, other: &TypePath) -> bool {
        self.is_same_nested(&Knot { is_same_type }, other)
    }
}

/// Two are equal exactly where they are once every span is 0 to 0.
impl PartialEq for TypePath {
    ghost eq = { same_by syntax_of_TypePath };

    ghost laws = { same_per syntax_of_TypePath };

    #[tactic(auto, using(crate::proofs::Equality::equals))]
    fn eq(&self, other: &TypePath) -> bool
        ensures same { IsSame syntax_of_TypePath self.now other.now result }
        ensures equal { IsEqual syntax_of_TypePath self.now other.now result }
        ensures prints { PrintsAlike syntax_of_TypePath self.now other.now result }
    {
        self.is_same(other)
    }
}

impl Eq for TypePath {
    ghost laws = { same_equiv syntax_of_TypePath };
}

impl Compared for TypePtr {
    fn is_same(&self, other: &TypePtr) -> bool {
        self.is_same_nested(&Knot { is_same_type }, other)
    }
}

/// Two are equal exactly where they are once every span is 0 to 0.
impl PartialEq for TypePtr {
    ghost eq = { same_by itself };

    ghost laws = { same_per itself };

    #[tactic(auto, using(crate::proofs::Equality::equals))]
    fn eq(&self, other: &TypePtr) -> bool
        ensures same { IsSame itself self.now other.now result }
        ensures equal { IsEqual itself self.now other.now result }
        ensures prints { PrintsAlike itself self.now other.now result }
    {
        self.is_same(other)
    }
}

impl Eq for TypePtr {
    ghost laws = { same_equiv itself };
}

impl CompareNested for TypeReference {
    fn is_same_nested<N: CompareType>(&self, nested: &N, other: &TypeReference) -> bool {
        self.and_token.is_same(&other.and_token)
            && self.lifetime.is_same(&other.lifetime)
            && self.mutability.is_same(&other.mutability)
            && nested.is_same_type(&self.elem, &other.elem)
    }
}

impl Compared for TypeReference {
    fn is_same(&self, other: &TypeReference) -> bool {
        self.is_same_nested(&Knot { is_same_type }, other)
    }
}

/// Two are equal exactly where they are once every span is 0 to 0.
impl PartialEq for TypeReference {
    ghost eq = { same_by itself };

    ghost laws = { same_per itself };

    #[tactic(auto, using(crate::proofs::Equality::equals))]
    fn eq(&self, other: &TypeReference) -> bool
        ensures same { IsSame itself self.now other.now result }
        ensures equal { IsEqual itself self.now other.now result }
        ensures prints { PrintsAlike itself self.now other.now result }
    {
        self.is_same(other)
    }
}

impl Eq for TypeReference {
    ghost laws = { same_equiv itself };
}

impl CompareNested for TypeSlice {
    fn is_same_nested<N: CompareType>(&self, nested: &N, other: &TypeSlice) -> bool {
        nested.is_same_type(&self.elem, &other.elem)
    }
}

impl Compared for TypeSlice {
    fn is_same(&self, other: &TypeSlice) -> bool {
        self.is_same_nested(&Knot { is_same_type }, other)
    }
}

/// Two are equal exactly where they are once every span is 0 to 0.
impl PartialEq for TypeSlice {
    ghost eq = { same_by itself };

    ghost laws = { same_per itself };

    #[tactic(auto, using(crate::proofs::Equality::equals))]
    fn eq(&self, other: &TypeSlice) -> bool
        ensures same { IsSame itself self.now other.now result }
        ensures equal { IsEqual itself self.now other.now result }
        ensures prints { PrintsAlike itself self.now other.now result }
    {
        self.is_same(other)
    }
}

impl Eq for TypeSlice {
    ghost laws = { same_equiv itself };
}

impl Compared for TypeTuple {
    fn is_same(&self, other: &TypeTuple) -> bool {
        self.is_same_nested(&Knot { is_same_type }, other)
    }
}

/// Two are equal exactly where they are once every span is 0 to 0.
impl PartialEq for TypeTuple {
    ghost eq = { same_by itself };

    ghost laws = { same_per itself };

    #[tactic(auto, using(crate::proofs::Equality::equals))]
    fn eq(&self, other: &TypeTuple) -> bool
        ensures same { IsSame itself self.now other.now result }
        ensures equal { IsEqual itself self.now other.now result }
        ensures prints { PrintsAlike itself self.now other.now result }
    {
        self.is_same(other)
    }
}

impl Eq for TypeTuple {
    ghost laws = { same_equiv itself };
}
