//! Written by tools/kinds.py; edits are lost.
//!
//! Comparisons of `path`.
ghost use Rattle.syn_grammar.specs.Promises.{itself};
ghost use Rattle.syn_lower.specs.Equality.{IsSame, IsEqual, PrintsAlike};
ghost use Rattle.syn_tokens.specs.Comparison.{same_by, same_equiv, same_per};
ghost use Rattle.syn_lower.specs.Paths.{syntax_of_PathArguments, syntax_of_GenericArgument, syntax_of_ReturnType};

use crate::nested::compare::{CompareNested, CompareType, Knot, is_same_type, same_list};
use crate::{
    AngleBracketedGenericArguments, AssocType, GenericArgument, ParenthesizedGenericArguments,
    Path, PathArguments, PathSegment, QSelf, ReturnType,
};
use syn_tokens::syntactic::compare::Compared;

impl CompareNested for Path {
    #[tactic(auto, using(crate::proofs::Smaller::lists))]
    fn is_same_nested<N: CompareType>(&self, nested: &N, other: &Path) -> bool {
        self.leading_colon.is_same(&other.leading_colon)
            && same_list(nested, &self.segments, &other.segments)
    }
}

impl Compared for Path {
    fn is_same(&self, other: &Path) -> bool {
        self.is_same_nested(&Knot { is_same_type }, other)
    }
}

/// Two are equal exactly where they are once every span is 0 to 0.
impl PartialEq for Path {
    ghost eq = { same_by itself };

    ghost laws = { same_per itself };

    #[tactic(auto, using(crate::proofs::Equality::equals))]
    fn eq(&self, other: &Path) -> bool
        ensures same { IsSame itself self.now other.now result }
        ensures equal { IsEqual itself self.now other.now result }
        ensures prints { PrintsAlike itself self.now other.now result }
    {
        self.is_same(other)
    }
}

impl Eq for Path {
    ghost laws = { same_equiv itself };
}

impl CompareNested for PathSegment {
    fn is_same_nested<N: CompareType>(&self, nested: &N, other: &PathSegment) -> bool {
        self.ident.is_same(&other.ident) && self.arguments.is_same_nested(nested, &other.arguments)
    }
}

impl Compared for PathSegment {
    fn is_same(&self, other: &PathSegment) -> bool {
        self.is_same_nested(&Knot { is_same_type }, other)
    }
}

/// Two are equal exactly where they are once every span is 0 to 0.
impl PartialEq for PathSegment {
    ghost eq = { same_by itself };

    ghost laws = { same_per itself };

    #[tactic(auto, using(crate::proofs::Equality::equals))]
    fn eq(&self, other: &PathSegment) -> bool
        ensures same { IsSame itself self.now other.now result }
        ensures equal { IsEqual itself self.now other.now result }
        ensures prints { PrintsAlike itself self.now other.now result }
    {
        self.is_same(other)
    }
}

impl Eq for PathSegment {
    ghost laws = { same_equiv itself };
}

impl CompareNested for PathArguments {
    fn is_same_nested<N: CompareType>(&self, nested: &N, other: &PathArguments) -> bool {
        match (self, other) {
            (PathArguments::None, PathArguments::None) => true,
            (PathArguments::AngleBracketed(a), PathArguments::AngleBracketed(b)) =>
                a.is_same_nested(nested, b),
            (PathArguments::Parenthesized(a), PathArguments::Parenthesized(b)) => a.is_same_nested(
                nested, b,
            ),
            _ => false,
        }
    }
}

impl Compared for PathArguments {
    fn is_same(&self, other: &PathArguments) -> bool {
        self.is_same_nested(&Knot { is_same_type }, other)
    }
}

/// Two are equal exactly where they are once every span is 0 to 0.
impl PartialEq for PathArguments {
    ghost eq = { same_by syntax_of_PathArguments };

    ghost laws = { same_per syntax_of_PathArguments };

    #[tactic(auto, using(crate::proofs::Equality::equals))]
    fn eq(&self, other: &PathArguments) -> bool
        ensures same { IsSame syntax_of_PathArguments self.now other.now result }
        ensures equal { IsEqual syntax_of_PathArguments self.now other.now result }
        ensures prints { PrintsAlike syntax_of_PathArguments self.now other.now result }
    {
        self.is_same(other)
    }
}

impl Eq for PathArguments {
    ghost laws = { same_equiv syntax_of_PathArguments };
}

impl Compared for AngleBracketedGenericArguments {
    fn is_same(&self, other: &AngleBracketedGenericArguments) -> bool {
        self.is_same_nested(&Knot { is_same_type }, other)
    }
}

/// Two are equal exactly where they are once every span is 0 to 0.
impl PartialEq for AngleBracketedGenericArguments {
    ghost eq = { same_by itself };

    ghost laws = { same_per itself };

    #[tactic(auto, using(crate::proofs::Equality::equals))]
    fn eq(&self, other: &AngleBracketedGenericArguments) -> bool
        ensures same { IsSame itself self.now other.now result }
        ensures equal { IsEqual itself self.now other.now result }
        ensures prints { PrintsAlike itself self.now other.now result }
    {
        self.is_same(other)
    }
}

impl Eq for AngleBracketedGenericArguments {
    ghost laws = { same_equiv itself };
}

impl CompareNested for GenericArgument {
    fn is_same_nested<N: CompareType>(&self, nested: &N, other: &GenericArgument) -> bool {
        match (self, other) {
            (GenericArgument::Lifetime(a), GenericArgument::Lifetime(b)) => a.is_same(b),
            (GenericArgument::Ty(a), GenericArgument::Ty(b)) => a.is_same_nested(nested, b),
            (GenericArgument::Const(a), GenericArgument::Const(b)) => a.is_same(b),
            (GenericArgument::AssocType(a), GenericArgument::AssocType(b)) => a.is_same_nested(
                nested, b,
            ),
            _ => false,
        }
    }
}

impl Compared for GenericArgument {
    fn is_same(&self, other: &GenericArgument) -> bool {
        self.is_same_nested(&Knot { is_same_type }, other)
    }
}

/// Two are equal exactly where they are once every span is 0 to 0.
impl PartialEq for GenericArgument {
    ghost eq = { same_by syntax_of_GenericArgument };

    ghost laws = { same_per syntax_of_GenericArgument };

    #[tactic(auto, using(crate::proofs::Equality::equals))]
    fn eq(&self, other: &GenericArgument) -> bool
        ensures same { IsSame syntax_of_GenericArgument self.now other.now result }
        ensures equal { IsEqual syntax_of_GenericArgument self.now other.now result }
        ensures prints { PrintsAlike syntax_of_GenericArgument self.now other.now result }
    {
        self.is_same(other)
    }
}

impl Eq for GenericArgument {
    ghost laws = { same_equiv syntax_of_GenericArgument };
}

impl CompareNested for AssocType {
    fn is_same_nested<N: CompareType>(&self, nested: &N, other: &AssocType) -> bool {
        self.ident.is_same(&other.ident)
            && self.eq_token.is_same(&other.eq_token)
            && nested.is_same_type(&self.ty, &other.ty)
    }
}

impl Compared for AssocType {
    fn is_same(&self, other: &AssocType) -> bool {
        self.is_same_nested(&Knot { is_same_type }, other)
    }
}

/// Two are equal exactly where they are once every span is 0 to 0.
impl PartialEq for AssocType {
    ghost eq = { same_by itself };

    ghost laws = { same_per itself };

    #[tactic(auto, using(crate::proofs::Equality::equals))]
    fn eq(&self, other: &AssocType) -> bool
        ensures same { IsSame itself self.now other.now result }
        ensures equal { IsEqual itself self.now other.now result }
        ensures prints { PrintsAlike itself self.now other.now result }
    {
        self.is_same(other)
    }
}

impl Eq for AssocType {
    ghost laws = { same_equiv itself };
}

impl CompareNested for ParenthesizedGenericArguments {
    #[tactic(auto, using(crate::proofs::Smaller::lists))]
    fn is_same_nested<N: CompareType>(
        &self,
        nested: &N,
        other: &ParenthesizedGenericArguments,
    ) -> bool {
        same_list(nested, &self.inputs, &other.inputs)
            && self.output.is_same_nested(nested, &other.output)
    }
}

impl Compared for ParenthesizedGenericArguments {
    fn is_same(&self, other: &ParenthesizedGenericArguments) -> bool {
        self.is_same_nested(&Knot { is_same_type }, other)
    }
}

/// Two are equal exactly where they are once every span is 0 to 0.
impl PartialEq for ParenthesizedGenericArguments {
    ghost eq = { same_by itself };

    ghost laws = { same_per itself };

    #[tactic(auto, using(crate::proofs::Equality::equals))]
    fn eq(&self, other: &ParenthesizedGenericArguments) -> bool
        ensures same { IsSame itself self.now other.now result }
        ensures equal { IsEqual itself self.now other.now result }
        ensures prints { PrintsAlike itself self.now other.now result }
    {
        self.is_same(other)
    }
}

impl Eq for ParenthesizedGenericArguments {
    ghost laws = { same_equiv itself };
}

impl Compared for ReturnType {
    fn is_same(&self, other: &ReturnType) -> bool {
        self.is_same_nested(&Knot { is_same_type }, other)
    }
}

/// Two are equal exactly where they are once every span is 0 to 0.
impl PartialEq for ReturnType {
    ghost eq = { same_by syntax_of_ReturnType };

    ghost laws = { same_per syntax_of_ReturnType };

    #[tactic(auto, using(crate::proofs::Equality::equals))]
    fn eq(&self, other: &ReturnType) -> bool
        ensures same { IsSame syntax_of_ReturnType self.now other.now result }
        ensures equal { IsEqual syntax_of_ReturnType self.now other.now result }
        ensures prints { PrintsAlike syntax_of_ReturnType self.now other.now result }
    {
        self.is_same(other)
    }
}

impl Eq for ReturnType {
    ghost laws = { same_equiv syntax_of_ReturnType };
}

impl Compared for QSelf {
    fn is_same(&self, other: &QSelf) -> bool {
        self.is_same_nested(&Knot { is_same_type }, other)
    }
}

/// Two are equal exactly where they are once every span is 0 to 0.
impl PartialEq for QSelf {
    ghost eq = { same_by itself };

    ghost laws = { same_per itself };

    #[tactic(auto, using(crate::proofs::Equality::equals))]
    fn eq(&self, other: &QSelf) -> bool
        ensures same { IsSame itself self.now other.now result }
        ensures equal { IsEqual itself self.now other.now result }
        ensures prints { PrintsAlike itself self.now other.now result }
    {
        self.is_same(other)
    }
}

impl Eq for QSelf {
    ghost laws = { same_equiv itself };
}
