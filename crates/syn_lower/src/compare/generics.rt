//! Written by tools/kinds.py; edits are lost.
//!
//! Comparisons of `generics`.
ghost use Rattle.syn_grammar.specs.Promises.{itself};
ghost use Rattle.syn_lower.specs.Equality.{IsSame, IsEqual, PrintsAlike};
ghost use Rattle.syn_tokens.specs.Comparison.{same_by, same_equiv, same_per};
ghost use Rattle.syn_lower.specs.Generics.{syntax_of_GenericParam};

use crate::{ConstParam, GenericParam, Generics, LifetimeParam, TypeParam};
use syn_tokens::syntactic::compare::Compared;

/// Two are equal exactly where they are once every span is 0 to 0.
impl PartialEq for Generics {
    ghost eq = { same_by itself };

    ghost laws = { same_per itself };

    #[tactic(auto, using(crate::proofs::Equality::equals))]
    fn eq(&self, other: &Generics) -> bool
        ensures same { IsSame itself self.now other.now result }
        ensures equal { IsEqual itself self.now other.now result }
        ensures prints { PrintsAlike itself self.now other.now result }
    {
        self.is_same(other)
    }
}

impl Eq for Generics {
    ghost laws = { same_equiv itself };
}

/// Two are equal exactly where they are once every span is 0 to 0.
impl PartialEq for GenericParam {
    ghost eq = { same_by syntax_of_GenericParam };

    ghost laws = { same_per syntax_of_GenericParam };

    #[tactic(auto, using(crate::proofs::Equality::equals))]
    fn eq(&self, other: &GenericParam) -> bool
        ensures same { IsSame syntax_of_GenericParam self.now other.now result }
        ensures equal { IsEqual syntax_of_GenericParam self.now other.now result }
        ensures prints { PrintsAlike syntax_of_GenericParam self.now other.now result }
    {
        self.is_same(other)
    }
}

impl Eq for GenericParam {
    ghost laws = { same_equiv syntax_of_GenericParam };
}

/// Two are equal exactly where they are once every span is 0 to 0.
impl PartialEq for LifetimeParam {
    ghost eq = { same_by itself };

    ghost laws = { same_per itself };

    #[tactic(auto, using(crate::proofs::Equality::equals))]
    fn eq(&self, other: &LifetimeParam) -> bool
        ensures same { IsSame itself self.now other.now result }
        ensures equal { IsEqual itself self.now other.now result }
        ensures prints { PrintsAlike itself self.now other.now result }
    {
        self.is_same(other)
    }
}

impl Eq for LifetimeParam {
    ghost laws = { same_equiv itself };
}

/// Two are equal exactly where they are once every span is 0 to 0.
impl PartialEq for TypeParam {
    ghost eq = { same_by itself };

    ghost laws = { same_per itself };

    #[tactic(auto, using(crate::proofs::Equality::equals))]
    fn eq(&self, other: &TypeParam) -> bool
        ensures same { IsSame itself self.now other.now result }
        ensures equal { IsEqual itself self.now other.now result }
        ensures prints { PrintsAlike itself self.now other.now result }
    {
        self.is_same(other)
    }
}

impl Eq for TypeParam {
    ghost laws = { same_equiv itself };
}

/// Two are equal exactly where they are once every span is 0 to 0.
impl PartialEq for ConstParam {
    ghost eq = { same_by itself };

    ghost laws = { same_per itself };

    #[tactic(auto, using(crate::proofs::Equality::equals))]
    fn eq(&self, other: &ConstParam) -> bool
        ensures same { IsSame itself self.now other.now result }
        ensures equal { IsEqual itself self.now other.now result }
        ensures prints { PrintsAlike itself self.now other.now result }
    {
        self.is_same(other)
    }
}

impl Eq for ConstParam {
    ghost laws = { same_equiv itself };
}
