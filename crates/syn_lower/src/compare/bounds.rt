//! Written by tools/kinds.py; edits are lost.
//!
//! Comparisons of `bounds`.
ghost use Rattle.syn_grammar.specs.Promises.{itself};
ghost use Rattle.syn_lower.specs.Equality.{IsSame, IsEqual, PrintsAlike};
ghost use Rattle.syn_tokens.specs.Comparison.{same_by, same_equiv, same_per};
ghost use Rattle.syn_lower.specs.Bounds.{syntax_of_TypeParamBound, syntax_of_TraitBoundModifier};

use crate::{BoundLifetimes, TraitBound, TraitBoundModifier, TypeParamBound};
use syn_tokens::syntactic::compare::Compared;

impl Compared for BoundLifetimes {
    fn is_same(&self, other: &BoundLifetimes) -> bool {
        self.for_token.is_same(&other.for_token)
            && self.lt_token.is_same(&other.lt_token)
            && self.lifetimes.is_same(&other.lifetimes)
            && self.gt_token.is_same(&other.gt_token)
    }
}

/// Two are equal exactly where they are once every span is 0 to 0.
impl PartialEq for BoundLifetimes {
    ghost eq = { same_by itself };

    ghost laws = { same_per itself };

    #[tactic(auto, using(crate::proofs::Equality::equals))]
    fn eq(&self, other: &BoundLifetimes) -> bool
        ensures same { IsSame itself self.now other.now result }
        ensures equal { IsEqual itself self.now other.now result }
        ensures prints { PrintsAlike itself self.now other.now result }
    {
        self.is_same(other)
    }
}

impl Eq for BoundLifetimes {
    ghost laws = { same_equiv itself };
}

impl Compared for TypeParamBound {
    fn is_same(&self, other: &TypeParamBound) -> bool {
        match (self, other) {
            (TypeParamBound::Trait(a), TypeParamBound::Trait(b)) => a.is_same(b),
            (TypeParamBound::Lifetime(a), TypeParamBound::Lifetime(b)) => a.is_same(b),
            _ => false,
        }
    }
}

/// Two are equal exactly where they are once every span is 0 to 0.
impl PartialEq for TypeParamBound {
    ghost eq = { same_by syntax_of_TypeParamBound };

    ghost laws = { same_per syntax_of_TypeParamBound };

    #[tactic(auto, using(crate::proofs::Equality::equals))]
    fn eq(&self, other: &TypeParamBound) -> bool
        ensures same { IsSame syntax_of_TypeParamBound self.now other.now result }
        ensures equal { IsEqual syntax_of_TypeParamBound self.now other.now result }
        ensures prints { PrintsAlike syntax_of_TypeParamBound self.now other.now result }
    {
        self.is_same(other)
    }
}

impl Eq for TypeParamBound {
    ghost laws = { same_equiv syntax_of_TypeParamBound };
}

/// Two are equal exactly where they are once every span is 0 to 0.
impl PartialEq for TraitBound {
    ghost eq = { same_by itself };

    ghost laws = { same_per itself };

    #[tactic(auto, using(crate::proofs::Equality::equals))]
    fn eq(&self, other: &TraitBound) -> bool
        ensures same { IsSame itself self.now other.now result }
        ensures equal { IsEqual itself self.now other.now result }
        ensures prints { PrintsAlike itself self.now other.now result }
    {
        self.is_same(other)
    }
}

impl Eq for TraitBound {
    ghost laws = { same_equiv itself };
}

impl Compared for TraitBoundModifier {
    fn is_same(&self, other: &TraitBoundModifier) -> bool {
        match (self, other) {
            (TraitBoundModifier::None, TraitBoundModifier::None) => true,
            (TraitBoundModifier::Maybe(a), TraitBoundModifier::Maybe(b)) => a.is_same(b),
            _ => false,
        }
    }
}

/// Two are equal exactly where they are once every span is 0 to 0.
impl PartialEq for TraitBoundModifier {
    ghost eq = { same_by syntax_of_TraitBoundModifier };

    ghost laws = { same_per syntax_of_TraitBoundModifier };

    #[tactic(auto, using(crate::proofs::Equality::equals))]
    fn eq(&self, other: &TraitBoundModifier) -> bool
        ensures same { IsSame syntax_of_TraitBoundModifier self.now other.now result }
        ensures equal { IsEqual syntax_of_TraitBoundModifier self.now other.now result }
        ensures prints { PrintsAlike syntax_of_TraitBoundModifier self.now other.now result }
    {
        self.is_same(other)
    }
}

impl Eq for TraitBoundModifier {
    ghost laws = { same_equiv syntax_of_TraitBoundModifier };
}
