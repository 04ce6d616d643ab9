//! Written by tools/kinds.py; edits are lost.
//!
//! Comparisons of `item/modifiers`.
ghost use Rattle.syn_tree.specs.Modifiers.{syntax_of_ConstModifiers, syntax_of_FnModifiers, syntax_of_TypeModifiers, syntax_of_ImplModifiers, syntax_of_TraitModifiers};
ghost use Rattle.syn_lower.specs.Equality.{IsSame, IsEqual, PrintsAlike};
ghost use Rattle.syn_tokens.specs.Comparison.{same_by, same_equiv, same_per};

use crate::item::{ConstModifiers, FnModifiers, ImplModifiers, TraitModifiers, TypeModifiers};
use syn_tokens::syntactic::compare::Compared;

impl Compared for ConstModifiers {
    fn is_same(&self, other: &ConstModifiers) -> bool {
        self.defaultness.is_same(&other.defaultness)
    }
}

/// Two are equal exactly where they are once every span is 0 to 0.
impl PartialEq for ConstModifiers {
    ghost eq = { same_by syntax_of_ConstModifiers };

    ghost laws = { same_per syntax_of_ConstModifiers };

    #[tactic(auto, using(syn_lower::proofs::Equality::equals))]
    fn eq(&self, other: &ConstModifiers) -> bool
        ensures same { IsSame syntax_of_ConstModifiers self.now other.now result }
        ensures equal { IsEqual syntax_of_ConstModifiers self.now other.now result }
        ensures prints { PrintsAlike syntax_of_ConstModifiers self.now other.now result }
    {
        self.is_same(other)
    }
}

impl Eq for ConstModifiers {
    ghost laws = { same_equiv syntax_of_ConstModifiers };
}

impl Compared for FnModifiers {
    fn is_same(&self, other: &FnModifiers) -> bool {
        self.defaultness.is_same(&other.defaultness)
    }
}

/// Two are equal exactly where they are once every span is 0 to 0.
impl PartialEq for FnModifiers {
    ghost eq = { same_by syntax_of_FnModifiers };

    ghost laws = { same_per syntax_of_FnModifiers };

    #[tactic(auto, using(syn_lower::proofs::Equality::equals))]
    fn eq(&self, other: &FnModifiers) -> bool
        ensures same { IsSame syntax_of_FnModifiers self.now other.now result }
        ensures equal { IsEqual syntax_of_FnModifiers self.now other.now result }
        ensures prints { PrintsAlike syntax_of_FnModifiers self.now other.now result }
    {
        self.is_same(other)
    }
}

impl Eq for FnModifiers {
    ghost laws = { same_equiv syntax_of_FnModifiers };
}

impl Compared for TypeModifiers {
    fn is_same(&self, other: &TypeModifiers) -> bool {
        self.defaultness.is_same(&other.defaultness)
    }
}

/// Two are equal exactly where they are once every span is 0 to 0.
impl PartialEq for TypeModifiers {
    ghost eq = { same_by syntax_of_TypeModifiers };

    ghost laws = { same_per syntax_of_TypeModifiers };

    #[tactic(auto, using(syn_lower::proofs::Equality::equals))]
    fn eq(&self, other: &TypeModifiers) -> bool
        ensures same { IsSame syntax_of_TypeModifiers self.now other.now result }
        ensures equal { IsEqual syntax_of_TypeModifiers self.now other.now result }
        ensures prints { PrintsAlike syntax_of_TypeModifiers self.now other.now result }
    {
        self.is_same(other)
    }
}

impl Eq for TypeModifiers {
    ghost laws = { same_equiv syntax_of_TypeModifiers };
}

impl Compared for ImplModifiers {
    fn is_same(&self, other: &ImplModifiers) -> bool {
        self.defaultness.is_same(&other.defaultness)
            && self.constness.is_same(&other.constness)
            && self.polarity.is_same(&other.polarity)
    }
}

/// Two are equal exactly where they are once every span is 0 to 0.
impl PartialEq for ImplModifiers {
    ghost eq = { same_by syntax_of_ImplModifiers };

    ghost laws = { same_per syntax_of_ImplModifiers };

    #[tactic(auto, using(syn_lower::proofs::Equality::equals))]
    fn eq(&self, other: &ImplModifiers) -> bool
        ensures same { IsSame syntax_of_ImplModifiers self.now other.now result }
        ensures equal { IsEqual syntax_of_ImplModifiers self.now other.now result }
        ensures prints { PrintsAlike syntax_of_ImplModifiers self.now other.now result }
    {
        self.is_same(other)
    }
}

impl Eq for ImplModifiers {
    ghost laws = { same_equiv syntax_of_ImplModifiers };
}

impl Compared for TraitModifiers {
    fn is_same(&self, other: &TraitModifiers) -> bool {
        self.constness.is_same(&other.constness) && self.auto_token.is_same(&other.auto_token)
    }
}

/// Two are equal exactly where they are once every span is 0 to 0.
impl PartialEq for TraitModifiers {
    ghost eq = { same_by syntax_of_TraitModifiers };

    ghost laws = { same_per syntax_of_TraitModifiers };

    #[tactic(auto, using(syn_lower::proofs::Equality::equals))]
    fn eq(&self, other: &TraitModifiers) -> bool
        ensures same { IsSame syntax_of_TraitModifiers self.now other.now result }
        ensures equal { IsEqual syntax_of_TraitModifiers self.now other.now result }
        ensures prints { PrintsAlike syntax_of_TraitModifiers self.now other.now result }
    {
        self.is_same(other)
    }
}

impl Eq for TraitModifiers {
    ghost laws = { same_equiv syntax_of_TraitModifiers };
}
