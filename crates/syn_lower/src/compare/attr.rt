//! Written by tools/kinds.py; edits are lost.
//!
//! Comparisons of `attr`.
ghost use Rattle.syn_lower.specs.Attributes.{syntax_of_Attribute, syntax_of_AttrStyle, syntax_of_Meta, syntax_of_MetaList, syntax_of_MetaNameValue, syntax_of_MacroDelimiter};
ghost use Rattle.syn_lower.specs.Equality.{IsSame, IsEqual, PrintsAlike};
ghost use Rattle.syn_tokens.specs.Comparison.{same_by, same_equiv, same_per};

use crate::{AttrStyle, Attribute, MacroDelimiter, Meta, MetaList, MetaNameValue};
use syn_tokens::syntactic::compare::Compared;

/// Two are equal exactly where they are once every span is 0 to 0.
impl PartialEq for Attribute {
    ghost eq = { same_by syntax_of_Attribute };

    ghost laws = { same_per syntax_of_Attribute };

    #[tactic(auto, using(crate::proofs::Equality::equals))]
    fn eq(&self, other: &Attribute) -> bool
        ensures same { IsSame syntax_of_Attribute self.now other.now result }
        ensures equal { IsEqual syntax_of_Attribute self.now other.now result }
        ensures prints { PrintsAlike syntax_of_Attribute self.now other.now result }
    {
        self.is_same(other)
    }
}

impl Eq for Attribute {
    ghost laws = { same_equiv syntax_of_Attribute };
}

impl Compared for AttrStyle {
    fn is_same(&self, other: &AttrStyle) -> bool {
        match (self, other) {
            (AttrStyle::Outer, AttrStyle::Outer) => true,
            (AttrStyle::Inner(a), AttrStyle::Inner(b)) => a.is_same(b),
            _ => false,
        }
    }
}

/// Two are equal exactly where they are once every span is 0 to 0.
impl PartialEq for AttrStyle {
    ghost eq = { same_by syntax_of_AttrStyle };

    ghost laws = { same_per syntax_of_AttrStyle };

    #[tactic(auto, using(crate::proofs::Equality::equals))]
    fn eq(&self, other: &AttrStyle) -> bool
        ensures same { IsSame syntax_of_AttrStyle self.now other.now result }
        ensures equal { IsEqual syntax_of_AttrStyle self.now other.now result }
        ensures prints { PrintsAlike syntax_of_AttrStyle self.now other.now result }
    {
        self.is_same(other)
    }
}

impl Eq for AttrStyle {
    ghost laws = { same_equiv syntax_of_AttrStyle };
}

/// Two are equal exactly where they are once every span is 0 to 0.
impl PartialEq for Meta {
    ghost eq = { same_by syntax_of_Meta };

    ghost laws = { same_per syntax_of_Meta };

    #[tactic(auto, using(crate::proofs::Equality::equals))]
    fn eq(&self, other: &Meta) -> bool
        ensures same { IsSame syntax_of_Meta self.now other.now result }
        ensures equal { IsEqual syntax_of_Meta self.now other.now result }
        ensures prints { PrintsAlike syntax_of_Meta self.now other.now result }
    {
        self.is_same(other)
    }
}

impl Eq for Meta {
    ghost laws = { same_equiv syntax_of_Meta };
}

/// Two are equal exactly where they are once every span is 0 to 0.
impl PartialEq for MetaList {
    ghost eq = { same_by syntax_of_MetaList };

    ghost laws = { same_per syntax_of_MetaList };

    #[tactic(auto, using(crate::proofs::Equality::equals))]
    fn eq(&self, other: &MetaList) -> bool
        ensures same { IsSame syntax_of_MetaList self.now other.now result }
        ensures equal { IsEqual syntax_of_MetaList self.now other.now result }
        ensures prints { PrintsAlike syntax_of_MetaList self.now other.now result }
    {
        self.is_same(other)
    }
}

impl Eq for MetaList {
    ghost laws = { same_equiv syntax_of_MetaList };
}

/// Two are equal exactly where they are once every span is 0 to 0.
impl PartialEq for MetaNameValue {
    ghost eq = { same_by syntax_of_MetaNameValue };

    ghost laws = { same_per syntax_of_MetaNameValue };

    #[tactic(auto, using(crate::proofs::Equality::equals))]
    fn eq(&self, other: &MetaNameValue) -> bool
        ensures same { IsSame syntax_of_MetaNameValue self.now other.now result }
        ensures equal { IsEqual syntax_of_MetaNameValue self.now other.now result }
        ensures prints { PrintsAlike syntax_of_MetaNameValue self.now other.now result }
    {
        self.is_same(other)
    }
}

impl Eq for MetaNameValue {
    ghost laws = { same_equiv syntax_of_MetaNameValue };
}

/// Two are equal exactly where they are once every span is 0 to 0.
impl PartialEq for MacroDelimiter {
    ghost eq = { same_by syntax_of_MacroDelimiter };

    ghost laws = { same_per syntax_of_MacroDelimiter };

    #[tactic(auto, using(crate::proofs::Equality::equals))]
    fn eq(&self, other: &MacroDelimiter) -> bool
        ensures same { IsSame syntax_of_MacroDelimiter self.now other.now result }
        ensures equal { IsEqual syntax_of_MacroDelimiter self.now other.now result }
        ensures prints { PrintsAlike syntax_of_MacroDelimiter self.now other.now result }
    {
        self.is_same(other)
    }
}

impl Eq for MacroDelimiter {
    ghost laws = { same_equiv syntax_of_MacroDelimiter };
}
