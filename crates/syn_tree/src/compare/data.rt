//! Written by tools/kinds.py; edits are lost.
//!
//! Comparisons of `data`.
ghost use Rattle.syn_grammar.specs.Promises.{itself};
ghost use Rattle.syn_lower.specs.Equality.{IsSame, IsEqual, PrintsAlike};
ghost use Rattle.syn_tokens.specs.Comparison.{same_by, same_equiv, same_per};
ghost use Rattle.syn_tree.specs.Data.{syntax_of_Fields};
ghost use Rattle.syn_tree.specs.Modifiers.{syntax_of_FieldModifiers};

use crate::data::{Field, FieldModifiers, Fields, FieldsNamed, FieldsUnnamed, Variant};
use syn_tokens::syntactic::compare::Compared;

/// Two are equal exactly where they are once every span is 0 to 0.
impl PartialEq for Variant {
    ghost eq = { same_by itself };

    ghost laws = { same_per itself };

    #[tactic(auto, using(syn_lower::proofs::Equality::equals))]
    fn eq(&self, other: &Variant) -> bool
        ensures same { IsSame itself self.now other.now result }
        ensures equal { IsEqual itself self.now other.now result }
        ensures prints { PrintsAlike itself self.now other.now result }
    {
        self.is_same(other)
    }
}

impl Eq for Variant {
    ghost laws = { same_equiv itself };
}

impl Compared for Fields {
    fn is_same(&self, other: &Fields) -> bool {
        match (self, other) {
            (Fields::Named(a), Fields::Named(b)) => a.is_same(b),
            (Fields::Unnamed(a), Fields::Unnamed(b)) => a.is_same(b),
            (Fields::Unit, Fields::Unit) => true,
            _ => false,
        }
    }
}

/// Two are equal exactly where they are once every span is 0 to 0.
impl PartialEq for Fields {
    ghost eq = { same_by syntax_of_Fields };

    ghost laws = { same_per syntax_of_Fields };

    #[tactic(auto, using(syn_lower::proofs::Equality::equals))]
    fn eq(&self, other: &Fields) -> bool
        ensures same { IsSame syntax_of_Fields self.now other.now result }
        ensures equal { IsEqual syntax_of_Fields self.now other.now result }
        ensures prints { PrintsAlike syntax_of_Fields self.now other.now result }
    {
        self.is_same(other)
    }
}

impl Eq for Fields {
    ghost laws = { same_equiv syntax_of_Fields };
}

impl Compared for FieldsNamed {
    fn is_same(&self, other: &FieldsNamed) -> bool {
        self.named.is_same(&other.named)
    }
}

/// Two are equal exactly where they are once every span is 0 to 0.
impl PartialEq for FieldsNamed {
    ghost eq = { same_by itself };

    ghost laws = { same_per itself };

    #[tactic(auto, using(syn_lower::proofs::Equality::equals))]
    fn eq(&self, other: &FieldsNamed) -> bool
        ensures same { IsSame itself self.now other.now result }
        ensures equal { IsEqual itself self.now other.now result }
        ensures prints { PrintsAlike itself self.now other.now result }
    {
        self.is_same(other)
    }
}

impl Eq for FieldsNamed {
    ghost laws = { same_equiv itself };
}

impl Compared for FieldsUnnamed {
    fn is_same(&self, other: &FieldsUnnamed) -> bool {
        self.unnamed.is_same(&other.unnamed)
    }
}

/// Two are equal exactly where they are once every span is 0 to 0.
impl PartialEq for FieldsUnnamed {
    ghost eq = { same_by itself };

    ghost laws = { same_per itself };

    #[tactic(auto, using(syn_lower::proofs::Equality::equals))]
    fn eq(&self, other: &FieldsUnnamed) -> bool
        ensures same { IsSame itself self.now other.now result }
        ensures equal { IsEqual itself self.now other.now result }
        ensures prints { PrintsAlike itself self.now other.now result }
    {
        self.is_same(other)
    }
}

impl Eq for FieldsUnnamed {
    ghost laws = { same_equiv itself };
}

/// Two are equal exactly where they are once every span is 0 to 0.
impl PartialEq for Field {
    ghost eq = { same_by itself };

    ghost laws = { same_per itself };

    #[tactic(auto, using(syn_lower::proofs::Equality::equals))]
    fn eq(&self, other: &Field) -> bool
        ensures same { IsSame itself self.now other.now result }
        ensures equal { IsEqual itself self.now other.now result }
        ensures prints { PrintsAlike itself self.now other.now result }
    {
        self.is_same(other)
    }
}

impl Eq for Field {
    ghost laws = { same_equiv itself };
}

impl Compared for FieldModifiers {
    fn is_same(&self, _other: &FieldModifiers) -> bool {
        true
    }
}

/// Two are equal exactly where they are once every span is 0 to 0.
impl PartialEq for FieldModifiers {
    ghost eq = { same_by syntax_of_FieldModifiers };

    ghost laws = { same_per syntax_of_FieldModifiers };

    #[tactic(auto, using(syn_lower::proofs::Equality::equals))]
    fn eq(&self, other: &FieldModifiers) -> bool
        ensures same { IsSame syntax_of_FieldModifiers self.now other.now result }
        ensures equal { IsEqual syntax_of_FieldModifiers self.now other.now result }
        ensures prints { PrintsAlike syntax_of_FieldModifiers self.now other.now result }
    {
        self.is_same(other)
    }
}

impl Eq for FieldModifiers {
    ghost laws = { same_equiv syntax_of_FieldModifiers };
}
