//! Written by tools/kinds.py; edits are lost.
//!
//! Comparisons of `lit`.
ghost use Rattle.syn_lower.specs.Literals.{syntax_of_Lit, syntax_of_LitBool};
ghost use Rattle.syn_lower.specs.Equality.{IsSame, IsEqual, PrintsAlike};
ghost use Rattle.syn_tokens.specs.Comparison.{same_by, same_equiv, same_per};

use crate::{Lit, LitBool};
use syn_tokens::syntactic::compare::Compared;

/// Two are equal exactly where they are once every span is 0 to 0.
impl PartialEq for Lit {
    ghost eq = { same_by syntax_of_Lit };

    ghost laws = { same_per syntax_of_Lit };

    #[tactic(auto, using(crate::proofs::Equality::equals))]
    fn eq(&self, other: &Lit) -> bool
        ensures same { IsSame syntax_of_Lit self.now other.now result }
        ensures equal { IsEqual syntax_of_Lit self.now other.now result }
        ensures prints { PrintsAlike syntax_of_Lit self.now other.now result }
    {
        self.is_same(other)
    }
}

impl Eq for Lit {
    ghost laws = { same_equiv syntax_of_Lit };
}

/// Two are equal exactly where they are once every span is 0 to 0.
impl PartialEq for LitBool {
    ghost eq = { same_by syntax_of_LitBool };

    ghost laws = { same_per syntax_of_LitBool };

    #[tactic(auto, using(crate::proofs::Equality::equals))]
    fn eq(&self, other: &LitBool) -> bool
        ensures same { IsSame syntax_of_LitBool self.now other.now result }
        ensures equal { IsEqual syntax_of_LitBool self.now other.now result }
        ensures prints { PrintsAlike syntax_of_LitBool self.now other.now result }
    {
        self.is_same(other)
    }
}

impl Eq for LitBool {
    ghost laws = { same_equiv syntax_of_LitBool };
}
