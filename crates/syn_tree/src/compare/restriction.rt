//! Written by tools/kinds.py; edits are lost.
//!
//! Comparisons of `restriction`.
ghost use Rattle.syn_tree.specs.Restriction.{syntax_of_Visibility};
ghost use Rattle.syn_lower.specs.Equality.{IsSame, IsEqual, PrintsAlike};
ghost use Rattle.syn_tokens.specs.Comparison.{same_by, same_equiv, same_per};
ghost use Rattle.syn_grammar.specs.Promises.{itself};

use crate::restriction::{VisRestricted, Visibility};
use syn_tokens::syntactic::compare::Compared;

/// Two are equal exactly where they are once every span is 0 to 0.
impl PartialEq for Visibility {
    ghost eq = { same_by syntax_of_Visibility };

    ghost laws = { same_per syntax_of_Visibility };

    #[tactic(auto, using(syn_lower::proofs::Equality::equals))]
    fn eq(&self, other: &Visibility) -> bool
        ensures same { IsSame syntax_of_Visibility self.now other.now result }
        ensures equal { IsEqual syntax_of_Visibility self.now other.now result }
        ensures prints { PrintsAlike syntax_of_Visibility self.now other.now result }
    {
        self.is_same(other)
    }
}

impl Eq for Visibility {
    ghost laws = { same_equiv syntax_of_Visibility };
}

impl Compared for VisRestricted {
    fn is_same(&self, other: &VisRestricted) -> bool {
        self.pub_token.is_same(&other.pub_token)
            && self.in_token.is_same(&other.in_token)
            && self.path.is_same(&other.path)
    }
}

/// Two are equal exactly where they are once every span is 0 to 0.
impl PartialEq for VisRestricted {
    ghost eq = { same_by itself };

    ghost laws = { same_per itself };

    #[tactic(auto, using(syn_lower::proofs::Equality::equals))]
    fn eq(&self, other: &VisRestricted) -> bool
        ensures same { IsSame itself self.now other.now result }
        ensures equal { IsEqual itself self.now other.now result }
        ensures prints { PrintsAlike itself self.now other.now result }
    {
        self.is_same(other)
    }
}

impl Eq for VisRestricted {
    ghost laws = { same_equiv itself };
}
