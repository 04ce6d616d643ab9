//! Written by tools/kinds.py; edits are lost.
//!
//! Comparisons of `member`.
ghost use Rattle.syn_lower.specs.Members.{syntax_of_Member, syntax_of_Index};
ghost use Rattle.syn_lower.specs.Equality.{IsSame, IsEqual, PrintsAlike};
ghost use Rattle.syn_tokens.specs.Comparison.{same_by, same_equiv, same_per};

use crate::{Index, Member};
use syn_tokens::syntactic::compare::Compared;

impl Compared for Member {
    fn is_same(&self, other: &Member) -> bool {
        match (self, other) {
            (Member::Named(a), Member::Named(b)) => a.is_same(b),
            (Member::Unnamed(a), Member::Unnamed(b)) => a.is_same(b),
            _ => false,
        }
    }
}

/// Two are equal exactly where they are once every span is 0 to 0.
impl PartialEq for Member {
    ghost eq = { same_by syntax_of_Member };

    ghost laws = { same_per syntax_of_Member };

    #[tactic(auto, using(crate::proofs::Equality::equals))]
    fn eq(&self, other: &Member) -> bool
        ensures same { IsSame syntax_of_Member self.now other.now result }
        ensures equal { IsEqual syntax_of_Member self.now other.now result }
        ensures prints { PrintsAlike syntax_of_Member self.now other.now result }
    {
        self.is_same(other)
    }
}

impl Eq for Member {
    ghost laws = { same_equiv syntax_of_Member };
}

/// Two are equal exactly where they are once every span is 0 to 0.
impl PartialEq for Index {
    ghost eq = { same_by syntax_of_Index };

    ghost laws = { same_per syntax_of_Index };

    #[tactic(auto, using(crate::proofs::Equality::equals))]
    fn eq(&self, other: &Index) -> bool
        ensures same { IsSame syntax_of_Index self.now other.now result }
        ensures equal { IsEqual syntax_of_Index self.now other.now result }
        ensures prints { PrintsAlike syntax_of_Index self.now other.now result }
    {
        self.is_same(other)
    }
}

impl Eq for Index {
    ghost laws = { same_equiv syntax_of_Index };
}
