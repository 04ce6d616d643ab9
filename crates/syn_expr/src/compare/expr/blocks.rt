//! Written by tools/kinds.py; edits are lost.
//!
//! Comparisons of `expr/blocks`.
ghost use Rattle.syn_grammar.specs.Promises.{itself};
ghost use Rattle.syn_lower.specs.Equality.{IsSame, IsEqual, PrintsAlike};
ghost use Rattle.syn_tokens.specs.Comparison.{same_by, same_equiv, same_per};

use crate::expr::Label;
use syn_tokens::syntactic::compare::Compared;

impl Compared for Label {
    fn is_same(&self, other: &Label) -> bool {
        self.name.is_same(&other.name) && self.colon_token.is_same(&other.colon_token)
    }
}

/// Two are equal exactly where they are once every span is 0 to 0.
impl PartialEq for Label {
    ghost eq = { same_by itself };

    ghost laws = { same_per itself };

    #[tactic(auto, using(syn_lower::proofs::Equality::equals))]
    fn eq(&self, other: &Label) -> bool
        ensures same { IsSame itself self.now other.now result }
        ensures equal { IsEqual itself self.now other.now result }
        ensures prints { PrintsAlike itself self.now other.now result }
    {
        self.is_same(other)
    }
}

impl Eq for Label {
    ghost laws = { same_equiv itself };
}
