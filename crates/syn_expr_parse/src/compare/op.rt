//! Written by tools/kinds.py; edits are lost.
//!
//! Comparisons of `op`.
ghost use Rattle.syn_expr_parse.specs.Operators.{syntax_of_BinOp, syntax_of_UnOp};
ghost use Rattle.syn_lower.specs.Equality.{IsSame, IsEqual, PrintsAlike};
ghost use Rattle.syn_tokens.specs.Comparison.{same_by, same_equiv, same_per};

use crate::op::{BinOp, UnOp};
use syn_tokens::syntactic::compare::Compared;

/// Two are equal exactly where they are once every span is 0 to 0.
impl PartialEq for BinOp {
    ghost eq = { same_by syntax_of_BinOp };

    ghost laws = { same_per syntax_of_BinOp };

    #[tactic(auto, using(syn_lower::proofs::Equality::equals))]
    fn eq(&self, other: &BinOp) -> bool
        ensures same { IsSame syntax_of_BinOp self.now other.now result }
        ensures equal { IsEqual syntax_of_BinOp self.now other.now result }
        ensures prints { PrintsAlike syntax_of_BinOp self.now other.now result }
    {
        self.is_same(other)
    }
}

impl Eq for BinOp {
    ghost laws = { same_equiv syntax_of_BinOp };
}

/// Two are equal exactly where they are once every span is 0 to 0.
impl PartialEq for UnOp {
    ghost eq = { same_by syntax_of_UnOp };

    ghost laws = { same_per syntax_of_UnOp };

    #[tactic(auto, using(syn_lower::proofs::Equality::equals))]
    fn eq(&self, other: &UnOp) -> bool
        ensures same { IsSame syntax_of_UnOp self.now other.now result }
        ensures equal { IsEqual syntax_of_UnOp self.now other.now result }
        ensures prints { PrintsAlike syntax_of_UnOp self.now other.now result }
    {
        self.is_same(other)
    }
}

impl Eq for UnOp {
    ghost laws = { same_equiv syntax_of_UnOp };
}
