//! Written by tools/kinds.py; edits are lost.
//!
//! Comparisons of `expr`.
ghost use Rattle.syn_expr.specs.Expressions.{syntax_of_Expr};
ghost use Rattle.syn_lower.specs.Equality.{IsSame, IsEqual, PrintsAlike};
ghost use Rattle.syn_tokens.specs.Comparison.{same_by, same_equiv, same_per};

mod blocks;
mod groups;
mod operators;
mod postfix;
mod primary;

use crate::expr::Expr;
use crate::nested::compare::is_same_expr;
use syn_tokens::syntactic::compare::Compared;

impl Compared for Expr {
    fn is_same(&self, other: &Expr) -> bool {
        is_same_expr(self, other)
    }
}

/// Two are equal exactly where they are once every span is 0 to 0.
impl PartialEq for Expr {
    ghost eq = { same_by syntax_of_Expr };

    ghost laws = { same_per syntax_of_Expr };

    #[tactic(auto, using(syn_lower::proofs::Equality::equals))]
    fn eq(&self, other: &Expr) -> bool
        ensures same { IsSame syntax_of_Expr self.now other.now result }
        ensures equal { IsEqual syntax_of_Expr self.now other.now result }
        ensures prints { PrintsAlike syntax_of_Expr self.now other.now result }
    {
        self.is_same(other)
    }
}

impl Eq for Expr {
    ghost laws = { same_equiv syntax_of_Expr };
}
