//! Written by tools/kinds.py; edits are lost.
//!
//! Comparisons of `where_clause`.
ghost use Rattle.syn_grammar.specs.Promises.{itself};
ghost use Rattle.syn_lower.specs.Equality.{IsSame, IsEqual, PrintsAlike};
ghost use Rattle.syn_tokens.specs.Comparison.{same_by, same_equiv, same_per};
ghost use Rattle.syn_lower.specs.WhereClauses.{syntax_of_WherePredicate};

use crate::{PredicateLifetime, PredicateType, WhereClause, WherePredicate};
use syn_tokens::syntactic::compare::Compared;

/// Two are equal exactly where they are once every span is 0 to 0.
impl PartialEq for WhereClause {
    ghost eq = { same_by itself };

    ghost laws = { same_per itself };

    #[tactic(auto, using(crate::proofs::Equality::equals))]
    fn eq(&self, other: &WhereClause) -> bool
        ensures same { IsSame itself self.now other.now result }
        ensures equal { IsEqual itself self.now other.now result }
        ensures prints { PrintsAlike itself self.now other.now result }
    {
        self.is_same(other)
    }
}

impl Eq for WhereClause {
    ghost laws = { same_equiv itself };
}

impl Compared for WherePredicate {
    fn is_same(&self, other: &WherePredicate) -> bool {
        match (self, other) {
            (WherePredicate::Lifetime(a), WherePredicate::Lifetime(b)) => a.is_same(b),
            (WherePredicate::Ty(a), WherePredicate::Ty(b)) => a.is_same(b),
            _ => false,
        }
    }
}

/// Two are equal exactly where they are once every span is 0 to 0.
impl PartialEq for WherePredicate {
    ghost eq = { same_by syntax_of_WherePredicate };

    ghost laws = { same_per syntax_of_WherePredicate };

    #[tactic(auto, using(crate::proofs::Equality::equals))]
    fn eq(&self, other: &WherePredicate) -> bool
        ensures same { IsSame syntax_of_WherePredicate self.now other.now result }
        ensures equal { IsEqual syntax_of_WherePredicate self.now other.now result }
        ensures prints { PrintsAlike syntax_of_WherePredicate self.now other.now result }
    {
        self.is_same(other)
    }
}

impl Eq for WherePredicate {
    ghost laws = { same_equiv syntax_of_WherePredicate };
}

/// Two are equal exactly where they are once every span is 0 to 0.
impl PartialEq for PredicateLifetime {
    ghost eq = { same_by itself };

    ghost laws = { same_per itself };

    #[tactic(auto, using(crate::proofs::Equality::equals))]
    fn eq(&self, other: &PredicateLifetime) -> bool
        ensures same { IsSame itself self.now other.now result }
        ensures equal { IsEqual itself self.now other.now result }
        ensures prints { PrintsAlike itself self.now other.now result }
    {
        self.is_same(other)
    }
}

impl Eq for PredicateLifetime {
    ghost laws = { same_equiv itself };
}

impl Compared for PredicateType {
    fn is_same(&self, other: &PredicateType) -> bool {
        self.lifetimes.is_same(&other.lifetimes)
            && self.bounded_ty.is_same(&other.bounded_ty)
            && self.colon_token.is_same(&other.colon_token)
            && self.bounds.is_same(&other.bounds)
    }
}

/// Two are equal exactly where they are once every span is 0 to 0.
impl PartialEq for PredicateType {
    ghost eq = { same_by itself };

    ghost laws = { same_per itself };

    #[tactic(auto, using(crate::proofs::Equality::equals))]
    fn eq(&self, other: &PredicateType) -> bool
        ensures same { IsSame itself self.now other.now result }
        ensures equal { IsEqual itself self.now other.now result }
        ensures prints { PrintsAlike itself self.now other.now result }
    {
        self.is_same(other)
    }
}

impl Eq for PredicateType {
    ghost laws = { same_equiv itself };
}
