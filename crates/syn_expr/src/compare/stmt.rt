//! Written by tools/kinds.py; edits are lost.
//!
//! Comparisons of `stmt`.
ghost use Rattle.syn_grammar.specs.Promises.{itself};
ghost use Rattle.syn_lower.specs.Equality.{IsSame, IsEqual, PrintsAlike};
ghost use Rattle.syn_tokens.specs.Comparison.{same_by, same_equiv, same_per};
ghost use Rattle.syn_expr.specs.Statements.{syntax_of_Stmt, syntax_of_LocalModifiers};

use crate::nested::compare::{CompareNested, Knot, is_same_expr};
use crate::stmt::{Block, Local, LocalInit, LocalModifiers, Stmt, StmtMacro};
use syn_tokens::syntactic::compare::Compared;

impl Compared for Block {
    fn is_same(&self, other: &Block) -> bool {
        self.is_same_nested(
            &Knot {
                is_same: is_same_expr,
            },
            other,
        )
    }
}

/// Two are equal exactly where they are once every span is 0 to 0.
impl PartialEq for Block {
    ghost eq = { same_by itself };

    ghost laws = { same_per itself };

    #[tactic(auto, using(syn_lower::proofs::Equality::equals))]
    fn eq(&self, other: &Block) -> bool
        ensures same { IsSame itself self.now other.now result }
        ensures equal { IsEqual itself self.now other.now result }
        ensures prints { PrintsAlike itself self.now other.now result }
    {
        self.is_same(other)
    }
}

impl Eq for Block {
    ghost laws = { same_equiv itself };
}

impl Compared for Stmt {
    fn is_same(&self, other: &Stmt) -> bool {
        self.is_same_nested(
            &Knot {
                is_same: is_same_expr,
            },
            other,
        )
    }
}

/// Two are equal exactly where they are once every span is 0 to 0.
impl PartialEq for Stmt {
    ghost eq = { same_by syntax_of_Stmt };

    ghost laws = { same_per syntax_of_Stmt };

    #[tactic(auto, using(syn_lower::proofs::Equality::equals))]
    fn eq(&self, other: &Stmt) -> bool
        ensures same { IsSame syntax_of_Stmt self.now other.now result }
        ensures equal { IsEqual syntax_of_Stmt self.now other.now result }
        ensures prints { PrintsAlike syntax_of_Stmt self.now other.now result }
    {
        self.is_same(other)
    }
}

impl Eq for Stmt {
    ghost laws = { same_equiv syntax_of_Stmt };
}

impl Compared for Local {
    fn is_same(&self, other: &Local) -> bool {
        self.is_same_nested(
            &Knot {
                is_same: is_same_expr,
            },
            other,
        )
    }
}

/// Two are equal exactly where they are once every span is 0 to 0.
impl PartialEq for Local {
    ghost eq = { same_by itself };

    ghost laws = { same_per itself };

    #[tactic(auto, using(syn_lower::proofs::Equality::equals))]
    fn eq(&self, other: &Local) -> bool
        ensures same { IsSame itself self.now other.now result }
        ensures equal { IsEqual itself self.now other.now result }
        ensures prints { PrintsAlike itself self.now other.now result }
    {
        self.is_same(other)
    }
}

impl Eq for Local {
    ghost laws = { same_equiv itself };
}

impl Compared for LocalModifiers {
    fn is_same(&self, _other: &LocalModifiers) -> bool {
        true
    }
}

/// Two are equal exactly where they are once every span is 0 to 0.
impl PartialEq for LocalModifiers {
    ghost eq = { same_by syntax_of_LocalModifiers };

    ghost laws = { same_per syntax_of_LocalModifiers };

    #[tactic(auto, using(syn_lower::proofs::Equality::equals))]
    fn eq(&self, other: &LocalModifiers) -> bool
        ensures same { IsSame syntax_of_LocalModifiers self.now other.now result }
        ensures equal { IsEqual syntax_of_LocalModifiers self.now other.now result }
        ensures prints { PrintsAlike syntax_of_LocalModifiers self.now other.now result }
    {
        self.is_same(other)
    }
}

impl Eq for LocalModifiers {
    ghost laws = { same_equiv syntax_of_LocalModifiers };
}

impl Compared for LocalInit {
    fn is_same(&self, other: &LocalInit) -> bool {
        self.is_same_nested(
            &Knot {
                is_same: is_same_expr,
            },
            other,
        )
    }
}

/// Two are equal exactly where they are once every span is 0 to 0.
impl PartialEq for LocalInit {
    ghost eq = { same_by itself };

    ghost laws = { same_per itself };

    #[tactic(auto, using(syn_lower::proofs::Equality::equals))]
    fn eq(&self, other: &LocalInit) -> bool
        ensures same { IsSame itself self.now other.now result }
        ensures equal { IsEqual itself self.now other.now result }
        ensures prints { PrintsAlike itself self.now other.now result }
    {
        self.is_same(other)
    }
}

impl Eq for LocalInit {
    ghost laws = { same_equiv itself };
}

impl Compared for StmtMacro {
    #[tactic(auto, using(syn_lower::proofs::Attributes::same_attributes))]
    fn is_same(&self, other: &StmtMacro) -> bool {
        self.attrs.is_same(&other.attrs)
            && self.mac.is_same(&other.mac)
            && self.semi_token.is_same(&other.semi_token)
    }
}

/// Two are equal exactly where they are once every span is 0 to 0.
impl PartialEq for StmtMacro {
    ghost eq = { same_by itself };

    ghost laws = { same_per itself };

    #[tactic(auto, using(syn_lower::proofs::Equality::equals))]
    fn eq(&self, other: &StmtMacro) -> bool
        ensures same { IsSame itself self.now other.now result }
        ensures equal { IsEqual itself self.now other.now result }
        ensures prints { PrintsAlike itself self.now other.now result }
    {
        self.is_same(other)
    }
}

impl Eq for StmtMacro {
    ghost laws = { same_equiv itself };
}
