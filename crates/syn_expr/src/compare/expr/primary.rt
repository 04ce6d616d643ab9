//! Written by tools/kinds.py; edits are lost.
//!
//! Comparisons of `expr/primary`.
ghost use Rattle.syn_grammar.specs.Promises.{itself};
ghost use Rattle.syn_lower.specs.Equality.{IsSame, IsEqual, PrintsAlike};
ghost use Rattle.syn_tokens.specs.Comparison.{same_by, same_equiv, same_per};

use crate::expr::{Expr, ExprBreak, ExprContinue, ExprLit, ExprMacro, ExprPath, ExprReturn};
use crate::nested::compare::{CompareNested, CompareOf, same_maybe};
use syn_tokens::syntactic::compare::Compared;

impl Compared for ExprBreak {
    #[tactic(auto, using(syn_lower::proofs::Attributes::same_attributes, syn_grammar::proofs::Same::and_true))]
    fn is_same(&self, other: &ExprBreak) -> bool {
        self.attrs.is_same(&other.attrs)
            && self.break_token.is_same(&other.break_token)
            && self.label.is_same(&other.label)
    }
}

/// Two are equal exactly where they are once every span is 0 to 0.
impl PartialEq for ExprBreak {
    ghost eq = { same_by itself };

    ghost laws = { same_per itself };

    #[tactic(auto, using(syn_lower::proofs::Equality::equals))]
    fn eq(&self, other: &ExprBreak) -> bool
        ensures same { IsSame itself self.now other.now result }
        ensures equal { IsEqual itself self.now other.now result }
        ensures prints { PrintsAlike itself self.now other.now result }
    {
        self.is_same(other)
    }
}

impl Eq for ExprBreak {
    ghost laws = { same_equiv itself };
}

impl Compared for ExprContinue {
    #[tactic(auto, using(syn_lower::proofs::Attributes::same_attributes))]
    fn is_same(&self, other: &ExprContinue) -> bool {
        self.attrs.is_same(&other.attrs)
            && self.continue_token.is_same(&other.continue_token)
            && self.label.is_same(&other.label)
    }
}

/// Two are equal exactly where they are once every span is 0 to 0.
impl PartialEq for ExprContinue {
    ghost eq = { same_by itself };

    ghost laws = { same_per itself };

    #[tactic(auto, using(syn_lower::proofs::Equality::equals))]
    fn eq(&self, other: &ExprContinue) -> bool
        ensures same { IsSame itself self.now other.now result }
        ensures equal { IsEqual itself self.now other.now result }
        ensures prints { PrintsAlike itself self.now other.now result }
    {
        self.is_same(other)
    }
}

impl Eq for ExprContinue {
    ghost laws = { same_equiv itself };
}

impl Compared for ExprLit {
    #[tactic(auto, using(syn_lower::proofs::Attributes::same_attributes, crate::proofs::Forms::same_literal))]
    fn is_same(&self, other: &ExprLit) -> bool {
        self.attrs.is_same(&other.attrs) && self.lit.is_same(&other.lit)
    }
}

/// Two are equal exactly where they are once every span is 0 to 0.
impl PartialEq for ExprLit {
    ghost eq = { same_by itself };

    ghost laws = { same_per itself };

    #[tactic(auto, using(syn_lower::proofs::Equality::equals))]
    fn eq(&self, other: &ExprLit) -> bool
        ensures same { IsSame itself self.now other.now result }
        ensures equal { IsEqual itself self.now other.now result }
        ensures prints { PrintsAlike itself self.now other.now result }
    {
        self.is_same(other)
    }
}

impl Eq for ExprLit {
    ghost laws = { same_equiv itself };
}

impl Compared for ExprMacro {
    #[tactic(auto, using(syn_lower::proofs::Attributes::same_attributes))]
    fn is_same(&self, other: &ExprMacro) -> bool {
        self.attrs.is_same(&other.attrs) && self.mac.is_same(&other.mac)
    }
}

/// Two are equal exactly where they are once every span is 0 to 0.
impl PartialEq for ExprMacro {
    ghost eq = { same_by itself };

    ghost laws = { same_per itself };

    #[tactic(auto, using(syn_lower::proofs::Equality::equals))]
    fn eq(&self, other: &ExprMacro) -> bool
        ensures same { IsSame itself self.now other.now result }
        ensures equal { IsEqual itself self.now other.now result }
        ensures prints { PrintsAlike itself self.now other.now result }
    {
        self.is_same(other)
    }
}

impl Eq for ExprMacro {
    ghost laws = { same_equiv itself };
}

/// Two are equal exactly where they are once every span is 0 to 0.
impl PartialEq for ExprPath {
    ghost eq = { same_by itself };

    ghost laws = { same_per itself };

    #[tactic(auto, using(syn_lower::proofs::Equality::equals))]
    fn eq(&self, other: &ExprPath) -> bool
        ensures same { IsSame itself self.now other.now result }
        ensures equal { IsEqual itself self.now other.now result }
        ensures prints { PrintsAlike itself self.now other.now result }
    {
        self.is_same(other)
    }
}

impl Eq for ExprPath {
    ghost laws = { same_equiv itself };
}

impl CompareNested<Expr> for ExprReturn {
    #[tactic(auto, using(syn_lower::proofs::Attributes::same_attributes))]
    fn is_same_nested<N: CompareOf<Expr>>(&self, nested: &N, other: &ExprReturn) -> bool {
        self.attrs.is_same(&other.attrs)
            && self.return_token.is_same(&other.return_token)
            && same_maybe(nested, &self.expr, &other.expr)
    }
}
