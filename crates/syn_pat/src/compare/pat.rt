//! Written by tools/kinds.py; edits are lost.
//!
//! Comparisons of `pat`.
ghost use Rattle.syn_pat.specs.Patterns.{syntax_of_Pat};
ghost use Rattle.syn_lower.specs.Equality.{IsSame, IsEqual, PrintsAlike};
ghost use Rattle.syn_tokens.specs.Comparison.{same_by, same_equiv, same_per};
ghost use Rattle.syn_grammar.specs.Promises.{itself};

use crate::nested::compare::{CompareNested, CompareOf, Knot, is_same_pat};
use crate::pat::{Pat, PatIdent, PatParen, PatPath, PatType, PatWild};
use syn_tokens::syntactic::compare::Compared;

impl Compared for Pat {
    fn is_same(&self, other: &Pat) -> bool {
        is_same_pat(self, other)
    }
}

/// Two are equal exactly where they are once every span is 0 to 0.
impl PartialEq for Pat {
    ghost eq = { same_by syntax_of_Pat };

    ghost laws = { same_per syntax_of_Pat };

    #[tactic(auto, using(syn_lower::proofs::Equality::equals))]
    fn eq(&self, other: &Pat) -> bool
        ensures same { IsSame syntax_of_Pat self.now other.now result }
        ensures equal { IsEqual syntax_of_Pat self.now other.now result }
        ensures prints { PrintsAlike syntax_of_Pat self.now other.now result }
    {
        self.is_same(other)
    }
}

impl Eq for Pat {
    ghost laws = { same_equiv syntax_of_Pat };
}

impl Compared for PatIdent {
    #[tactic(auto, using(crate::proofs::Patterns::same_bound))]
    fn is_same(&self, other: &PatIdent) -> bool {
        self.by_ref.is_same(&other.by_ref)
            && self.mutability.is_same(&other.mutability)
            && self.ident.is_same(&other.ident)
    }
}

/// Two are equal exactly where they are once every span is 0 to 0.
impl PartialEq for PatIdent {
    ghost eq = { same_by itself };

    ghost laws = { same_per itself };

    #[tactic(auto, using(syn_lower::proofs::Equality::equals))]
    fn eq(&self, other: &PatIdent) -> bool
        ensures same { IsSame itself self.now other.now result }
        ensures equal { IsEqual itself self.now other.now result }
        ensures prints { PrintsAlike itself self.now other.now result }
    {
        self.is_same(other)
    }
}

impl Eq for PatIdent {
    ghost laws = { same_equiv itself };
}

impl CompareNested<Pat> for PatParen {
    #[tactic(auto, using(syn_grammar::proofs::Same::and_true))]
    fn is_same_nested<N: CompareOf<Pat>>(&self, nested: &N, other: &PatParen) -> bool {
        nested.is_same_one(&self.pat, &other.pat)
    }
}

/// Two are equal exactly where they are once every span is 0 to 0.
impl PartialEq for PatPath {
    ghost eq = { same_by itself };

    ghost laws = { same_per itself };

    #[tactic(auto, using(syn_lower::proofs::Equality::equals))]
    fn eq(&self, other: &PatPath) -> bool
        ensures same { IsSame itself self.now other.now result }
        ensures equal { IsEqual itself self.now other.now result }
        ensures prints { PrintsAlike itself self.now other.now result }
    {
        self.is_same(other)
    }
}

impl Eq for PatPath {
    ghost laws = { same_equiv itself };
}

impl CompareNested<Pat> for PatType {
    #[tactic(auto, using(syn_lower::proofs::Attributes::same_attributes, crate::proofs::Patterns::same_typed, crate::proofs::Patterns::after_smaller))]
    fn is_same_nested<N: CompareOf<Pat>>(&self, nested: &N, other: &PatType) -> bool {
        self.attrs.is_same(&other.attrs)
            && nested.is_same_one(&self.pat, &other.pat)
            && self.colon_token.is_same(&other.colon_token)
            && self.ty.is_same(&other.ty)
    }
}

impl Compared for PatType {
    fn is_same(&self, other: &PatType) -> bool {
        self.is_same_nested(
            &Knot {
                is_same: is_same_pat,
            },
            other,
        )
    }
}

/// Two are equal exactly where they are once every span is 0 to 0.
impl PartialEq for PatType {
    ghost eq = { same_by itself };

    ghost laws = { same_per itself };

    #[tactic(auto, using(syn_lower::proofs::Equality::equals))]
    fn eq(&self, other: &PatType) -> bool
        ensures same { IsSame itself self.now other.now result }
        ensures equal { IsEqual itself self.now other.now result }
        ensures prints { PrintsAlike itself self.now other.now result }
    {
        self.is_same(other)
    }
}

impl Eq for PatType {
    ghost laws = { same_equiv itself };
}

impl Compared for PatWild {
    #[tactic(auto, using(syn_lower::proofs::Attributes::same_attributes, crate::proofs::Patterns::same_wild))]
    fn is_same(&self, other: &PatWild) -> bool {
        self.attrs.is_same(&other.attrs) && self.underscore_token.is_same(&other.underscore_token)
    }
}

/// Two are equal exactly where they are once every span is 0 to 0.
impl PartialEq for PatWild {
    ghost eq = { same_by itself };

    ghost laws = { same_per itself };

    #[tactic(auto, using(syn_lower::proofs::Equality::equals))]
    fn eq(&self, other: &PatWild) -> bool
        ensures same { IsSame itself self.now other.now result }
        ensures equal { IsEqual itself self.now other.now result }
        ensures prints { PrintsAlike itself self.now other.now result }
    {
        self.is_same(other)
    }
}

impl Eq for PatWild {
    ghost laws = { same_equiv itself };
}
