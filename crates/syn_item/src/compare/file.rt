//! Written by tools/kinds.py; edits are lost.
//!
//! Comparisons of `file`.
ghost use Rattle.syn_grammar.specs.Promises.{itself};
ghost use Rattle.syn_lower.specs.Equality.{IsSame, IsEqual, PrintsAlike};
ghost use Rattle.syn_tokens.specs.Comparison.{same_by, same_equiv, same_per};
ghost use Rattle.syn_item.specs.Files.{syntax_of_Frontmatter};

use crate::file::{File, Frontmatter};
use syn_tokens::syntactic::compare::Compared;

/// Two are equal exactly where they are once every span is 0 to 0.
impl PartialEq for File {
    ghost eq = { same_by itself };

    ghost laws = { same_per itself };

    #[tactic(auto, using(syn_lower::proofs::Equality::equals))]
    fn eq(&self, other: &File) -> bool
        ensures same { IsSame itself self.now other.now result }
        ensures equal { IsEqual itself self.now other.now result }
        ensures prints { PrintsAlike itself self.now other.now result }
    {
        self.is_same(other)
    }
}

impl Eq for File {
    ghost laws = { same_equiv itself };
}

impl Compared for Frontmatter {
    fn is_same(&self, _other: &Frontmatter) -> bool {
        true
    }
}

/// Two are equal exactly where they are once every span is 0 to 0.
impl PartialEq for Frontmatter {
    ghost eq = { same_by syntax_of_Frontmatter };

    ghost laws = { same_per syntax_of_Frontmatter };

    #[tactic(auto, using(syn_lower::proofs::Equality::equals))]
    fn eq(&self, other: &Frontmatter) -> bool
        ensures same { IsSame syntax_of_Frontmatter self.now other.now result }
        ensures equal { IsEqual syntax_of_Frontmatter self.now other.now result }
        ensures prints { PrintsAlike syntax_of_Frontmatter self.now other.now result }
    {
        self.is_same(other)
    }
}

impl Eq for Frontmatter {
    ghost laws = { same_equiv syntax_of_Frontmatter };
}
