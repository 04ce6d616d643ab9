//! Written by tools/kinds.py; edits are lost.
//!
//! Comparisons of `item`.
ghost use Rattle.syn_tree.specs.Items.{syntax_of_ItemEnum, syntax_of_ItemStruct, syntax_of_ItemUnion};
ghost use Rattle.syn_lower.specs.Equality.{IsSame, IsEqual, PrintsAlike};
ghost use Rattle.syn_tokens.specs.Comparison.{same_by, same_equiv, same_per};

mod modifiers;

use crate::item::{ItemEnum, ItemStruct, ItemUnion};
use syn_tokens::syntactic::compare::Compared;

/// Two are equal exactly where they are once every span is 0 to 0.
impl PartialEq for ItemEnum {
    ghost eq = { same_by syntax_of_ItemEnum };

    ghost laws = { same_per syntax_of_ItemEnum };

    #[tactic(auto, using(syn_lower::proofs::Equality::equals))]
    fn eq(&self, other: &ItemEnum) -> bool
        ensures same { IsSame syntax_of_ItemEnum self.now other.now result }
        ensures equal { IsEqual syntax_of_ItemEnum self.now other.now result }
        ensures prints { PrintsAlike syntax_of_ItemEnum self.now other.now result }
    {
        self.is_same(other)
    }
}

impl Eq for ItemEnum {
    ghost laws = { same_equiv syntax_of_ItemEnum };
}

/// Two are equal exactly where they are once every span is 0 to 0.
impl PartialEq for ItemStruct {
    ghost eq = { same_by syntax_of_ItemStruct };

    ghost laws = { same_per syntax_of_ItemStruct };

    #[tactic(auto, using(syn_lower::proofs::Equality::equals))]
    fn eq(&self, other: &ItemStruct) -> bool
        ensures same { IsSame syntax_of_ItemStruct self.now other.now result }
        ensures equal { IsEqual syntax_of_ItemStruct self.now other.now result }
        ensures prints { PrintsAlike syntax_of_ItemStruct self.now other.now result }
    {
        self.is_same(other)
    }
}

impl Eq for ItemStruct {
    ghost laws = { same_equiv syntax_of_ItemStruct };
}

/// Two are equal exactly where they are once every span is 0 to 0.
impl PartialEq for ItemUnion {
    ghost eq = { same_by syntax_of_ItemUnion };

    ghost laws = { same_per syntax_of_ItemUnion };

    #[tactic(auto, using(syn_lower::proofs::Equality::equals))]
    fn eq(&self, other: &ItemUnion) -> bool
        ensures same { IsSame syntax_of_ItemUnion self.now other.now result }
        ensures equal { IsEqual syntax_of_ItemUnion self.now other.now result }
        ensures prints { PrintsAlike syntax_of_ItemUnion self.now other.now result }
    {
        self.is_same(other)
    }
}

impl Eq for ItemUnion {
    ghost laws = { same_equiv syntax_of_ItemUnion };
}
