//! Written by tools/kinds.py; edits are lost.
//!
//! Comparisons of `item`.
ghost use Rattle.syn_item.specs.Items.{syntax_of_Item};
ghost use Rattle.syn_lower.specs.Equality.{IsSame, IsEqual, PrintsAlike};
ghost use Rattle.syn_tokens.specs.Comparison.{same_by, same_equiv, same_per};

use crate::item::Item;
use syn_tokens::syntactic::compare::Compared;

impl Compared for Item {
    #[tactic(auto, using(crate::proofs::SameMembers::same_among_items))]
    fn is_same(&self, other: &Item) -> bool {
        match (self, other) {
            (Item::Const(a), Item::Const(b)) => a.is_same(b),
            (Item::Enum(a), Item::Enum(b)) => a.is_same(b),
            (Item::ExternCrate(a), Item::ExternCrate(b)) => a.is_same(b),
            (Item::Fn(a), Item::Fn(b)) => a.is_same(b),
            (Item::ForeignMod(a), Item::ForeignMod(b)) => a.is_same(b),
            (Item::Impl(a), Item::Impl(b)) => a.is_same(b),
            (Item::Macro(a), Item::Macro(b)) => a.is_same(b),
            (Item::Mod(a), Item::Mod(b)) => a.is_same(b),
            (Item::Static(a), Item::Static(b)) => a.is_same(b),
            (Item::Struct(a), Item::Struct(b)) => a.is_same(b),
            (Item::Trait(a), Item::Trait(b)) => a.is_same(b),
            (Item::TraitAlias(a), Item::TraitAlias(b)) => a.is_same(b),
            (Item::Ty(a), Item::Ty(b)) => a.is_same(b),
            (Item::Union(a), Item::Union(b)) => a.is_same(b),
            (Item::Use(a), Item::Use(b)) => a.is_same(b),
            (Item::Verbatim(a), Item::Verbatim(b)) => a.is_same(b),
            _ => false,
        }
    }
}

/// Two are equal exactly where they are once every span is 0 to 0.
impl PartialEq for Item {
    ghost eq = { same_by syntax_of_Item };

    ghost laws = { same_per syntax_of_Item };

    #[tactic(auto, using(syn_lower::proofs::Equality::equals))]
    fn eq(&self, other: &Item) -> bool
        ensures same { IsSame syntax_of_Item self.now other.now result }
        ensures equal { IsEqual syntax_of_Item self.now other.now result }
        ensures prints { PrintsAlike syntax_of_Item self.now other.now result }
    {
        self.is_same(other)
    }
}

impl Eq for Item {
    ghost laws = { same_equiv syntax_of_Item };
}
