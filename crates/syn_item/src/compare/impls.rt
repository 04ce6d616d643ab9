//! Written by tools/kinds.py; edits are lost.
//!
//! Comparisons of `impls`.
ghost use Rattle.syn_item.specs.Impls.{syntax_of_ItemImpl, syntax_of_ImplItem, syntax_of_ImplItemConst, syntax_of_ImplItemFn, syntax_of_ImplItemType};
ghost use Rattle.syn_lower.specs.Equality.{IsSame, IsEqual, PrintsAlike};
ghost use Rattle.syn_tokens.specs.Comparison.{same_by, same_equiv, same_per};
ghost use Rattle.syn_item.specs.Macros.{syntax_of_ImplItemMacro};

use crate::impls::{ImplItem, ImplItemConst, ImplItemFn, ImplItemMacro, ImplItemType, ItemImpl};
use syn_tokens::syntactic::compare::Compared;

/// Two are equal exactly where they are once every span is 0 to 0.
impl PartialEq for ItemImpl {
    ghost eq = { same_by syntax_of_ItemImpl };

    ghost laws = { same_per syntax_of_ItemImpl };

    #[tactic(auto, using(syn_lower::proofs::Equality::equals))]
    fn eq(&self, other: &ItemImpl) -> bool
        ensures same { IsSame syntax_of_ItemImpl self.now other.now result }
        ensures equal { IsEqual syntax_of_ItemImpl self.now other.now result }
        ensures prints { PrintsAlike syntax_of_ItemImpl self.now other.now result }
    {
        self.is_same(other)
    }
}

impl Eq for ItemImpl {
    ghost laws = { same_equiv syntax_of_ItemImpl };
}

impl Compared for ImplItem {
    #[tactic(auto, using(crate::proofs::SameMembers::same_among_members))]
    fn is_same(&self, other: &ImplItem) -> bool {
        match (self, other) {
            (ImplItem::Const(a), ImplItem::Const(b)) => a.is_same(b),
            (ImplItem::Fn(a), ImplItem::Fn(b)) => a.is_same(b),
            (ImplItem::Ty(a), ImplItem::Ty(b)) => a.is_same(b),
            (ImplItem::Macro(a), ImplItem::Macro(b)) => a.is_same(b),
            (ImplItem::Verbatim(a), ImplItem::Verbatim(b)) => a.is_same(b),
            _ => false,
        }
    }
}

/// Two are equal exactly where they are once every span is 0 to 0.
impl PartialEq for ImplItem {
    ghost eq = { same_by syntax_of_ImplItem };

    ghost laws = { same_per syntax_of_ImplItem };

    #[tactic(auto, using(syn_lower::proofs::Equality::equals))]
    fn eq(&self, other: &ImplItem) -> bool
        ensures same { IsSame syntax_of_ImplItem self.now other.now result }
        ensures equal { IsEqual syntax_of_ImplItem self.now other.now result }
        ensures prints { PrintsAlike syntax_of_ImplItem self.now other.now result }
    {
        self.is_same(other)
    }
}

impl Eq for ImplItem {
    ghost laws = { same_equiv syntax_of_ImplItem };
}

impl Compared for ImplItemConst {
    #[tactic(auto, using(crate::proofs::SameMembers::same_impl_constant))]
    fn is_same(&self, other: &ImplItemConst) -> bool {
        self.attrs.is_same(&other.attrs)
            && self.vis.is_same(&other.vis)
            && self.modifiers.is_same(&other.modifiers)
            && self.const_token.is_same(&other.const_token)
            && self.ident.is_same(&other.ident)
            && self.generics.is_same(&other.generics)
            && self.colon_token.is_same(&other.colon_token)
            && self.ty.is_same(&other.ty)
            && self.eq_token.is_same(&other.eq_token)
            && self.expr.is_same(&other.expr)
            && self.semi_token.is_same(&other.semi_token)
    }
}

/// Two are equal exactly where they are once every span is 0 to 0.
impl PartialEq for ImplItemConst {
    ghost eq = { same_by syntax_of_ImplItemConst };

    ghost laws = { same_per syntax_of_ImplItemConst };

    #[tactic(auto, using(syn_lower::proofs::Equality::equals))]
    fn eq(&self, other: &ImplItemConst) -> bool
        ensures same { IsSame syntax_of_ImplItemConst self.now other.now result }
        ensures equal { IsEqual syntax_of_ImplItemConst self.now other.now result }
        ensures prints { PrintsAlike syntax_of_ImplItemConst self.now other.now result }
    {
        self.is_same(other)
    }
}

impl Eq for ImplItemConst {
    ghost laws = { same_equiv syntax_of_ImplItemConst };
}

impl Compared for ImplItemFn {
    #[tactic(auto, using(syn_lower::proofs::Bodies::same_after_three))]
    fn is_same(&self, other: &ImplItemFn) -> bool {
        self.attrs.is_same(&other.attrs)
            && self.vis.is_same(&other.vis)
            && self.modifiers.is_same(&other.modifiers)
            && self.sig.is_same(&other.sig)
            && self.block.stmts.is_same(&other.block.stmts)
    }
}

/// Two are equal exactly where they are once every span is 0 to 0.
impl PartialEq for ImplItemFn {
    ghost eq = { same_by syntax_of_ImplItemFn };

    ghost laws = { same_per syntax_of_ImplItemFn };

    #[tactic(auto, using(syn_lower::proofs::Equality::equals))]
    fn eq(&self, other: &ImplItemFn) -> bool
        ensures same { IsSame syntax_of_ImplItemFn self.now other.now result }
        ensures equal { IsEqual syntax_of_ImplItemFn self.now other.now result }
        ensures prints { PrintsAlike syntax_of_ImplItemFn self.now other.now result }
    {
        self.is_same(other)
    }
}

impl Eq for ImplItemFn {
    ghost laws = { same_equiv syntax_of_ImplItemFn };
}

impl Compared for ImplItemType {
    #[tactic(auto, using(syn_lower::proofs::Attributes::same_attributes))]
    fn is_same(&self, other: &ImplItemType) -> bool {
        self.attrs.is_same(&other.attrs)
            && self.vis.is_same(&other.vis)
            && self.modifiers.is_same(&other.modifiers)
            && self.type_token.is_same(&other.type_token)
            && self.ident.is_same(&other.ident)
            && self.generics.has_same_params(&other.generics)
            && self.eq_token.is_same(&other.eq_token)
            && self.ty.is_same(&other.ty)
            && self.generics.has_same_where(&other.generics)
            && self.semi_token.is_same(&other.semi_token)
    }
}

/// Two are equal exactly where they are once every span is 0 to 0.
impl PartialEq for ImplItemType {
    ghost eq = { same_by syntax_of_ImplItemType };

    ghost laws = { same_per syntax_of_ImplItemType };

    #[tactic(auto, using(syn_lower::proofs::Equality::equals))]
    fn eq(&self, other: &ImplItemType) -> bool
        ensures same { IsSame syntax_of_ImplItemType self.now other.now result }
        ensures equal { IsEqual syntax_of_ImplItemType self.now other.now result }
        ensures prints { PrintsAlike syntax_of_ImplItemType self.now other.now result }
    {
        self.is_same(other)
    }
}

impl Eq for ImplItemType {
    ghost laws = { same_equiv syntax_of_ImplItemType };
}

impl Compared for ImplItemMacro {
    #[tactic(auto, using(crate::proofs::SameMacros::same_member_macro))]
    fn is_same(&self, other: &ImplItemMacro) -> bool {
        self.attrs.is_same(&other.attrs)
            && self.mac.is_same(&other.mac)
            && self.semi_token.is_same(&other.semi_token)
    }
}

/// Two are equal exactly where they are once every span is 0 to 0.
impl PartialEq for ImplItemMacro {
    ghost eq = { same_by syntax_of_ImplItemMacro };

    ghost laws = { same_per syntax_of_ImplItemMacro };

    #[tactic(auto, using(syn_lower::proofs::Equality::equals))]
    fn eq(&self, other: &ImplItemMacro) -> bool
        ensures same { IsSame syntax_of_ImplItemMacro self.now other.now result }
        ensures equal { IsEqual syntax_of_ImplItemMacro self.now other.now result }
        ensures prints { PrintsAlike syntax_of_ImplItemMacro self.now other.now result }
    {
        self.is_same(other)
    }
}

impl Eq for ImplItemMacro {
    ghost laws = { same_equiv syntax_of_ImplItemMacro };
}
