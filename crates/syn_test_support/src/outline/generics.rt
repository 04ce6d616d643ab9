//! Generic parameters, bounds and where clauses.

use super::parts::{node, show_bounds, show_lifetime, show_mark, show_type};
use crate::outline::{Outlined, TreeText};
use syn::lower::{
    BoundLifetimes, ConstParam, GenericParam, Generics, LifetimeParam, TraitBound,
    TraitBoundModifier, TypeParam, TypeParamBound, WhereClause, WherePredicate,
};
use syn::punctuated::Punctuated;
use syn::token::{Lifetime, Plus};

/// Parameters are shown in the order in which the tree holds them.
impl Outlined for Generics {
    fn show(&self, out: &mut TreeText) {
        if let Some(lt_token) = &self.lt_token {
            out.mark("<", lt_token);
        }
        out.list(&self.params);
        if let Some(gt_token) = &self.gt_token {
            out.mark(">", gt_token);
        }
        match &self.where_clause {
            Some(clause) => clause.show(out),
            None => {}
        }
    }
}

impl Outlined for GenericParam {
    fn show(&self, out: &mut TreeText) {
        match self {
            GenericParam::Lifetime(param) => param.show(out),
            GenericParam::Ty(param) => show_type_param(param, out),
            GenericParam::Const(param) => show_const_param(param, out),
        }
    }
}

impl Outlined for LifetimeParam {
    fn show(&self, out: &mut TreeText) {
        node("LifetimeParam", &self.attrs, out);
        show_lifetime(&self.lifetime, out);
        show_mark(":", &self.colon_token, out);
        show_lifetimes(&self.bounds, out);
    }
}

fn show_type_param(param: &TypeParam, out: &mut TreeText) {
    node("TypeParam", &param.attrs, out);
    param.ident.show(out);
    show_mark(":", &param.colon_token, out);
    show_bounds(&param.bounds, out);
    show_mark("=", &param.eq_token, out);
    if let Some(default) = &param.default {
        show_type(default, out);
    }
}

fn show_const_param(param: &ConstParam, out: &mut TreeText) {
    node("ConstParam", &param.attrs, out);
    out.token("const", param.const_token.span);
    param.ident.show(out);
    out.mark(":", &param.colon_token);
    show_type(&param.ty, out);
    show_mark("=", &param.eq_token, out);
    if let Some(default) = &param.default {
        default.show(out);
    }
}

/// Adds lifetimes, each with its `+`.
fn show_lifetimes(lifetimes: &Punctuated<Lifetime, Plus>, out: &mut TreeText) {
    for (lifetime, plus) in lifetimes.pairs() {
        show_lifetime(lifetime, out);
        out.mark("+", plus);
    }
    if let Some(lifetime) = lifetimes.trailing_value() {
        show_lifetime(lifetime, out);
    }
}

impl Outlined for TypeParamBound {
    fn show(&self, out: &mut TreeText) {
        match self {
            TypeParamBound::Trait(bound) => bound.show(out),
            TypeParamBound::Lifetime(lifetime) => {
                out.word("BoundLifetime");
                show_lifetime(lifetime, out);
            }
        }
    }
}

impl Outlined for TraitBound {
    fn show(&self, out: &mut TreeText) {
        out.word("TraitBound");
        if let Some(paren_token) = &self.paren_token {
            out.token("(", paren_token.opening);
        }
        self.modifier.show(out);
        if let Some(lifetimes) = &self.lifetimes {
            lifetimes.show(out);
        }
        self.path.show(out);
        if let Some(paren_token) = &self.paren_token {
            out.token(")", paren_token.closing);
        }
    }
}

impl Outlined for TraitBoundModifier {
    fn show(&self, out: &mut TreeText) {
        match self {
            TraitBoundModifier::None => {}
            TraitBoundModifier::Maybe(question) => out.mark("?", question),
        }
    }
}

impl Outlined for BoundLifetimes {
    fn show(&self, out: &mut TreeText) {
        out.word("BoundLifetimes");
        out.token("for", self.for_token.span);
        out.mark("<", &self.lt_token);
        out.list(&self.lifetimes);
        out.mark(">", &self.gt_token);
    }
}

impl Outlined for WhereClause {
    fn show(&self, out: &mut TreeText) {
        out.token("where", self.where_token.span);
        out.list(&self.predicates);
    }
}

impl Outlined for WherePredicate {
    fn show(&self, out: &mut TreeText) {
        match self {
            WherePredicate::Lifetime(predicate) => {
                out.word("PredicateLifetime");
                show_lifetime(&predicate.lifetime, out);
                out.mark(":", &predicate.colon_token);
                show_lifetimes(&predicate.bounds, out);
            }
            WherePredicate::Ty(predicate) => {
                out.word("PredicateType");
                if let Some(lifetimes) = &predicate.lifetimes {
                    lifetimes.show(out);
                }
                show_type(&predicate.bounded_ty, out);
                out.mark(":", &predicate.colon_token);
                show_bounds(&predicate.bounds, out);
            }
        }
    }
}
