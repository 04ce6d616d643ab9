//! Comparisons of generic parameters.
ghost use Rattle.std.specs.Prelude.{◌≡◌};
ghost use Rattle.syn_grammar.specs.Same.{same_bool, same_syntax};
ghost use Rattle.syn_tokens.specs.InOrder.{in_order};
ghost use Rattle.syn_tokens.specs.Kinds.{comma_syntax};
ghost use Rattle.syn_tokens.specs.Listing.{list_of};
ghost use Rattle.syn_lower.specs.Generics.{GtPresent, LtPresent, as_row, clause_of, param_of, present, syntax_of_GenericParam};
ghost use Rattle.syn_lower.specs.Parts.{first};

use crate::{ConstParam, GenericParam, Generics, LifetimeParam, TypeParam, WhereClause};
use syn_tokens::punctuated::Punctuated;
use syn_tokens::syntactic::compare::Compared;
use syn_tokens::token::{Comma, Gt, Lt};

/// A colon and bounds are compared by what they are together.
impl Compared for LifetimeParam {
    #[tactic(auto, using(crate::proofs::Attributes::same_attributes, crate::proofs::GenericsCompared::same_outlived))]
    fn is_same(&self, other: &LifetimeParam) -> bool {
        self.attrs.is_same(&other.attrs)
            && self.lifetime.is_same(&other.lifetime)
            && self.colon_token.is_same(&other.colon_token)
            && self.bounds.is_same(&other.bounds)
    }
}

/// A colon and bounds are compared by what they are together, and so are `=` and a default.
impl Compared for TypeParam {
    #[tactic(auto, using(crate::proofs::Attributes::same_attributes, crate::proofs::GenericsCompared::same_bounds, crate::proofs::GenericsCompared::same_default))]
    fn is_same(&self, other: &TypeParam) -> bool {
        self.attrs.is_same(&other.attrs)
            && self.ident.is_same(&other.ident)
            && self.colon_token.is_same(&other.colon_token)
            && self.bounds.is_same(&other.bounds)
            && self.eq_token.is_same(&other.eq_token)
            && self.default.is_same(&other.default)
    }
}

/// `=` and a default are compared by what they are together.
impl Compared for ConstParam {
    #[tactic(auto, using(crate::proofs::Attributes::same_attributes, crate::proofs::GenericsCompared::same_default))]
    fn is_same(&self, other: &ConstParam) -> bool {
        self.attrs.is_same(&other.attrs)
            && self.const_token.is_same(&other.const_token)
            && self.ident.is_same(&other.ident)
            && self.colon_token.is_same(&other.colon_token)
            && self.ty.is_same(&other.ty)
            && self.eq_token.is_same(&other.eq_token)
            && self.default.is_same(&other.default)
    }
}

/// A type and a constant are distinguished by what follows their attributes.
impl Compared for GenericParam {
    #[tactic(auto, using(syn_grammar::proofs::Same::and_false))]
    fn is_same(&self, other: &GenericParam) -> bool {
        match (self, other) {
            (GenericParam::Lifetime(a), GenericParam::Lifetime(b)) => a.is_same(b),
            (GenericParam::Ty(a), GenericParam::Ty(b)) => a.is_same(b),
            (GenericParam::Const(a), GenericParam::Const(b)) => a.is_same(b),
            (
                GenericParam::Ty(TypeParam { ident: _a, .. }),
                GenericParam::Const(ConstParam { ident: _b, .. }),
            )
            | (
                GenericParam::Const(ConstParam { ident: _a, .. }),
                GenericParam::Ty(TypeParam { ident: _b, .. }),
            ) => false,
            (GenericParam::Lifetime(_), GenericParam::Ty(_) | GenericParam::Const(_)) => false,
            (GenericParam::Ty(_) | GenericParam::Const(_), GenericParam::Lifetime(_)) => false,
        }
    }
}

/// Parameters, and the where clause.
impl Compared for Generics {
    #[tactic(auto, using(crate::proofs::GenericsCompared::same_aside))]
    fn is_same(&self, other: &Generics) -> bool {
        self.has_same_params(other) && self.where_clause.is_same(&other.where_clause)
    }
}

impl Generics {
    /// Whether both have the same parameters, and `<` and `>` where the other has them.
    #[tactic(auto, using(crate::proofs::GenericsCompared::same_parameters))]
    pub fn has_same_params(&self, other: &Generics) -> bool
        ensures { result ≡ same_syntax (first self.now) (first other.now) }
    {
        let lt = both_have_lt(self.lt_token, other.lt_token);
        let gt = both_have_gt(self.gt_token, other.gt_token);
        lt && gt && same_params(&self.params, &other.params)
    }

    /// Whether both have the same where clause.
    pub fn has_same_where(&self, other: &Generics) -> bool
        ensures { result ≡ same_syntax (clause_of self.now) (clause_of other.now) }
    {
        match (&self.where_clause, &other.where_clause) {
            (Some(a), Some(b)) => a.is_same(b),
            (None, None) => true,
            (
                Some(
                    WhereClause {
                        where_token: _a,
                        ..
                    },
                ),
                None,
            )
            | (
                None,
                Some(
                    WhereClause {
                        where_token: _a,
                        ..
                    },
                ),
            ) => false,
        }
    }
}

/// Whether both have a `<`, or neither has one.
fn both_have_lt(lt_token: Option<Lt>, other: Option<Lt>) -> bool
    ensures same { result ≡ same_bool (present lt_token) (present other) }
    ensures one { LtPresent lt_token }
    ensures other { LtPresent other }
{
    match (lt_token, other) {
        (Some(_), Some(_)) | (None, None) => true,
        (Some(_), None) | (None, Some(_)) => false,
    }
}

/// Whether both have a `>`, or neither has one.
fn both_have_gt(gt_token: Option<Gt>, other: Option<Gt>) -> bool
    ensures same { result ≡ same_bool (present gt_token) (present other) }
    ensures one { GtPresent gt_token }
    ensures other { GtPresent other }
{
    match (gt_token, other) {
        (Some(_), Some(_)) | (None, None) => true,
        (Some(_), None) | (None, Some(_)) => false,
    }
}

/// Whether these are the same parameters in turn.
#[tactic(auto, using(crate::proofs::GenericsCompared::same_rows))]
fn same_params(
    params: &Punctuated<GenericParam, Comma>,
    others: &Punctuated<GenericParam, Comma>,
) -> bool
    ensures { result ≡ same_syntax (as_row (list_of syntax_of_GenericParam comma_syntax params.now.pairs params.now.last)) (as_row (list_of syntax_of_GenericParam comma_syntax others.now.pairs others.now.last)) }
{
    if !same_in_order(params.pairs(), others.pairs()) {
        return false;
    }
    match (params.trailing_value(), others.trailing_value()) {
        (Some(a), Some(b)) => a.is_same(b),
        (None, None) => true,
        (Some(_), None) | (None, Some(_)) => false,
    }
}

/// Whether these are as many, and the same in turn.
#[tactic(auto, using(syn_tokens::proofs::Comparisons::unlike_lengths))]
fn same_in_order(params: &[(GenericParam, Comma)], others: &[(GenericParam, Comma)]) -> bool
    ensures { result ≡ same_syntax (in_order param_of params.now) (in_order param_of others.now) }
{
    params.len() == others.len()
        && params
            .iter()
            .zip(others)
            .all(|((a, _), (b, _))| a.is_same(b))
}
