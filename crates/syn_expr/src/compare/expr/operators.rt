//! Written by tools/kinds.py; edits are lost.
//!
//! Comparisons of `expr/operators`.

use crate::expr::{Expr, ExprAssign, ExprBinary, ExprCast, ExprReference, ExprUnary};
use crate::nested::compare::{CompareNested, CompareOf};
use syn_tokens::syntactic::compare::Compared;

impl CompareNested<Expr> for ExprAssign {
    #[tactic(auto, using(syn_lower::proofs::Attributes::same_attributes))]
    fn is_same_nested<N: CompareOf<Expr>>(&self, nested: &N, other: &ExprAssign) -> bool {
        self.attrs.is_same(&other.attrs)
            && nested.is_same_one(&self.left, &other.left)
            && self.eq_token.is_same(&other.eq_token)
            && nested.is_same_one(&self.right, &other.right)
    }
}

impl CompareNested<Expr> for ExprBinary {
    #[tactic(auto, using(syn_lower::proofs::Attributes::same_attributes))]
    fn is_same_nested<N: CompareOf<Expr>>(&self, nested: &N, other: &ExprBinary) -> bool {
        self.attrs.is_same(&other.attrs)
            && nested.is_same_one(&self.left, &other.left)
            && self.op.is_same(&other.op)
            && nested.is_same_one(&self.right, &other.right)
    }
}

impl CompareNested<Expr> for ExprCast {
    #[tactic(auto, using(syn_lower::proofs::Attributes::same_attributes))]
    fn is_same_nested<N: CompareOf<Expr>>(&self, nested: &N, other: &ExprCast) -> bool {
        self.attrs.is_same(&other.attrs)
            && nested.is_same_one(&self.expr, &other.expr)
            && self.as_token.is_same(&other.as_token)
            && self.ty.is_same(&other.ty)
    }
}

impl CompareNested<Expr> for ExprReference {
    #[tactic(auto, using(syn_lower::proofs::Attributes::same_attributes))]
    fn is_same_nested<N: CompareOf<Expr>>(&self, nested: &N, other: &ExprReference) -> bool {
        self.attrs.is_same(&other.attrs)
            && self.and_token.is_same(&other.and_token)
            && self.mutability.is_same(&other.mutability)
            && nested.is_same_one(&self.expr, &other.expr)
    }
}

impl CompareNested<Expr> for ExprUnary {
    #[tactic(auto, using(syn_lower::proofs::Attributes::same_attributes))]
    fn is_same_nested<N: CompareOf<Expr>>(&self, nested: &N, other: &ExprUnary) -> bool {
        self.attrs.is_same(&other.attrs)
            && self.op.is_same(&other.op)
            && nested.is_same_one(&self.expr, &other.expr)
    }
}
