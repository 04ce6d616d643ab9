//! Written by tools/kinds.py; edits are lost.
//!
//! Comparisons of `expr/groups`.

use crate::expr::{Expr, ExprArray, ExprGroup, ExprParen, ExprRepeat};
use crate::nested::compare::{CompareNested, CompareOf, same_exprs};
use syn_tokens::syntactic::compare::Compared;

impl CompareNested<Expr> for ExprArray {
    #[tactic(auto, using(syn_lower::proofs::Attributes::same_attributes, crate::proofs::Lists::same_array, crate::proofs::Lists::in_array, syn_lower::proofs::Smaller::lists))]
    fn is_same_nested<N: CompareOf<Expr>>(&self, nested: &N, other: &ExprArray) -> bool {
        self.attrs.is_same(&other.attrs) && same_exprs(nested, &self.elems, &other.elems)
    }
}

impl CompareNested<Expr> for ExprGroup {
    #[tactic(auto, using(syn_lower::proofs::Attributes::same_attributes))]
    fn is_same_nested<N: CompareOf<Expr>>(&self, nested: &N, other: &ExprGroup) -> bool {
        self.attrs.is_same(&other.attrs) && nested.is_same_one(&self.expr, &other.expr)
    }
}

impl CompareNested<Expr> for ExprParen {
    #[tactic(auto, using(syn_lower::proofs::Attributes::same_attributes, syn_grammar::proofs::Same::and_true))]
    fn is_same_nested<N: CompareOf<Expr>>(&self, nested: &N, other: &ExprParen) -> bool {
        self.attrs.is_same(&other.attrs) && nested.is_same_one(&self.expr, &other.expr)
    }
}

impl CompareNested<Expr> for ExprRepeat {
    #[tactic(auto, using(syn_lower::proofs::Attributes::same_attributes))]
    fn is_same_nested<N: CompareOf<Expr>>(&self, nested: &N, other: &ExprRepeat) -> bool {
        self.attrs.is_same(&other.attrs)
            && nested.is_same_one(&self.expr, &other.expr)
            && self.semi_token.is_same(&other.semi_token)
            && nested.is_same_one(&self.len, &other.len)
    }
}
