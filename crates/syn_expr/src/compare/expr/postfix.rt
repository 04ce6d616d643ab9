//! Written by tools/kinds.py; edits are lost.
//!
//! Comparisons of `expr/postfix`.

use crate::expr::{Expr, ExprCall, ExprField, ExprIndex, ExprMethodCall, ExprTry};
use crate::nested::compare::{CompareNested, CompareOf, same_exprs};
use syn_tokens::syntactic::compare::Compared;

impl CompareNested<Expr> for ExprCall {
    #[tactic(auto, using(syn_lower::proofs::Attributes::same_attributes, syn_lower::proofs::Smaller::lists))]
    fn is_same_nested<N: CompareOf<Expr>>(&self, nested: &N, other: &ExprCall) -> bool {
        self.attrs.is_same(&other.attrs)
            && nested.is_same_one(&self.func, &other.func)
            && same_exprs(nested, &self.args, &other.args)
    }
}

impl CompareNested<Expr> for ExprField {
    #[tactic(auto, using(syn_lower::proofs::Attributes::same_attributes, crate::proofs::Forms::same_member))]
    fn is_same_nested<N: CompareOf<Expr>>(&self, nested: &N, other: &ExprField) -> bool {
        self.attrs.is_same(&other.attrs)
            && nested.is_same_one(&self.base, &other.base)
            && self.dot_token.is_same(&other.dot_token)
            && self.member.is_same(&other.member)
    }
}

impl CompareNested<Expr> for ExprIndex {
    #[tactic(auto, using(syn_lower::proofs::Attributes::same_attributes))]
    fn is_same_nested<N: CompareOf<Expr>>(&self, nested: &N, other: &ExprIndex) -> bool {
        self.attrs.is_same(&other.attrs)
            && nested.is_same_one(&self.expr, &other.expr)
            && nested.is_same_one(&self.index, &other.index)
    }
}

impl CompareNested<Expr> for ExprMethodCall {
    #[tactic(auto, using(syn_lower::proofs::Attributes::same_attributes, crate::proofs::Forms::same_arguments, crate::proofs::Forms::arguments_smaller, syn_lower::proofs::Smaller::lists))]
    fn is_same_nested<N: CompareOf<Expr>>(&self, nested: &N, other: &ExprMethodCall) -> bool {
        self.attrs.is_same(&other.attrs)
            && nested.is_same_one(&self.receiver, &other.receiver)
            && self.dot_token.is_same(&other.dot_token)
            && self.method.is_same(&other.method)
            && self.turbofish.is_same(&other.turbofish)
            && same_exprs(nested, &self.args, &other.args)
    }
}

impl CompareNested<Expr> for ExprTry {
    #[tactic(auto, using(syn_lower::proofs::Attributes::same_attributes))]
    fn is_same_nested<N: CompareOf<Expr>>(&self, nested: &N, other: &ExprTry) -> bool {
        self.attrs.is_same(&other.attrs)
            && nested.is_same_one(&self.expr, &other.expr)
            && self.question_token.is_same(&other.question_token)
    }
}
