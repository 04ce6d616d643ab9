//! Struct literals.

use crate::Expr;
use crate::nested::compare::{CompareNested, CompareOf, same_fields, same_maybe, same_value};
use crate::nested::copy::{CopyNested, CopyOf, copied, copy_fields, copy_maybe, copy_value};
use crate::nested::print::{PrintNested, PrintOf, print_fields, print_maybe, print_value};
use std::alloc::{AllocError, Global};
use syn_lower::attr::print_outer;
use syn_lower::{Attribute, Member, Path, QSelf};
use syn_pat::paths::{print_path, same_path};
use syn_tokens::print::Print;
use syn_tokens::punctuated::Punctuated;
use syn_tokens::stream::builder::StreamBuilder;
use syn_tokens::syntactic::compare::Compared;
use syn_tokens::token::{Brace, Colon, Comma, DotDot};

/// A struct literal: a path, perhaps with a type in `< >` before it, and in braces fields, and perhaps `..` and an expression.
#[cycle(expressions)]
#[derive(Drop)]
pub struct ExprStruct {
    pub attrs: Vec<Attribute>,
    pub qself: Option<QSelf>,
    pub path: Path,
    pub brace_token: Brace,
    pub fields: Punctuated<FieldValue, Comma>,
    pub dot2_token: Option<DotDot>,
    pub rest: Option<Box<Expr>>,
}

/// A field of a struct literal, with its value. A name alone represents the variable of that name: `expr` is its path. Without a colon the
/// member is printed alone, whatever `expr` is.
#[cycle(expressions)]
#[derive(Drop)]
pub struct FieldValue {
    pub attrs: Vec<Attribute>,
    pub member: Member,
    pub colon_token: Option<Colon>,
    pub expr: Expr,
}

impl PrintNested<Expr> for ExprStruct {
    #[tactic(auto, using(syn_tokens::proofs::Prints::groups, syn_lower::proofs::Smaller::lists))]
    fn print_nested<N: PrintOf<Expr>>(
        &self,
        nested: &N,
        out: &mut StreamBuilder,
    ) -> Result<(), AllocError> {
        print_outer(&self.attrs, out)?;
        print_path(&self.qself, &self.path, out)?;
        self.brace_token.open(out)?;
        print_fields(nested, &self.fields, out)?;
        self.dot2_token.print_in(out)?;
        print_maybe(nested, &self.rest, out)?;
        self.brace_token.close(out)
    }
}

impl CompareNested<Expr> for ExprStruct {
    #[tactic(auto, using(syn_lower::proofs::Attributes::same_attributes, syn_lower::proofs::Smaller::lists))]
    fn is_same_nested<N: CompareOf<Expr>>(&self, nested: &N, other: &ExprStruct) -> bool {
        self.attrs.is_same(&other.attrs)
            && same_path(&self.qself, &self.path, &other.qself, &other.path)
            && same_fields(nested, &self.fields, &other.fields)
            && self.dot2_token.is_same(&other.dot2_token)
            && same_maybe(nested, &self.rest, &other.rest)
    }
}

impl CopyNested<Expr> for ExprStruct {
    #[tactic(auto, using(syn_lower::proofs::Smaller::lists))]
    fn copy_nested<N: CopyOf<Expr>>(
        &self,
        nested: &N,
        alloc: Global,
    ) -> Result<ExprStruct, AllocError> {
        Ok(ExprStruct {
            attrs: copied(&self.attrs, alloc)?,
            qself: copied(&self.qself, alloc)?,
            path: copied(&self.path, alloc)?,
            brace_token: self.brace_token,
            fields: copy_fields(nested, &self.fields, alloc)?,
            dot2_token: self.dot2_token,
            rest: copy_maybe(nested, &self.rest, alloc)?,
        })
    }
}

impl PrintNested<Expr> for FieldValue {
    #[tactic(auto, using(syn_tokens::proofs::Prints::prints, crate::proofs::Fields::print_field, crate::proofs::Fields::shown_smaller))]
    fn print_nested<N: PrintOf<Expr>>(
        &self,
        nested: &N,
        out: &mut StreamBuilder,
    ) -> Result<(), AllocError> {
        print_outer(&self.attrs, out)?;
        self.member.print_in(out)?;
        print_value(nested, &self.colon_token, &self.expr, out)
    }
}

impl CompareNested<Expr> for FieldValue {
    #[tactic(auto, using(syn_lower::proofs::Attributes::same_attributes, crate::proofs::Fields::same_field, crate::proofs::Fields::value_smaller))]
    fn is_same_nested<N: CompareOf<Expr>>(&self, nested: &N, other: &FieldValue) -> bool {
        self.attrs.is_same(&other.attrs)
            && self.member.is_same(&other.member)
            && self.colon_token.is_same(&other.colon_token)
            && same_value(nested, &self.expr, &other.expr)
    }
}

impl CopyNested<Expr> for FieldValue {
    #[tactic(auto, using(crate::proofs::Fields::value_smaller))]
    fn copy_nested<N: CopyOf<Expr>>(
        &self,
        nested: &N,
        alloc: Global,
    ) -> Result<FieldValue, AllocError> {
        Ok(FieldValue {
            attrs: copied(&self.attrs, alloc)?,
            member: copied(&self.member, alloc)?,
            colon_token: self.colon_token,
            expr: copy_value(nested, &self.expr, alloc)?,
        })
    }
}

// Written by tools/kinds.py from here to the end; edits are lost.

impl std::marker::Model for ExprStruct {
    ghost use Rattle.syn_grammar.specs.Grammar.{Syntax};
    ghost use Rattle.syn_grammar.specs.TreeCodes.{syntax_code};

    ghost Value = { Syntax };

    ghost coded = { syntax_code };

    ghost use Rattle.syn_expr.specs.Expressions.{view_ExprStruct};

    ghost view = { view_ExprStruct };

    ghost use Rattle.syn_lower.specs.Sizes.{tree_size};

    ghost size = { tree_size };

    ghost use Rattle.syn_expr.specs.Falls.{falls_ExprStruct};

    ghost size_decreases = { λ a h. falls_ExprStruct a };
}

impl std::marker::Model for FieldValue {
    ghost use Rattle.syn_grammar.specs.Grammar.{Syntax};
    ghost use Rattle.syn_grammar.specs.TreeCodes.{syntax_code};

    ghost Value = { Syntax };

    ghost coded = { syntax_code };

    ghost use Rattle.syn_expr.specs.Expressions.{view_FieldValue};

    ghost view = { view_FieldValue };

    ghost use Rattle.syn_lower.specs.Sizes.{tree_size};

    ghost size = { tree_size };

    ghost use Rattle.syn_expr.specs.Falls.{falls_FieldValue};

    ghost size_decreases = { λ a h. falls_FieldValue a };
}

impl syn_tokens::syntactic::Syntactic for ExprStruct {
    ghost use Rattle.syn_grammar.specs.Promises.{itself};

    ghost syntax = { itself };
}

impl syn_tokens::syntactic::Syntactic for FieldValue {
    ghost use Rattle.syn_grammar.specs.Promises.{itself};

    ghost syntax = { itself };
}
