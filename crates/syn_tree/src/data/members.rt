//! What the fields of a struct or variant are called.
ghost use Rattle.std.specs.Prelude.{◌≡◌, ◌<◌, ◌^◌, length};
ghost use Rattle.std.specs.Iterator.{YieldsFirstBy, item_count};
ghost use Rattle.syn_tokens.specs.Comparison.{same_by, same_equiv, same_per};
ghost use Rattle.syn_lower.specs.Equality.{IsSame, IsEqual, PrintsAlike};
ghost use Rattle.syn_tree.specs.Members.{fields_of, member_of, member_value, members_from, syntax_of_MemberRef};

use crate::data::first_token::first_span;
use crate::data::{Field, Fields};
use std::alloc::{AllocError, Global};
use std::marker::Model;
use syn_lower::Index;
use syn_tokens::error;
use syn_tokens::ident::Ident;
use syn_tokens::print::{Print, ToTokens};
use syn_tokens::punctuated::iterators::Iter;
use syn_tokens::stream::builder::StreamBuilder;
use syn_tokens::syntactic::Syntactic;
use syn_tokens::syntactic::compare::Compared;
use syn_tokens::syntactic::try_clone::TryClone;
use syn_tokens::token::Comma;

/// What a field is called: its name, or its place among the fields. A copy lends the same name.
#[derive(Drop)]
pub enum MemberRef<'a> {
    Named(&'a Ident),
    Unnamed(Index),
}

/// What the fields are called, in order.
#[derive(Drop)]
pub struct Members<'a> {
    fields: Iter<'a, Field, Comma>,
    index: u32,
}

impl<'a> Model for Members<'a> {
    ghost use Rattle.std.specs.Prelude.{List, ◌+◌, ◌<◌, ◌^◌, length};
    ghost use Rattle.syn_tree.specs.Members.{MemberValue, member_of, members_from};

    ghost Value = { List MemberValue };

    ghost view = { λ m. members_from m.index m.fields };

    ghost invariant = { λ m. m.index + length m.fields < 2 ^ 32 };
}

impl Fields {
    /// What the fields are called, in order: each its name, or its place among all the fields. There may be at most
    /// 2^32 - 1 fields.
    pub fn members(&self) -> Members<'_>
        requires { length (fields_of self.now) < 2 ^ 32 }
        ensures { result ≡ members_from 0 (fields_of self.now) }
    {
        Members {
            fields: self.iter(),
            index: 0,
        }
    }
}

impl<'a> Iterator for Members<'a> {
    type Item = MemberRef<'a>;

    ghost next_gives = { YieldsFirstBy member_value (λ m. m) };

    ghost remaining = { item_count (λ m. m) };

    fn next(&mut self) -> Option<MemberRef<'a>> {
        let field = self.fields.next()?;
        let index = self.index;
        self.index += 1;
        Some(member(field, index))
    }
}

/// What is left of them.
impl<'a> Clone for Members<'a> {
    ghost is_clone = { λ m copy. copy ≡ m };

    ghost is_infallible = { λ _. Unit {0} };

    fn clone(&self) -> Result<Members<'a>, AllocError> {
        Ok(Members {
            fields: self.fields.clone()?,
            index: self.index,
        })
    }
}

/// What the field at this place is called.
fn member<'a>(field: &'a Field, index: u32) -> MemberRef<'a>
    ensures { member_value result ≡ member_of index field.now }
{
    match &field.ident {
        Some(ident) => MemberRef::Named(ident),
        None => MemberRef::Unnamed(Index {
            index,
            span: first_span(&field.ty),
        }),
    }
}

impl<'a> Syntactic for MemberRef<'a> {
    ghost syntax = { syntax_of_MemberRef };
}

impl<'a> TryClone for MemberRef<'a> {
    fn try_clone(&self, _alloc: Global) -> error::Result<MemberRef<'a>> {
        match self {
            MemberRef::Named(ident) => Ok(MemberRef::Named(*ident)),
            MemberRef::Unnamed(index) => Ok(MemberRef::Unnamed(*index)),
        }
    }
}

/// Two are the same where both are one name, or one place, spans aside.
impl<'a> Compared for MemberRef<'a> {
    fn is_same(&self, other: &MemberRef<'a>) -> bool {
        match (self, other) {
            (MemberRef::Named(a), MemberRef::Named(b)) => a.is_same(*b),
            (MemberRef::Unnamed(a), MemberRef::Unnamed(b)) => a.is_same(b),
            _ => false,
        }
    }
}

/// Two are equal exactly where they are once every span is 0 to 0.
impl<'a> PartialEq for MemberRef<'a> {
    ghost eq = { same_by syntax_of_MemberRef };

    ghost laws = { same_per syntax_of_MemberRef };

    #[tactic(auto, using(syn_lower::proofs::Equality::equals))]
    fn eq(&self, other: &MemberRef<'a>) -> bool
        ensures same { IsSame syntax_of_MemberRef self.now other.now result }
        ensures equal { IsEqual syntax_of_MemberRef self.now other.now result }
        ensures prints { PrintsAlike syntax_of_MemberRef self.now other.now result }
    {
        self.is_same(other)
    }
}

impl<'a> Eq for MemberRef<'a> {
    ghost laws = { same_equiv syntax_of_MemberRef };
}

impl<'a> Print for MemberRef<'a> {
    fn print_in(&self, out: &mut StreamBuilder) -> Result<(), AllocError> {
        match self {
            MemberRef::Named(ident) => ident.print_in(out),
            MemberRef::Unnamed(index) => index.print_in(out),
        }
    }
}

impl<'a> ToTokens for MemberRef<'a> {}
