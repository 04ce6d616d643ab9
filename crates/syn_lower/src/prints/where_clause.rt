//! Written by tools/kinds.py; edits are lost.
//!
//! Prints of `where_clause`.

use crate::{PredicateLifetime, PredicateType, WhereClause, WherePredicate};
use std::alloc::AllocError;
use syn_tokens::print::{Print, ToTokens, print_list};
use syn_tokens::stream::builder::StreamBuilder;

impl ToTokens for WhereClause {}

impl Print for WherePredicate {
    fn print_in(&self, out: &mut StreamBuilder) -> Result<(), AllocError> {
        match self {
            WherePredicate::Lifetime(value) => value.print_in(out),
            WherePredicate::Ty(value) => value.print_in(out),
        }
    }
}

impl ToTokens for WherePredicate {}

impl ToTokens for PredicateLifetime {}

impl Print for PredicateType {
    fn print_in(&self, out: &mut StreamBuilder) -> Result<(), AllocError> {
        self.lifetimes.print_in(out)?;
        self.bounded_ty.print_in(out)?;
        self.colon_token.print_in(out)?;
        print_list(&self.bounds, out)
    }
}

impl ToTokens for PredicateType {}
