//! Prints of what many items have: pairs, bodies and members.
#![tactic(auto, using(syn_tokens::proofs::Prints::prints))]

ghost use Rattle.std.specs.Prelude.{◌≡◌, OnOk};
ghost use Rattle.syn_grammar.specs.Grammar.{Both, print};
ghost use Rattle.syn_grammar.specs.Tokens as grammar;
ghost use Rattle.syn_tokens.specs.Building.{added};
ghost use Rattle.syn_tokens.specs.InOrder.{pair_of};
ghost use Rattle.syn_tokens.specs.Kinds.{colon_syntax, eq_syntax, plus_syntax, semi_syntax};
ghost use Rattle.syn_tokens.specs.Leaves.{maybe};
ghost use Rattle.syn_tokens.specs.Listing.{list_of};
ghost use Rattle.syn_lower.specs.Bodies.{attributes_in_body, body};
ghost use Rattle.syn_lower.specs.Bounds.{syntax_of_TypeParamBound};
ghost use Rattle.syn_lower.specs.Generics.{clause_of};
ghost use Rattle.syn_lower.specs.Parts.{group_syntax};
ghost use Rattle.syn_lower.specs.Types.{syntax_of_Type};
ghost use Rattle.syn_item.specs.Parts.{members_of, members_row};

use std::alloc::AllocError;
use syn_lower::attr::print_inner;
use syn_lower::{Attribute, Generics, Type, TypeParamBound};
use syn_recognize::deferred::{DeferredBlock, DeferredExpr};
use syn_tokens::print::{Print, print_list};
use syn_tokens::punctuated::Punctuated;
use syn_tokens::stream::builder::StreamBuilder;
use syn_tokens::token::{Brace, Colon, Eq, Plus, Semi};

/// A word or a mark with what belongs to it, or nothing.
pub fn print_pair<A: Print, B: Print>(
    pair: &Option<(A, B)>,
    out: &mut StreamBuilder,
) -> Result<(), AllocError>
    ensures prints { OnOk result (out.new ≡ added out.old (print (maybe (pair_of A.syntax B.syntax) pair.now))) }
    ensures begins { out.new.before ≡ out.old.before }
{
    match pair {
        Some((first, second)) => {
            first.print_in(out)?;
            second.print_in(out)
        }
        None => Ok(()),
    }
}

/// `:`, a type, `=`, an expression and `;`.
pub fn print_typed_value(
    colon_token: &Colon,
    ty: &Type,
    eq_token: &Eq,
    expr: &DeferredExpr,
    semi_token: &Semi,
    out: &mut StreamBuilder,
) -> Result<(), AllocError>
    ensures prints { OnOk result (out.new ≡ added out.old (print (Both (colon_syntax colon_token.now) (Both (syntax_of_Type ty.now) (Both (eq_syntax eq_token.now) (Both expr.now (semi_syntax semi_token.now))))))) }
    ensures begins { out.new.before ≡ out.old.before }
{
    colon_token.print_in(out)?;
    ty.print_in(out)?;
    eq_token.print_in(out)?;
    expr.print_in(out)?;
    semi_token.print_in(out)
}

/// A where clause, if there is one, and `;`.
pub fn print_clause_end(
    generics: &Generics,
    semi_token: &Semi,
    out: &mut StreamBuilder,
) -> Result<(), AllocError>
    ensures prints { OnOk result (out.new ≡ added out.old (print (Both (clause_of generics.now) (semi_syntax semi_token.now)))) }
    ensures begins { out.new.before ≡ out.old.before }
{
    generics.print_where(out)?;
    semi_token.print_in(out)
}

/// `=`, bounds, a where clause and `;`.
pub fn print_bounds_end(
    eq_token: &Eq,
    bounds: &Punctuated<TypeParamBound, Plus>,
    generics: &Generics,
    semi_token: &Semi,
    out: &mut StreamBuilder,
) -> Result<(), AllocError>
    ensures prints { OnOk result (out.new ≡ added out.old (print (Both (eq_syntax eq_token.now) (Both (list_of syntax_of_TypeParamBound plus_syntax bounds.now.pairs bounds.now.last) (Both (clause_of generics.now) (semi_syntax semi_token.now)))))) }
    ensures begins { out.new.before ≡ out.old.before }
{
    eq_token.print_in(out)?;
    print_list(bounds, out)?;
    print_clause_end(generics, semi_token, out)
}

/// A body, with the inner ones of these attributes in its braces.
#[tactic(auto, using(syn_tokens::proofs::Prints::groups))]
pub fn print_body(
    attrs: &Vec<Attribute>,
    block: &DeferredBlock,
    out: &mut StreamBuilder,
) -> Result<(), AllocError>
    ensures prints { OnOk result (out.new ≡ added out.old (print (body attrs.now.items block.now))) }
    ensures begins { out.new.before ≡ out.old.before }
{
    block.brace_token.open(out)?;
    print_inner(attrs, out)?;
    block.stmts.print_in(out)?;
    block.brace_token.close(out)
}

/// Members in braces, after the inner ones of these attributes.
#[tactic(auto, using(syn_tokens::proofs::Prints::groups))]
pub fn print_braced<T: Print>(
    brace_token: &Brace,
    attrs: &Vec<Attribute>,
    members: &Vec<T>,
    out: &mut StreamBuilder,
) -> Result<(), AllocError>
    ensures prints { OnOk result (out.new ≡ added out.old (print (group_syntax grammar.Brace brace_token.now (Both (attributes_in_body attrs.now.items) (members_of T.syntax members.now.items))))) }
    ensures begins { out.new.before ≡ out.old.before }
{
    brace_token.open(out)?;
    print_inner(attrs, out)?;
    print_members(members, out)?;
    brace_token.close(out)
}

/// Members, one after the other.
#[tactic(auto, using(crate::proofs::Members::print_members))]
pub fn print_members<T: Print>(members: &Vec<T>, out: &mut StreamBuilder) -> Result<(), AllocError>
    ensures prints { OnOk result (out.new ≡ added out.old (print (members_of T.syntax members.now.items))) }
    ensures begins { out.new.before ≡ out.old.before }
{
    print_row(members, out)
}

/// The same, where the clause says only in which order.
#[tactic(auto, using(syn_tokens::proofs::Prints::prints, crate::proofs::Members::row_step, crate::proofs::Members::row_done))]
fn print_row<T: Print>(members: &Vec<T>, out: &mut StreamBuilder) -> Result<(), AllocError>
    ensures row { OnOk result (out.new ≡ added out.old (members_row T.syntax members.now.items)) }
    ensures begins { out.new.before ≡ out.old.before }
{
    for member in members {
        member.print_in(out)?;
    }
    Ok(())
}
