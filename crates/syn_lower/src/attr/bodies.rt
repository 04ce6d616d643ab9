//! Prints of the attributes of what has a body: outer ones are before it, and inner ones in its braces.
ghost use Rattle.std.specs.Prelude.{◌≡◌, OnOk};
ghost use Rattle.syn_grammar.specs.Grammar.{print};
ghost use Rattle.syn_tokens.specs.Building.{added};
ghost use Rattle.syn_lower.specs.Bodies.{attributes_before_body, attributes_in_body, inner_part, inner_row};

use super::{AttrStyle, Attribute, print_outer};
use std::alloc::AllocError;
use syn_tokens::print::Print;
use syn_tokens::stream::builder::StreamBuilder;

/// The outer attributes of what has a body, in order.
#[tactic(auto, using(crate::proofs::Bodies::print_before_body))]
pub fn print_before_body(attrs: &Vec<Attribute>, out: &mut StreamBuilder) -> Result<(), AllocError>
    ensures prints { OnOk result (out.new ≡ added out.old (print (attributes_before_body attrs.now.items))) }
    ensures begins { out.new.before ≡ out.old.before }
{
    print_outer(attrs, out)
}

/// The inner attributes of these, in order.
#[tactic(auto, using(crate::proofs::Bodies::print_in_body))]
pub fn print_inner(attrs: &Vec<Attribute>, out: &mut StreamBuilder) -> Result<(), AllocError>
    ensures prints { OnOk result (out.new ≡ added out.old (print (attributes_in_body attrs.now.items))) }
    ensures begins { out.new.before ≡ out.old.before }
{
    print_inner_row(attrs, out)
}

/// The same, where the clause says only in which order.
#[tactic(auto, using(syn_tokens::proofs::Prints::prints, crate::proofs::Bodies::inner_step, crate::proofs::Bodies::inner_done))]
fn print_inner_row(attrs: &Vec<Attribute>, out: &mut StreamBuilder) -> Result<(), AllocError>
    ensures row { OnOk result (out.new ≡ added out.old (inner_row attrs.now.items)) }
    ensures begins { out.new.before ≡ out.old.before }
{
    for attr in attrs {
        print_if_inner(attr, out)?;
    }
    Ok(())
}

/// An attribute, if it is an inner one.
#[tactic(auto, using(syn_tokens::proofs::Prints::prints))]
fn print_if_inner(attr: &Attribute, out: &mut StreamBuilder) -> Result<(), AllocError>
    ensures prints { OnOk result (out.new ≡ added out.old (inner_part attr.now)) }
    ensures begins { out.new.before ≡ out.old.before }
{
    match attr.style {
        AttrStyle::Outer => Ok(()),
        AttrStyle::Inner(_) => attr.print_in(out),
    }
}
