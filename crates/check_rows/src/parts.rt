//! What trees are made of.

use crate::answer::reported;
use crate::failure::Failure;
use crate::question::Heading;
use crate::types::type_known;
use std::alloc::{AllocError, Global};
use std::fmt::Write as _;
use syn::Result;
use syn::data::FieldsUnnamed;
use syn::lower::{ConstParam, GenericParam, LifetimeParam, Type, TypeParam};
use syn::parse::Parse;
use syn_test_support::parsed;

/// What the tree of the text is made of, as the kind of this word, which stands in the heading.
pub(crate) fn parts_as(
    alloc: Global,
    heading: &Heading<'_>,
    word: &str,
    text: &str,
) -> std::result::Result<String, Failure> {
    match word {
        "Type" => reported(alloc, parts_of::<Type>(alloc, text)),
        "GenericParam" => reported(alloc, parts_of::<GenericParam>(alloc, text)),
        "FieldsUnnamed" => reported(alloc, parts_of::<FieldsUnnamed>(alloc, text)),
        _ => Err(Failure::Malformed(heading.line, "no parts of this kind")),
    }
}

/// A tree whose parts can be told.
trait Parts: Parse + Drop {
    fn parts(&self, alloc: Global) -> Result<String>;
}

/// The parts of the tree that the text is.
fn parts_of<T: Parts>(alloc: Global, text: &str) -> Result<String> {
    let tree: T = parsed(alloc, text)?;
    tree.parts(alloc)
}

impl Parts for Type {
    fn parts(&self, alloc: Global) -> Result<String> {
        type_known(alloc, self)
    }
}

impl Parts for GenericParam {
    fn parts(&self, alloc: Global) -> Result<String> {
        Ok(param_known(alloc, self)?)
    }
}

/// How many fields there are, and the comma behind the last.
impl Parts for FieldsUnnamed {
    fn parts(&self, alloc: Global) -> Result<String> {
        let comma = if self.unnamed.trailing_punct() {
            " ,"
        } else {
            ""
        };
        Ok(format!(in alloc; "{}{comma}", self.unnamed.len())?)
    }
}

/// What a parameter is, and its signs and bounds and default, as far as it has them.
fn param_known(alloc: Global, param: &GenericParam) -> std::result::Result<String, AllocError> {
    let mut text = String::new(alloc);
    match param {
        GenericParam::Lifetime(param) => add_lifetime_param(&mut text, param)?,
        GenericParam::Ty(param) => add_type_param(&mut text, param)?,
        GenericParam::Const(param) => add_const_param(&mut text, param)?,
    }
    Ok(text)
}

fn add_lifetime_param(
    text: &mut String,
    param: &LifetimeParam,
) -> std::result::Result<(), AllocError> {
    text.push_str("lifetime")?;
    add_bounds(text, param.colon_token.is_some(), param.bounds.len())
}

fn add_type_param(text: &mut String, param: &TypeParam) -> std::result::Result<(), AllocError> {
    text.push_str("type")?;
    add_bounds(text, param.colon_token.is_some(), param.bounds.len())?;
    add_default(text, param.eq_token.is_some(), param.default.is_some())
}

fn add_const_param(text: &mut String, param: &ConstParam) -> std::result::Result<(), AllocError> {
    text.push_str("const")?;
    add_default(text, param.eq_token.is_some(), param.default.is_some())
}

/// Adds the colon that is there, and the number of bounds.
fn add_bounds(
    text: &mut String,
    has_colon: bool,
    number: usize,
) -> std::result::Result<(), AllocError> {
    if has_colon {
        text.push_str(" :")?;
    }
    write!(text, " {number}")
}

/// Adds the `=` and the default that are there.
fn add_default(
    text: &mut String,
    has_sign: bool,
    has_default: bool,
) -> std::result::Result<(), AllocError> {
    if has_sign {
        text.push_str(" =")?;
    }
    if has_default {
        text.push_str(" default")?;
    }
    Ok(())
}
