//! What is said where there are to be no modifiers.

use crate::answer::reported;
use crate::failure::Failure;
use crate::question::Heading;
use std::alloc::{AllocError, Global};
use std::fmt::Write as _;
use syn::item::{ItemConst, ItemFn, ItemImpl, ItemTrait, ItemType};
use syn::parse::Parse;
use syn::{Error, Result};
use syn_test_support::parsed;

/// The faults of the modifiers of the tree that the text is as the kind of this word, which stands in the heading.
pub(crate) fn faults_as(
    alloc: Global,
    heading: &Heading<'_>,
    word: &str,
    text: &str,
) -> std::result::Result<String, Failure> {
    match word {
        "ItemConst" => reported(alloc, faults_of::<ItemConst>(alloc, text)),
        "ItemFn" => reported(alloc, faults_of::<ItemFn>(alloc, text)),
        "ItemImpl" => reported(alloc, faults_of::<ItemImpl>(alloc, text)),
        "ItemTrait" => reported(alloc, faults_of::<ItemTrait>(alloc, text)),
        "ItemType" => reported(alloc, faults_of::<ItemType>(alloc, text)),
        _ => Err(Failure::Malformed(heading.line, "no modifiers of this kind")),
    }
}

/// A tree that has modifiers.
trait Modified: Parse + Drop {
    /// Refused where there is one.
    fn require_empty(&self) -> Result<()>;
}

impl Modified for ItemConst {
    fn require_empty(&self) -> Result<()> {
        self.modifiers.require_empty()
    }
}

impl Modified for ItemFn {
    fn require_empty(&self) -> Result<()> {
        self.modifiers.require_empty()
    }
}

impl Modified for ItemImpl {
    fn require_empty(&self) -> Result<()> {
        self.modifiers.require_empty()
    }
}

impl Modified for ItemTrait {
    fn require_empty(&self) -> Result<()> {
        self.modifiers.require_empty()
    }
}

impl Modified for ItemType {
    fn require_empty(&self) -> Result<()> {
        self.modifiers.require_empty()
    }
}

/// The faults of the modifiers of the tree that the text is.
fn faults_of<T: Modified>(alloc: Global, text: &str) -> Result<String> {
    let tree: T = parsed(alloc, text)?;
    match tree.require_empty() {
        Ok(()) => Ok(String::from_str(alloc, "none")?),
        Err(error) => Ok(all_known(alloc, &error)?),
    }
}

/// Each fault in its order: its first byte and its words, and `, ` before the next.
fn all_known(alloc: Global, error: &Error) -> std::result::Result<String, AllocError> {
    let mut text = String::new(alloc);
    for fault in error.faults() {
        if !text.is_empty() {
            text.push_str(", ")?;
        }
        write!(text, "{}: {}", fault.span.start, fault.text)?;
    }
    Ok(text)
}
