//! The kinds of rows by their words: here types without a rule of their own, and calls; all other types are in `by_kind`.

use crate::answer::answer;
use crate::by_kind::tree_as;
use crate::call::{
    EitherSafety, ForeignSignature, InnerAttributes, ModStyle, NamedField, OpenedBlock,
    OpenedConstant, OpenedItem, OpenedLength, OpenedRest, OuterAttributes, ReceiverOf, Rest,
    TypedPattern, UnnamedField, UnsafeAlone, WithinBlock,
};
use crate::called::called;
use crate::conversions::converted_as;
use crate::failure::Failure;
use crate::fields::fields_as;
use crate::forms_by_kind::form_as;
use crate::modifiers::faults_as;
use crate::parts::parts_as;
use crate::question::{Heading, Question, TreeQuestion};
use crate::row::Row;
use std::alloc::Global;
use syn::deferred::{DeferredBlock, DeferredConstant, DeferredItem};
use syn::lower::{BoundLifetimes, GenericParam, TraitBound, TraitBoundModifier, WhereClause};

/// The result of the row as the kind of this word of the heading.
pub(crate) fn answer_as(
    alloc: Global,
    heading: &Heading<'_>,
    word: &str,
    row: &Row<'_>,
) -> Result<String, Failure> {
    match heading.question {
        Question::OfTree(question) => tree_as(alloc, question, heading, word, row),
        Question::OfForm(question) => form_as(alloc, question, heading, word, row),
        Question::Parts => parts_as(alloc, heading, word, row.text),
        Question::Fields => fields_as(alloc, heading, word, row.text),
        Question::Faults => faults_as(alloc, heading, word, row.text),
    }
}

/// Parts of trees without a rule of their own; else the result of `call_as`.
pub(crate) fn other_tree(
    alloc: Global,
    question: TreeQuestion,
    heading: &Heading<'_>,
    word: &str,
    row: &Row<'_>,
) -> Result<String, Failure> {
    match word {
        "GenericParam" => answer::<GenericParam>(alloc, question, row),
        "TraitBound" => answer::<TraitBound>(alloc, question, row),
        "TraitBoundModifier" => answer::<TraitBoundModifier>(alloc, question, row),
        "BoundLifetimes" => answer::<BoundLifetimes>(alloc, question, row),
        "Option<WhereClause>" => answer::<Option<WhereClause>>(alloc, question, row),
        "DeferredBlock" => answer::<DeferredBlock>(alloc, question, row),
        "DeferredItem" => answer::<DeferredItem>(alloc, question, row),
        "Deferred<Constant>" => answer::<DeferredConstant>(alloc, question, row),
        _ => call_as(alloc, question, heading, word, row),
    }
}

/// Calls that read a tree; else the result of `opened_as`.
fn call_as(
    alloc: Global,
    question: TreeQuestion,
    heading: &Heading<'_>,
    word: &str,
    row: &Row<'_>,
) -> Result<String, Failure> {
    match word {
        "typed_pattern" => called::<TypedPattern>(alloc, question, row),
        "Block::parse_within" => called::<WithinBlock>(alloc, question, row),
        "Field::parse_named" => called::<NamedField>(alloc, question, row),
        "Field::parse_unnamed" => called::<UnnamedField>(alloc, question, row),
        "Path::parse_mod_style" => called::<ModStyle>(alloc, question, row),
        "Attribute::parse_outer" => called::<OuterAttributes>(alloc, question, row),
        "Attribute::parse_inner" => called::<InnerAttributes>(alloc, question, row),
        "foreign_signature" => called::<ForeignSignature>(alloc, question, row),
        "Signature::receiver" => called::<ReceiverOf>(alloc, question, row),
        "Safety::parse_safe_or_unsafe" => called::<EitherSafety>(alloc, question, row),
        "Safety::parse_unsafe_only" => called::<UnsafeAlone>(alloc, question, row),
        _ => opened_as(alloc, question, heading, word, row),
    }
}

/// Deferred trees that calls read, and what they are once opened; else the result of `converted_as`.
fn opened_as(
    alloc: Global,
    question: TreeQuestion,
    heading: &Heading<'_>,
    word: &str,
    row: &Row<'_>,
) -> Result<String, Failure> {
    match word {
        "Deferred<Constant>::open" => called::<OpenedConstant>(alloc, question, row),
        "Deferred<Expr>::open" => called::<OpenedRest>(alloc, question, row),
        "Deferred<Item>::open" => called::<OpenedItem>(alloc, question, row),
        "DeferredBlock::open" => called::<OpenedBlock>(alloc, question, row),
        "TypeArray::len" => called::<OpenedLength>(alloc, question, row),
        "read_deferred_rest" => called::<Rest>(alloc, question, row),
        _ => converted_as(alloc, question, heading, word, row),
    }
}
