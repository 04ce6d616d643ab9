//! Attributes of tokens and of trees that are made by hand.
use crate::tests::asserts::{assert_equality, assert_printed, grouped, tokens_of, tree_of, value};
use std::alloc::Global;
use std::process::Abort;
use syn::data::Field;
use syn::derive::DeriveInput;
use syn::lower::Attribute;
use syn::parse::ParseBuffer;
use syn::token::{Delimiter, TokenStream};
use syn_test_support::{fault, push_group};

/// The outer attributes at the front of a text.
pub fn outer(rt: &impl Abort, alloc: Global, text: &str) -> Vec<Attribute> {
    let tokens = tokens_of(rt, alloc, text);
    value(rt, Attribute::parse_outer(&mut ParseBuffer::new(&tokens)))
}

/// The inner ones.
fn inner(rt: &impl Abort, alloc: Global, text: &str) -> Vec<Attribute> {
    let tokens = tokens_of(rt, alloc, text);
    value(rt, Attribute::parse_inner(&mut ParseBuffer::new(&tokens)))
}

/// All of these, one after the other.
fn joined(rt: &impl Abort, mut first: Vec<Attribute>, second: Vec<Attribute>) -> Vec<Attribute> {
    for attr in second {
        value(rt, first.push(attr));
    }
    first
}

/// `#[a]`, with an empty group after the `a`.
fn with_group(rt: &impl Abort, alloc: Global, delimiter: Delimiter) -> TokenStream {
    let content = grouped(rt, alloc, "a", delimiter, "");
    let mut tokens = tokens_of(rt, alloc, "#");
    value(rt, push_group(&mut tokens, Delimiter::Bracket, content));
    tokens
}

/// The group after an attribute's path has delimiters.
#[test]
fn groups_by_hand(rt: HostRuntime) {
    for delimiter in [Delimiter::Paren, Delimiter::Brace, Delimiter::Bracket] {
        let tokens = with_group(&rt, rt.alloc(), delimiter);
        let attrs = value(&rt, Attribute::parse_outer(&mut ParseBuffer::new(&tokens)));
        assert!(rt; attrs.len() == 1);
    }
    let tokens = with_group(&rt, rt.alloc(), Delimiter::None);
    let answer = Attribute::parse_outer(&mut ParseBuffer::new(&tokens));
    assert!(rt; value(&rt, fault(answer)).text == "unexpected token");
}

/// A struct by hand, with the attributes of two texts.
fn with_attributes(rt: &impl Abort, alloc: Global, before: &str, within: &str) -> DeriveInput {
    let mut item: DeriveInput = tree_of(rt, alloc, "struct S;");
    item.attrs = joined(rt, outer(rt, alloc, before), inner(rt, alloc, within));
    item
}

/// Outer attributes are printed, inner ones are kept.
#[test]
fn by_hand(rt: HostRuntime) {
    let item = with_attributes(&rt, rt.alloc(), "#[a] #[b = c]", "#![d]");
    assert_printed(&rt, rt.alloc(), item, "# [ a ] # [ b = c ] struct S ;");
    for (other, is_equal) in [("#![d]", true), ("", false), ("#![e]", false)] {
        let item = with_attributes(&rt, rt.alloc(), "#[a]", "#![d]");
        let other = with_attributes(&rt, rt.alloc(), "#[a]", other);
        assert_equality(&rt, item, other, is_equal);
    }
}

/// A field by hand, with the attributes of two texts.
fn field_with(rt: &impl Abort, alloc: Global, within: &str, before: &str) -> Field {
    let tokens = tokens_of(rt, alloc, "u8");
    let mut field = value(rt, Field::parse_unnamed(&mut ParseBuffer::new(&tokens)));
    field.attrs = joined(rt, inner(rt, alloc, within), outer(rt, alloc, before));
    field
}

/// A field prints all its attributes, in their order.
#[test]
fn of_a_field_by_hand(rt: HostRuntime) {
    let field = field_with(&rt, rt.alloc(), "#![d]", "#[a] #[b = c]");
    assert_printed(&rt, rt.alloc(), field, "# ! [ d ] # [ a ] # [ b = c ] u8");
    for (other, is_equal) in [("#![d]", true), ("", false), ("#![e]", false)] {
        let field = field_with(&rt, rt.alloc(), "#![d]", "#[a]");
        let other = field_with(&rt, rt.alloc(), other, "#[a]");
        assert_equality(&rt, field, other, is_equal);
    }
}
