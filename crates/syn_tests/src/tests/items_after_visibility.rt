//! Structs, enums and unions whose attributes and visibility were read before.
use crate::tests::asserts::{assert_equality, tokens_of, tree_of, value};
use std::process::Abort;
use syn::item::{ItemEnum, ItemStruct, ItemUnion};
use syn::parse::ParseBuffer;
use syn::{Attribute, Visibility};
use syn_lower::attr::outer_attributes;
use syn_tree::item::{enum_after_visibility, struct_after_visibility, union_after_visibility};

/// The attributes and the visibility before an item.
fn before(rt: &impl Abort, input: &mut ParseBuffer<'_>) -> (Vec<Attribute>, Visibility) {
    let attrs = value(rt, outer_attributes(input));
    let vis = value(rt, input.read::<Visibility>());
    (attrs, vis)
}

/// A struct is what it is as a whole, to its last token; where a word is missing it is refused.
#[test]
fn structs_after_visibility(rt: HostRuntime) {
    let alloc = rt.alloc();
    for text in [
        "#[a] pub struct S<T>(T);",
        "struct S { a: b }",
        "pub(crate) struct S;",
    ] {
        let tokens = tokens_of(&rt, alloc, text);
        let mut input = ParseBuffer::new(&tokens);
        let (attrs, vis) = before(&rt, &mut input);
        let item = value(&rt, struct_after_visibility(attrs, vis, &mut input));
        assert!(rt; input.is_empty());
        let whole: ItemStruct = tree_of(&rt, alloc, text);
        assert_equality(&rt, item, whole, true);
    }
    let tokens = tokens_of(&rt, alloc, "pub enum S {}");
    let mut input = ParseBuffer::new(&tokens);
    let (attrs, vis) = before(&rt, &mut input);
    assert!(rt; struct_after_visibility(attrs, vis, &mut input).is_err());
}

/// The same of enums.
#[test]
fn enums_after_visibility(rt: HostRuntime) {
    let alloc = rt.alloc();
    for text in ["#[a] pub enum E<T> where T: A { B(T), C = 1 }", "enum E {}"] {
        let tokens = tokens_of(&rt, alloc, text);
        let mut input = ParseBuffer::new(&tokens);
        let (attrs, vis) = before(&rt, &mut input);
        let item = value(&rt, enum_after_visibility(attrs, vis, &mut input));
        assert!(rt; input.is_empty());
        let whole: ItemEnum = tree_of(&rt, alloc, text);
        assert_equality(&rt, item, whole, true);
    }
    let tokens = tokens_of(&rt, alloc, "pub union U {}");
    let mut input = ParseBuffer::new(&tokens);
    let (attrs, vis) = before(&rt, &mut input);
    assert!(rt; enum_after_visibility(attrs, vis, &mut input).is_err());
}

/// The same of unions.
#[test]
fn unions_after_visibility(rt: HostRuntime) {
    let alloc = rt.alloc();
    for text in ["#[a] pub union U<T> { a: T }", "union U { a: b, c: d }"] {
        let tokens = tokens_of(&rt, alloc, text);
        let mut input = ParseBuffer::new(&tokens);
        let (attrs, vis) = before(&rt, &mut input);
        let item = value(&rt, union_after_visibility(attrs, vis, &mut input));
        assert!(rt; input.is_empty());
        let whole: ItemUnion = tree_of(&rt, alloc, text);
        assert_equality(&rt, item, whole, true);
    }
    let tokens = tokens_of(&rt, alloc, "pub struct U {}");
    let mut input = ParseBuffer::new(&tokens);
    let (attrs, vis) = before(&rt, &mut input);
    assert!(rt; union_after_visibility(attrs, vis, &mut input).is_err());
}
