//! Impls whose trait is in an invisible group, where other groups are opened before it: each is an `Item::Impl`.
use crate::tests::asserts::value;
use crate::tests::invisible::{stream, tree};
use std::alloc::Global;
use syn::parse::parse2;
use syn::token::TokenStream;
use syn::{File, Item, ItemImpl, Result, Stmt};
use syn_test_support::printed;

/// Files, and the variants of their items.
const FILES: &[(&str, &[&str])] = &[
    ("impl < A > for B { }", &["Impl"]),
    ("# [ < a > ] impl < A > for B { }", &["Impl"]),
    ("< impl < A > for B { } >", &["Impl"]),
    ("impl<T: < C > ,> < A > for B { }", &["Impl"]),
    (
        "< pub > struct S; impl < A > for S { }",
        &["Struct", "Impl"],
    ),
    (
        "struct S { < pub > a: u8 } impl < A > for S { }",
        &["Struct", "Impl"],
    ),
    (
        "impl < A > for < B > { } < pub > fn f ( ) { } impl < C > for D { }",
        &["Impl", "Fn", "Impl"],
    ),
    ("# [ < a > ] mod m { impl < A > for B { } }", &["Mod"]),
    (
        "< pub > struct S; m! { impl < A > for S { } }",
        &["Struct", "Macro"],
    ),
    (
        "< pub > struct S; impl < &A > for S { }",
        &["Struct", "Verbatim"],
    ),
];

/// The name of the item's variant, of those that are above.
fn variant_of(item: &Item) -> &'static str {
    match item {
        Item::Fn(_) => "Fn",
        Item::Impl(_) => "Impl",
        Item::Macro(_) => "Macro",
        Item::Mod(_) => "Mod",
        Item::Struct(_) => "Struct",
        Item::Verbatim(_) => "Verbatim",
        _ => "another",
    }
}

/// Whether these are the variants of the items.
fn are_variants(items: &[Item], variants: &[&str]) -> bool {
    items.len() == variants.len()
        && items
            .iter()
            .zip(variants)
            .all(|(item, variant)| variant_of(item) == *variant)
}

#[test]
fn files(rt: HostRuntime) {
    for (words, variants) in FILES {
        let file: File = tree(&rt, rt.alloc(), words);
        assert!(rt; are_variants(file.items.as_slice(), variants), "{words}");
    }
}

/// The trait of such an impl is the path in the group.
#[test]
fn traits(rt: HostRuntime) {
    let item: ItemImpl = tree(&rt, rt.alloc(), "# [ < a > ] impl < A > for B { }");
    match &item.trait_ {
        Some((path, _for)) => {
            let print = value(&rt, printed(rt.alloc(), path));
            assert!(rt; print.as_str() == "A");
        }
        None => assert!(rt; false, "a trait"),
    }
}

/// An empty group before the modifiers of an item without visibility is looked through.
#[test]
fn empty_groups_before_modifiers(rt: HostRuntime) {
    for words in [
        "< > unsafe impl A for B { }",
        "< > unsafe impl < A > for B { }",
        "< > default unsafe impl A for B { }",
        "< > unsafe impl<T> A { }",
    ] {
        let item: Item = tree(&rt, rt.alloc(), words);
        assert!(rt; matches!(item, Item::Impl(_)), "{words}");
    }
    let item: Item = tree(&rt, rt.alloc(), "< > unsafe extern \"C\" { }");
    assert!(rt; matches!(item, Item::ForeignMod(_)));
    let item: Item = tree(&rt, rt.alloc(), "< > unsafe fn f ( ) { }");
    assert!(rt; matches!(item, Item::Fn(_)));
    let statement: Stmt = tree(&rt, rt.alloc(), "< > unsafe impl A for B { }");
    assert!(rt; matches!(statement, Stmt::Item(_)));
    assert!(rt; parse2::<Item>(value(&rt, stream(rt.alloc(), "< > unsafe 1"))).is_err());
}

/// More impls than groups are opened elsewhere.
const MANY: usize = 257;

/// So many impls, the trait of each in a group.
fn many_impls(alloc: Global) -> Result<TokenStream> {
    let mut tokens = TokenStream::new(alloc);
    for _impl in 0..MANY {
        tokens.append(stream(alloc, "impl < A > for B { }")?)?;
    }
    Ok(tokens)
}

#[test]
fn many(rt: HostRuntime) {
    let file: File = value(&rt, parse2(value(&rt, many_impls(rt.alloc()))));
    assert!(rt; file.items.len() == MANY);
    assert!(rt; file.items.iter().all(|item| variant_of(item) == "Impl"));
}
