//! Structs and fields that no text gives: a `;` that isn't printed, and one that is though there is none; a name without a colon,
//! and a colon without a name.
use crate::tests::asserts::{
    assert_equality, assert_print_shown, assert_printed, tokens_of, tree_of, value,
};
use std::alloc::Global;
use std::process::Abort;
use syn::data::Field;
use syn::item::ItemStruct;
use syn::parse::ParseBuffer;
use syn::token::{Colon, Ident, Semi};
use syn_test_support::span;

/// This struct with another `;`, or none.
fn ended(rt: &impl Abort, alloc: Global, text: &str, semi_token: Option<Semi>) -> ItemStruct {
    let mut item: ItemStruct = tree_of(rt, alloc, text);
    item.semi_token = semi_token;
    item
}

/// After braces no `;` is printed, though one that is there is distinguished from none; after parentheses one always is.
#[test]
fn semicolons(rt: HostRuntime) {
    let alloc = rt.alloc();
    let semi = Some(Semi::new([span(0, 1)]));
    let braces = ended(&rt, alloc, "struct S { a: b }", semi);
    assert_printed(&rt, alloc, braces, "struct S { a : b }");
    let braces = ended(&rt, alloc, "struct S { a: b }", semi);
    let other = ended(&rt, alloc, "struct S { a: b }", None);
    assert_equality(&rt, braces, other, false);
    let parentheses = ended(&rt, alloc, "struct S(a);", None);
    let want = "struct@0..6 S@7..8 (@8..9 a@9..10 )@10..11 ;@0..0";
    assert_print_shown(&rt, alloc, parentheses, want);
}

/// What this text has after its name, as a field by hand, with a name or none, and a colon or none.
fn field(rt: &impl Abort, alloc: Global, text: &str, named: bool, colon: bool) -> Field {
    let tokens = tokens_of(rt, alloc, text);
    let mut field = value(rt, Field::parse_named(&mut ParseBuffer::new(&tokens)));
    field.ident = if named {
        Some(value(rt, Ident::new(alloc, "n", span(0, 1))))
    } else {
        None
    };
    field.colon_token = if colon {
        Some(Colon::new([span(5, 6)]))
    } else {
        None
    };
    field
}

/// A colon is printed after a name though there is none, and without a name no colon is; a default is printed in any case.
#[test]
fn field_names(rt: HostRuntime) {
    for (text, named, colon, want) in [
        ("a: b", false, false, "b@3..4"),
        ("a: b", false, true, "b@3..4"),
        ("a: b", true, false, "n@0..1 :@0..0 b@3..4"),
        ("a: b", true, true, "n@0..1 :@5..6 b@3..4"),
        ("a: b = 1", false, false, "b@3..4 =@5..6 Int1@7..8"),
        ("a: b = 1", false, true, "b@3..4 =@5..6 Int1@7..8"),
        (
            "a: b = 1",
            true,
            false,
            "n@0..1 :@0..0 b@3..4 =@5..6 Int1@7..8",
        ),
    ] {
        let field = field(&rt, rt.alloc(), text, named, colon);
        assert_print_shown(&rt, rt.alloc(), field, want);
    }
}

/// A colon that isn't printed is distinguished from none.
#[test]
fn colons(rt: HostRuntime) {
    let with = field(&rt, rt.alloc(), "a: b = 1", false, true);
    let without = field(&rt, rt.alloc(), "a: b = 1", false, false);
    assert_equality(&rt, with, without, false);
}
