//! Items that are joined.
use crate::tests::support::{assert_text, joined};

/// Each piece is printed as an item, one after the other.
#[test]
fn items_in_order(rt: HostRuntime) {
    let found = joined(rt.alloc(), &["struct A<>;", "m!{}", "struct B;"]);
    assert_text(&rt, found, "struct A ; m ! { } struct B ;");
}

/// A piece has to be an item by itself, and not only with the next one.
#[test]
fn parts_of_an_item(rt: HostRuntime) {
    assert_text(&rt, joined(rt.alloc(), &["struct A", ";"]), "refused at 8");
}

/// A piece is one item, and not two or none.
#[test]
fn one_item_a_piece(rt: HostRuntime) {
    assert_text(
        &rt,
        joined(rt.alloc(), &["struct A; struct B;"]),
        "refused at 10",
    );
    assert_text(&rt, joined(rt.alloc(), &["struct A;", ""]), "refused at 0");
}

/// What is kept verbatim is joined too.
#[test]
fn kept_items(rt: HostRuntime) {
    let found = joined(rt.alloc(), &["fn f();", "#[a] use {::b};"]);
    assert_text(&rt, found, "fn f ( ) ; # [ a ] use { :: b } ;");
}

/// No pieces are no tokens.
#[test]
fn no_pieces(rt: HostRuntime) {
    assert_text(&rt, joined(rt.alloc(), &[]), "");
}
