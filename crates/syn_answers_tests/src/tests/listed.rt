//! Items that are listed.
use crate::tests::support::{assert_text, names};

/// The kinds of items, the names that some have, and their spans.
#[test]
fn kinds_and_names(rt: HostRuntime) {
    let found = names(rt.alloc(), "struct A; use b::c; impl A {}");
    assert_text(&rt, found, "Struct A@7..8;Use;Impl;");
}

/// A name is the identifier of the item, and none that is before it or in a group.
#[test]
fn names_of_items(rt: HostRuntime) {
    let found = names(
        rt.alloc(),
        "#[a(static b)] pub(in c) static mut r#static: u8 = 1;",
    );
    assert_text(&rt, found, "Static r#static@36..44;");
    assert_text(
        &rt,
        names(rt.alloc(), "union union {}"),
        "Union union@6..11;",
    );
    assert_text(&rt, names(rt.alloc(), "a::b! c {}"), "Macro c@6..7;");
    assert_text(&rt, names(rt.alloc(), "trait A = B;"), "TraitAlias A@6..7;");
}

/// What is kept verbatim has no name, whatever it looks like.
#[test]
fn kept_items(rt: HostRuntime) {
    let found = names(rt.alloc(), "fn f(); static X = 1; const trait A = B;");
    assert_text(&rt, found, "Verbatim;Verbatim;Verbatim;");
}

/// A file that isn't one is refused where it goes wrong.
#[test]
fn no_files(rt: HostRuntime) {
    assert_text(&rt, names(rt.alloc(), "struct A; ?"), "refused at 10");
    assert_text(&rt, names(rt.alloc(), "#![a] #[b]"), "refused at 10");
    assert_text(&rt, names(rt.alloc(), "#![]"), "refused at 3");
}

/// A file may be without items.
#[test]
fn no_items(rt: HostRuntime) {
    assert_text(&rt, names(rt.alloc(), "#![a]"), "");
}
