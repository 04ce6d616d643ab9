//! Items that are many, or that are deeply nested.
use crate::tests::support::{part, value};
use std::alloc::Global;
use std::process::Abort;
use syn_item::file::File;
use syn_item::item::Item;
use syn_tokens::error::Error;

/// A text so many times.
fn repeated(rt: &impl Abort, alloc: Global, text: &str, count: usize) -> String {
    let mut all = String::new(alloc);
    for _ in 0..count {
        value(rt, all.push_str(text).map_err(Error::from));
    }
    all
}

/// One text after another, and a third after both.
fn around(rt: &impl Abort, alloc: Global, open: &str, content: &str, close: &str) -> String {
    let mut text = String::new(alloc);
    for part in [open, content, close] {
        value(rt, text.push_str(part).map_err(Error::from));
    }
    text
}

/// Functions that are kept verbatim, each in the type of another one's parameter: each is read once more, and not twice as often as
/// the one around it.
#[test]
fn kept_in_types(rt: HostRuntime) {
    let alloc = rt.alloc();
    let open = repeated(&rt, alloc, "fn f(x: [u8; { ", 40);
    let close = repeated(&rt, alloc, " }]);", 40);
    let text = around(&rt, alloc, open.as_str(), "1", close.as_str());
    let item: Item = part(&rt, alloc, text.as_str());
    assert!(rt; matches!(item, Item::Verbatim(_)));
}

/// Modules and impls in bodies, each in another.
#[test]
fn in_each_other(rt: HostRuntime) {
    let alloc = rt.alloc();
    let open = repeated(&rt, alloc, "mod a { impl A { fn f() { ", 100);
    let close = repeated(&rt, alloc, " } } }", 100);
    let text = around(&rt, alloc, open.as_str(), "fn g();", close.as_str());
    let item: Item = part(&rt, alloc, text.as_str());
    assert!(rt; matches!(item, Item::Mod(_)));
}

/// Many items in a file.
#[test]
fn many(rt: HostRuntime) {
    let alloc = rt.alloc();
    let text = repeated(
        &rt,
        alloc,
        "fn f(); impl A for B { type C = D; } use a::{b, c};\n",
        50,
    );
    let file: File = part(&rt, alloc, text.as_str());
    assert_eq!(rt; file.items.len(), 150);
}
