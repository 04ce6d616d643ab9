//! Items of every kind, and files.
use crate::tests::support::{assert_differ, assert_tree, attributes, name, part, tokens, value};
use std::alloc::Global;
use std::process::Abort;
use syn_item::file::{File, Frontmatter};
use syn_item::item::Item;
use syn_item::simple::{ItemMacro, ItemMod};
use syn_tokens::error::Error;
use syn_tree::item::ItemStruct;

/// `mod m;`
fn module(rt: &impl Abort, alloc: Global) -> ItemMod {
    ItemMod {
        attrs: Vec::new(alloc),
        vis: part(rt, alloc, ""),
        unsafety: None,
        mod_token: part(rt, alloc, "mod"),
        ident: name(rt, alloc, "m"),
        content: None,
        semi: None,
    }
}

/// `m! {}`
fn invocation(rt: &impl Abort, alloc: Global) -> ItemMacro {
    ItemMacro {
        attrs: Vec::new(alloc),
        ident: None,
        mac: part(rt, alloc, "m! {}"),
        semi_token: None,
    }
}

/// Some items.
fn items(rt: &impl Abort, alloc: Global) -> Vec<Item> {
    let structure: ItemStruct = part(rt, alloc, "struct A;");
    let mut items = Vec::new(alloc);
    for item in [
        Item::Struct(structure),
        Item::Mod(module(rt, alloc)),
        Item::Macro(invocation(rt, alloc)),
        Item::Verbatim(tokens(rt, alloc, "fn f();")),
    ] {
        value(rt, items.push(item).map_err(Error::from));
    }
    items
}

/// A file with this first line.
fn file(rt: &impl Abort, alloc: Global, shebang: Option<String>) -> File {
    File {
        shebang,
        frontmatter: None,
        attrs: attributes(rt, alloc, "#[a]", "#![b]"),
        items: items(rt, alloc),
    }
}

/// A first line of this text.
fn line(rt: &impl Abort, alloc: Global, text: &str) -> Option<String> {
    let mut line = String::new(alloc);
    value(rt, line.push_str(text).map_err(Error::from));
    Some(line)
}

/// Inner attributes and items are printed, and nothing else.
#[test]
fn whole(rt: HostRuntime) {
    let alloc = rt.alloc();
    let file = file(&rt, alloc, line(&rt, alloc, "#!/bin/a"));
    let want = "# ! [ b ] struct A ; mod m ; m ! { } fn f ( ) ;";
    assert_tree(&rt, alloc, file, want);
}

/// Two differ by what is never printed.
#[test]
fn unlike(rt: HostRuntime) {
    let alloc = rt.alloc();
    let one = file(&rt, alloc, line(&rt, alloc, "#!/bin/a"));
    assert_differ(&rt, one, file(&rt, alloc, line(&rt, alloc, "#!/bin/b")));
    let one = file(&rt, alloc, None);
    let other = File {
        frontmatter: Some(Frontmatter {}),
        ..file(&rt, alloc, None)
    };
    assert_differ(&rt, one, other);
}

/// Items of other kinds differ.
#[test]
fn unlike_items(rt: HostRuntime) {
    let alloc = rt.alloc();
    let one = Item::Mod(module(&rt, alloc));
    assert_differ(&rt, one, Item::Verbatim(tokens(&rt, alloc, "mod m;")));
}
