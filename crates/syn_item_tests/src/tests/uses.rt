//! Uses and their trees.
use crate::tests::support::{assert_differ, assert_tree, braces, name, part, value};
use std::alloc::Global;
use std::process::Abort;
use syn_item::simple::ItemUse;
use syn_item::use_tree::{UseGlob, UseGroup, UseName, UsePath, UseRename, UseTree};
use syn_tokens::error::Error;
use syn_tokens::punctuated::Punctuated;
use syn_tokens::token::PathSep;

/// A word alone.
fn word(rt: &impl Abort, alloc: Global, text: &str) -> UseTree {
    UseTree::Name(UseName {
        ident: name(rt, alloc, text),
    })
}

/// A word with another name.
fn renamed(rt: &impl Abort, alloc: Global, from: &str, to: &str) -> UseTree {
    UseTree::Rename(UseRename {
        ident: name(rt, alloc, from),
        as_token: part(rt, alloc, "as"),
        rename: name(rt, alloc, to),
    })
}

/// A word, and a tree after it.
fn path(rt: &impl Abort, alloc: Global, text: &str, tree: UseTree) -> UseTree {
    let boxed = Box::new(alloc, tree).map_err(Error::from);
    UseTree::Path(UsePath {
        ident: name(rt, alloc, text),
        colon2_token: part(rt, alloc, "::"),
        tree: value(rt, boxed),
    })
}

/// Two trees in braces.
fn group(rt: &impl Abort, alloc: Global, first: UseTree, second: UseTree) -> UseTree {
    let mut items = Punctuated::new(alloc);
    let pushed = items.push_pair(first, part(rt, alloc, ","));
    value(rt, pushed.map_err(Error::from));
    let pushed = items.push_value(second);
    value(rt, pushed.map_err(Error::from));
    UseTree::Group(UseGroup {
        brace_token: braces(),
        items,
    })
}

/// `{a::*, {b as _, c}}`
fn nested(rt: &impl Abort, alloc: Global) -> UseTree {
    let glob = UseTree::Glob(UseGlob {
        star_token: part(rt, alloc, "*"),
    });
    let first = path(rt, alloc, "a", glob);
    let second = group(
        rt,
        alloc,
        renamed(rt, alloc, "b", "_"),
        word(rt, alloc, "c"),
    );
    group(rt, alloc, first, second)
}

/// A use of this tree.
fn item(rt: &impl Abort, alloc: Global, leading_colon: Option<PathSep>, tree: UseTree) -> ItemUse {
    ItemUse {
        attrs: Vec::new(alloc),
        vis: part(rt, alloc, "pub(crate)"),
        use_token: part(rt, alloc, "use"),
        leading_colon,
        tree,
        semi_token: part(rt, alloc, ";"),
    }
}

/// Trees of every kind, nested.
#[test]
fn trees(rt: HostRuntime) {
    let alloc = rt.alloc();
    let whole = item(&rt, alloc, None, nested(&rt, alloc));
    let want = "pub ( crate ) use { a :: * , { b as _ , c } } ;";
    assert_tree(&rt, alloc, whole, want);
    let rooted = item(&rt, alloc, Some(part(&rt, alloc, "::")), nested(&rt, alloc));
    let want = "pub ( crate ) use :: { a :: * , { b as _ , c } } ;";
    assert_tree(&rt, alloc, rooted, want);
}

/// Trees of other kinds differ.
#[test]
fn unlike(rt: HostRuntime) {
    let alloc = rt.alloc();
    assert_differ(&rt, word(&rt, alloc, "a"), renamed(&rt, alloc, "a", "b"));
    let longer = path(&rt, alloc, "a", word(&rt, alloc, "b"));
    assert_differ(&rt, word(&rt, alloc, "a"), longer);
    let longer = path(&rt, alloc, "a", word(&rt, alloc, "b"));
    assert_differ(&rt, longer, renamed(&rt, alloc, "a", "b"));
    assert_differ(&rt, nested(&rt, alloc), word(&rt, alloc, "a"));
}
