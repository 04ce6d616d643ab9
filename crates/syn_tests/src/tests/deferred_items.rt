//! Items, statements and blocks that are deferred: opened, and deferred once more.
use crate::tests::asserts::{assert_printed, assert_text, tokens_of, too_deep_at, tree_of, value};
use std::alloc::Global;
use std::process::Abort;
use syn::canon::Stmts;
use syn::deferred::{DeferredBlock, DeferredItem, DeferredItems, DeferredStatements};
use syn::item::{Item, ItemFn, ItemMod, Items};
use syn::stmt::{Block, Stmt};
use syn::{Result, ToTokens};
use syn_test_support::{fault, print_shown};

const MODULE: &str =
    "mod a { #![b] fn f() { 1 } fn g(); mod c { use {::d}; } type A<'a, B> = A<B, 'a>; }";

const FUNCTION: &str = "fn f() { let a = b; ; struct S; m! {} a::<B, 'c>() }";

/// The items of the text's module.
fn content(rt: &impl Abort, alloc: Global, text: &str) -> DeferredItems {
    let module: ItemMod = tree_of(rt, alloc, text);
    let (_braces, items) = module.content.expect(rt, "a module with braces");
    items
}

/// The body of the text's function.
fn body(rt: &impl Abort, alloc: Global, text: &str) -> DeferredBlock {
    let function: ItemFn = tree_of(rt, alloc, text);
    function.block
}

/// Fails where both print other tokens, or at other places.
fn assert_same_print<T: ToTokens, U: ToTokens>(
    rt: &impl Abort,
    alloc: Global,
    tree: &T,
    other: &U,
) {
    let want = value(rt, print_shown(alloc, other));
    assert_text(rt, print_shown(alloc, tree), want.as_str());
}

/// The items of a module, opened: each is of its kind, and spans are kept.
#[test]
fn module(rt: HostRuntime) {
    let deferred = content(&rt, rt.alloc(), MODULE);
    let Items(items) = value(&rt, deferred.open());
    assert_eq!(rt; items.len(), 4);
    assert!(rt; matches!(&items[0], Item::Fn(_)));
    assert!(rt; matches!(&items[1], Item::Verbatim(_)));
    assert!(rt; matches!(&items[2], Item::Mod(_)));
    assert!(rt; matches!(&items[3], Item::Ty(_)));
    assert_same_print(&rt, rt.alloc(), &Items(items), &deferred);
}

/// They are deferred once more as what they print.
#[test]
fn module_again(rt: HostRuntime) {
    let deferred = content(&rt, rt.alloc(), "mod a { fn f() { 1 } fn g(); use b; }");
    let items: Items = value(&rt, deferred.open());
    let again = value(&rt, DeferredItems::new(&items, rt.alloc()));
    assert!(rt; again == deferred);
    assert_same_print(&rt, rt.alloc(), &again, &deferred);
}

/// A module may be empty.
#[test]
fn empty_module(rt: HostRuntime) {
    let deferred = content(&rt, rt.alloc(), "mod a {}");
    let items: Items = value(&rt, deferred.open());
    assert!(rt; items.0.is_empty());
    let again = value(&rt, DeferredItems::new(&items, rt.alloc()));
    assert!(rt; again == deferred);
}

/// An item, opened, and deferred once more.
#[test]
fn item(rt: HostRuntime) {
    let alloc = rt.alloc();
    for text in [
        "fn f();",
        "impl A { fn f() {} }",
        "struct S;",
        "m! { a }",
        "const A: u8 = 1;",
    ] {
        let deferred: DeferredItem = tree_of(&rt, alloc, text);
        let item: Item = value(&rt, deferred.open());
        assert_same_print(&rt, alloc, &item, &deferred);
        let again = value(&rt, DeferredItem::new(&item, alloc));
        assert!(rt; again == deferred, "of {text:?}");
    }
}

/// Where lifetimes are printed first, what is deferred again is that print.
#[test]
fn printed_otherwise(rt: HostRuntime) {
    let deferred: DeferredItem = tree_of(&rt, rt.alloc(), "type A = B<C, 'd>;");
    let item: Item = value(&rt, deferred.open());
    let again = value(&rt, DeferredItem::new(&item, rt.alloc()));
    assert!(rt; again != deferred);
    assert_same_print(&rt, rt.alloc(), &again, &deferred);
    assert_printed(&rt, rt.alloc(), again, "type A = B < 'd , C , > ;");
}

/// The item that a statement is.
fn item_of(stmt: &Stmt) -> Option<&DeferredItem> {
    match stmt {
        Stmt::Item(item) => Some(item),
        _ => None,
    }
}

/// A statement that is an item, opened.
#[test]
fn item_among_statements(rt: HostRuntime) {
    let stmt: Stmt = tree_of(&rt, rt.alloc(), "#[a] pub fn f(self) { g() }");
    let deferred = item_of(&stmt).expect(&rt, "an item");
    let item: Item = value(&rt, deferred.open());
    assert!(rt; matches!(&item, Item::Fn(_)));
    assert_same_print(&rt, rt.alloc(), &item, &stmt);
}

/// The body of a function, opened: its statements are in the same braces.
#[test]
fn block(rt: HostRuntime) {
    let deferred = body(&rt, rt.alloc(), FUNCTION);
    let block: Block = value(&rt, deferred.open());
    assert_eq!(rt; block.stmts.len(), 5);
    assert!(rt; matches!(&block.stmts[0], Stmt::Local(_)));
    assert!(rt; matches!(&block.stmts[2], Stmt::Item(_)));
    assert!(rt; matches!(&block.stmts[3], Stmt::Macro(_)));
    assert_same_print(&rt, rt.alloc(), &block, &deferred);
}

/// It is deferred once more as what it prints.
#[test]
fn block_again(rt: HostRuntime) {
    let deferred = body(&rt, rt.alloc(), "fn f() { let a = b; ; struct S; m! {} 1 }");
    let block: Block = value(&rt, deferred.open());
    let again = value(&rt, DeferredBlock::new(&block, rt.alloc()));
    assert!(rt; again == deferred);
    assert_same_print(&rt, rt.alloc(), &again, &deferred);
}

/// The statements of a body, opened and deferred once more.
#[test]
fn statements(rt: HostRuntime) {
    let deferred = body(&rt, rt.alloc(), "fn f() { a(); if b {} c }").stmts;
    let stmts: Stmts = value(&rt, deferred.open());
    assert_eq!(rt; stmts.0.len(), 3);
    assert_same_print(&rt, rt.alloc(), &stmts, &deferred);
    let again = value(&rt, DeferredStatements::new(&stmts, rt.alloc()));
    assert!(rt; again == deferred);
}

/// The body of the item, if it is a function.
fn body_of(item: &Item) -> Option<&DeferredBlock> {
    match item {
        Item::Fn(function) => Some(&function.block),
        _ => None,
    }
}

/// A body may hold an item with a body: each is opened by itself.
#[test]
fn bodies_in_bodies(rt: HostRuntime) {
    let outer: Block = value(
        &rt,
        body(&rt, rt.alloc(), "fn f() { fn g() { 1 } g() }").open(),
    );
    let deferred = item_of(&outer.stmts[0]).expect(&rt, "an item");
    let item: Item = value(&rt, deferred.open());
    let inner = body_of(&item).expect(&rt, "a body");
    let block: Block = value(&rt, inner.open());
    assert_printed(&rt, rt.alloc(), block, "{ 1 }");
}

/// The tokens of the text as an item of no kind.
fn kept(rt: &impl Abort, alloc: Global, text: &str) -> Item {
    Item::Verbatim(tokens_of(rt, alloc, text))
}

/// Fails where the result isn't refused, or at another byte.
fn assert_refused_at<T: Drop>(rt: &impl Abort, answer: Result<T>, byte: usize) {
    let missed = value(rt, fault(answer));
    assert_eq!(rt; missed.span.start, byte);
}

/// What is made by hand is refused where its print is not read as a whole.
#[test]
fn made_by_hand(rt: HostRuntime) {
    let alloc = rt.alloc();
    for (text, byte) in [("struct S; b", 10), ("a b", 2), ("", 0), ("struct S", 8)] {
        let item = kept(&rt, alloc, text);
        assert_refused_at(&rt, DeferredItem::new(&item, alloc), byte);
    }
    let item = kept(&rt, alloc, "struct S; fn f();");
    let mut items = Vec::new(alloc);
    value(&rt, items.push(item));
    let again: DeferredItems = value(&rt, DeferredItems::new(&Items(items), alloc));
    let Items(items) = value(&rt, again.open());
    assert_eq!(rt; items.len(), 2);
}

/// A statement that needs a semicolon and has none is last.
#[test]
fn statements_by_hand(rt: HostRuntime) {
    let alloc = rt.alloc();
    let mut stmts: Stmts = tree_of(&rt, alloc, "a()");
    let second: Stmts = tree_of(&rt, alloc, "   b()");
    for stmt in second.0 {
        value(&rt, stmts.0.push(stmt));
    }
    assert_refused_at(&rt, DeferredStatements::new(&stmts, alloc), 3);
    let block = Block {
        brace_token: body(&rt, alloc, "fn f() {}").brace_token,
        stmts: stmts.0,
    };
    assert_refused_at(&rt, DeferredBlock::new(&block, alloc), 3);
}

/// Braces nested, around nothing.
fn nested_braces(rt: &impl Abort, alloc: Global, depth: usize) -> String {
    let mut text = String::new(alloc);
    value(rt, text.push_str("fn f() {"));
    for _ in 0..depth {
        value(rt, text.push('{'));
    }
    for _ in 0..depth {
        value(rt, text.push('}'));
    }
    value(rt, text.push('}'));
    text
}

/// A body is kept however deep its statements are nested; trees that are nested too deep are refused, and the error says so.
#[test]
fn deep_bodies(rt: HostRuntime) {
    let text = nested_braces(&rt, rt.alloc(), 20);
    let opened: Result<Block> = body(&rt, rt.alloc(), text.as_str()).open();
    assert!(rt; opened.is_ok());
    let text = nested_braces(&rt, rt.alloc(), 200);
    let opened: Result<Block> = body(&rt, rt.alloc(), text.as_str()).open();
    let _span = too_deep_at(&rt, opened);
}
