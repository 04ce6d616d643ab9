//! Items of what is deferred, and conversions.
use crate::tests::support::{assert_tree, part, tokens, value};
use std::process::Abort;
use syn_item::foreign::{
    ForeignItem, ForeignItemFn, ForeignItemMacro, ForeignItemStatic, ForeignItemType,
};
use syn_item::impls::{ImplItem, ImplItemConst, ImplItemFn, ImplItemMacro, ImplItemType, ItemImpl};
use syn_item::item::{Item, Items};
use syn_item::laws::{enum_there_and_back, struct_there_and_back, union_there_and_back};
use syn_item::simple::ItemMod;
use syn_item::traits::{
    ItemTrait, TraitItem, TraitItemConst, TraitItemFn, TraitItemMacro, TraitItemType,
};
use syn_recognize::deferred::{DeferredItem, DeferredItems};
use syn_tree::derive::DeriveInput;
use syn_tree::item::{ItemEnum, ItemStruct, ItemUnion};

/// The items of a module, opened, and made deferred once more.
#[test]
fn module(rt: HostRuntime) {
    let alloc = rt.alloc();
    let module: ItemMod = part(
        &rt,
        alloc,
        "mod a { #![b] fn f() { 1 } fn g(); mod c { use {::d}; } }",
    );
    let Some((_braces, deferred)) = &module.content else {
        panic!(rt; "no content");
    };
    let opened: Items = value(&rt, deferred.open());
    let items = &opened.0;
    assert_eq!(rt; items.len(), 3);
    assert!(rt; matches!(&items[0], Item::Fn(_)));
    assert!(rt; matches!(&items[1], Item::Verbatim(_)));
    assert!(rt; matches!(&items[2], Item::Mod(_)));
    let again: DeferredItems = value(&rt, DeferredItems::new(&opened, alloc));
    assert!(rt; again == *deferred);
}

/// An item, opened, and made deferred once more.
#[test]
fn item(rt: HostRuntime) {
    let alloc = rt.alloc();
    for text in ["fn f();", "impl A { fn f() {} }", "struct S;", "m! { a }"] {
        let deferred: DeferredItem = part(&rt, alloc, text);
        let item: Item = value(&rt, deferred.open());
        let again: DeferredItem = value(&rt, DeferredItem::new(&item, alloc));
        assert!(rt; again == deferred, "{text:?}");
    }
}

/// What is kept verbatim keeps their spacing.
#[test]
fn spacing(rt: HostRuntime) {
    let alloc = rt.alloc();
    let item: Item = part(&rt, alloc, "fn f(a: A<B<C>>) -> &&u8;");
    let Item::Verbatim(kept) = &item else {
        panic!(rt; "another kind");
    };
    let text = tokens(&rt, alloc, "fn f(a: A<B<C>>) -> &&u8;");
    assert!(rt; *kept == text);
}

/// Structs, enums and unions as inputs of derives, and back.
#[test]
fn derives(rt: HostRuntime) {
    let alloc = rt.alloc();
    let item: ItemStruct = part(&rt, alloc, "#[a] pub struct S<T>(u8) where T: A;");
    let item = struct_there_and_back(item);
    assert_tree(
        &rt,
        alloc,
        item,
        "# [ a ] pub struct S < T > ( u8 ) where T : A ;",
    );
    let item: ItemEnum = part(&rt, alloc, "enum E { A, B { b: u8 } }");
    assert_tree(
        &rt,
        alloc,
        enum_there_and_back(item),
        "enum E { A , B { b : u8 } }",
    );
    let item: ItemUnion = part(&rt, alloc, "union U { a: u8 }");
    assert_tree(&rt, alloc, union_there_and_back(item), "union U { a : u8 }");
    let input: DeriveInput = part(&rt, alloc, "struct S;");
    assert_tree(&rt, alloc, Item::from(input), "struct S ;");
}

/// Items of their kinds.
#[test]
fn kinds_of_items(rt: HostRuntime) {
    let alloc = rt.alloc();
    let item: ItemTrait = part(&rt, alloc, "trait A {}");
    assert!(rt; Item::from(item) == part(&rt, alloc, "trait A {}"));
    let item: ItemImpl = part(&rt, alloc, "impl A {}");
    assert!(rt; Item::from(item) == part(&rt, alloc, "impl A {}"));
    let item: ItemStruct = part(&rt, alloc, "struct A;");
    assert!(rt; Item::from(item) == part(&rt, alloc, "struct A;"));
}

/// Members of their kinds.
#[test]
fn kinds_of_members(rt: HostRuntime) {
    let alloc = rt.alloc();
    let member: TraitItemConst = part(&rt, alloc, "const A: u8;");
    assert!(rt; TraitItem::from(member) == part(&rt, alloc, "const A: u8;"));
    let member: TraitItemFn = part(&rt, alloc, "fn f();");
    assert!(rt; TraitItem::from(member) == part(&rt, alloc, "fn f();"));
    let member: TraitItemType = part(&rt, alloc, "type A;");
    assert!(rt; TraitItem::from(member) == part(&rt, alloc, "type A;"));
    let member: TraitItemMacro = part(&rt, alloc, "m!();");
    assert!(rt; TraitItem::from(member) == part(&rt, alloc, "m!();"));
    let member: ImplItemConst = part(&rt, alloc, "const A: u8 = 1;");
    assert!(rt; ImplItem::from(member) == part(&rt, alloc, "const A: u8 = 1;"));
    let member: ImplItemFn = part(&rt, alloc, "fn f() {}");
    assert!(rt; ImplItem::from(member) == part(&rt, alloc, "fn f() {}"));
    let member: ImplItemType = part(&rt, alloc, "type A = B;");
    assert!(rt; ImplItem::from(member) == part(&rt, alloc, "type A = B;"));
    let member: ImplItemMacro = part(&rt, alloc, "m!{}");
    assert!(rt; ImplItem::from(member) == part(&rt, alloc, "m!{}"));
    let member: ForeignItemFn = part(&rt, alloc, "fn f();");
    assert!(rt; ForeignItem::from(member) == part(&rt, alloc, "fn f();"));
    let member: ForeignItemStatic = part(&rt, alloc, "static A: u8;");
    assert!(rt; ForeignItem::from(member) == part(&rt, alloc, "static A: u8;"));
    let member: ForeignItemType = part(&rt, alloc, "type A;");
    assert!(rt; ForeignItem::from(member) == part(&rt, alloc, "type A;"));
    let member: ForeignItemMacro = part(&rt, alloc, "m!{}");
    assert!(rt; ForeignItem::from(member) == part(&rt, alloc, "m!{}"));
}
