//! What structs of items, members, trees of a use and parameters become: each the variant of its kind. And what an input of a derive
//! becomes.
use crate::tests::asserts::{assert_printed, tree_of};
use std::alloc::Global;
use std::process::Abort;
use syn::parse::Parse;
use syn::{
    DeriveInput, FnArg, ForeignItem, ForeignItemFn, ForeignItemMacro, ForeignItemStatic,
    ForeignItemType, ImplItem, ImplItemConst, ImplItemFn, ImplItemMacro, ImplItemType, Item,
    ItemConst, ItemEnum, ItemExternCrate, ItemFn, ItemForeignMod, ItemImpl, ItemMacro, ItemMod,
    ItemStatic, ItemStruct, ItemTrait, ItemTraitAlias, ItemType, ItemUnion, ItemUse, Receiver,
    TraitItem, TraitItemConst, TraitItemFn, TraitItemMacro, TraitItemType, UseTree,
};

/// Fails where what the text is as an `A`, made a `B`, isn't what the text is as a `B`.
fn assert_becomes<A: Parse + Drop, B: From<A> + Parse + PartialEq + Drop>(
    rt: &impl Abort,
    alloc: Global,
    text: &str,
) {
    let part: A = tree_of(rt, alloc, text);
    let whole: B = tree_of(rt, alloc, text);
    assert!(rt; B::from(part) == whole, "of {text:?}");
}

#[test]
fn items_without_members(rt: HostRuntime) {
    let alloc = rt.alloc();
    assert_becomes::<ItemConst, Item>(&rt, alloc, "const A: u8 = 1;");
    assert_becomes::<ItemExternCrate, Item>(&rt, alloc, "extern crate a as b;");
    assert_becomes::<ItemFn, Item>(&rt, alloc, "#[a] fn f() { #![b] 1 }");
    assert_becomes::<ItemMacro, Item>(&rt, alloc, "m! a { b }");
    assert_becomes::<ItemMod, Item>(&rt, alloc, "mod a { struct B; }");
    assert_becomes::<ItemStatic, Item>(&rt, alloc, "static mut A: u8 = 1;");
    assert_becomes::<ItemTraitAlias, Item>(&rt, alloc, "trait A = B;");
    assert_becomes::<ItemType, Item>(&rt, alloc, "type A = B where;");
    assert_becomes::<ItemUse, Item>(&rt, alloc, "use ::a::*;");
}

#[test]
fn items_with_members(rt: HostRuntime) {
    let alloc = rt.alloc();
    assert_becomes::<ItemEnum, Item>(&rt, alloc, "enum E { A = 1 }");
    assert_becomes::<ItemForeignMod, Item>(&rt, alloc, "extern { fn f(); }");
    assert_becomes::<ItemImpl, Item>(&rt, alloc, "impl A for B { fn f() {} }");
    assert_becomes::<ItemStruct, Item>(&rt, alloc, "struct S(u8);");
    assert_becomes::<ItemTrait, Item>(&rt, alloc, "trait A { fn f(); }");
    assert_becomes::<ItemUnion, Item>(&rt, alloc, "union U { a: u8 }");
}

#[test]
fn inputs_of_derives(rt: HostRuntime) {
    let alloc = rt.alloc();
    for text in [
        "#[a] pub struct S<T>(T) where T: A;",
        "struct S;",
        "pub(crate) enum E<T> where T: A { B(T) = 1 }",
        "union U { a: u8 }",
    ] {
        assert_becomes::<DeriveInput, Item>(&rt, alloc, text);
    }
}

#[test]
fn structs_as_inputs(rt: HostRuntime) {
    let alloc = rt.alloc();
    assert_becomes::<ItemStruct, DeriveInput>(&rt, alloc, "#[a] struct S { b: u8 = 1 }");
    assert_becomes::<ItemEnum, DeriveInput>(&rt, alloc, "enum E { A { b: u8 } }");
    assert_becomes::<ItemUnion, DeriveInput>(&rt, alloc, "pub union U<T> { a: T }");
}

#[test]
fn members(rt: HostRuntime) {
    let alloc = rt.alloc();
    assert_becomes::<TraitItemConst, TraitItem>(&rt, alloc, "const A: u8 = 1;");
    assert_becomes::<TraitItemFn, TraitItem>(&rt, alloc, "fn f(&self) {}");
    assert_becomes::<TraitItemType, TraitItem>(&rt, alloc, "type A: B = C;");
    assert_becomes::<TraitItemMacro, TraitItem>(&rt, alloc, "m!();");
    assert_becomes::<ImplItemConst, ImplItem>(&rt, alloc, "pub const A: u8 = 1;");
    assert_becomes::<ImplItemFn, ImplItem>(&rt, alloc, "default fn f() {}");
    assert_becomes::<ImplItemType, ImplItem>(&rt, alloc, "type A = B;");
    assert_becomes::<ImplItemMacro, ImplItem>(&rt, alloc, "m! {}");
    assert_becomes::<ForeignItemFn, ForeignItem>(&rt, alloc, "safe fn f(...);");
    assert_becomes::<ForeignItemStatic, ForeignItem>(&rt, alloc, "static mut A: u8;");
    assert_becomes::<ForeignItemType, ForeignItem>(&rt, alloc, "pub type A;");
    assert_becomes::<ForeignItemMacro, ForeignItem>(&rt, alloc, "m! [a];");
}

/// The same tree, taken apart and made of its part.
fn tree_again(tree: UseTree) -> UseTree {
    match tree {
        UseTree::Path(tree) => UseTree::from(tree),
        UseTree::Name(tree) => UseTree::from(tree),
        UseTree::Rename(tree) => UseTree::from(tree),
        UseTree::Glob(tree) => UseTree::from(tree),
        UseTree::Group(tree) => UseTree::from(tree),
    }
}

#[test]
fn trees_of_uses(rt: HostRuntime) {
    for (text, want) in [
        ("a::b", "a :: b"),
        ("self", "self"),
        ("a as _", "a as _"),
        ("*", "*"),
        ("{a, b::{c},}", "{ a , b :: { c } , }"),
    ] {
        let tree: UseTree = tree_of(&rt, rt.alloc(), text);
        assert_printed(&rt, rt.alloc(), tree_again(tree), want);
    }
}

/// The same parameter, taken apart and made of its part.
fn argument_again(arg: FnArg) -> FnArg {
    match arg {
        FnArg::Receiver(receiver) => FnArg::from(receiver),
        FnArg::Typed(typed) => FnArg::from(typed),
    }
}

#[test]
fn parameters(rt: HostRuntime) {
    let alloc = rt.alloc();
    let receiver: Receiver = tree_of(&rt, alloc, "&'a mut self");
    assert_printed(&rt, alloc, FnArg::from(receiver), "& 'a mut self");
    for (text, want) in [
        ("#[a] mut self: B", "# [ a ] mut self : B"),
        ("#[a] _: B", "# [ a ] _ : B"),
    ] {
        let arg: FnArg = tree_of(&rt, alloc, text);
        assert_printed(&rt, alloc, argument_again(arg), want);
    }
}
