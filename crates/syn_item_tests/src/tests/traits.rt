//! Traits and their members.
use crate::tests::signatures::signature;
use crate::tests::support::{
    assert_differ, assert_tree, attributes, braces, name, part, tokens, value,
};
use std::alloc::Global;
use std::process::Abort;
use syn_item::traits::{
    ItemTrait, TraitItem, TraitItemConst, TraitItemFn, TraitItemMacro, TraitItemType,
};
use syn_lower::{Generics, TypeParamBound};
use syn_recognize::deferred::DeferredBlock;
use syn_tokens::error::Error;
use syn_tokens::punctuated::Punctuated;
use syn_tokens::token::Plus;
use syn_tree::item::{ConstModifiers, FnModifiers, TraitModifiers, TypeModifiers};

/// One bound.
fn one_bound(rt: &impl Abort, alloc: Global, text: &str) -> Punctuated<TypeParamBound, Plus> {
    let mut bounds = Punctuated::new(alloc);
    let pushed = bounds.push_value(part(rt, alloc, text));
    value(rt, pushed.map_err(Error::from));
    bounds
}

/// `const A: u8 = 1;`
fn constant(rt: &impl Abort, alloc: Global) -> TraitItemConst {
    TraitItemConst {
        attrs: Vec::new(alloc),
        modifiers: ConstModifiers::default(),
        const_token: part(rt, alloc, "const"),
        ident: name(rt, alloc, "A"),
        generics: Generics::empty(alloc),
        colon_token: part(rt, alloc, ":"),
        ty: part(rt, alloc, "u8"),
        default: Some((part(rt, alloc, "="), part(rt, alloc, "1"))),
        semi_token: part(rt, alloc, ";"),
    }
}

/// A function of this body, with a semicolon or without.
fn function(
    rt: &impl Abort,
    alloc: Global,
    default: Option<DeferredBlock>,
    is_ended: bool,
) -> TraitItemFn {
    TraitItemFn {
        attrs: attributes(rt, alloc, "#[a]", "#![b]"),
        modifiers: FnModifiers::default(),
        sig: signature(rt, alloc, Punctuated::new(alloc), None),
        default,
        semi_token: if is_ended {
            Some(part(rt, alloc, ";"))
        } else {
            None
        },
    }
}

/// A type of these bounds.
fn alias(
    rt: &impl Abort,
    alloc: Global,
    bounds: Punctuated<TypeParamBound, Plus>,
) -> TraitItemType {
    TraitItemType {
        attrs: Vec::new(alloc),
        modifiers: TypeModifiers::default(),
        type_token: part(rt, alloc, "type"),
        ident: name(rt, alloc, "B"),
        generics: Generics::empty(alloc),
        colon_token: Some(part(rt, alloc, ":")),
        bounds,
        default: Some((part(rt, alloc, "="), part(rt, alloc, "u8"))),
        semi_token: part(rt, alloc, ";"),
    }
}

/// A semicolon is printed only without a body, and inner attributes in the body alone.
#[test]
fn functions(rt: HostRuntime) {
    let alloc = rt.alloc();
    let declared = function(&rt, alloc, None, false);
    let want = "# [ a ] unsafe extern \"C\" fn f < T > ( ) -> T where T : A ;";
    assert_tree(&rt, alloc, declared, want);
    let defined = function(&rt, alloc, Some(part(&rt, alloc, "{ 1 }")), true);
    let want = "# [ a ] unsafe extern \"C\" fn f < T > ( ) -> T where T : A { # ! [ b ] 1 }";
    assert_tree(&rt, alloc, defined, want);
}

/// Without bounds the colon isn't printed.
#[test]
fn types(rt: HostRuntime) {
    let alloc = rt.alloc();
    let bounded = alias(&rt, alloc, one_bound(&rt, alloc, "C"));
    assert_tree(&rt, alloc, bounded, "type B : C = u8 ;");
    let free = alias(&rt, alloc, Punctuated::new(alloc));
    assert_tree(&rt, alloc, free, "type B = u8 ;");
}

/// The members of a trait.
fn members(rt: &impl Abort, alloc: Global) -> Vec<TraitItem> {
    let mac = TraitItemMacro {
        attrs: Vec::new(alloc),
        mac: part(rt, alloc, "m![a]"),
        semi_token: Some(part(rt, alloc, ";")),
    };
    let mut items = Vec::new(alloc);
    for item in [
        TraitItem::Const(constant(rt, alloc)),
        TraitItem::Ty(alias(rt, alloc, Punctuated::new(alloc))),
        TraitItem::Macro(mac),
        TraitItem::Verbatim(tokens(rt, alloc, "pub fn g();")),
    ] {
        value(rt, items.push(item).map_err(Error::from));
    }
    items
}

/// `unsafe` is before `auto`, and after `const`.
#[test]
fn whole(rt: HostRuntime) {
    let alloc = rt.alloc();
    let item = ItemTrait {
        attrs: attributes(&rt, alloc, "#[a]", "#![b]"),
        vis: part(&rt, alloc, "pub"),
        modifiers: TraitModifiers {
            constness: Some(part(&rt, alloc, "const")),
            auto_token: Some(part(&rt, alloc, "auto")),
        },
        unsafety: Some(part(&rt, alloc, "unsafe")),
        trait_token: part(&rt, alloc, "trait"),
        ident: name(&rt, alloc, "A"),
        generics: Generics::empty(alloc),
        colon_token: None,
        supertraits: one_bound(&rt, alloc, "B"),
        brace_token: braces(),
        items: members(&rt, alloc),
    };
    let want =
        "# [ a ] pub const unsafe auto trait A : B { # ! [ b ] const A : u8 = 1 ; type B = u8 ; m ! [ a ] ; pub fn g ( ) ; }";
    assert_tree(&rt, alloc, item, want);
}

/// Members of other kinds differ.
#[test]
fn unlike(rt: HostRuntime) {
    let alloc = rt.alloc();
    let one = TraitItem::Const(constant(&rt, alloc));
    assert_differ(
        &rt,
        one,
        TraitItem::Verbatim(tokens(&rt, alloc, "const A: u8 = 1;")),
    );
}
