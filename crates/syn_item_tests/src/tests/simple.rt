//! Items without members.
use crate::tests::support::{
    assert_differ, assert_tree, attributes, braces, generics, items, name, part, value,
};
use std::alloc::Global;
use std::process::Abort;
use syn_item::simple::{
    ItemConst, ItemExternCrate, ItemMacro, ItemMod, ItemStatic, ItemTraitAlias, ItemType,
    StaticMutability, WhereClausePlacement,
};
use syn_lower::Generics;
use syn_recognize::deferred::DeferredItems;
use syn_tokens::error::Error;
use syn_tokens::punctuated::Punctuated;
use syn_tokens::token::Brace;
use syn_tree::item::{ConstModifiers, TypeModifiers};

/// Modifiers and generics are not printed.
#[test]
fn constants(rt: HostRuntime) {
    let alloc = rt.alloc();
    let constant = ItemConst {
        attrs: attributes(&rt, alloc, "#[a]", "#![b]"),
        vis: part(&rt, alloc, "pub"),
        modifiers: ConstModifiers {
            defaultness: Some(part(&rt, alloc, "default")),
        },
        const_token: part(&rt, alloc, "const"),
        ident: name(&rt, alloc, "_"),
        generics: generics(&rt, alloc, "<T>", "where T: A"),
        colon_token: part(&rt, alloc, ":"),
        ty: part(&rt, alloc, "u8"),
        eq_token: part(&rt, alloc, "="),
        expr: part(&rt, alloc, "1 + 2"),
        semi_token: part(&rt, alloc, ";"),
    };
    assert_tree(&rt, alloc, constant, "# [ a ] pub const _ : u8 = 1 + 2 ;");
}

/// A static, with `mut` or without.
#[test]
fn statics(rt: HostRuntime) {
    let alloc = rt.alloc();
    let variable = ItemStatic {
        attrs: Vec::new(alloc),
        vis: part(&rt, alloc, ""),
        static_token: part(&rt, alloc, "static"),
        mutability: StaticMutability::Mut(part(&rt, alloc, "mut")),
        ident: name(&rt, alloc, "A"),
        colon_token: part(&rt, alloc, ":"),
        ty: part(&rt, alloc, "u8"),
        eq_token: part(&rt, alloc, "="),
        expr: part(&rt, alloc, "1"),
        semi_token: part(&rt, alloc, ";"),
    };
    assert_tree(&rt, alloc, variable, "static mut A : u8 = 1 ;");
    let mutability = StaticMutability::Mut(part(&rt, alloc, "mut"));
    assert_differ(&rt, mutability, StaticMutability::None);
}

/// A type alias with its where clause in this place.
fn alias(
    rt: &impl Abort,
    alloc: Global,
    generics: Generics,
    where_clause_placement: WhereClausePlacement,
) -> ItemType {
    ItemType {
        attrs: Vec::new(alloc),
        vis: part(rt, alloc, ""),
        modifiers: TypeModifiers::default(),
        type_token: part(rt, alloc, "type"),
        ident: name(rt, alloc, "A"),
        generics,
        eq_token: part(rt, alloc, "="),
        ty: part(rt, alloc, "Vec<T>"),
        semi_token: part(rt, alloc, ";"),
        where_clause_placement,
    }
}

/// The where clause is printed where its placement says, and the placement counts where there is none.
#[test]
fn type_aliases(rt: HostRuntime) {
    let alloc = rt.alloc();
    let early = generics(&rt, alloc, "<T>", "where T: A");
    let early = alias(&rt, alloc, early, WhereClausePlacement::Early);
    assert_tree(&rt, alloc, early, "type A < T > where T : A = Vec < T > ;");
    let late = generics(&rt, alloc, "<T>", "where T: A");
    let late = alias(&rt, alloc, late, WhereClausePlacement::Late);
    assert_tree(&rt, alloc, late, "type A < T > = Vec < T > where T : A ;");
    let one = alias(
        &rt,
        alloc,
        Generics::empty(alloc),
        WhereClausePlacement::Early,
    );
    let other = alias(
        &rt,
        alloc,
        Generics::empty(alloc),
        WhereClausePlacement::Late,
    );
    assert_differ(&rt, one, other);
}

/// A name and another one.
#[test]
fn extern_crates(rt: HostRuntime) {
    let alloc = rt.alloc();
    let renamed = ItemExternCrate {
        attrs: Vec::new(alloc),
        vis: part(&rt, alloc, ""),
        extern_token: part(&rt, alloc, "extern"),
        crate_token: part(&rt, alloc, "crate"),
        ident: name(&rt, alloc, "self"),
        rename: Some((part(&rt, alloc, "as"), name(&rt, alloc, "a"))),
        semi_token: part(&rt, alloc, ";"),
    };
    assert_tree(&rt, alloc, renamed, "extern crate self as a ;");
}

/// A module of this content, with a semicolon or without.
fn module(
    rt: &impl Abort,
    alloc: Global,
    content: Option<(Brace, DeferredItems)>,
    is_ended: bool,
) -> ItemMod {
    ItemMod {
        attrs: attributes(rt, alloc, "#[a]", "#![b]"),
        vis: part(rt, alloc, ""),
        unsafety: None,
        mod_token: part(rt, alloc, "mod"),
        ident: name(rt, alloc, "m"),
        content,
        semi: if is_ended {
            Some(part(rt, alloc, ";"))
        } else {
            None
        },
    }
}

/// A semicolon follows the name alone, and inner attributes in the braces alone.
#[test]
fn modules(rt: HostRuntime) {
    let alloc = rt.alloc();
    let empty = module(&rt, alloc, None, false);
    assert_tree(&rt, alloc, empty, "# [ a ] mod m ;");
    let content = Some((braces(), items(&rt, alloc, "struct A; fn f() {}")));
    let full = module(&rt, alloc, content, true);
    let want = "# [ a ] mod m { # ! [ b ] struct A ; fn f ( ) { } }";
    assert_tree(&rt, alloc, full, want);
    let one = module(&rt, alloc, Some((braces(), items(&rt, alloc, ""))), true);
    let other = module(&rt, alloc, Some((braces(), items(&rt, alloc, ""))), false);
    assert_differ(&rt, one, other);
}

/// A name is between `!` and the group.
#[test]
fn macros(rt: HostRuntime) {
    let alloc = rt.alloc();
    let named = ItemMacro {
        attrs: Vec::new(alloc),
        ident: Some(name(&rt, alloc, "m")),
        mac: part(&rt, alloc, "macro_rules!(a => b)"),
        semi_token: Some(part(&rt, alloc, ";")),
    };
    assert_tree(&rt, alloc, named, "macro_rules ! m ( a => b ) ;");
}

/// Bounds, and a where clause after them.
#[test]
fn trait_aliases(rt: HostRuntime) {
    let alloc = rt.alloc();
    let mut bounds = Punctuated::new(alloc);
    let pushed = bounds.push_value(part(&rt, alloc, "B<T>"));
    value(&rt, pushed.map_err(Error::from));
    let alias = ItemTraitAlias {
        attrs: Vec::new(alloc),
        vis: part(&rt, alloc, ""),
        trait_token: part(&rt, alloc, "trait"),
        ident: name(&rt, alloc, "A"),
        generics: generics(&rt, alloc, "<T>", "where T: C"),
        eq_token: part(&rt, alloc, "="),
        bounds,
        semi_token: part(&rt, alloc, ";"),
    };
    assert_tree(&rt, alloc, alias, "trait A < T > = B < T > where T : C ;");
}
