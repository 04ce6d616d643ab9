//! Impls and their members.
use crate::tests::signatures::signature;
use crate::tests::support::{assert_tree, attributes, braces, generics, name, part, value};
use std::alloc::Global;
use std::process::Abort;
use syn_item::impls::{ImplItem, ImplItemConst, ImplItemFn, ImplItemType, ItemImpl};
use syn_lower::{Generics, Path};
use syn_tokens::error::Error;
use syn_tokens::punctuated::Punctuated;
use syn_tokens::token::For;
use syn_tree::item::{ConstModifiers, FnModifiers, ImplModifiers, TypeModifiers};

/// An impl without members of these generics, this trait and this self type.
fn empty_impl(
    rt: &impl Abort,
    alloc: Global,
    generics: Generics,
    trait_: Option<(Path, For)>,
    self_ty: &str,
) -> ItemImpl {
    ItemImpl {
        attrs: Vec::new(alloc),
        modifiers: ImplModifiers::default(),
        unsafety: None,
        impl_token: part(rt, alloc, "impl"),
        generics,
        trait_,
        self_ty: part(rt, alloc, self_ty),
        brace_token: braces(),
        items: Vec::new(alloc),
    }
}

/// A trait's path and `for`.
fn of_trait(rt: &impl Abort, alloc: Global) -> Option<(Path, For)> {
    Some((part(rt, alloc, "A"), part(rt, alloc, "for")))
}

/// The members of an impl.
fn members(rt: &impl Abort, alloc: Global) -> Vec<ImplItem> {
    let constant = ImplItemConst {
        attrs: Vec::new(alloc),
        vis: part(rt, alloc, "pub"),
        modifiers: ConstModifiers {
            defaultness: Some(part(rt, alloc, "default")),
        },
        const_token: part(rt, alloc, "const"),
        ident: name(rt, alloc, "A"),
        generics: Generics::empty(alloc),
        colon_token: part(rt, alloc, ":"),
        ty: part(rt, alloc, "u8"),
        eq_token: part(rt, alloc, "="),
        expr: part(rt, alloc, "1"),
        semi_token: part(rt, alloc, ";"),
    };
    let function = ImplItemFn {
        attrs: attributes(rt, alloc, "", "#![b]"),
        vis: part(rt, alloc, ""),
        modifiers: FnModifiers::default(),
        sig: signature(rt, alloc, Punctuated::new(alloc), None),
        block: part(rt, alloc, "{}"),
    };
    let alias = ImplItemType {
        attrs: Vec::new(alloc),
        vis: part(rt, alloc, ""),
        modifiers: TypeModifiers::default(),
        type_token: part(rt, alloc, "type"),
        ident: name(rt, alloc, "B"),
        generics: generics(rt, alloc, "<T>", "where T: C"),
        eq_token: part(rt, alloc, "="),
        ty: part(rt, alloc, "T"),
        semi_token: part(rt, alloc, ";"),
    };
    let mut items = Vec::new(alloc);
    for item in [
        ImplItem::Const(constant),
        ImplItem::Fn(function),
        ImplItem::Ty(alias),
    ] {
        value(rt, items.push(item).map_err(Error::from));
    }
    items
}

/// `default`, `const` and `unsafe` are before `impl`, `!` after the generics, and the where clause before the braces.
#[test]
fn whole(rt: HostRuntime) {
    let alloc = rt.alloc();
    let generics = generics(&rt, alloc, "<T>", "where T: C");
    let item = ItemImpl {
        attrs: attributes(&rt, alloc, "#[a]", "#![b]"),
        modifiers: ImplModifiers {
            defaultness: Some(part(&rt, alloc, "default")),
            constness: Some(part(&rt, alloc, "const")),
            polarity: Some(part(&rt, alloc, "!")),
        },
        unsafety: Some(part(&rt, alloc, "unsafe")),
        ..empty_impl(&rt, alloc, generics, of_trait(&rt, alloc), "B<T>")
    };
    let want = "# [ a ] default const unsafe impl < T > ! A for B < T > where T : C { # ! [ b ] }";
    assert_tree(&rt, alloc, item, want);
}

/// A constant, a function and a type.
#[test]
fn with_members(rt: HostRuntime) {
    let alloc = rt.alloc();
    let item = ItemImpl {
        items: members(&rt, alloc),
        ..empty_impl(&rt, alloc, Generics::empty(alloc), None, "A")
    };
    let want =
        "impl A { pub default const A : u8 = 1 ; unsafe extern \"C\" fn f < T > ( ) -> T where T : A { # ! [ b ] } type B < T > = T where T : C ; }";
    assert_tree(&rt, alloc, item, want);
}

/// Empty generics are printed where the self type would be read as generics.
#[test]
fn empty_generics(rt: HostRuntime) {
    let alloc = rt.alloc();
    let item = empty_impl(&rt, alloc, Generics::empty(alloc), None, "<T>::B");
    assert_tree(&rt, alloc, item, "impl < > < T > :: B { }");
    let generics: Generics = part(&rt, alloc, "<>");
    let item = empty_impl(&rt, alloc, generics, of_trait(&rt, alloc), "<T>::B");
    assert_tree(&rt, alloc, item, "impl < > A for < T > :: B { }");
    let generics: Generics = part(&rt, alloc, "<>");
    let item = empty_impl(&rt, alloc, generics, None, "<T as C>::B");
    assert_tree(&rt, alloc, item, "impl < T as C > :: B { }");
    let generics: Generics = part(&rt, alloc, "<>");
    let item = empty_impl(&rt, alloc, generics, None, "!");
    assert_tree(&rt, alloc, item, "impl ! { }");
}
