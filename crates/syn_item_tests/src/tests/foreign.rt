//! Foreign modules and their members.
use crate::tests::signatures::signature;
use crate::tests::support::{assert_tree, attributes, braces, name, part, value};
use std::alloc::Global;
use std::process::Abort;
use syn_item::foreign::{
    ForeignItem, ForeignItemFn, ForeignItemMacro, ForeignItemStatic, ForeignItemType,
    ItemForeignMod,
};
use syn_item::sig::{Abi, Safety};
use syn_item::simple::StaticMutability;
use syn_lower::Generics;
use syn_tokens::error::Error;
use syn_tokens::punctuated::Punctuated;
use syn_tree::item::{FnModifiers, TypeModifiers};

/// The members of a foreign module.
fn members(rt: &impl Abort, alloc: Global) -> Vec<ForeignItem> {
    let function = ForeignItemFn {
        attrs: Vec::new(alloc),
        vis: part(rt, alloc, "pub"),
        modifiers: FnModifiers::default(),
        sig: signature(rt, alloc, Punctuated::new(alloc), None),
        semi_token: part(rt, alloc, ";"),
    };
    let variable = ForeignItemStatic {
        attrs: Vec::new(alloc),
        vis: part(rt, alloc, ""),
        safety: Safety::Safe(part(rt, alloc, "safe")),
        static_token: part(rt, alloc, "static"),
        mutability: StaticMutability::Mut(part(rt, alloc, "mut")),
        ident: name(rt, alloc, "A"),
        colon_token: part(rt, alloc, ":"),
        ty: part(rt, alloc, "u8"),
        semi_token: part(rt, alloc, ";"),
    };
    let alias = ForeignItemType {
        attrs: Vec::new(alloc),
        vis: part(rt, alloc, ""),
        modifiers: TypeModifiers::default(),
        type_token: part(rt, alloc, "type"),
        ident: name(rt, alloc, "B"),
        generics: Generics::empty(alloc),
        semi_token: part(rt, alloc, ";"),
    };
    let mac = ForeignItemMacro {
        attrs: Vec::new(alloc),
        mac: part(rt, alloc, "m! {}"),
        semi_token: None,
    };
    let mut items = Vec::new(alloc);
    for item in [
        ForeignItem::Fn(function),
        ForeignItem::Static(variable),
        ForeignItem::Ty(alias),
        ForeignItem::Macro(mac),
    ] {
        value(rt, items.push(item).map_err(Error::from));
    }
    items
}

/// Members of every kind.
#[test]
fn whole(rt: HostRuntime) {
    let alloc = rt.alloc();
    let module = ItemForeignMod {
        attrs: attributes(&rt, alloc, "#[a]", "#![b]"),
        unsafety: Some(part(&rt, alloc, "unsafe")),
        abi: Abi {
            extern_token: part(&rt, alloc, "extern"),
            name: None,
        },
        brace_token: braces(),
        items: members(&rt, alloc),
    };
    let want =
        "# [ a ] unsafe extern { # ! [ b ] pub unsafe extern \"C\" fn f < T > ( ) -> T where T : A ; safe static mut A : u8 ; type B ; m ! { } }";
    assert_tree(&rt, alloc, module, want);
}
