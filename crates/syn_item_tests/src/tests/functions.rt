//! Functions as items.
use crate::tests::signatures::signature;
use crate::tests::support::{assert_differ, assert_tree, attributes, part};
use std::alloc::Global;
use std::process::Abort;
use syn_item::function::ItemFn;
use syn_tokens::punctuated::Punctuated;
use syn_tree::item::FnModifiers;

/// A function with this body; `default` before it, or not.
fn function(rt: &impl Abort, alloc: Global, body: &str, is_default: bool) -> ItemFn {
    ItemFn {
        attrs: attributes(rt, alloc, "#[a]", "#![b]"),
        vis: part(rt, alloc, "pub"),
        modifiers: FnModifiers {
            defaultness: if is_default {
                Some(part(rt, alloc, "default"))
            } else {
                None
            },
        },
        sig: signature(rt, alloc, Punctuated::new(alloc), None),
        block: part(rt, alloc, body),
    }
}

/// Inner attributes are in the braces. Modifiers are not printed.
#[test]
fn whole(rt: HostRuntime) {
    let alloc = rt.alloc();
    let function = function(&rt, alloc, "{ g(1); }", true);
    let want =
        "# [ a ] pub unsafe extern \"C\" fn f < T > ( ) -> T where T : A { # ! [ b ] g ( 1 ) ; }";
    assert_tree(&rt, alloc, function, want);
}

/// Two differ by their bodies, and by modifiers.
#[test]
fn unlike(rt: HostRuntime) {
    let alloc = rt.alloc();
    let one = function(&rt, alloc, "{ 1 }", false);
    assert_differ(&rt, one, function(&rt, alloc, "{ 2 }", false));
    let one = function(&rt, alloc, "{ 1 }", false);
    assert_differ(&rt, one, function(&rt, alloc, "{ 1 }", true));
}
