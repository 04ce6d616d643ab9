//! Copies and equality of parts that no text is by itself.
use crate::tests::asserts::{assert_text, tree_of, value};
use crate::tests::handmade::{segment, signs};
use std::alloc::Global;
use std::process::Abort;
use syn::TryClone;
use syn::data::Fields;
use syn::derive::{Data, DataStruct, DeriveInput};
use syn::lower::{Generics, PathArguments};
use syn::restriction::{VisRestricted, Visibility};
use syn_test_support::outline::{Outlined, outline};
use syn_tokens::syntactic::compare::Compared;

/// Whether both are the same, by both ways to ask that.
fn are_same<T: Compared + PartialEq>(left: &T, right: &T) -> bool {
    left == right && left.is_same(right)
}

/// Whether neither way to ask says that both are the same.
fn are_different<T: Compared + PartialEq>(left: &T, right: &T) -> bool {
    left != right && !left.is_same(right)
}

/// Fails where the tree's copy isn't the same as it, spans included, or is the same as the other tree.
fn assert_copied<T: TryClone + Compared + PartialEq + Outlined + Drop>(
    rt: &impl Abort,
    alloc: Global,
    tree: &T,
    other: &T,
) {
    let copy = value(rt, tree.try_clone(alloc));
    assert!(rt; are_same(&copy, tree) && are_different(&copy, other));
    let want = value(rt, outline(alloc, tree));
    assert_text(rt, outline(alloc, &copy), want.as_str());
}

/// What the struct has of its own.
fn data(input: &DeriveInput) -> Option<&DataStruct> {
    match &input.shape {
        Data::Struct(data) => Some(data),
        _ => None,
    }
}

#[test]
fn shapes(rt: HostRuntime) {
    let alloc = rt.alloc();
    let tree: DeriveInput = tree_of(&rt, alloc, "pub struct S(pub(in a::b) ::c, d,);");
    let other: DeriveInput = tree_of(&rt, alloc, "struct S(pub c);");
    assert_copied(&rt, alloc, &tree.shape, &other.shape);
    let of_tree = data(&tree).expect(&rt, "a struct");
    let of_other = data(&other).expect(&rt, "a struct");
    assert_copied(&rt, alloc, of_tree, of_other);
}

/// No fields, and some.
#[test]
fn no_fields(rt: HostRuntime) {
    let fields = Fields::Unnamed(tree_of(&rt, rt.alloc(), "(a)"));
    assert_copied(&rt, rt.alloc(), &Fields::Unit, &fields);
}

/// The restriction of a visibility.
fn restriction(vis: &Visibility) -> Option<&VisRestricted> {
    match vis {
        Visibility::Restricted(restricted) => Some(restricted),
        _ => None,
    }
}

#[test]
fn restrictions(rt: HostRuntime) {
    let vis: Visibility = tree_of(&rt, rt.alloc(), "pub(in a::b)");
    let other: Visibility = tree_of(&rt, rt.alloc(), "pub(self)");
    let restricted = restriction(&vis).expect(&rt, "a restriction");
    let of_other = restriction(&other).expect(&rt, "a restriction");
    assert_copied(&rt, rt.alloc(), restricted, of_other);
}

/// A word of a path, and no arguments.
#[test]
fn segments(rt: HostRuntime) {
    let a = segment(&rt, rt.alloc(), "a");
    let b = segment(&rt, rt.alloc(), "b");
    assert_copied(&rt, rt.alloc(), &a, &b);
    let none = PathArguments::None;
    let copy = value(&rt, none.try_clone(rt.alloc()));
    assert!(rt; are_same(&copy, &none));
}

#[test]
fn generics(rt: HostRuntime) {
    let empty = Generics::empty(rt.alloc());
    let signs = signs(rt.alloc());
    assert_copied(&rt, rt.alloc(), &signs, &empty);
    assert_copied(&rt, rt.alloc(), &empty, &signs);
}
