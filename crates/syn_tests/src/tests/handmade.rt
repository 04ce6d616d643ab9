//! Prints of trees that no text gives: parts that are printed though the tree lacks them, and parts that aren't printed.
use crate::tests::asserts::{assert_print_shown, assert_printed, assert_text, tree_of, value};
use std::alloc::Global;
use std::process::Abort;
use syn::data::Fields;
use syn::derive::{Data, DataStruct, DeriveInput};
use syn::lower::{Generics, Path, PathArguments, PathSegment};
use syn::print::ToTokens;
use syn::punctuated::Punctuated;
use syn::restriction::{VisRestricted, Visibility};
use syn::token::{Gt, Ident, Lt, Paren, PathSep, Pub, Semi, Struct, TokenStream};
use syn_test_support::outline::outline;
use syn_test_support::span;

/// A word of a path, at 0 to 1.
pub fn segment(rt: &impl Abort, alloc: Global, text: &str) -> PathSegment {
    PathSegment {
        ident: value(rt, Ident::new(alloc, text, span(0, 1))),
        arguments: PathArguments::None,
    }
}

/// The path of one word.
fn word_path(rt: &impl Abort, alloc: Global, text: &str) -> Path {
    let mut segments = Punctuated::new(alloc);
    value(rt, segments.push_value(segment(rt, alloc, text)));
    Path {
        leading_colon: None,
        segments,
    }
}

/// `struct S;`, at 0 to 1.
fn unit_struct(
    rt: &impl Abort,
    alloc: Global,
    generics: Generics,
    semi_token: Option<Semi>,
) -> DeriveInput {
    DeriveInput {
        attrs: Vec::new(alloc),
        vis: Visibility::Inherited,
        ident: value(rt, Ident::new(alloc, "S", span(0, 1))),
        generics,
        shape: Data::Struct(DataStruct {
            struct_token: Struct::new(span(0, 1)),
            fields: Fields::Unit,
            semi_token,
        }),
    }
}

#[test]
fn absent_semicolon(rt: HostRuntime) {
    let alloc = rt.alloc();
    let none = unit_struct(&rt, alloc, Generics::empty(alloc), None);
    assert_print_shown(&rt, alloc, none, "struct@0..1 S@0..1 ;@0..0");
    let semi = Semi::new([span(4, 5)]);
    let some = unit_struct(&rt, alloc, Generics::empty(alloc), Some(semi));
    assert_print_shown(&rt, alloc, some, "struct@0..1 S@0..1 ;@4..5");
}

/// `<` and `>`, without parameters.
pub fn signs(alloc: Global) -> Generics {
    Generics {
        lt_token: Some(Lt::new([span(1, 2)])),
        params: Punctuated::new(alloc),
        gt_token: Some(Gt::new([span(2, 3)])),
        where_clause: None,
    }
}

/// `<` and `>` without parameters aren't printed.
#[test]
fn empty_generics(rt: HostRuntime) {
    let signed = unit_struct(&rt, rt.alloc(), signs(rt.alloc()), None);
    let want = "Inherited S@0..1 <@1..2 >@2..3 struct@0..1 Unit";
    assert_text(&rt, outline(rt.alloc(), &signed), want);
    assert_printed(&rt, rt.alloc(), signed, "struct S ;");
}

/// A path without words.
fn wordless(alloc: Global, leading_colon: Option<PathSep>) -> Path {
    Path {
        leading_colon,
        segments: Punctuated::new(alloc),
    }
}

#[test]
fn no_segments(rt: HostRuntime) {
    let alloc = rt.alloc();
    assert_print_shown(&rt, alloc, wordless(alloc, None), "");
    let sep = PathSep::new([span(0, 1), span(1, 2)]);
    let colons = wordless(alloc, Some(sep));
    assert_print_shown(&rt, alloc, colons, ":+@0..1 :@1..2");
}

/// A path that ends with `::` prints it.
#[test]
fn trailing_separator(rt: HostRuntime) {
    let mut path = word_path(&rt, rt.alloc(), "a");
    if path.segments.trailing_value().is_some() {
        let sep = PathSep::new([span(1, 2), span(2, 3)]);
        value(&rt, path.segments.push_punct(sep));
    }
    assert_print_shown(&rt, rt.alloc(), path, "a@0..1 :+@1..2 :@2..3");
}

/// A word of a path prints itself; no arguments and no fields print nothing.
#[test]
fn small_parts(rt: HostRuntime) {
    let alloc = rt.alloc();
    assert_print_shown(&rt, alloc, segment(&rt, alloc, "a"), "a@0..1");
    assert_print_shown(&rt, alloc, PathArguments::None, "");
    assert_printed(&rt, alloc, Fields::Unit, "");
}

/// `pub` and a path in parentheses, without `in`.
fn restricted(rt: &impl Abort, alloc: Global) -> VisRestricted {
    VisRestricted {
        pub_token: Pub::default(),
        paren_token: Paren::new(span(3, 4), span(8, 9)),
        in_token: None,
        path: value(rt, Box::new(alloc, tree_of(rt, alloc, "a::b"))),
    }
}

/// A restriction without `in` prints the path that it holds, whichever that is.
#[test]
fn restriction(rt: HostRuntime) {
    let alloc = rt.alloc();
    assert_printed(&rt, alloc, restricted(&rt, alloc), "pub ( a :: b )");
    let vis = Visibility::Restricted(restricted(&rt, alloc));
    let want = "pub@0..0 (@3..4 a@0..1 :+@1..2 :@2..3 b@3..4 )@8..9";
    assert_print_shown(&rt, alloc, vis, want);
}

/// Adds what the tree prints.
fn add<T: ToTokens + Drop>(rt: &impl Abort, tokens: &mut TokenStream, tree: T) {
    value(rt, tree.to_tokens(tokens));
}

/// A print goes after what is in the stream.
#[test]
fn appended(rt: HostRuntime) {
    let alloc = rt.alloc();
    let mut tokens = TokenStream::new(alloc);
    add(&rt, &mut tokens, word_path(&rt, alloc, "a"));
    let input = unit_struct(&rt, alloc, Generics::empty(alloc), None);
    add(&rt, &mut tokens, input);
    add(&rt, &mut tokens, Visibility::Inherited);
    let want = "a@0..1 struct@0..1 S@0..1 ;@0..0";
    assert_text(&rt, outline(alloc, &tokens), want);
}
