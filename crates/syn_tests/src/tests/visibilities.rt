//! Visibilities of tokens made by hand.
use crate::tests::asserts::{assert_printed, grouped, tokens_of, value};
use std::alloc::Global;
use std::process::Abort;
use syn::parse::{ParseBuffer, parse2};
use syn::restriction::Visibility;
use syn::token::{Delimiter, TokenStream};
use syn::{Result, Variant};
use syn_test_support::{fault, push_group, push_ident};

/// `pub` and a group that holds this identifier.
fn restricted_by(rt: &impl Abort, alloc: Global, delimiter: Delimiter, text: &str) -> TokenStream {
    let mut content = TokenStream::new(alloc);
    value(rt, push_ident(&mut content, text));
    let mut tokens = tokens_of(rt, alloc, "pub");
    value(rt, push_group(&mut tokens, delimiter, content));
    tokens
}

/// What kind of visibility it is.
fn kind(vis: &Visibility) -> &'static str {
    match vis {
        Visibility::Public(_) => "public",
        Visibility::Restricted(_) => "restricted",
        Visibility::Inherited => "inherited",
    }
}

/// Fails where the visibility at the front of the stream is of another kind, or is all of it and shouldn't be, or the other way
/// round.
fn assert_front(rt: &impl Abort, tokens: TokenStream, want: &str, is_whole: bool) {
    let mut input = ParseBuffer::new(&tokens);
    let vis: Visibility = value(rt, input.parse());
    let found = kind(&vis);
    assert!(rt;
        found == want && input.is_empty() == is_whole,
        "{found}, not {want}, and all of it: {is_whole}"
    );
}

/// A raw identifier is no word of the language, and a group without delimiters is no parentheses.
#[test]
fn by_hand(rt: HostRuntime) {
    for (delimiter, text, want, is_whole) in [
        (Delimiter::Paren, "crate", "restricted", true),
        (Delimiter::Paren, "r#crate", "public", false),
        (Delimiter::Paren, "r#self", "public", false),
        (Delimiter::Brace, "crate", "public", false),
        (Delimiter::None, "crate", "public", false),
    ] {
        let tokens = restricted_by(&rt, rt.alloc(), delimiter, text);
        assert_front(&rt, tokens, want, is_whole);
    }
}

/// The whole is refused then.
#[test]
fn whole_by_hand(rt: HostRuntime) {
    for (delimiter, text) in [(Delimiter::Paren, "r#crate"), (Delimiter::None, "crate")] {
        let tokens = restricted_by(&rt, rt.alloc(), delimiter, text);
        let missed = value(&rt, fault(parse2::<Visibility>(tokens)));
        assert!(rt; missed.text == "unexpected token", "{text}");
    }
}

/// An invisible group is a visibility where it holds nothing; any other is left.
#[test]
fn invisible_groups(rt: HostRuntime) {
    for (text, is_whole) in [("", true), ("a", false), ("pub", false), ("()", false)] {
        let tokens = grouped(&rt, rt.alloc(), "", Delimiter::None, text);
        assert_front(&rt, tokens, "inherited", is_whole);
    }
}

/// A variant whose name follows an invisible group.
fn variant_after(rt: &impl Abort, alloc: Global, text: &str) -> Result<Variant> {
    let mut tokens = grouped(rt, alloc, "", Delimiter::None, text);
    value(rt, push_ident(&mut tokens, "A"));
    parse2(tokens)
}

#[test]
fn variants_after_groups(rt: HostRuntime) {
    let variant = value(&rt, variant_after(&rt, rt.alloc(), ""));
    assert_printed(&rt, rt.alloc(), variant, "A");
    let variant = value(&rt, variant_after(&rt, rt.alloc(), "pub"));
    assert_printed(&rt, rt.alloc(), variant, "A");
    let missed = value(&rt, fault(variant_after(&rt, rt.alloc(), "1")));
    assert!(rt; missed.text == "expected identifier");
}
