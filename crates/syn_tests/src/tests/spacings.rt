//! Marks with other spacings than a text has.
use crate::tests::asserts::{assert_printed, value};
use std::alloc::Global;
use syn::canon::Stmts;
use syn::parse::parse2;
use syn::reader::read_tokens;
use syn::token::{Spacing, StreamBuilder, TokenStream};
use syn::{Item, Result, Span};

/// The tokens of the first text, these characters with one spacing, and the tokens of the second text.
fn spaced(
    alloc: Global,
    texts: (&str, &str),
    characters: [char; 2],
    spacing: Spacing,
) -> Result<TokenStream> {
    let mut out = StreamBuilder::new(alloc);
    out.append(&read_tokens(alloc, texts.0)?)?;
    for character in characters {
        out.add_punct(character, spacing, Span::call_site())?;
    }
    out.append(&read_tokens(alloc, texts.1)?)?;
    out.finish()
}

/// Of a mark the spacing of the last character doesn't matter, and that of the others does.
#[test]
fn marks(rt: HostRuntime) {
    let alloc = rt.alloc();
    for (spacing, want) in [(Spacing::Joint, "a && b"), (Spacing::Alone, "a & & b")] {
        let tokens = value(&rt, spaced(alloc, ("a", "b"), ['&', '&'], spacing));
        let statements: Stmts = value(&rt, parse2(tokens));
        assert_printed(&rt, alloc, statements, want);
    }
    let joint = value(
        &rt,
        spaced(alloc, ("use a", "b;"), [':', ':'], Spacing::Joint),
    );
    assert_printed(
        &rt,
        alloc,
        value(&rt, parse2::<Item>(joint)),
        "use a :: b ;",
    );
    let apart = value(
        &rt,
        spaced(alloc, ("use a", "b;"), [':', ':'], Spacing::Alone),
    );
    assert!(rt; parse2::<Item>(apart).is_err());
}
