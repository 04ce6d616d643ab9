//! Identifiers, raw ones, and lifetimes.
use crate::tests::support::{Read, Refused, are_read, are_refused};
use std::alloc::Global;
use syn_reader::reader::read_tokens;
use syn_tokens::error::Result;
use syn_tokens::span::Span;
use syn_tokens::stream::TokenStream;
use syn_tokens::stream::entry::{Entry, Token};

const READ: &[Read] = &[
    ("a", "a@0..1"),
    ("_", "_@0..1"),
    ("__a1", "__a1@0..4"),
    ("struct Self true", "struct@0..6 Self@7..11 true@12..16"),
    ("u8", "u8@0..2"),
    ("_1", "_1@0..2"),
    // by the tables of Unicode
    ("\u{e9}a \u{3b1}", "\u{e9}a@0..3 \u{3b1}@4..6"),
    ("a\u{301}b", "a\u{301}b@0..4"),
    ("a\u{b7}", "a\u{b7}@0..3"),
    ("a\u{661}", "a\u{661}@0..3"),
    ("\u{2118}", "\u{2118}@0..3"),
    ("\u{65e5}\u{672c}", "\u{65e5}\u{672c}@0..6"),
    ("\u{20000}", "\u{20000}@0..4"),
    ("_\u{301}", "_\u{301}@0..3"),
    // raw
    ("r#a", "r#a@0..3"),
    ("r#a1_", "r#a1_@0..5"),
    ("r#struct", "r#struct@0..8"),
    ("r#self r#_", "r#self@0..6 r#_@7..10"),
    ("r#\u{e9}", "r#\u{e9}@0..4"),
    ("r#r", "r#r@0..3"),
    ("r#r#a", "r#r@0..3 #@3..4 a@4..5"),
    ("r#r\"a\"", "r#r@0..3 Str\"a\"@3..6"),
    // not raw
    ("r", "r@0..1"),
    ("r#", "r@0..1 #@1..2"),
    ("r# a", "r@0..1 #@1..2 a@3..4"),
    ("r #a", "r@0..1 #@2..3 a@3..4"),
    ("r#1", "r@0..1 #@1..2 Int1@2..3"),
    ("r##a", "r@0..1 #+@1..2 #@2..3 a@3..4"),
    ("R#a", "R@0..1 #@1..2 a@2..3"),
    ("b#a", "b@0..1 #@1..2 a@2..3"),
    ("rr#a", "rr@0..2 #@2..3 a@3..4"),
    ("_r#a", "_r@0..2 #@2..3 a@3..4"),
    // what begins as a literal might
    ("b", "b@0..1"),
    ("rb cr br", "rb@0..2 cr@3..5 br@6..8"),
    ("br#x", "br@0..2 #@2..3 x@3..4"),
    ("cr##x", "cr@0..2 #+@2..3 #@3..4 x@4..5"),
    // lifetimes
    ("'a", "'+@0..1 a@1..2"),
    ("'_", "'+@0..1 _@1..2"),
    ("'static", "'+@0..1 static@1..7"),
    ("'\u{e9}", "'+@0..1 \u{e9}@1..3"),
    ("'r#a", "'+@0..1 r#a@1..4"),
    ("'a1 'b", "'+@0..1 a1@1..3 '+@4..5 b@5..6"),
    ("a'b", "a@0..1 '+@1..2 b@2..3"),
    ("1'a", "Int1@0..1 '+@1..2 a@2..3"),
    ("'a\u{301}", "'+@0..1 a\u{301}@1..4"),
    ("&'a b", "&+@0..1 '+@1..2 a@2..3 b@4..5"),
    ("<'a>", "<+@0..1 '+@1..2 a@2..3 >@3..4"),
    ("'a: 'b", "'+@0..1 a@1..2 :@2..3 '+@4..5 b@5..6"),
];

const REFUSED: &[Refused] = &[
    // what continues a name, but begins none
    ("\u{301}a", 0, "unexpected character"),
    ("\u{661}", 0, "unexpected character"),
    ("\u{b7}", 0, "unexpected character"),
    ("r#\u{301}", 2, "unexpected character"),
    // what belongs to no name
    ("a\u{20ac}", 1, "unexpected character"),
    ("\u{e9}\u{20ac}", 2, "unexpected character"),
    ("\u{1f600}", 0, "unexpected character"),
    ("a\u{1f600}", 1, "unexpected character"),
    // `'` followed by neither a character nor a name
    ("'", 0, "unexpected character"),
    ("a'", 1, "unexpected character"),
    ("' a", 0, "unexpected character"),
    ("'+", 0, "unexpected character"),
    ("'1", 0, "unexpected character"),
    ("'(", 0, "unexpected character"),
    ("'//", 0, "unexpected character"),
    ("'\u{301}a", 0, "unexpected character"),
    ("''", 0, "unexpected character"),
    ("''a'", 0, "unexpected character"),
    ("'ab'", 3, "unexpected character"),
    ("'a\u{301}'", 4, "unexpected character"),
];

#[test]
fn reads(rt: HostRuntime) -> Result<()> {
    are_read(&rt, rt.alloc(), READ)
}

#[test]
fn refuses(rt: HostRuntime) -> Result<()> {
    are_refused(&rt, rt.alloc(), REFUSED)
}

/// More names than the reader keeps.
const MANY: usize = 3000;

/// `n0 same n0 n1 same n1`, and so on.
fn many_names(alloc: Global) -> Result<String> {
    let mut text = String::new(alloc);
    for number in 0..MANY {
        write!(text, "n{number} same n{number} ")?;
    }
    Ok(text)
}

/// The name that is at this place of them.
fn name_at(alloc: Global, place: usize) -> Result<String> {
    let number = place / 3;
    match place % 3 {
        1 => Ok(String::from_str(alloc, "same")?),
        _ => Ok(format!(in alloc; "n{number}")?),
    }
}

/// Whether the entry is this identifier, there.
fn is_name(entry: &Entry, text: &str, span: Span) -> bool {
    match entry.token() {
        Token::Ident(ident) => ident.text() == text && ident.span == span,
        _ => false,
    }
}

/// Whether all of the names are there, with one byte between them.
fn are_names(tokens: &TokenStream) -> Result<bool> {
    let mut start: usize = 0;
    for (place, entry) in tokens.entries().iter().enumerate() {
        let name = name_at(tokens.alloc(), place)?;
        let end = start.saturating_add(name.len());
        if !is_name(entry, name.as_str(), Span { start, end }) {
            return Ok(false);
        }
        start = end.saturating_add(1);
    }
    Ok(true)
}

/// Names that come again have their text and a span of their own.
#[test]
fn again(rt: HostRuntime) -> Result<()> {
    let tokens = read_tokens(rt.alloc(), many_names(rt.alloc())?.as_str())?;
    assert_eq!(rt; tokens.len(), 3 * MANY);
    assert!(rt; are_names(&tokens)?);
    Ok(())
}
