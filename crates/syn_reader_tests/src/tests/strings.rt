//! Strings.
use crate::tests::support::{Read, Refused, are_read, are_refused};
use syn_tokens::error::Result;

const READ: &[Read] = &[
    ("\"\"", "Str\"\"@0..2"),
    ("\"a\"", "Str\"a\"@0..3"),
    (" \"a b\" ", "Str\"a b\"@1..6"),
    ("\"a\nb\r\n\"", "Str\"a\nb\r\n\"@0..7"),
    ("\"\u{e9}\u{1f600}\"", "Str\"\u{e9}\u{1f600}\"@0..8"),
    ("\"\u{0}\"", "Str\"\u{0}\"@0..3"),
    // nothing else begins within
    ("\"'\"", "Str\"'\"@0..3"),
    ("\"//\"", "Str\"//\"@0..4"),
    ("\"/*\"", "Str\"/*\"@0..4"),
    ("\"(\"", "Str\"(\"@0..3"),
    ("\"`\"", "Str\"`\"@0..3"),
    // a backslash takes the next character with it
    ("\"\\\"\"", "Str\"\\\"\"@0..4"),
    ("\"\\\\\"", "Str\"\\\\\"@0..4"),
    ("\"a\\\"b\"", "Str\"a\\\"b\"@0..6"),
    ("\"\\\\\\\"\"", "Str\"\\\\\\\"\"@0..6"),
    ("\"\\q\\u{}\"", "Str\"\\q\\u{}\"@0..8"),
    ("\"\\\n a\"", "Str\"\\\n a\"@0..6"),
    ("\"\\\u{e9}\"", "Str\"\\\u{e9}\"@0..5"),
    // suffixes
    ("\"a\"b", "Str\"a\"b@0..4"),
    ("\"a\"_", "Str\"a\"_@0..4"),
    ("\"a\"\u{e9}1+", "Str\"a\"\u{e9}1@0..6 +@6..7"),
    ("\"a\"b1 c", "Str\"a\"b1@0..5 c@6..7"),
    ("\"a\" b", "Str\"a\"@0..3 b@4..5"),
    ("\"a\"1", "Str\"a\"@0..3 Int1@3..4"),
    ("\"a\"/**/b", "Str\"a\"@0..3 b@7..8"),
    // a raw identifier is none, nor is what begins another literal
    ("\"a\"r#b", "Str\"a\"r@0..4 #@4..5 b@5..6"),
    ("\"a\"r\"b\"", "Str\"a\"r@0..4 Str\"b\"@4..7"),
    ("\"a\"b\"c\"", "Str\"a\"b@0..4 Str\"c\"@4..7"),
    ("\"a\"b'c'", "Str\"a\"b@0..4 Char'c'@4..7"),
    ("\"a\"'b", "Str\"a\"@0..3 '+@3..4 b@4..5"),
    // side by side
    ("\"a\"\"b\"", "Str\"a\"@0..3 Str\"b\"@3..6"),
    ("a\"b\"", "a@0..1 Str\"b\"@1..4"),
    ("1\"a\"", "Int1@0..1 Str\"a\"@1..4"),
    ("+\"a\"+", "+@0..1 Str\"a\"@1..4 +@4..5"),
];

const REFUSED: &[Refused] = &[
    ("\"", 0, "unterminated literal"),
    ("\"a", 0, "unterminated literal"),
    ("\"a\n", 0, "unterminated literal"),
    ("a \"", 2, "unterminated literal"),
    ("a\"", 1, "unterminated literal"),
    ("\"\\\"", 0, "unterminated literal"),
    ("\"\\", 0, "unterminated literal"),
    ("\"\\\\\\\"", 0, "unterminated literal"),
    ("\"a\" \"", 4, "unterminated literal"),
    ("\"a\"b\"", 4, "unterminated literal"),
    ("\u{e9} \"\u{e9}", 3, "unterminated literal"),
    ("\"'\\'", 0, "unterminated literal"),
    ("\" */ // \n )", 0, "unterminated literal"),
    // before what else is wrong
    ("( \"", 2, "unterminated literal"),
    ("(\"\"\")", 3, "unterminated literal"),
];

#[test]
fn reads(rt: HostRuntime) -> Result<()> {
    are_read(&rt, rt.alloc(), READ)
}

#[test]
fn refuses(rt: HostRuntime) -> Result<()> {
    are_refused(&rt, rt.alloc(), REFUSED)
}
