//! Characters.
use crate::tests::support::{Read, Refused, are_read, are_refused};
use syn_tokens::error::Result;

const READ: &[Read] = &[
    ("'a'", "Char'a'@0..3"),
    ("'_'", "Char'_'@0..3"),
    ("'1'", "Char'1'@0..3"),
    ("' '", "Char' '@0..3"),
    ("'('", "Char'('@0..3"),
    ("'\"'", "Char'\"'@0..3"),
    ("'/'", "Char'/'@0..3"),
    ("'#'", "Char'#'@0..3"),
    ("'\n'", "Char'\n'@0..3"),
    ("'\u{0}'", "Char'\u{0}'@0..3"),
    ("'\u{e9}'", "Char'\u{e9}'@0..4"),
    ("'\u{301}'", "Char'\u{301}'@0..4"),
    ("'\u{1f600}'", "Char'\u{1f600}'@0..6"),
    // one that is `'`
    ("'''", "Char'''@0..3"),
    ("'''a", "Char'''a@0..4"),
    // a backslash takes the next character with it, and the end is the next `'`
    ("'\\''", "Char'\\''@0..4"),
    ("'\\\\'", "Char'\\\\'@0..4"),
    ("'\\n'", "Char'\\n'@0..4"),
    ("'\\q'", "Char'\\q'@0..4"),
    ("'\\x41'", "Char'\\x41'@0..6"),
    ("'\\u{1F}'", "Char'\\u{1F}'@0..8"),
    ("'\\\u{e9}'", "Char'\\\u{e9}'@0..5"),
    ("'\\\n'", "Char'\\\n'@0..4"),
    ("'\\ab\\'c'", "Char'\\ab\\'c'@0..8"),
    // suffixes
    ("'a'b", "Char'a'b@0..4"),
    ("'a'_", "Char'a'_@0..4"),
    ("'a'u8 b", "Char'a'u8@0..5 b@6..7"),
    ("'\\n'\u{e9}1", "Char'\\n'\u{e9}1@0..7"),
    ("'a' b", "Char'a'@0..3 b@4..5"),
    ("'a'1", "Char'a'@0..3 Int1@3..4"),
    ("'a'r#b", "Char'a'r@0..4 #@4..5 b@5..6"),
    // side by side
    ("'a''b'", "Char'a'@0..3 Char'b'@3..6"),
    ("'a'b'c'", "Char'a'b@0..4 Char'c'@4..7"),
    ("'a'\"b\"", "Char'a'@0..3 Str\"b\"@3..6"),
    ("'a'.b", "Char'a'@0..3 .@3..4 b@4..5"),
    // after what is no byte's sign
    ("c'a'", "c@0..1 Char'a'@1..4"),
    ("r'a'", "r@0..1 Char'a'@1..4"),
    ("br'a'", "br@0..2 Char'a'@2..5"),
    ("B'a'", "B@0..1 Char'a'@1..4"),
];

const REFUSED: &[Refused] = &[
    ("'\\", 0, "unterminated literal"),
    ("'\\'", 0, "unterminated literal"),
    ("'\\a", 0, "unterminated literal"),
    ("'\\a\n\"", 0, "unterminated literal"),
    ("'\\\\\\'", 0, "unterminated literal"),
    ("a '\\", 2, "unterminated literal"),
    ("\u{e9}'\\", 2, "unterminated literal"),
    ("&'\\", 1, "unterminated literal"),
    ("( '\\a )", 2, "unterminated literal"),
    // a character, and after it a `'` that begins nothing
    ("''''", 3, "unexpected character"),
    ("'a'b'", 4, "unexpected character"),
    ("'a''", 3, "unexpected character"),
];

#[test]
fn reads(rt: HostRuntime) -> Result<()> {
    are_read(&rt, rt.alloc(), READ)
}

#[test]
fn refuses(rt: HostRuntime) -> Result<()> {
    are_refused(&rt, rt.alloc(), REFUSED)
}
