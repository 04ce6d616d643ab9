//! White space.
use crate::tests::support::{Read, Refused, are_read, are_refused};
use syn_tokens::error::Result;

const READ: &[Read] = &[
    ("", ""),
    (" \t\n\r ", ""),
    (" ab  c ", "ab@1..3 c@5..6"),
    ("a\nb\r\nc\rd", "a@0..1 b@2..3 c@5..6 d@7..8"),
    // all that Unicode calls white space
    ("a\tb\u{b}c\u{c}d", "a@0..1 b@2..3 c@4..5 d@6..7"),
    ("a\u{85}b\u{a0}c", "a@0..1 b@3..4 c@6..7"),
    ("a\u{1680}b\u{2000}c", "a@0..1 b@4..5 c@8..9"),
    ("a\u{2005}b\u{200a}c", "a@0..1 b@4..5 c@8..9"),
    ("a\u{2028}b\u{2029}c", "a@0..1 b@4..5 c@8..9"),
    ("a\u{202f}b\u{205f}c", "a@0..1 b@4..5 c@8..9"),
    ("\u{3000}a", "a@3..4"),
    // it parts what would else be one token, or would else be Joint
    ("a b", "a@0..1 b@2..3"),
    (": :", ":@0..1 :@2..3"),
    ("1 .5", "Int1@0..1 .@2..3 Int5@3..4"),
    ("b 'a'", "b@0..1 Char'a'@2..5"),
    ("r \"a\"", "r@0..1 Str\"a\"@2..5"),
];

const REFUSED: &[Refused] = &[
    ("a\u{0}", 1, "unexpected character"),
    ("\u{8}", 0, "unexpected character"),
    ("a \u{1c}", 2, "unexpected character"),
    ("\u{180e}", 0, "unexpected character"),
    // what joins and directs text, and the byte order mark
    ("\u{200b}", 0, "unexpected character"),
    ("\u{200e}a", 0, "unexpected character"),
    ("a \u{200f}", 2, "unexpected character"),
    ("\u{feff}a", 0, "unexpected character"),
];

#[test]
fn reads(rt: HostRuntime) -> Result<()> {
    are_read(&rt, rt.alloc(), READ)
}

#[test]
fn refuses(rt: HostRuntime) -> Result<()> {
    are_refused(&rt, rt.alloc(), REFUSED)
}
