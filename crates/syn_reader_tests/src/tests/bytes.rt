//! Byte characters, byte strings and C strings.
use crate::tests::support::{Read, Refused, are_read, are_refused};
use syn_tokens::error::Result;

const READ: &[Read] = &[
    // characters
    ("b'a'", "Byteb'a'@0..4"),
    ("b' '", "Byteb' '@0..4"),
    ("b'\"'", "Byteb'\"'@0..4"),
    ("b'''", "Byteb'''@0..4"),
    ("b'\u{e9}'", "Byteb'\u{e9}'@0..5"),
    ("b'\\''", "Byteb'\\''@0..5"),
    ("b'\\\\'", "Byteb'\\\\'@0..5"),
    ("b'\\x41'", "Byteb'\\x41'@0..7"),
    ("b'a'u8", "Byteb'a'u8@0..6"),
    ("b'a'b'c'", "Byteb'a'b@0..5 Char'c'@5..8"),
    ("b'a'b", "Byteb'a'b@0..5"),
    ("b'a'1", "Byteb'a'@0..4 Int1@4..5"),
    ("+b'a'", "+@0..1 Byteb'a'@1..5"),
    // no character after the `b`
    ("b'a", "b@0..1 '+@1..2 a@2..3"),
    ("b'ab", "b@0..1 '+@1..2 ab@2..4"),
    ("b 'a'", "b@0..1 Char'a'@2..5"),
    ("bb'a'", "bb@0..2 Char'a'@2..5"),
    // byte strings
    ("b\"\"", "ByteStrb\"\"@0..3"),
    ("b\"a\"", "ByteStrb\"a\"@0..4"),
    ("b\"\\\"\"", "ByteStrb\"\\\"\"@0..5"),
    ("b\"\u{e9}\n\"", "ByteStrb\"\u{e9}\n\"@0..6"),
    ("b\"a\"b", "ByteStrb\"a\"b@0..5"),
    ("b\"a\"b\"c\"", "ByteStrb\"a\"b@0..5 Str\"c\"@5..8"),
    ("b \"a\"", "b@0..1 Str\"a\"@2..5"),
    ("bb\"a\"", "bb@0..2 Str\"a\"@2..5"),
    ("B\"a\"", "B@0..1 Str\"a\"@1..4"),
    // C strings
    ("c\"\"", "CStrc\"\"@0..3"),
    ("c\"a\\\"b\"", "CStrc\"a\\\"b\"@0..7"),
    ("c\"a\"c", "CStrc\"a\"c@0..5"),
    ("c \"a\"", "c@0..1 Str\"a\"@2..5"),
    ("cb\"a\"", "cb@0..2 Str\"a\"@2..5"),
    ("C\"a\"", "C@0..1 Str\"a\"@1..4"),
    // raw ones
    ("br\"\\\"", "ByteStrbr\"\\\"@0..5"),
    ("br#\"a\"#", "ByteStrbr#\"a\"#@0..7"),
    ("br##\"a\"#\"##", "ByteStrbr##\"a\"#\"##@0..11"),
    ("br\"a\"x", "ByteStrbr\"a\"x@0..6"),
    ("cr\"\\\"", "CStrcr\"\\\"@0..5"),
    ("cr#\"a\"#", "CStrcr#\"a\"#@0..7"),
    ("cr#\"\u{e9}\"#x1", "CStrcr#\"\u{e9}\"#x1@0..10"),
    ("br\"a\"#", "ByteStrbr\"a\"@0..5 #@5..6"),
    // no such sign
    ("rb\"a\"", "rb@0..2 Str\"a\"@2..5"),
    ("rc\"a\"", "rc@0..2 Str\"a\"@2..5"),
    ("brr\"a\"", "brr@0..3 Str\"a\"@3..6"),
    ("bc\"a\"", "bc@0..2 Str\"a\"@2..5"),
    ("br \"a\"", "br@0..2 Str\"a\"@3..6"),
    ("br#a", "br@0..2 #@2..3 a@3..4"),
    ("br# \"a\"", "br@0..2 #@2..3 Str\"a\"@4..7"),
];

const REFUSED: &[Refused] = &[
    ("b'\\", 0, "unterminated literal"),
    ("b'\\'", 0, "unterminated literal"),
    ("a b'\\a", 2, "unterminated literal"),
    ("b\"", 0, "unterminated literal"),
    ("b\"\\\"", 0, "unterminated literal"),
    ("c\"", 0, "unterminated literal"),
    ("\u{e9} c\"a\\", 3, "unterminated literal"),
    ("br\"", 0, "unterminated literal"),
    ("br#\"a\"", 0, "unterminated literal"),
    ("cr\"", 0, "unterminated literal"),
    ("cr##\"a\"#", 0, "unterminated literal"),
    ("( b\"a)", 2, "unterminated literal"),
    // `b`, and a `'` that begins nothing
    ("b'", 1, "unexpected character"),
    ("b''", 1, "unexpected character"),
    ("b''a'", 1, "unexpected character"),
    ("b'+", 1, "unexpected character"),
    ("b'ab'", 4, "unexpected character"),
    ("b''''", 4, "unexpected character"),
];

#[test]
fn reads(rt: HostRuntime) -> Result<()> {
    are_read(&rt, rt.alloc(), READ)
}

#[test]
fn refuses(rt: HostRuntime) -> Result<()> {
    are_refused(&rt, rt.alloc(), REFUSED)
}
