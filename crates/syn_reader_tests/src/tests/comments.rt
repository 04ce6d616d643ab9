//! Comments that are skipped.
use crate::tests::support::{Read, Refused, are_read, are_refused};
use syn_tokens::error::Result;

const READ: &[Read] = &[
    // to the end of the line
    ("//", ""),
    ("// a", ""),
    ("a // b", "a@0..1"),
    ("a//b\nc", "a@0..1 c@5..6"),
    ("//\n//\n", ""),
    ("//\\\na", "a@4..5"),
    ("// \u{e9}\na", "a@6..7"),
    // a line ends before a line feed alone
    ("// a\r\nb", "b@6..7"),
    ("// a\rb", ""),
    ("// a\u{85}b\u{2028}c", ""),
    // no other signs within
    ("// /*\na", "a@6..7"),
    ("// \"\na", "a@5..6"),
    ("//*\na", "a@4..5"),
    ("// ///\na", "a@7..8"),
    ("// )\na", "a@5..6"),
    // more than three signs, and signs that are apart
    ("////", ""),
    ("//// a", ""),
    ("/////", ""),
    ("////!", ""),
    ("// / a", ""),
    ("// ! a", ""),
    // from sign to sign
    ("/**/", ""),
    ("/**/a", "a@4..5"),
    ("/* a */b", "b@7..8"),
    ("a/*\n*/b", "a@0..1 b@6..7"),
    ("/*a*//*b*/c", "c@10..11"),
    ("/* \u{e9} */a", "a@8..9"),
    ("/* \" */a", "a@7..8"),
    ("/* // */a", "a@8..9"),
    ("/* ( */a", "a@7..8"),
    ("/* * / */a", "a@9..10"),
    ("/***/a", "a@5..6"),
    ("/***a*/b", "b@7..8"),
    ("/****/a", "a@6..7"),
    ("/*** a */b", "b@9..10"),
    ("/* ! */a", "a@7..8"),
    // nested
    ("/* /* */ */a", "a@11..12"),
    ("/*/**/*/a", "a@8..9"),
    ("/*/*/**/*/*/a", "a@12..13"),
    ("/* /** */ */a", "a@12..13"),
    // after what does not nest
    ("/**/*/", "*+@4..5 /@5..6"),
    ("/*a*/*/", "*+@5..6 /@6..7"),
    // what a comment parts is not Joint
    ("+/**/+", "+@0..1 +@5..6"),
    ("+//\n+", "+@0..1 +@4..5"),
    ("a/**/b", "a@0..1 b@5..6"),
    ("1/**/.5", "Int1@0..1 .@5..6 Int5@6..7"),
];

const REFUSED: &[Refused] = &[
    ("/*", 0, "unterminated comment"),
    ("a /*", 2, "unterminated comment"),
    ("/*/", 0, "unterminated comment"),
    ("/* *", 0, "unterminated comment"),
    ("/* * /", 0, "unterminated comment"),
    ("/* /* */", 0, "unterminated comment"),
    ("/*/*/", 0, "unterminated comment"),
    ("/* // \n", 0, "unterminated comment"),
    ("\u{e9}/* \u{e9}", 2, "unterminated comment"),
    ("+/*", 1, "unterminated comment"),
    ("/**", 0, "unterminated comment"),
    ("/***", 0, "unterminated comment"),
    ("/*!", 0, "unterminated comment"),
    ("/*!/", 0, "unterminated comment"),
    ("/** /* */", 0, "unterminated comment"),
    // before what else is wrong
    ("( /*", 2, "unterminated comment"),
    ("/* \"", 0, "unterminated comment"),
];

#[test]
fn reads(rt: HostRuntime) -> Result<()> {
    are_read(&rt, rt.alloc(), READ)
}

#[test]
fn refuses(rt: HostRuntime) -> Result<()> {
    are_refused(&rt, rt.alloc(), REFUSED)
}
