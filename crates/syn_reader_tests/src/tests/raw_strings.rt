//! Raw strings.
use crate::tests::support::{Read, Refused, are_read, are_refused, shown};
use std::alloc::Global;
use syn_tokens::error::Result;

const READ: &[Read] = &[
    ("r\"\"", "Strr\"\"@0..3"),
    ("r\"a\"", "Strr\"a\"@0..4"),
    ("r\"\u{e9}\n\"", "Strr\"\u{e9}\n\"@0..6"),
    // a backslash is a character like others
    ("r\"\\\"", "Strr\"\\\"@0..4"),
    ("r#\"\\\"#", "Strr#\"\\\"#@0..6"),
    // a quote followed by fewer `#` is one, too
    ("r#\"\"#", "Strr#\"\"#@0..5"),
    ("r#\"a\"#", "Strr#\"a\"#@0..6"),
    ("r#\"\"\"#", "Strr#\"\"\"#@0..6"),
    ("r##\"a\"#b\"##", "Strr##\"a\"#b\"##@0..11"),
    ("r##\"\"#\"##", "Strr##\"\"#\"##@0..9"),
    ("r####\"a\"###\"####", "Strr####\"a\"###\"####@0..16"),
    ("r\"a\"#", "Strr\"a\"@0..4 #@4..5"),
    ("r#\"a\"##", "Strr#\"a\"#@0..6 #@6..7"),
    ("r#\"a\"#\"#\"", "Strr#\"a\"#@0..6 Str\"#\"@6..9"),
    // nothing else begins within
    ("r\"//\"", "Strr\"//\"@0..5"),
    ("r\"'(/*\"", "Strr\"'(/*\"@0..7"),
    // suffixes
    ("r\"a\"b", "Strr\"a\"b@0..5"),
    ("r#\"a\"#b1", "Strr#\"a\"#b1@0..8"),
    ("r\"a\"r\"b\"", "Strr\"a\"r@0..5 Str\"b\"@5..8"),
    ("r#\"a\"#r#b", "Strr#\"a\"#r@0..7 #@7..8 b@8..9"),
    ("r\"a\" b", "Strr\"a\"@0..4 b@5..6"),
    // none of them
    ("R\"a\"", "R@0..1 Str\"a\"@1..4"),
    ("ar\"a\"", "ar@0..2 Str\"a\"@2..5"),
    ("rr\"a\"", "rr@0..2 Str\"a\"@2..5"),
    ("r # \"a\"", "r@0..1 #@2..3 Str\"a\"@4..7"),
    ("r# \"a\"", "r@0..1 #@1..2 Str\"a\"@3..6"),
    ("r#a\"b\"", "r#a@0..3 Str\"b\"@3..6"),
    ("r##a\"b\"", "r@0..1 #+@1..2 #@2..3 a@3..4 Str\"b\"@4..7"),
];

const REFUSED: &[Refused] = &[
    ("r\"", 0, "unterminated literal"),
    ("r\"a", 0, "unterminated literal"),
    ("a r\"", 2, "unterminated literal"),
    ("r#\"", 0, "unterminated literal"),
    ("r#\"a\"", 0, "unterminated literal"),
    ("r##\"a\"#", 0, "unterminated literal"),
    ("r##\"a\" ##", 0, "unterminated literal"),
    ("\u{e9}(r#\"\\\"", 3, "unterminated literal"),
    ("r\"\\\"\"", 4, "unterminated literal"),
    ("r#\"a\"#\"", 6, "unterminated literal"),
];

/// Adds so many `#`.
fn add_hashes(text: &mut String, count: usize) -> Result<()> {
    for _ in 0..count {
        text.push('#')?;
    }
    Ok(())
}

/// A raw string with this many `#` on both sides.
fn raw_string(alloc: Global, count: usize) -> Result<String> {
    let mut text = String::from_str(alloc, "r")?;
    add_hashes(&mut text, count)?;
    text.push_str("\"a\"")?;
    add_hashes(&mut text, count)?;
    Ok(text)
}

/// Whether the text is read as one string.
fn is_string(alloc: Global, text: &str) -> Result<bool> {
    let end = text.len();
    let want = format!(in alloc; "Str{text}@0..{end}")?;
    Ok(shown(alloc, text)?.as_str() == want.as_str())
}

#[test]
fn any_number_of_hashes(rt: HostRuntime) -> Result<()> {
    for count in [0, 1, 255, 256, 1000] {
        let text = raw_string(rt.alloc(), count)?;
        assert!(rt; is_string(rt.alloc(), text.as_str())?, "{count}");
    }
    Ok(())
}

#[test]
fn reads(rt: HostRuntime) -> Result<()> {
    are_read(&rt, rt.alloc(), READ)
}

#[test]
fn refuses(rt: HostRuntime) -> Result<()> {
    are_refused(&rt, rt.alloc(), REFUSED)
}
