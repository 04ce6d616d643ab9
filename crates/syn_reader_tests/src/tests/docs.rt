//! Doc comments, which are read as attributes.
use crate::tests::asserts::assert_text_of;
use crate::tests::support::{Read, Refused, are_read, are_refused, shown};
use std::alloc::Global;
use syn_tokens::error::Result;

/// A text that is one doc comment and perhaps white space after it, whether it is an inner one, the literal that the
/// attribute holds, and where the comment ends.
type Doc = (&'static str, bool, &'static str, usize);

const DOCS: &[Doc] = &[
    // lines
    ("///", false, r#""""#, 3),
    ("///a", false, r#""a""#, 4),
    ("/// a \n", false, r#"" a ""#, 6),
    ("//!", true, r#""""#, 3),
    ("//! a", true, r#"" a""#, 5),
    ("///!", false, r#""!""#, 4),
    ("/// /", false, r#"" /""#, 5),
    ("///a//", false, r#""a//""#, 6),
    ("//!/", true, r#""/""#, 4),
    ("//!!", true, r#""!""#, 4),
    ("///*", false, r#""*""#, 4),
    ("/// /*\n", false, r#"" /*""#, 6),
    ("/// \u{e9}", false, "\" \u{e9}\"", 6),
    // blocks
    ("/** a */", false, r#"" a ""#, 8),
    ("/**a*/", false, r#""a""#, 6),
    ("/** */", false, r#"" ""#, 6),
    ("/*!*/", true, r#""""#, 5),
    ("/*! a */\n", true, r#"" a ""#, 8),
    ("/*!!*/", true, r#""!""#, 6),
    ("/*!**/", true, r#""*""#, 6),
    ("/** **/", false, r#"" *""#, 7),
    ("/**!*/", false, r#""!""#, 6),
    // nested
    ("/** /* */ */", false, r#"" /* */ ""#, 12),
    ("/*!/**/*/", true, r#""/**/""#, 9),
    ("/** /** a */ */", false, r#"" /** a */ ""#, 15),
    // what is escaped
    (r"/// \", false, r#"" \\""#, 5),
    (r"/// \n", false, r#"" \\n""#, 6),
    (r#"/// ""#, false, r#"" \"""#, 5),
    ("/// \t", false, r#"" \t""#, 5),
    ("/**\n*/", false, r#""\n""#, 6),
    ("/*!a\n\n b*/", true, r#""a\n\n b""#, 10),
    (r#"/** "\" */"#, false, r#"" \"\\\" ""#, 10),
    // a line ends before a line feed alone
    ("/// a\r\n", false, r#"" a\r""#, 6),
    ("//!\r\n", true, r#""\r""#, 4),
    ("/// a\rb", false, r#"" a\rb""#, 7),
    ("/**\r\n*/", false, r#""\r\n""#, 7),
    // what is not
    ("/// '{}'", false, r#"" '{}'""#, 8),
    ("///\u{0}", false, "\"\u{0}\"", 4),
    ("///\u{b}\u{85}", false, "\"\u{b}\u{85}\"", 6),
    ("///\u{2028}", false, "\"\u{2028}\"", 6),
    (
        "/// \u{301}\u{200e}\u{feff}",
        false,
        "\" \u{301}\u{200e}\u{feff}\"",
        12,
    ),
];

/// Doc comments among other tokens.
const READ: &[Read] = &[
    (
        "a /// b",
        "a@0..1 #@2..7 [@2..7 doc@2..7 =@2..7 Str\" b\"@2..7 ]@2..7",
    ),
    (
        "/// a\nb",
        "#@0..5 [@0..5 doc@0..5 =@0..5 Str\" a\"@0..5 ]@0..5 b@6..7",
    ),
    (
        "///a\r\n///b",
        "#@0..5 [@0..5 doc@0..5 =@0..5 Str\"a\\r\"@0..5 ]@0..5 #@6..10 [@6..10 doc@6..10 =@6..10 Str\"b\"@6..10 ]@6..10",
    ),
    (
        "(//! a\n)",
        "(@0..1 #@1..6 !@1..6 [@1..6 doc@1..6 =@1..6 Str\" a\"@1..6 ]@1..6 )@7..8",
    ),
    (
        "\u{e9}/**a*/+",
        "\u{e9}@0..2 #@2..8 [@2..8 doc@2..8 =@2..8 Str\"a\"@2..8 ]@2..8 +@8..9",
    ),
    (
        "=/*!*/=",
        "=@0..1 #@1..6 !@1..6 [@1..6 doc@1..6 =@1..6 Str\"\"@1..6 ]@1..6 =@6..7",
    ),
    // comments that are none
    ("//// a", ""),
    ("// / a", ""),
    ("/**/", ""),
    ("/***/", ""),
    ("/*** a */", ""),
    ("/****/", ""),
    ("/* * a */", ""),
    ("/*/*! */*/", ""),
    ("/ // a", "/@0..1"),
];

const REFUSED: &[Refused] = &[
    ("/** a", 0, "unterminated comment"),
    ("/*! a *", 0, "unterminated comment"),
    ("a /**/ /** /* */", 7, "unterminated comment"),
    // what is in a doc comment is no token
    ("(/// )", 0, "unbalanced group"),
    ("(/** ) */", 0, "unbalanced group"),
    ("/// \"\n\"", 6, "unterminated literal"),
];

/// The tokens of one doc comment from the beginning of the text up to `end`.
fn doc_tokens(alloc: Global, inner: bool, literal: &str, end: usize) -> Result<String> {
    let at = format!(in alloc; "@0..{end}")?;
    let at = at.as_str();
    let mut out = format!(in alloc; "#{at}")?;
    if inner {
        write!(out, " !{at}")?;
    }
    write!(out, " [{at} doc{at} ={at} Str{literal}{at} ]{at}")?;
    Ok(out)
}

#[test]
fn reads_alone(rt: HostRuntime) -> Result<()> {
    for (text, inner, literal, end) in DOCS {
        let want = doc_tokens(rt.alloc(), *inner, literal, *end)?;
        assert_text_of(&rt, text, shown(rt.alloc(), text)?.as_str(), want.as_str());
    }
    Ok(())
}

#[test]
fn reads(rt: HostRuntime) -> Result<()> {
    are_read(&rt, rt.alloc(), READ)
}

#[test]
fn refuses(rt: HostRuntime) -> Result<()> {
    are_refused(&rt, rt.alloc(), REFUSED)
}
