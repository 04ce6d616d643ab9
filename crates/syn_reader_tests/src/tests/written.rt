//! The text of tokens that were read.
use crate::tests::asserts::assert_text_of;
use std::alloc::Global;
use syn_reader::reader::{read_tokens, token_text};
use syn_tokens::error::Result;

/// Texts that are read, and their text as tokens, which is read as that text again.
const SPACED: &[(&str, &str)] = &[
    ("", ""),
    ("a", "a"),
    (" a\n b ", "a b"),
    ("a::b", "a :: b"),
    ("a: :b", "a : : b"),
    ("()", "( )"),
    ("{}[]", "{ } [ ]"),
    ("{ ( a) }", "{ ( a ) }"),
    ("-(-)-", "- ( - ) -"),
    ("a<<=b", "a <<= b"),
    ("pub struct A(u8);", "pub struct A ( u8 ) ;"),
    ("\u{e9}..\u{e9}", "\u{e9} .. \u{e9}"),
    ("r#a", "r#a"),
    ("&'a b", "&'a b"),
    // literals as they are written
    ("[1,2.5e-3]", "[ 1 , 2.5e-3 ]"),
    ("1..2", "1 .. 2"),
    ("a.0.1", "a . 0.1"),
    ("\"a  \\\"\n\"b c", "\"a  \\\"\n\"b c"),
    ("r##\"\"#\"##+b'\\''", "r##\"\"#\"## + b'\\''"),
    ("='c';", "='c' ;"),
    // comments
    ("a/* b */ c // d", "a c"),
    ("+/**/+", "+ +"),
    ("/// a\\", "# [ doc = \" a\\\\\" ]"),
    ("a(//! b\n)", "a ( # ! [ doc = \" b\" ] )"),
];

/// The text of the text's tokens.
fn written(alloc: Global, text: &str) -> Result<String> {
    token_text(&read_tokens(alloc, text)?)
}

#[test]
fn writes(rt: HostRuntime) -> Result<()> {
    for (text, spaced) in SPACED {
        assert_text_of(&rt, text, written(rt.alloc(), text)?.as_str(), spaced);
    }
    Ok(())
}

#[test]
fn writes_again(rt: HostRuntime) -> Result<()> {
    for (_, spaced) in SPACED {
        assert_text_of(&rt, spaced, written(rt.alloc(), spaced)?.as_str(), spaced);
    }
    Ok(())
}
