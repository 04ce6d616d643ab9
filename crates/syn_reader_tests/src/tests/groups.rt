//! Groups, and which of several faults is reported.
use crate::tests::support::{Read, Refused, are_read, are_refused};
use syn_tokens::error::Result;

const READ: &[Read] = &[
    ("()", "(@0..1 )@1..2"),
    ("{ a }", "{@0..1 a@2..3 }@4..5"),
    ("[(){}]", "[@0..1 (@1..2 )@2..3 {@3..4 }@4..5 ]@5..6"),
    (
        "(a(b)c)d",
        "(@0..1 a@1..2 (@2..3 b@3..4 )@4..5 c@5..6 )@6..7 d@7..8",
    ),
    ("(1,)", "(@0..1 Int1@1..2 ,@2..3 )@3..4"),
    ("('a)", "(@0..1 '+@1..2 a@2..3 )@3..4"),
    (
        "pub struct A(u8);",
        "pub@0..3 struct@4..10 A@11..12 (@12..13 u8@13..15 )@15..16 ;@16..17",
    ),
    // delimiters within literals and comments are none
    ("(\")\")", "(@0..1 Str\")\"@1..4 )@4..5"),
    ("[']']", "[@0..1 Char']'@1..4 ]@4..5"),
    ("{r#\"}\"#}", "{@0..1 Strr#\"}\"#@1..7 }@7..8"),
    ("(/*)*/)", "(@0..1 )@6..7"),
    ("(//)\n)", "(@0..1 )@5..6"),
    ("\"(\" 'a' '('", "Str\"(\"@0..3 Char'a'@4..7 Char'('@8..11"),
];

const REFUSED: &[Refused] = &[
    // a closing delimiter that does not close the innermost open group
    (")", 0, "unbalanced group"),
    ("a ]", 2, "unbalanced group"),
    ("( [ )", 4, "unbalanced group"),
    ("([)]", 2, "unbalanced group"),
    ("{(}", 2, "unbalanced group"),
    ("() ) (", 3, "unbalanced group"),
    ("\")\")", 3, "unbalanced group"),
    // at the end, the outermost open delimiter
    ("(", 0, "unbalanced group"),
    ("{ ( )", 0, "unbalanced group"),
    ("a ( { [", 2, "unbalanced group"),
    ("() (", 3, "unbalanced group"),
    ("struct S {", 9, "unbalanced group"),
    ("\u{e9} (", 3, "unbalanced group"),
    ("( //)", 0, "unbalanced group"),
    ("( /*)*/", 0, "unbalanced group"),
    ("( ')'", 0, "unbalanced group"),
    ("( 1", 0, "unbalanced group"),
    // the first fault from the left
    ("( `", 2, "unexpected character"),
    ("( \"", 2, "unterminated literal"),
    ("( /*", 2, "unterminated comment"),
    (") `", 0, "unbalanced group"),
    (") \"", 0, "unbalanced group"),
    ("( ] 1", 2, "unbalanced group"),
    ("` )", 0, "unexpected character"),
    ("\" )", 0, "unterminated literal"),
    ("` \"", 0, "unexpected character"),
    ("' \"", 0, "unexpected character"),
];

#[test]
fn reads(rt: HostRuntime) -> Result<()> {
    are_read(&rt, rt.alloc(), READ)
}

#[test]
fn refuses(rt: HostRuntime) -> Result<()> {
    are_refused(&rt, rt.alloc(), REFUSED)
}
