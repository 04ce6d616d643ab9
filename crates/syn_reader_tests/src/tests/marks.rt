//! The characters of marks, and which of them are Joint.
use crate::tests::support::{Read, Refused, are_read, are_refused};
use syn_tokens::error::Result;

const READ: &[Read] = &[
    (
        "~!@#$%^&*-",
        "~+@0..1 !+@1..2 @+@2..3 #+@3..4 $+@4..5 %+@5..6 ^+@6..7 &+@7..8 *+@8..9 -@9..10",
    ),
    (
        "=+|;:,<.>?/",
        "=+@0..1 ++@1..2 |+@2..3 ;+@3..4 :+@4..5 ,+@5..6 <+@6..7 .+@7..8 >+@8..9 ?+@9..10 /@10..11",
    ),
    ("a:b", "a@0..1 :@1..2 b@2..3"),
    ("a::b", "a@0..1 :+@1..2 :@2..3 b@3..4"),
    ("a: :b", "a@0..1 :@1..2 :@3..4 b@4..5"),
    ("<<=", "<+@0..1 <+@1..2 =@2..3"),
    ("...", ".+@0..1 .+@1..2 .@2..3"),
    ("_.a", "_@0..1 .@1..2 a@2..3"),
    ("\u{e9}::", "\u{e9}@0..2 :+@2..3 :@3..4"),
    // before what is no mark
    ("-(-)-", "-@0..1 (@1..2 -@2..3 )@3..4 -@4..5"),
    ("+1", "+@0..1 Int1@1..2"),
    ("#\"a\"", "#@0..1 Str\"a\"@1..4"),
    ("=b'c'", "=@0..1 Byteb'c'@1..5"),
    ("+\n+", "+@0..1 +@2..3"),
    // before `'`, whatever it begins
    ("='c'", "=+@0..1 Char'c'@1..4"),
    ("='\\n'", "=+@0..1 Char'\\n'@1..5"),
    ("&'a", "&+@0..1 '+@1..2 a@2..3"),
    ("= 'c'", "=@0..1 Char'c'@2..5"),
    // before a `/`, but where a comment begins
    ("/ /", "/@0..1 /@2..3"),
    ("/=*/", "/+@0..1 =+@1..2 *+@2..3 /@3..4"),
    ("&/", "&+@0..1 /@1..2"),
    ("+/ *", "++@0..1 /@1..2 *@3..4"),
    ("*//", "*@0..1"),
    ("+/*a*/", "+@0..1"),
    ("+/**/+", "+@0..1 +@5..6"),
    ("/=//", "/+@0..1 =@1..2"),
    ("=/*a*/'c'", "=@0..1 Char'c'@6..9"),
    (
        "+///a",
        "+@0..1 #@1..5 [@1..5 doc@1..5 =@1..5 Str\"a\"@1..5 ]@1..5",
    ),
];

const REFUSED: &[Refused] = &[
    ("\\", 0, "unexpected character"),
    ("`", 0, "unexpected character"),
    ("+`", 1, "unexpected character"),
    ("\u{a7}", 0, "unexpected character"),
    ("+\u{2212}", 1, "unexpected character"),
    ("\u{7f}", 0, "unexpected character"),
    ("+'", 1, "unexpected character"),
    ("= '=", 2, "unexpected character"),
];

#[test]
fn reads(rt: HostRuntime) -> Result<()> {
    are_read(&rt, rt.alloc(), READ)
}

#[test]
fn refuses(rt: HostRuntime) -> Result<()> {
    are_refused(&rt, rt.alloc(), REFUSED)
}
