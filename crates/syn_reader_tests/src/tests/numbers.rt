//! Numbers.
use crate::tests::support::{Read, Refused, are_read, are_refused};
use syn_tokens::error::Result;

const READ: &[Read] = &[
    ("0", "Int0@0..1"),
    ("123", "Int123@0..3"),
    ("007", "Int007@0..3"),
    ("1_000_", "Int1_000_@0..6"),
    ("1u8", "Int1u8@0..3"),
    ("1_u8", "Int1_u8@0..4"),
    ("12abc_3Z", "Int12abc_3Z@0..8"),
    ("1f32", "Int1f32@0..4"),
    ("-1", "-@0..1 Int1@1..2"),
    ("a1 1a", "a1@0..2 Int1a@3..5"),
    // letters of other alphabets do not belong to it
    ("1\u{e9}", "Int1@0..1 \u{e9}@1..3"),
    ("1r#a", "Int1r@0..2 #@2..3 a@3..4"),
    ("1b'a'", "Int1b@0..2 Char'a'@2..5"),
    // bases
    ("0x1F", "Int0x1F@0..4"),
    ("0o17", "Int0o17@0..4"),
    ("0b01_u8", "Int0b01_u8@0..7"),
    ("0x", "Int0x@0..2"),
    ("0b29", "Int0b29@0..4"),
    ("0xg_", "Int0xg_@0..4"),
    ("0X1 0O1 0B1", "Int0X1@0..3 Int0O1@4..7 Int0B1@8..11"),
    // they take no point and no sign
    ("0x1.0", "Int0x1@0..3 .@3..4 Int0@4..5"),
    ("0b1.", "Int0b1@0..3 .@3..4"),
    ("0o1.5", "Int0o1@0..3 .@3..4 Int5@4..5"),
    ("0x1e+5", "Int0x1e@0..4 +@4..5 Int5@5..6"),
    ("0xe-1", "Int0xe@0..3 -@3..4 Int1@4..5"),
    ("0b1e3", "Int0b1e3@0..5"),
    // what is no base
    ("0X1.0", "Float0X1.0@0..5"),
    ("0_x1.5", "Float0_x1.5@0..6"),
    ("1x1.5", "Float1x1.5@0..5"),
    // points
    ("1.0", "Float1.0@0..3"),
    ("1.", "Float1.@0..2"),
    ("(1.)", "(@0..1 Float1.@1..3 )@3..4"),
    ("1. a", "Float1.@0..2 a@3..4"),
    ("1.+2", "Float1.@0..2 +@2..3 Int2@3..4"),
    ("1./2", "Float1.@0..2 /@2..3 Int2@3..4"),
    ("1.// a", "Float1.@0..2"),
    ("1.\"a\"", "Float1.@0..2 Str\"a\"@2..5"),
    ("1.'a", "Float1.@0..2 '+@2..3 a@3..4"),
    ("1.0_0f32", "Float1.0_0f32@0..8"),
    ("1u8.5", "Float1u8.5@0..5"),
    ("1_.0", "Float1_.0@0..4"),
    // no point
    ("1..2", "Int1@0..1 .+@1..2 .@2..3 Int2@3..4"),
    ("1...2", "Int1@0..1 .+@1..2 .+@2..3 .@3..4 Int2@4..5"),
    ("1._", "Int1@0..1 .@1..2 _@2..3"),
    ("1.a", "Int1@0..1 .@1..2 a@2..3"),
    ("1.f32", "Int1@0..1 .@1..2 f32@2..5"),
    ("1.e3", "Int1@0..1 .@1..2 e3@2..4"),
    ("1.\u{e9}", "Int1@0..1 .@1..2 \u{e9}@2..4"),
    ("1.r\"a\"", "Int1@0..1 .@1..2 Strr\"a\"@2..6"),
    (".5", ".@0..1 Int5@1..2"),
    ("a.0", "a@0..1 .@1..2 Int0@2..3"),
    // one at most
    ("1.0.0", "Float1.0@0..3 .@3..4 Int0@4..5"),
    ("1.0.", "Float1.0@0..3 .@3..4"),
    ("1.0..2", "Float1.0@0..3 .+@3..4 .@4..5 Int2@5..6"),
    ("1.0.a", "Float1.0@0..3 .@3..4 a@4..5"),
    ("a.0.1", "a@0..1 .@1..2 Float0.1@2..5"),
    // exponents
    ("1e3", "Float1e3@0..3"),
    ("1E3", "Float1E3@0..3"),
    ("1e+3", "Float1e+3@0..4"),
    ("1E-3", "Float1E-3@0..4"),
    ("0e+1", "Float0e+1@0..4"),
    ("1.5e-3f64", "Float1.5e-3f64@0..9"),
    ("1_0e-5", "Float1_0e-5@0..6"),
    ("1_e+5", "Float1_e+5@0..5"),
    ("1e_3", "Float1e_3@0..4"),
    ("1e5.0", "Float1e5.0@0..5"),
    ("1e5.", "Float1e5.@0..4"),
    ("1e3-1", "Float1e3@0..3 -@3..4 Int1@4..5"),
    ("1e-3-1", "Float1e-3@0..4 -@4..5 Int1@5..6"),
    ("a.1e5", "a@0..1 .@1..2 Float1e5@2..5"),
    // none
    ("1e", "Int1e@0..2"),
    ("1e_", "Int1e_@0..3"),
    ("1ee3", "Int1ee3@0..4"),
    ("1else", "Int1else@0..5"),
    ("1else+5", "Int1else@0..5 +@5..6 Int5@6..7"),
    ("1e+", "Int1e@0..2 +@2..3"),
    ("1e+a", "Int1e@0..2 +@2..3 a@3..4"),
    ("1e+_3", "Int1e@0..2 +@2..3 _3@3..5"),
    ("1e++3", "Int1e@0..2 ++@2..3 +@3..4 Int3@4..5"),
    ("1e*3", "Int1e@0..2 *@2..3 Int3@3..4"),
    ("1.5e", "Float1.5e@0..4"),
    ("1.5e+", "Float1.5e@0..4 +@4..5"),
];

const REFUSED: &[Refused] = &[
    ("1\u{661}", 1, "unexpected character"),
    ("1.\u{661}", 2, "unexpected character"),
    ("1.1\u{301}", 3, "unexpected character"),
    ("1'", 1, "unexpected character"),
    ("1\\", 1, "unexpected character"),
    ("1\"", 1, "unterminated literal"),
    ("1.\"", 2, "unterminated literal"),
    ("1)", 1, "unbalanced group"),
];

#[test]
fn reads(rt: HostRuntime) -> Result<()> {
    are_read(&rt, rt.alloc(), READ)
}

#[test]
fn refuses(rt: HostRuntime) -> Result<()> {
    are_refused(&rt, rt.alloc(), REFUSED)
}
