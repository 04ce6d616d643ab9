//! The kinds of literals that are tokens.
ghost use Rattle.syn_tokens.specs.declared.literal.LitKind.TheVariants as literal;

use crate::lit::LiteralKind;
use syn_tokens::literal::LitKind;

/// `"a"`, `r"a"`
pub struct Str;

impl LiteralKind for Str {
    ghost kind = { literal.Str };

    fn kind() -> LitKind {
        LitKind::Str
    }
}

/// `b"a"`
pub struct ByteStr;

impl LiteralKind for ByteStr {
    ghost kind = { literal.ByteStr };

    fn kind() -> LitKind {
        LitKind::ByteStr
    }
}

/// `c"a"`
pub struct CStr;

impl LiteralKind for CStr {
    ghost kind = { literal.CStr };

    fn kind() -> LitKind {
        LitKind::CStr
    }
}

/// `b'a'`
pub struct Byte;

impl LiteralKind for Byte {
    ghost kind = { literal.Byte };

    fn kind() -> LitKind {
        LitKind::Byte
    }
}

/// `'a'`
pub struct Char;

impl LiteralKind for Char {
    ghost kind = { literal.Char };

    fn kind() -> LitKind {
        LitKind::Char
    }
}

/// `1`, `1u8`
pub struct Int;

impl LiteralKind for Int {
    ghost kind = { literal.Int };

    fn kind() -> LitKind {
        LitKind::Int
    }
}

/// `1.0`, `1e5`
pub struct Float;

impl LiteralKind for Float {
    ghost kind = { literal.Float };

    fn kind() -> LitKind {
        LitKind::Float
    }
}
