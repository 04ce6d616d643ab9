//! Written by tools/tokens.py; edits are lost.
//!
//! Marks of two and three characters.
ghost use Rattle.std.specs.Prelude.{refl};
ghost use Rattle.syn_tokens.specs.Punct.{is_punct_character};

use crate::token::{ThreeCharacters, TwoCharacters};

/// `&&`
pub struct AndAnd;

impl TwoCharacters for AndAnd {
    ghost first = { 38 };

    ghost second = { 38 };

    fn characters() -> (char, char) {
        ('&', '&')
    }

    fn expected() -> &'static str {
        "expected `&&`"
    }

    ghost known = { refl };

    ghost printable = { unfold is_punct_character in (refl, refl) };
}

/// `&=`
pub struct AndEq;

impl TwoCharacters for AndEq {
    ghost first = { 38 };

    ghost second = { 61 };

    fn characters() -> (char, char) {
        ('&', '=')
    }

    fn expected() -> &'static str {
        "expected `&=`"
    }

    ghost known = { refl };

    ghost printable = { unfold is_punct_character in (refl, refl) };
}

/// `^=`
pub struct CaretEq;

impl TwoCharacters for CaretEq {
    ghost first = { 94 };

    ghost second = { 61 };

    fn characters() -> (char, char) {
        ('^', '=')
    }

    fn expected() -> &'static str {
        "expected `^=`"
    }

    ghost known = { refl };

    ghost printable = { unfold is_punct_character in (refl, refl) };
}

/// `..`
pub struct DotDot;

impl TwoCharacters for DotDot {
    ghost first = { 46 };

    ghost second = { 46 };

    fn characters() -> (char, char) {
        ('.', '.')
    }

    fn expected() -> &'static str {
        "expected `..`"
    }

    ghost known = { refl };

    ghost printable = { unfold is_punct_character in (refl, refl) };
}

/// `...`
pub struct DotDotDot;

impl ThreeCharacters for DotDotDot {
    ghost first = { 46 };

    ghost second = { 46 };

    ghost third = { 46 };

    fn characters() -> (char, char, char) {
        ('.', '.', '.')
    }

    fn expected() -> &'static str {
        "expected `...`"
    }

    ghost known = { refl };

    ghost printable = { unfold is_punct_character in (refl, refl, refl) };
}

/// `==`
pub struct EqEq;

impl TwoCharacters for EqEq {
    ghost first = { 61 };

    ghost second = { 61 };

    fn characters() -> (char, char) {
        ('=', '=')
    }

    fn expected() -> &'static str {
        "expected `==`"
    }

    ghost known = { refl };

    ghost printable = { unfold is_punct_character in (refl, refl) };
}

/// `=>`
pub struct FatArrow;

impl TwoCharacters for FatArrow {
    ghost first = { 61 };

    ghost second = { 62 };

    fn characters() -> (char, char) {
        ('=', '>')
    }

    fn expected() -> &'static str {
        "expected `=>`"
    }

    ghost known = { refl };

    ghost printable = { unfold is_punct_character in (refl, refl) };
}

/// `>=`
pub struct Ge;

impl TwoCharacters for Ge {
    ghost first = { 62 };

    ghost second = { 61 };

    fn characters() -> (char, char) {
        ('>', '=')
    }

    fn expected() -> &'static str {
        "expected `>=`"
    }

    ghost known = { refl };

    ghost printable = { unfold is_punct_character in (refl, refl) };
}

/// `<=`
pub struct Le;

impl TwoCharacters for Le {
    ghost first = { 60 };

    ghost second = { 61 };

    fn characters() -> (char, char) {
        ('<', '=')
    }

    fn expected() -> &'static str {
        "expected `<=`"
    }

    ghost known = { refl };

    ghost printable = { unfold is_punct_character in (refl, refl) };
}

/// `-=`
pub struct MinusEq;

impl TwoCharacters for MinusEq {
    ghost first = { 45 };

    ghost second = { 61 };

    fn characters() -> (char, char) {
        ('-', '=')
    }

    fn expected() -> &'static str {
        "expected `-=`"
    }

    ghost known = { refl };

    ghost printable = { unfold is_punct_character in (refl, refl) };
}

/// `!=`
pub struct Ne;

impl TwoCharacters for Ne {
    ghost first = { 33 };

    ghost second = { 61 };

    fn characters() -> (char, char) {
        ('!', '=')
    }

    fn expected() -> &'static str {
        "expected `!=`"
    }

    ghost known = { refl };

    ghost printable = { unfold is_punct_character in (refl, refl) };
}

/// `|=`
pub struct OrEq;

impl TwoCharacters for OrEq {
    ghost first = { 124 };

    ghost second = { 61 };

    fn characters() -> (char, char) {
        ('|', '=')
    }

    fn expected() -> &'static str {
        "expected `|=`"
    }

    ghost known = { refl };

    ghost printable = { unfold is_punct_character in (refl, refl) };
}

/// `||`
pub struct OrOr;

impl TwoCharacters for OrOr {
    ghost first = { 124 };

    ghost second = { 124 };

    fn characters() -> (char, char) {
        ('|', '|')
    }

    fn expected() -> &'static str {
        "expected `||`"
    }

    ghost known = { refl };

    ghost printable = { unfold is_punct_character in (refl, refl) };
}

/// `::`
pub struct PathSep;

impl TwoCharacters for PathSep {
    ghost first = { 58 };

    ghost second = { 58 };

    fn characters() -> (char, char) {
        (':', ':')
    }

    fn expected() -> &'static str {
        "expected `::`"
    }

    ghost known = { refl };

    ghost printable = { unfold is_punct_character in (refl, refl) };
}

/// `%=`
pub struct PercentEq;

impl TwoCharacters for PercentEq {
    ghost first = { 37 };

    ghost second = { 61 };

    fn characters() -> (char, char) {
        ('%', '=')
    }

    fn expected() -> &'static str {
        "expected `%=`"
    }

    ghost known = { refl };

    ghost printable = { unfold is_punct_character in (refl, refl) };
}

/// `+=`
pub struct PlusEq;

impl TwoCharacters for PlusEq {
    ghost first = { 43 };

    ghost second = { 61 };

    fn characters() -> (char, char) {
        ('+', '=')
    }

    fn expected() -> &'static str {
        "expected `+=`"
    }

    ghost known = { refl };

    ghost printable = { unfold is_punct_character in (refl, refl) };
}

/// `->`
pub struct RArrow;

impl TwoCharacters for RArrow {
    ghost first = { 45 };

    ghost second = { 62 };

    fn characters() -> (char, char) {
        ('-', '>')
    }

    fn expected() -> &'static str {
        "expected `->`"
    }

    ghost known = { refl };

    ghost printable = { unfold is_punct_character in (refl, refl) };
}

/// `<<`
pub struct Shl;

impl TwoCharacters for Shl {
    ghost first = { 60 };

    ghost second = { 60 };

    fn characters() -> (char, char) {
        ('<', '<')
    }

    fn expected() -> &'static str {
        "expected `<<`"
    }

    ghost known = { refl };

    ghost printable = { unfold is_punct_character in (refl, refl) };
}

/// `<<=`
pub struct ShlEq;

impl ThreeCharacters for ShlEq {
    ghost first = { 60 };

    ghost second = { 60 };

    ghost third = { 61 };

    fn characters() -> (char, char, char) {
        ('<', '<', '=')
    }

    fn expected() -> &'static str {
        "expected `<<=`"
    }

    ghost known = { refl };

    ghost printable = { unfold is_punct_character in (refl, refl, refl) };
}

/// `>>`
pub struct Shr;

impl TwoCharacters for Shr {
    ghost first = { 62 };

    ghost second = { 62 };

    fn characters() -> (char, char) {
        ('>', '>')
    }

    fn expected() -> &'static str {
        "expected `>>`"
    }

    ghost known = { refl };

    ghost printable = { unfold is_punct_character in (refl, refl) };
}

/// `>>=`
pub struct ShrEq;

impl ThreeCharacters for ShrEq {
    ghost first = { 62 };

    ghost second = { 62 };

    ghost third = { 61 };

    fn characters() -> (char, char, char) {
        ('>', '>', '=')
    }

    fn expected() -> &'static str {
        "expected `>>=`"
    }

    ghost known = { refl };

    ghost printable = { unfold is_punct_character in (refl, refl, refl) };
}

/// `/=`
pub struct SlashEq;

impl TwoCharacters for SlashEq {
    ghost first = { 47 };

    ghost second = { 61 };

    fn characters() -> (char, char) {
        ('/', '=')
    }

    fn expected() -> &'static str {
        "expected `/=`"
    }

    ghost known = { refl };

    ghost printable = { unfold is_punct_character in (refl, refl) };
}

/// `*=`
pub struct StarEq;

impl TwoCharacters for StarEq {
    ghost first = { 42 };

    ghost second = { 61 };

    fn characters() -> (char, char) {
        ('*', '=')
    }

    fn expected() -> &'static str {
        "expected `*=`"
    }

    ghost known = { refl };

    ghost printable = { unfold is_punct_character in (refl, refl) };
}
