//! Written by tools/tokens.py; edits are lost.
//!
//! Marks of one character.
ghost use Rattle.std.specs.Prelude.{refl};
ghost use Rattle.syn_tokens.specs.Punct.{is_punct_character};

use crate::token::OneCharacter;

/// `&`
pub struct And;

impl OneCharacter for And {
    ghost character = { 38 };

    fn character() -> char {
        '&'
    }

    fn expected() -> &'static str {
        "expected `&`"
    }

    ghost printable = { unfold is_punct_character in refl };
}

/// `@`
pub struct At;

impl OneCharacter for At {
    ghost character = { 64 };

    fn character() -> char {
        '@'
    }

    fn expected() -> &'static str {
        "expected `@`"
    }

    ghost printable = { unfold is_punct_character in refl };
}

/// `^`
pub struct Caret;

impl OneCharacter for Caret {
    ghost character = { 94 };

    fn character() -> char {
        '^'
    }

    fn expected() -> &'static str {
        "expected `^`"
    }

    ghost printable = { unfold is_punct_character in refl };
}

/// `:`
pub struct Colon;

impl OneCharacter for Colon {
    ghost character = { 58 };

    fn character() -> char {
        ':'
    }

    fn expected() -> &'static str {
        "expected `:`"
    }

    ghost printable = { unfold is_punct_character in refl };
}

/// `,`
pub struct Comma;

impl OneCharacter for Comma {
    ghost character = { 44 };

    fn character() -> char {
        ','
    }

    fn expected() -> &'static str {
        "expected `,`"
    }

    ghost printable = { unfold is_punct_character in refl };
}

/// `$`
pub struct Dollar;

impl OneCharacter for Dollar {
    ghost character = { 36 };

    fn character() -> char {
        '$'
    }

    fn expected() -> &'static str {
        "expected `$`"
    }

    ghost printable = { unfold is_punct_character in refl };
}

/// `.`
pub struct Dot;

impl OneCharacter for Dot {
    ghost character = { 46 };

    fn character() -> char {
        '.'
    }

    fn expected() -> &'static str {
        "expected `.`"
    }

    ghost printable = { unfold is_punct_character in refl };
}

/// `=`
pub struct Eq;

impl OneCharacter for Eq {
    ghost character = { 61 };

    fn character() -> char {
        '='
    }

    fn expected() -> &'static str {
        "expected `=`"
    }

    ghost printable = { unfold is_punct_character in refl };
}

/// `>`
pub struct Gt;

impl OneCharacter for Gt {
    ghost character = { 62 };

    fn character() -> char {
        '>'
    }

    fn expected() -> &'static str {
        "expected `>`"
    }

    ghost printable = { unfold is_punct_character in refl };
}

/// `<`
pub struct Lt;

impl OneCharacter for Lt {
    ghost character = { 60 };

    fn character() -> char {
        '<'
    }

    fn expected() -> &'static str {
        "expected `<`"
    }

    ghost printable = { unfold is_punct_character in refl };
}

/// `-`
pub struct Minus;

impl OneCharacter for Minus {
    ghost character = { 45 };

    fn character() -> char {
        '-'
    }

    fn expected() -> &'static str {
        "expected `-`"
    }

    ghost printable = { unfold is_punct_character in refl };
}

/// `!`
pub struct Not;

impl OneCharacter for Not {
    ghost character = { 33 };

    fn character() -> char {
        '!'
    }

    fn expected() -> &'static str {
        "expected `!`"
    }

    ghost printable = { unfold is_punct_character in refl };
}

/// `|`
pub struct Or;

impl OneCharacter for Or {
    ghost character = { 124 };

    fn character() -> char {
        '|'
    }

    fn expected() -> &'static str {
        "expected `|`"
    }

    ghost printable = { unfold is_punct_character in refl };
}

/// `%`
pub struct Percent;

impl OneCharacter for Percent {
    ghost character = { 37 };

    fn character() -> char {
        '%'
    }

    fn expected() -> &'static str {
        "expected `%`"
    }

    ghost printable = { unfold is_punct_character in refl };
}

/// `+`
pub struct Plus;

impl OneCharacter for Plus {
    ghost character = { 43 };

    fn character() -> char {
        '+'
    }

    fn expected() -> &'static str {
        "expected `+`"
    }

    ghost printable = { unfold is_punct_character in refl };
}

/// `#`
pub struct Pound;

impl OneCharacter for Pound {
    ghost character = { 35 };

    fn character() -> char {
        '#'
    }

    fn expected() -> &'static str {
        "expected `#`"
    }

    ghost printable = { unfold is_punct_character in refl };
}

/// `?`
pub struct Question;

impl OneCharacter for Question {
    ghost character = { 63 };

    fn character() -> char {
        '?'
    }

    fn expected() -> &'static str {
        "expected `?`"
    }

    ghost printable = { unfold is_punct_character in refl };
}

/// `;`
pub struct Semi;

impl OneCharacter for Semi {
    ghost character = { 59 };

    fn character() -> char {
        ';'
    }

    fn expected() -> &'static str {
        "expected `;`"
    }

    ghost printable = { unfold is_punct_character in refl };
}

/// `/`
pub struct Slash;

impl OneCharacter for Slash {
    ghost character = { 47 };

    fn character() -> char {
        '/'
    }

    fn expected() -> &'static str {
        "expected `/`"
    }

    ghost printable = { unfold is_punct_character in refl };
}

/// `*`
pub struct Star;

impl OneCharacter for Star {
    ghost character = { 42 };

    fn character() -> char {
        '*'
    }

    fn expected() -> &'static str {
        "expected `*`"
    }

    ghost printable = { unfold is_punct_character in refl };
}

/// `~`
pub struct Tilde;

impl OneCharacter for Tilde {
    ghost character = { 126 };

    fn character() -> char {
        '~'
    }

    fn expected() -> &'static str {
        "expected `~`"
    }

    ghost printable = { unfold is_punct_character in refl };
}
