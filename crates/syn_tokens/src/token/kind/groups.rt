//! Written by tools/tokens.py; edits are lost.
//!
//! The delimiters of groups.
ghost use Rattle.std.specs.Prelude.{codes};
ghost use Rattle.syn_grammar.specs.Tokens as grammar;

use crate::delimiter::Delimiter;
use crate::token::DelimiterKind;

/// `( )`
pub struct Paren;

impl DelimiterKind for Paren {
    ghost delimiter = { grammar.Paren };

    ghost fault = { codes "expected parentheses" };

    fn delimiter() -> Delimiter {
        Delimiter::Paren
    }

    fn expected() -> &'static str {
        "expected parentheses"
    }
}

/// `{ }`
pub struct Brace;

impl DelimiterKind for Brace {
    ghost delimiter = { grammar.Brace };

    ghost fault = { codes "expected curly braces" };

    fn delimiter() -> Delimiter {
        Delimiter::Brace
    }

    fn expected() -> &'static str {
        "expected curly braces"
    }
}

/// `[ ]`
pub struct Bracket;

impl DelimiterKind for Bracket {
    ghost delimiter = { grammar.Bracket };

    ghost fault = { codes "expected square brackets" };

    fn delimiter() -> Delimiter {
        Delimiter::Bracket
    }

    fn expected() -> &'static str {
        "expected square brackets"
    }
}

/// The delimiters of an invisible group, which appear in no text.
pub struct Group;

impl DelimiterKind for Group {
    ghost delimiter = { grammar.None };

    ghost fault = { codes "expected invisible group" };

    fn delimiter() -> Delimiter {
        Delimiter::None
    }

    fn expected() -> &'static str {
        "expected invisible group"
    }
}
