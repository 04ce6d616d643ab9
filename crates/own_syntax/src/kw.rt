//! The keyword and the mark of routes.
ghost use Rattle.std.specs.Prelude.{codes, refl};
ghost use Rattle.syn_tokens.specs.Punct.{is_punct_character};

use syn::token::{CustomKeyword, CustomKeywordKind, CustomPunctuation, CustomPunctuationKind};

/// `route`
pub struct RouteKind;

impl CustomKeywordKind for RouteKind {
    ghost text = { codes "route" };

    fn text() -> &'static str {
        "route"
    }

    fn expected() -> &'static str {
        "expected `route`"
    }

    ghost plain = { refl };
}

/// `route`
pub type Route = CustomKeyword<RouteKind>;

/// `~>`
pub struct LeadsToKind;

impl CustomPunctuationKind<2> for LeadsToKind {
    ghost text = { codes "~>" };

    fn characters() -> [char; 2] {
        ['~', '>']
    }

    fn expected() -> &'static str {
        "expected `~>`"
    }

    ghost printable = { unfold is_punct_character in refl };
}

/// `~>`
pub type LeadsTo = CustomPunctuation<LeadsToKind, 2>;
