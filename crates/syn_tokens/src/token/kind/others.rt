//! Written by tools/tokens.py; edits are lost.
//!
//! Reserved words, and words that are keywords only in some places.
ghost use Rattle.std.specs.Prelude.{refl};
ghost use Rattle.syn_grammar.specs.Words.{w_abstract, w_auto, w_become, w_box, w_default, w_do, w_final, w_macro, w_override, w_priv, w_safe, w_try, w_typeof, w_union, w_unsized, w_virtual, w_yield};
ghost use Rattle.syn_tokens.specs.Leaves.{is_known_word};

use crate::token::WordKind;

/// `abstract`
pub struct Abstract;

impl WordKind for Abstract {
    ghost text = { w_abstract };

    fn text() -> &'static str {
        "abstract"
    }

    fn expected() -> &'static str {
        "expected `abstract`"
    }

    ghost known = { unfold is_known_word in refl };

    ghost plain = { refl };
}

/// `auto`
pub struct Auto;

impl WordKind for Auto {
    ghost text = { w_auto };

    fn text() -> &'static str {
        "auto"
    }

    fn expected() -> &'static str {
        "expected `auto`"
    }

    ghost known = { unfold is_known_word in refl };

    ghost plain = { refl };
}

/// `become`
pub struct Become;

impl WordKind for Become {
    ghost text = { w_become };

    fn text() -> &'static str {
        "become"
    }

    fn expected() -> &'static str {
        "expected `become`"
    }

    ghost known = { unfold is_known_word in refl };

    ghost plain = { refl };
}

/// `box`
pub struct Box;

impl WordKind for Box {
    ghost text = { w_box };

    fn text() -> &'static str {
        "box"
    }

    fn expected() -> &'static str {
        "expected `box`"
    }

    ghost known = { unfold is_known_word in refl };

    ghost plain = { refl };
}

/// `default`
pub struct Default;

impl WordKind for Default {
    ghost text = { w_default };

    fn text() -> &'static str {
        "default"
    }

    fn expected() -> &'static str {
        "expected `default`"
    }

    ghost known = { unfold is_known_word in refl };

    ghost plain = { refl };
}

/// `do`
pub struct Do;

impl WordKind for Do {
    ghost text = { w_do };

    fn text() -> &'static str {
        "do"
    }

    fn expected() -> &'static str {
        "expected `do`"
    }

    ghost known = { unfold is_known_word in refl };

    ghost plain = { refl };
}

/// `final`
pub struct Final;

impl WordKind for Final {
    ghost text = { w_final };

    fn text() -> &'static str {
        "final"
    }

    fn expected() -> &'static str {
        "expected `final`"
    }

    ghost known = { unfold is_known_word in refl };

    ghost plain = { refl };
}

/// `macro`
pub struct Macro;

impl WordKind for Macro {
    ghost text = { w_macro };

    fn text() -> &'static str {
        "macro"
    }

    fn expected() -> &'static str {
        "expected `macro`"
    }

    ghost known = { unfold is_known_word in refl };

    ghost plain = { refl };
}

/// `override`
pub struct Override;

impl WordKind for Override {
    ghost text = { w_override };

    fn text() -> &'static str {
        "override"
    }

    fn expected() -> &'static str {
        "expected `override`"
    }

    ghost known = { unfold is_known_word in refl };

    ghost plain = { refl };
}

/// `priv`
pub struct Priv;

impl WordKind for Priv {
    ghost text = { w_priv };

    fn text() -> &'static str {
        "priv"
    }

    fn expected() -> &'static str {
        "expected `priv`"
    }

    ghost known = { unfold is_known_word in refl };

    ghost plain = { refl };
}

/// `safe`
pub struct Safe;

impl WordKind for Safe {
    ghost text = { w_safe };

    fn text() -> &'static str {
        "safe"
    }

    fn expected() -> &'static str {
        "expected `safe`"
    }

    ghost known = { unfold is_known_word in refl };

    ghost plain = { refl };
}

/// `try`
pub struct Try;

impl WordKind for Try {
    ghost text = { w_try };

    fn text() -> &'static str {
        "try"
    }

    fn expected() -> &'static str {
        "expected `try`"
    }

    ghost known = { unfold is_known_word in refl };

    ghost plain = { refl };
}

/// `typeof`
pub struct Typeof;

impl WordKind for Typeof {
    ghost text = { w_typeof };

    fn text() -> &'static str {
        "typeof"
    }

    fn expected() -> &'static str {
        "expected `typeof`"
    }

    ghost known = { unfold is_known_word in refl };

    ghost plain = { refl };
}

/// `union`
pub struct Union;

impl WordKind for Union {
    ghost text = { w_union };

    fn text() -> &'static str {
        "union"
    }

    fn expected() -> &'static str {
        "expected `union`"
    }

    ghost known = { unfold is_known_word in refl };

    ghost plain = { refl };
}

/// `unsized`
pub struct Unsized;

impl WordKind for Unsized {
    ghost text = { w_unsized };

    fn text() -> &'static str {
        "unsized"
    }

    fn expected() -> &'static str {
        "expected `unsized`"
    }

    ghost known = { unfold is_known_word in refl };

    ghost plain = { refl };
}

/// `virtual`
pub struct Virtual;

impl WordKind for Virtual {
    ghost text = { w_virtual };

    fn text() -> &'static str {
        "virtual"
    }

    fn expected() -> &'static str {
        "expected `virtual`"
    }

    ghost known = { unfold is_known_word in refl };

    ghost plain = { refl };
}

/// `yield`
pub struct Yield;

impl WordKind for Yield {
    ghost text = { w_yield };

    fn text() -> &'static str {
        "yield"
    }

    fn expected() -> &'static str {
        "expected `yield`"
    }

    ghost known = { unfold is_known_word in refl };

    ghost plain = { refl };
}
