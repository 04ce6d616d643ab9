//! Written by tools/tokens.py; edits are lost.
//!
//! Words of expressions, patterns and types.
ghost use Rattle.std.specs.Prelude.{refl};
ghost use Rattle.syn_grammar.specs.Words.{w_as, w_async, w_await, w_break, w_continue, w_dyn, w_else, w_false, w_for, w_if, w_let, w_loop, w_match, w_move, w_mut, w_ref, w_return, w_true, w_underscore, w_while};
ghost use Rattle.syn_tokens.specs.Leaves.{is_known_word};

use crate::token::WordKind;

/// `as`
pub struct As;

impl WordKind for As {
    ghost text = { w_as };

    fn text() -> &'static str {
        "as"
    }

    fn expected() -> &'static str {
        "expected `as`"
    }

    ghost known = { unfold is_known_word in refl };

    ghost plain = { refl };
}

/// `async`
pub struct Async;

impl WordKind for Async {
    ghost text = { w_async };

    fn text() -> &'static str {
        "async"
    }

    fn expected() -> &'static str {
        "expected `async`"
    }

    ghost known = { unfold is_known_word in refl };

    ghost plain = { refl };
}

/// `await`
pub struct Await;

impl WordKind for Await {
    ghost text = { w_await };

    fn text() -> &'static str {
        "await"
    }

    fn expected() -> &'static str {
        "expected `await`"
    }

    ghost known = { unfold is_known_word in refl };

    ghost plain = { refl };
}

/// `break`
pub struct Break;

impl WordKind for Break {
    ghost text = { w_break };

    fn text() -> &'static str {
        "break"
    }

    fn expected() -> &'static str {
        "expected `break`"
    }

    ghost known = { unfold is_known_word in refl };

    ghost plain = { refl };
}

/// `continue`
pub struct Continue;

impl WordKind for Continue {
    ghost text = { w_continue };

    fn text() -> &'static str {
        "continue"
    }

    fn expected() -> &'static str {
        "expected `continue`"
    }

    ghost known = { unfold is_known_word in refl };

    ghost plain = { refl };
}

/// `dyn`
pub struct Dyn;

impl WordKind for Dyn {
    ghost text = { w_dyn };

    fn text() -> &'static str {
        "dyn"
    }

    fn expected() -> &'static str {
        "expected `dyn`"
    }

    ghost known = { unfold is_known_word in refl };

    ghost plain = { refl };
}

/// `else`
pub struct Else;

impl WordKind for Else {
    ghost text = { w_else };

    fn text() -> &'static str {
        "else"
    }

    fn expected() -> &'static str {
        "expected `else`"
    }

    ghost known = { unfold is_known_word in refl };

    ghost plain = { refl };
}

/// `false`
pub struct False;

impl WordKind for False {
    ghost text = { w_false };

    fn text() -> &'static str {
        "false"
    }

    fn expected() -> &'static str {
        "expected `false`"
    }

    ghost known = { unfold is_known_word in refl };

    ghost plain = { refl };
}

/// `for`
pub struct For;

impl WordKind for For {
    ghost text = { w_for };

    fn text() -> &'static str {
        "for"
    }

    fn expected() -> &'static str {
        "expected `for`"
    }

    ghost known = { unfold is_known_word in refl };

    ghost plain = { refl };
}

/// `if`
pub struct If;

impl WordKind for If {
    ghost text = { w_if };

    fn text() -> &'static str {
        "if"
    }

    fn expected() -> &'static str {
        "expected `if`"
    }

    ghost known = { unfold is_known_word in refl };

    ghost plain = { refl };
}

/// `let`
pub struct Let;

impl WordKind for Let {
    ghost text = { w_let };

    fn text() -> &'static str {
        "let"
    }

    fn expected() -> &'static str {
        "expected `let`"
    }

    ghost known = { unfold is_known_word in refl };

    ghost plain = { refl };
}

/// `loop`
pub struct Loop;

impl WordKind for Loop {
    ghost text = { w_loop };

    fn text() -> &'static str {
        "loop"
    }

    fn expected() -> &'static str {
        "expected `loop`"
    }

    ghost known = { unfold is_known_word in refl };

    ghost plain = { refl };
}

/// `match`
pub struct Match;

impl WordKind for Match {
    ghost text = { w_match };

    fn text() -> &'static str {
        "match"
    }

    fn expected() -> &'static str {
        "expected `match`"
    }

    ghost known = { unfold is_known_word in refl };

    ghost plain = { refl };
}

/// `move`
pub struct Move;

impl WordKind for Move {
    ghost text = { w_move };

    fn text() -> &'static str {
        "move"
    }

    fn expected() -> &'static str {
        "expected `move`"
    }

    ghost known = { unfold is_known_word in refl };

    ghost plain = { refl };
}

/// `mut`
pub struct Mut;

impl WordKind for Mut {
    ghost text = { w_mut };

    fn text() -> &'static str {
        "mut"
    }

    fn expected() -> &'static str {
        "expected `mut`"
    }

    ghost known = { unfold is_known_word in refl };

    ghost plain = { refl };
}

/// `ref`
pub struct Ref;

impl WordKind for Ref {
    ghost text = { w_ref };

    fn text() -> &'static str {
        "ref"
    }

    fn expected() -> &'static str {
        "expected `ref`"
    }

    ghost known = { unfold is_known_word in refl };

    ghost plain = { refl };
}

/// `return`
pub struct Return;

impl WordKind for Return {
    ghost text = { w_return };

    fn text() -> &'static str {
        "return"
    }

    fn expected() -> &'static str {
        "expected `return`"
    }

    ghost known = { unfold is_known_word in refl };

    ghost plain = { refl };
}

/// `true`
pub struct True;

impl WordKind for True {
    ghost text = { w_true };

    fn text() -> &'static str {
        "true"
    }

    fn expected() -> &'static str {
        "expected `true`"
    }

    ghost known = { unfold is_known_word in refl };

    ghost plain = { refl };
}

/// `_`
pub struct Underscore;

impl WordKind for Underscore {
    ghost text = { w_underscore };

    fn text() -> &'static str {
        "_"
    }

    fn expected() -> &'static str {
        "expected `_`"
    }

    ghost known = { unfold is_known_word in refl };

    ghost plain = { refl };
}

/// `while`
pub struct While;

impl WordKind for While {
    ghost text = { w_while };

    fn text() -> &'static str {
        "while"
    }

    fn expected() -> &'static str {
        "expected `while`"
    }

    ghost known = { unfold is_known_word in refl };

    ghost plain = { refl };
}
