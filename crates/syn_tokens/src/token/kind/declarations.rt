//! Written by tools/tokens.py; edits are lost.
//!
//! Words of declarations and paths.
ghost use Rattle.std.specs.Prelude.{refl};
ghost use Rattle.syn_grammar.specs.Words.{w_const, w_crate, w_enum, w_extern, w_fn, w_impl, w_in, w_mod, w_pub, w_Self_type, w_self, w_static, w_struct, w_super, w_trait, w_type, w_unsafe, w_use, w_where};
ghost use Rattle.syn_tokens.specs.Leaves.{is_known_word};

use crate::token::WordKind;

/// `const`
pub struct Const;

impl WordKind for Const {
    ghost text = { w_const };

    fn text() -> &'static str {
        "const"
    }

    fn expected() -> &'static str {
        "expected `const`"
    }

    ghost known = { unfold is_known_word in refl };

    ghost plain = { refl };
}

/// `crate`
pub struct Crate;

impl WordKind for Crate {
    ghost text = { w_crate };

    fn text() -> &'static str {
        "crate"
    }

    fn expected() -> &'static str {
        "expected `crate`"
    }

    ghost known = { unfold is_known_word in refl };

    ghost plain = { refl };
}

/// `enum`
pub struct Enum;

impl WordKind for Enum {
    ghost text = { w_enum };

    fn text() -> &'static str {
        "enum"
    }

    fn expected() -> &'static str {
        "expected `enum`"
    }

    ghost known = { unfold is_known_word in refl };

    ghost plain = { refl };
}

/// `extern`
pub struct Extern;

impl WordKind for Extern {
    ghost text = { w_extern };

    fn text() -> &'static str {
        "extern"
    }

    fn expected() -> &'static str {
        "expected `extern`"
    }

    ghost known = { unfold is_known_word in refl };

    ghost plain = { refl };
}

/// `fn`
pub struct Fn;

impl WordKind for Fn {
    ghost text = { w_fn };

    fn text() -> &'static str {
        "fn"
    }

    fn expected() -> &'static str {
        "expected `fn`"
    }

    ghost known = { unfold is_known_word in refl };

    ghost plain = { refl };
}

/// `impl`
pub struct Impl;

impl WordKind for Impl {
    ghost text = { w_impl };

    fn text() -> &'static str {
        "impl"
    }

    fn expected() -> &'static str {
        "expected `impl`"
    }

    ghost known = { unfold is_known_word in refl };

    ghost plain = { refl };
}

/// `in`
pub struct In;

impl WordKind for In {
    ghost text = { w_in };

    fn text() -> &'static str {
        "in"
    }

    fn expected() -> &'static str {
        "expected `in`"
    }

    ghost known = { unfold is_known_word in refl };

    ghost plain = { refl };
}

/// `mod`
pub struct Mod;

impl WordKind for Mod {
    ghost text = { w_mod };

    fn text() -> &'static str {
        "mod"
    }

    fn expected() -> &'static str {
        "expected `mod`"
    }

    ghost known = { unfold is_known_word in refl };

    ghost plain = { refl };
}

/// `pub`
pub struct Pub;

impl WordKind for Pub {
    ghost text = { w_pub };

    fn text() -> &'static str {
        "pub"
    }

    fn expected() -> &'static str {
        "expected `pub`"
    }

    ghost known = { unfold is_known_word in refl };

    ghost plain = { refl };
}

/// `Self`
pub struct SelfType;

impl WordKind for SelfType {
    ghost text = { w_Self_type };

    fn text() -> &'static str {
        "Self"
    }

    fn expected() -> &'static str {
        "expected `Self`"
    }

    ghost known = { unfold is_known_word in refl };

    ghost plain = { refl };
}

/// `self`
pub struct SelfValue;

impl WordKind for SelfValue {
    ghost text = { w_self };

    fn text() -> &'static str {
        "self"
    }

    fn expected() -> &'static str {
        "expected `self`"
    }

    ghost known = { unfold is_known_word in refl };

    ghost plain = { refl };
}

/// `static`
pub struct Static;

impl WordKind for Static {
    ghost text = { w_static };

    fn text() -> &'static str {
        "static"
    }

    fn expected() -> &'static str {
        "expected `static`"
    }

    ghost known = { unfold is_known_word in refl };

    ghost plain = { refl };
}

/// `struct`
pub struct Struct;

impl WordKind for Struct {
    ghost text = { w_struct };

    fn text() -> &'static str {
        "struct"
    }

    fn expected() -> &'static str {
        "expected `struct`"
    }

    ghost known = { unfold is_known_word in refl };

    ghost plain = { refl };
}

/// `super`
pub struct Super;

impl WordKind for Super {
    ghost text = { w_super };

    fn text() -> &'static str {
        "super"
    }

    fn expected() -> &'static str {
        "expected `super`"
    }

    ghost known = { unfold is_known_word in refl };

    ghost plain = { refl };
}

/// `trait`
pub struct Trait;

impl WordKind for Trait {
    ghost text = { w_trait };

    fn text() -> &'static str {
        "trait"
    }

    fn expected() -> &'static str {
        "expected `trait`"
    }

    ghost known = { unfold is_known_word in refl };

    ghost plain = { refl };
}

/// `type`
pub struct Type;

impl WordKind for Type {
    ghost text = { w_type };

    fn text() -> &'static str {
        "type"
    }

    fn expected() -> &'static str {
        "expected `type`"
    }

    ghost known = { unfold is_known_word in refl };

    ghost plain = { refl };
}

/// `unsafe`
pub struct Unsafe;

impl WordKind for Unsafe {
    ghost text = { w_unsafe };

    fn text() -> &'static str {
        "unsafe"
    }

    fn expected() -> &'static str {
        "expected `unsafe`"
    }

    ghost known = { unfold is_known_word in refl };

    ghost plain = { refl };
}

/// `use`
pub struct Use;

impl WordKind for Use {
    ghost text = { w_use };

    fn text() -> &'static str {
        "use"
    }

    fn expected() -> &'static str {
        "expected `use`"
    }

    ghost known = { unfold is_known_word in refl };

    ghost plain = { refl };
}

/// `where`
pub struct Where;

impl WordKind for Where {
    ghost text = { w_where };

    fn text() -> &'static str {
        "where"
    }

    fn expected() -> &'static str {
        "expected `where`"
    }

    ghost known = { unfold is_known_word in refl };

    ghost plain = { refl };
}
