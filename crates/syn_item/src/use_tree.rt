//! The trees of `use` items.

mod parsing;

pub(crate) use parsing::{use_item, use_rest};
use syn_tokens::ident::Ident;
use syn_tokens::punctuated::Punctuated;
use syn_tokens::token::{As, Brace, Comma, PathSep, Star};

/// A tree of a `use` item.
#[cycle(use_trees)]
#[derive(Drop)]
pub enum UseTree {
    /// `a::b`
    Path(UsePath),
    /// `a`
    Name(UseName),
    /// `a as b`
    Rename(UseRename),
    /// `*`
    Glob(UseGlob),
    /// `{a, b}`
    Group(UseGroup),
}

/// A word and the tree after it, such as `std::vec`.
#[cycle(use_trees)]
#[derive(Drop)]
pub struct UsePath {
    pub ident: Ident,
    pub colon2_token: PathSep,
    pub tree: Box<UseTree>,
}

/// A word alone, such as `vec` or `self`.
#[derive(Drop)]
pub struct UseName {
    pub ident: Ident,
}

/// A word with another name, such as `vec as list` or `vec as _`.
#[derive(Drop)]
pub struct UseRename {
    pub ident: Ident,
    pub as_token: As,
    pub rename: Ident,
}

/// `*`
#[derive(Drop)]
pub struct UseGlob {
    pub star_token: Star,
}

/// Trees in braces, such as `{self, vec, option::*}`.
#[cycle(use_trees)]
#[derive(Drop)]
pub struct UseGroup {
    pub brace_token: Brace,
    pub items: Punctuated<UseTree, Comma>,
}

// Written by tools/kinds.py from here to the end; edits are lost.

impl std::marker::Model for UsePath {
    ghost use Rattle.syn_grammar.specs.Grammar.{Syntax};
    ghost use Rattle.syn_grammar.specs.TreeCodes.{syntax_code};

    ghost Value = { Syntax };

    ghost coded = { syntax_code };

    ghost use Rattle.syn_item.specs.Uses.{view_UsePath};

    ghost view = { view_UsePath };

    ghost use Rattle.syn_lower.specs.Sizes.{tree_size};

    ghost size = { tree_size };

    ghost use Rattle.syn_item.specs.Falls.{falls_UsePath};

    ghost size_decreases = { λ a h. falls_UsePath a };
}

impl std::marker::Model for UseName {
    ghost use Rattle.syn_grammar.specs.Grammar.{Syntax};
    ghost use Rattle.syn_grammar.specs.TreeCodes.{syntax_code};

    ghost Value = { Syntax };

    ghost coded = { syntax_code };

    ghost use Rattle.syn_item.specs.Uses.{view_UseName};

    ghost view = { view_UseName };
}

impl std::marker::Model for UseRename {
    ghost use Rattle.syn_grammar.specs.Grammar.{Syntax};
    ghost use Rattle.syn_grammar.specs.TreeCodes.{syntax_code};

    ghost Value = { Syntax };

    ghost coded = { syntax_code };

    ghost use Rattle.syn_item.specs.Uses.{view_UseRename};

    ghost view = { view_UseRename };
}

impl std::marker::Model for UseGlob {
    ghost use Rattle.syn_grammar.specs.Grammar.{Syntax};
    ghost use Rattle.syn_grammar.specs.TreeCodes.{syntax_code};

    ghost Value = { Syntax };

    ghost coded = { syntax_code };

    ghost use Rattle.syn_item.specs.Uses.{view_UseGlob};

    ghost view = { view_UseGlob };
}

impl std::marker::Model for UseGroup {
    ghost use Rattle.syn_grammar.specs.Grammar.{Syntax};
    ghost use Rattle.syn_grammar.specs.TreeCodes.{syntax_code};

    ghost Value = { Syntax };

    ghost coded = { syntax_code };

    ghost use Rattle.syn_item.specs.Uses.{view_UseGroup};

    ghost view = { view_UseGroup };

    ghost use Rattle.syn_lower.specs.Sizes.{tree_size};

    ghost size = { tree_size };

    ghost use Rattle.syn_item.specs.Falls.{falls_UseGroup};

    ghost size_decreases = { λ a h. falls_UseGroup a };
}

impl syn_tokens::syntactic::Syntactic for UseTree {
    ghost use Rattle.syn_item.specs.Uses.{syntax_of_UseTree};

    ghost syntax = { syntax_of_UseTree };
}

impl syn_tokens::syntactic::Syntactic for UsePath {
    ghost use Rattle.syn_grammar.specs.Promises.{itself};

    ghost syntax = { itself };
}

impl syn_tokens::syntactic::Syntactic for UseName {
    ghost use Rattle.syn_grammar.specs.Promises.{itself};

    ghost syntax = { itself };
}

impl syn_tokens::syntactic::Syntactic for UseRename {
    ghost use Rattle.syn_grammar.specs.Promises.{itself};

    ghost syntax = { itself };
}

impl syn_tokens::syntactic::Syntactic for UseGlob {
    ghost use Rattle.syn_grammar.specs.Promises.{itself};

    ghost syntax = { itself };
}

impl syn_tokens::syntactic::Syntactic for UseGroup {
    ghost use Rattle.syn_grammar.specs.Promises.{itself};

    ghost syntax = { itself };
}
