//! Functions as items.

mod parsing;

use crate::sig::Signature;
pub(crate) use parsing::{function, function_rest};
use syn_lower::Attribute;
use syn_recognize::deferred::DeferredBlock;
use syn_tree::item::FnModifiers;
use syn_tree::restriction::Visibility;

/// A function, such as `fn f() -> u8 { 1 }`. Its body is kept verbatim.
#[derive(Drop)]
pub struct ItemFn {
    pub attrs: Vec<Attribute>,
    pub vis: Visibility,
    pub modifiers: FnModifiers,
    pub sig: Signature,
    pub block: DeferredBlock,
}

// Written by tools/kinds.py from here to the end; edits are lost.

impl std::marker::Model for ItemFn {
    ghost use Rattle.syn_grammar.specs.Grammar.{Syntax};
    ghost use Rattle.syn_grammar.specs.TreeCodes.{syntax_code};

    ghost Value = { Syntax };

    ghost coded = { syntax_code };

    ghost use Rattle.syn_item.specs.Functions.{view_ItemFn};

    ghost view = { view_ItemFn };
}

impl syn_tokens::syntactic::Syntactic for ItemFn {
    ghost use Rattle.syn_item.specs.Functions.{syntax_of_ItemFn};

    ghost syntax = { syntax_of_ItemFn };
}
