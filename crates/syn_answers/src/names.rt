//! The names of items, found ahead of reading.
ghost use Rattle.std.specs.Prelude.{◌≡◌, IfOk};
ghost use Rattle.syn_grammar.specs.Listed as grammar;
ghost use Rattle.syn_grammar.specs.Listed.{past};
ghost use Rattle.syn_answers.specs.Listing.{marker_of, marks, name_of, rule_of};

use crate::list::ItemKind;
use std::alloc::AllocError;
use syn_parse::buffer::ParseBuffer;
use syn_tokens::ident::Ident;
use syn_tokens::stream::cursor::{Cursor, TokenTreeRef};

/// The token before a name: a word, or the `!` of a macro.
#[derive(Clone, Copy, Debug)]
pub(crate) enum Marker {
    Word(&'static str),
    Bang,
}

/// Whether the tree is the marker.
fn is_marker(tree: &TokenTreeRef<'_>, marker: Marker) -> bool
    ensures { result ≡ marks (marker_of marker) tree.now }
{
    match marker {
        Marker::Word(text) => is_word(tree, text),
        Marker::Bang => is_bang(tree),
    }
}

/// Whether the tree is this word.
fn is_word(tree: &TokenTreeRef<'_>, text: &str) -> bool
    ensures { result ≡ marks (grammar.a_word text.now) tree.now }
{
    match tree {
        TokenTreeRef::Ident(ident) => ident.is(text),
        TokenTreeRef::Literal(_) => false,
        TokenTreeRef::Punct(_) => false,
        TokenTreeRef::Group(_) => false,
    }
}

/// Whether the tree is a `!`.
fn is_bang(tree: &TokenTreeRef<'_>) -> bool
    ensures { result ≡ marks grammar.a_bang tree.now }
{
    match tree {
        TokenTreeRef::Ident(_) => false,
        TokenTreeRef::Literal(_) => false,
        TokenTreeRef::Punct(punct) => punct.character() == '!',
        TokenTreeRef::Group(_) => false,
    }
}

/// The trees after the first marker outside of groups; none where there is none.
#[tactic(auto, using(crate::proofs::Listing::past_marker, crate::proofs::Listing::past_other, crate::proofs::Listing::one_shorter, crate::proofs::Listing::past_all))]
fn following<'a>(trees: &Cursor<'a>, marker: Marker) -> Cursor<'a>
    ensures { result ≡ past (marker_of marker) trees.now }
{
    let mut rest = trees.fork();
    'trees: for _tree in 0..trees.len() {
        let Some((tree, following)) = rest.split() else {
            return rest;
        };
        if is_marker(&tree, marker) {
            return following;
        }
        rest = following;
    }
    Cursor::none()
}

/// The trees after `mut`, if it is next.
pub(crate) fn after_mut<'a>(trees: &Cursor<'a>) -> Cursor<'a>
    ensures { result ≡ grammar.past_mut trees.now }
{
    let Some((ident, following)) = trees.split_ident() else {
        return trees.fork();
    };
    if ident.is("mut") {
        return following;
    }
    trees.fork()
}

/// The identifier that is next.
fn name(trees: &Cursor<'_>) -> Result<Option<Ident>, AllocError>
    ensures { IfOk result (λ name. name_of name ≡ grammar.name_next trees.now) }
{
    match trees.split_ident() {
        Some((ident, _)) => Ok(Some(ident.to_ident()?)),
        None => Ok(None),
    }
}

/// The identifier after the first of these words outside of groups.
fn name_after(trees: &Cursor<'_>, word: &'static str) -> Result<Option<Ident>, AllocError>
    ensures { IfOk result (λ name. name_of name ≡ grammar.name_past word.now trees.now) }
{
    name(&following(trees, Marker::Word(word)))
}

// Written by tools/kinds.py down to the next such comment; edits are lost.

/// The name of the item of this kind that begins here.
pub(crate) fn name_ahead(
    kind: ItemKind,
    input: &ParseBuffer<'_>,
) -> Result<Option<Ident>, AllocError>
    ensures { IfOk result (λ name. name_of name ≡ grammar.name_ahead (rule_of kind) input.now) }
{
    let trees = input.cursor();
    match kind {
        ItemKind::Const => name_after(&trees, "const"),
        ItemKind::Enum => name_after(&trees, "enum"),
        ItemKind::ExternCrate => name_after(&trees, "crate"),
        ItemKind::Fn => name_after(&trees, "fn"),
        ItemKind::ForeignMod => Ok(None),
        ItemKind::Impl => Ok(None),
        ItemKind::Macro => name(&following(&trees, Marker::Bang)),
        ItemKind::Mod => name_after(&trees, "mod"),
        ItemKind::Static => name(&after_mut(&following(&trees, Marker::Word("static")))),
        ItemKind::Struct => name_after(&trees, "struct"),
        ItemKind::Trait => name_after(&trees, "trait"),
        ItemKind::TraitAlias => name_after(&trees, "trait"),
        ItemKind::Ty => name_after(&trees, "type"),
        ItemKind::Union => name_after(&trees, "union"),
        ItemKind::Use => Ok(None),
        ItemKind::Verbatim => Ok(None),
    }
}

// End of the part that tools/kinds.py writes.
