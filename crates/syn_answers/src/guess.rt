//! What an item looks like. A guess decides nothing: it only selects the kind that is tried first.
use crate::list::ItemKind;
use syn_tokens::delimiter::Delimiter;
use syn_tokens::stream::cursor::{Cursor, TokenTreeRef};

/// The kind that the first words outside of groups suggest. Looks no further than the end of the item.
pub(crate) fn guess(trees: &Cursor<'_>) -> ItemKind {
    let mut rest = trees.fork();
    for _tree in 0..trees.len() {
        let Some((tree, following)) = rest.split() else {
            return ItemKind::Verbatim;
        };
        if let Some(kind) = known_by(&tree, &following) {
            return kind;
        }
        rest = following;
    }
    ItemKind::Verbatim
}

/// The kind that a tree and the trees after it suggest.
fn known_by(tree: &TokenTreeRef<'_>, following: &Cursor<'_>) -> Option<ItemKind> {
    match tree {
        TokenTreeRef::Ident(ident) => known_by_word(ident.text(), following),
        TokenTreeRef::Literal(_) => None,
        TokenTreeRef::Punct(punct) => match punct.character() {
            '!' => Some(ItemKind::Macro),
            ';' => Some(ItemKind::Verbatim),
            _ => None,
        },
        TokenTreeRef::Group(group) => match group.delimiter {
            Delimiter::Brace => Some(ItemKind::ForeignMod),
            Delimiter::Bracket | Delimiter::None | Delimiter::Paren => None,
        },
    }
}

// Written by tools/kinds.py down to the next such comment; edits are lost.

/// The kind that a word suggests.
fn known_by_word(word: &str, following: &Cursor<'_>) -> Option<ItemKind> {
    match word {
        "crate" => Some(ItemKind::ExternCrate),
        "enum" => Some(ItemKind::Enum),
        "fn" => Some(ItemKind::Fn),
        "impl" => Some(ItemKind::Impl),
        "macro" => Some(ItemKind::Verbatim),
        "mod" => Some(ItemKind::Mod),
        "static" => Some(ItemKind::Static),
        "struct" => Some(ItemKind::Struct),
        "trait" => Some(ItemKind::Trait),
        "type" => Some(ItemKind::Ty),
        "use" => Some(ItemKind::Use),
        "const" => known_before_name(ItemKind::Const, following),
        "union" => known_before_name(ItemKind::Union, following),
        _ => None,
    }
}

// End of the part that tools/kinds.py writes.

/// This kind, if a name or `_` is next.
fn known_before_name(kind: ItemKind, following: &Cursor<'_>) -> Option<ItemKind> {
    let (ident, _) = following.split_ident()?;
    match ident.text() {
        "_" => Some(kind),
        "auto" => None,
        _ => { if ident.is_keyword() { None } else { Some(kind) } }
    }
}
