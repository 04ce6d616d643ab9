//! Written by tools/kinds.py; edits are lost.
//!
//! What a text may spell.
ghost use Rattle.std.specs.Prelude.{◌≡◌, MatchOption};
ghost use Rattle.syn_canon.specs.Kinds.{word_of, NoKind};

/// What a text may spell.
#[derive(Clone, Copy, Debug, PartialEq, Eq)]
pub(crate) enum Kind {
    File,
    Item,
    Derive,
    Visibility,
    Variant,
    NamedField,
    UnnamedField,
    FieldsNamed,
    FieldsUnnamed,
    Signature,
    FnArg,
    Receiver,
    UseTree,
    TraitItem,
    ImplItem,
    ForeignItem,
    ItemConst,
    ItemEnum,
    ItemExternCrate,
    ItemFn,
    ItemForeignMod,
    ItemImpl,
    ItemMacro,
    ItemMod,
    ItemStatic,
    ItemStruct,
    ItemTrait,
    ItemTraitAlias,
    ItemType,
    ItemUnion,
    ItemUse,
    Block,
    Stmt,
    Stmts,
}

impl Kind {
    /// The kind that the word is, if it is one.
    pub(crate) fn from_word(word: &str) -> Option<Kind>
        ensures { MatchOption result (NoKind word.now) (λ kind. word.now ≡ word_of kind) }
    {
        match word {
            "file" => Some(Kind::File),
            "item" => Some(Kind::Item),
            "derive" => Some(Kind::Derive),
            "visibility" => Some(Kind::Visibility),
            "variant" => Some(Kind::Variant),
            "named-field" => Some(Kind::NamedField),
            "unnamed-field" => Some(Kind::UnnamedField),
            "fields-named" => Some(Kind::FieldsNamed),
            "fields-unnamed" => Some(Kind::FieldsUnnamed),
            "signature" => Some(Kind::Signature),
            "fn-arg" => Some(Kind::FnArg),
            "receiver" => Some(Kind::Receiver),
            "use-tree" => Some(Kind::UseTree),
            "trait-item" => Some(Kind::TraitItem),
            "impl-item" => Some(Kind::ImplItem),
            "foreign-item" => Some(Kind::ForeignItem),
            "item-const" => Some(Kind::ItemConst),
            "item-enum" => Some(Kind::ItemEnum),
            "item-extern-crate" => Some(Kind::ItemExternCrate),
            "item-fn" => Some(Kind::ItemFn),
            "item-foreign-mod" => Some(Kind::ItemForeignMod),
            "item-impl" => Some(Kind::ItemImpl),
            "item-macro" => Some(Kind::ItemMacro),
            "item-mod" => Some(Kind::ItemMod),
            "item-static" => Some(Kind::ItemStatic),
            "item-struct" => Some(Kind::ItemStruct),
            "item-trait" => Some(Kind::ItemTrait),
            "item-trait-alias" => Some(Kind::ItemTraitAlias),
            "item-type" => Some(Kind::ItemType),
            "item-union" => Some(Kind::ItemUnion),
            "item-use" => Some(Kind::ItemUse),
            "block" => Some(Kind::Block),
            "stmt" => Some(Kind::Stmt),
            "stmts" => Some(Kind::Stmts),
            _ => None,
        }
    }
}
