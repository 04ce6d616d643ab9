//! The laws of the grammar, each the contract of an empty function without parameters. Their statements are in
//! specs/Laws.antt and specs/Grows.antt. They hold of every token stream, unless they require a visible one.

ghost use Rattle.syn_grammar.specs.Grows.{LiftKeeps, StillDerives};
ghost use Rattle.syn_grammar.specs.Laws.{OneTree, SpansDecideNothing, PrintIsRead, PrintIsVisible, NormalPrints, NormalIsIdempotent, NormalForgetsSpans, SameForm, SameValueForm, EndsByItself};
ghost use Rattle.syn_grammar.specs.Rules.{derive_input, item, trait_item, impl_item, foreign_item};

/// The grammar is unambiguous: from one token stream each rule reads at most one syntax tree, and
/// leaves one rest. Holds of every token stream.
pub fn one_tree()
    ensures unambiguous { OneTree }
{}

/// Spans (in bytes) decide nothing: a rule derives both or none of two token streams that differ only in
/// spans, and the two trees differ only in spans. Holds of every token stream.
pub fn spans_decide_nothing()
    ensures like_trees { SpansDecideNothing }
{}

/// The same rule derives the print of a derived tree again, as a tree with the same normal form. Holds
/// of every token stream.
pub fn print_is_read()
    ensures derived_again { PrintIsRead }
{}

/// The print of a tree that is derived from a visible token stream (one without invisible groups at any
/// depth) is visible.
pub fn print_is_visible()
    ensures stays_visible { PrintIsVisible }
{}

/// The normal form prints as the tree does, with every span 0 to 0. Holds of every syntax tree, also of one
/// that is built by hand.
pub fn normal_prints()
    ensures prints_alike { NormalPrints }
{}

/// The normal form is idempotent. Holds of every syntax tree.
pub fn normal_is_idempotent()
    ensures stays_normal { NormalIsIdempotent }
{}

/// The normal form doesn't depend on spans (in bytes). Holds of every syntax tree.
pub fn normal_forgets_spans()
    ensures same_normal { NormalForgetsSpans }
{}

/// Of two trees that one rule derives, the normal forms are equal exactly where the prints are equal,
/// spans aside. Holds of every pair of token streams.
pub fn same_form()
    ensures by_print { SameForm }
{}

/// Of two trees that one rule derives, the normal forms are equal exactly where those of their values are. A
/// parser returns the value of a derivation tree, so what the laws say of normal forms holds of returned
/// trees. Holds of every pair of token streams.
pub fn same_value_form()
    ensures by_value { SameValueForm }
{}

/// The input of a derive ends by itself: what is derived of a token stream is read, as the same tree,
/// of that stream before any other. It holds of every token stream.
pub fn derive_input_ends_by_itself()
    ensures before_everything { EndsByItself derive_input }
{}

/// An item ends by itself: what is derived of a token stream is read, as the same tree, of that
/// stream before any other. It holds of every token stream.
pub fn item_ends_by_itself()
    ensures before_everything { EndsByItself item }
{}

/// A member of a trait ends by itself: what is derived of a token stream is read, as the same tree,
/// of that stream before any other. It holds of every token stream.
pub fn trait_item_ends_by_itself()
    ensures before_everything { EndsByItself trait_item }
{}

/// A member of an impl ends by itself: what is derived of a token stream is read, as the same tree,
/// of that stream before any other. It holds of every token stream.
pub fn impl_item_ends_by_itself()
    ensures before_everything { EndsByItself impl_item }
{}

/// A foreign member ends by itself: what is derived of a token stream is read, as the same tree,
/// of that stream before any other. It holds of every token stream.
pub fn foreign_item_ends_by_itself()
    ensures before_everything { EndsByItself foreign_item }
{}

/// Everything accepted before `const` traits and impls became kinds of items, and before struct literals,
/// is still accepted: what a rule of the earlier grammar derives from some tokens, the rule derives from
/// the same tokens. Each such trait or impl, at any depth, is no longer verbatim, or is verbatim in
/// another form. It holds of every token stream.
pub fn still_derives()
    ensures grown { StillDerives }
{}

/// A tree of the earlier grammar without such a trait or impl is unchanged, and so is its print. It holds
/// of every syntax tree.
pub fn lift_keeps()
    ensures kept { LiftKeeps }
{}
