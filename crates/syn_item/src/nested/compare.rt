//! Comparisons of what leads back to a tree of a use.
ghost use Rattle.std.specs.Prelude.{◌≡◌, ◌<◌, ℕ};
ghost use Rattle.syn_grammar.specs.Same.{same_syntax};
ghost use Rattle.syn_lower.specs.Sizes.{tree_size};
ghost use Rattle.syn_item.specs.Uses.{by_word, syntax_of_UseTree};

use crate::use_tree::{UseName, UsePath, UseRename, UseTree};
pub use syn_pat::nested::compare::{CompareNested, CompareOf, Knot, same_list};
use syn_tokens::syntactic::compare::Compared;

/// Never: `::` follows the word of a path.
#[tactic(auto, using(syn_grammar::proofs::Same::and_false))]
fn is_name(path: &UsePath, name: &UseName) -> bool
    ensures same { result ≡ same_syntax (by_word path.now) (by_word name.now) }
    ensures turned { result ≡ same_syntax (by_word name.now) (by_word path.now) }
{
    let (_colons, _name) = (&path.colon2_token, &name.ident);
    false
}

/// Never: `::` follows the word of a path, and not `as`.
#[tactic(auto, using(syn_grammar::proofs::Same::and_false))]
fn is_rename(path: &UsePath, rename: &UseRename) -> bool
    ensures same { result ≡ same_syntax (by_word path.now) (by_word rename.now) }
    ensures turned { result ≡ same_syntax (by_word rename.now) (by_word path.now) }
{
    let (_colons, _as) = (&path.colon2_token, &rename.as_token);
    false
}

/// Never: nothing follows a word alone.
#[tactic(auto, using(syn_grammar::proofs::Same::and_false))]
fn is_renamed(name: &UseName, rename: &UseRename) -> bool
    ensures same { result ≡ same_syntax (by_word name.now) (by_word rename.now) }
    ensures turned { result ≡ same_syntax (by_word rename.now) (by_word name.now) }
{
    let (_name, _as) = (&name.ident, &rename.as_token);
    false
}

/// Two trees, by what they are.
fn same_variant<N: CompareOf<UseTree>>(nested: &N, tree: &UseTree, other: &UseTree) -> bool
    requires { (n : ℕ) → n < tree_size (syntax_of_UseTree tree.now) → N.may nested.now n }
    ensures same { result ≡ same_syntax (syntax_of_UseTree tree.now) (syntax_of_UseTree other.now) }
{
    match (tree, other) {
        (UseTree::Path(a), UseTree::Path(b)) => a.is_same_nested(nested, b),
        (UseTree::Path(a), UseTree::Name(b)) => is_name(a, b),
        (UseTree::Path(a), UseTree::Rename(b)) => is_rename(a, b),
        (UseTree::Name(a), UseTree::Path(b)) => is_name(b, a),
        (UseTree::Name(a), UseTree::Name(b)) => a.is_same(b),
        (UseTree::Name(a), UseTree::Rename(b)) => is_renamed(a, b),
        (UseTree::Rename(a), UseTree::Path(b)) => is_rename(b, a),
        (UseTree::Rename(a), UseTree::Name(b)) => is_renamed(b, a),
        (UseTree::Rename(a), UseTree::Rename(b)) => a.is_same(b),
        (UseTree::Glob(a), UseTree::Glob(b)) => a.is_same(b),
        (UseTree::Group(a), UseTree::Group(b)) => a.is_same_nested(nested, b),
        _ => false,
    }
}

/// The comparison of trees.
#[cycle(compare_use_trees)]
pub fn is_same_tree(tree: &UseTree, other: &UseTree) -> bool
    ensures same { result ≡ same_syntax (syntax_of_UseTree tree.now) (syntax_of_UseTree other.now) }
{
    same_variant(
        &Knot {
            is_same: is_same_tree,
        },
        tree,
        other,
    )
}
