//! Trees of uses.

use crate::outline::{Outlined, TreeText};
use syn::item::UseTree;
use syn::punctuated::Punctuated;
use syn::token::Comma;

/// So deep trees are shown.
const DEPTH: usize = 30;

impl Outlined for UseTree {
    fn show(&self, out: &mut TreeText) {
        show_tree(self, DEPTH, out);
    }
}

/// Adds what shows a tree of a use.
#[cycle(show)]
fn show_tree(tree: &UseTree, depth: usize, out: &mut TreeText) {
    if depth == 0 {
        out.word("..");
        return;
    }
    match tree {
        UseTree::Path(path) => {
            path.ident.show(out);
            out.mark("::", &path.colon2_token);
            show_tree(&path.tree, depth - 1, out);
        }
        UseTree::Name(name) => name.ident.show(out),
        UseTree::Rename(renamed) => {
            renamed.ident.show(out);
            out.token("as", renamed.as_token.span);
            renamed.rename.show(out);
        }
        UseTree::Glob(glob) => out.mark("*", &glob.star_token),
        UseTree::Group(group) => {
            out.token("{", group.brace_token.opening);
            show_trees(&group.items, depth - 1, out);
            out.token("}", group.brace_token.closing);
        }
    }
}

/// Adds what shows some trees, each with its comma.
#[cycle(show)]
fn show_trees(trees: &Punctuated<UseTree, Comma>, depth: usize, out: &mut TreeText) {
    if depth == 0 {
        out.word("..");
        return;
    }
    for (tree, comma) in trees.pairs() {
        show_tree(tree, depth - 1, out);
        out.mark(",", comma);
    }
    match trees.trailing_value() {
        Some(tree) => show_tree(tree, depth - 1, out),
        None => {}
    }
}
