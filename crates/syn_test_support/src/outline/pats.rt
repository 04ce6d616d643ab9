//! Patterns.

use super::parts::{node, show_mut, show_path, show_type};
use crate::outline::{Outlined, TreeText};
use syn::pat::{Pat, PatIdent, PatType, PatWild};
use syn::punctuated::Punctuated;
use syn::token::Comma;

/// So deep patterns are shown.
const DEPTH: usize = 30;

impl Outlined for Pat {
    fn show(&self, out: &mut TreeText) {
        show_pat(self, DEPTH, out);
    }
}

impl Outlined for PatType {
    fn show(&self, out: &mut TreeText) {
        node("Ty", &self.attrs, out);
        show_pat(&self.pat, DEPTH, out);
        out.mark(":", &self.colon_token);
        show_type(&self.ty, out);
    }
}

/// Adds what shows a pattern: what it is called, and what it holds.
#[cycle(show)]
fn show_pat(pat: &Pat, depth: usize, out: &mut TreeText) {
    if depth == 0 {
        out.word("..");
        return;
    }
    match pat {
        Pat::Ident(name) => show_name(name, out),
        Pat::Paren(paren) => {
            out.word("Paren");
            out.token("(", paren.paren_token.opening);
            show_pat(&paren.pat, depth - 1, out);
            out.token(")", paren.paren_token.closing);
        }
        Pat::Path(path) => show_path(&path.qself, &path.path, out),
        Pat::Tuple(tuple) => {
            out.word("Tuple");
            out.token("(", tuple.paren_token.opening);
            show_pats(&tuple.elems, depth - 1, out);
            out.token(")", tuple.paren_token.closing);
        }
        Pat::TupleStruct(tuple) => {
            out.word("TupleStruct");
            show_path(&tuple.qself, &tuple.path, out);
            out.token("(", tuple.paren_token.opening);
            show_pats(&tuple.elems, depth - 1, out);
            out.token(")", tuple.paren_token.closing);
        }
        Pat::Ty(typed) => {
            node("Ty", &typed.attrs, out);
            show_pat(&typed.pat, depth - 1, out);
            out.mark(":", &typed.colon_token);
            show_type(&typed.ty, out);
        }
        Pat::Wild(wild) => show_wild(wild, out),
    }
}

/// Adds what shows some patterns, each with its comma.
#[cycle(show)]
fn show_pats(pats: &Punctuated<Pat, Comma>, depth: usize, out: &mut TreeText) {
    if depth == 0 {
        out.word("..");
        return;
    }
    for (pat, comma) in pats.pairs() {
        show_pat(pat, depth - 1, out);
        out.mark(",", comma);
    }
    match pats.trailing_value() {
        Some(pat) => show_pat(pat, depth - 1, out),
        None => {}
    }
}

/// Adds a name, with what stands before it.
fn show_name(name: &PatIdent, out: &mut TreeText) {
    out.word("Ident");
    if let Some(by_ref) = &name.by_ref {
        out.token("ref", by_ref.span);
    }
    show_mut(&name.mutability, out);
    name.ident.show(out);
}

/// Adds `_`.
fn show_wild(wild: &PatWild, out: &mut TreeText) {
    node("Wild", &wild.attrs, out);
    out.token("_", wild.underscore_token.span);
}
