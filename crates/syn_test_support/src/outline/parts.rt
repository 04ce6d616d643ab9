//! What patterns, expressions, statements and items are made of, and macros.

use super::types::show_qualified;
use crate::outline::{Outlined, TreeText};
use syn::expr::Label;
use syn::lower::{
    AngleBracketedGenericArguments, Attribute, Member, Path, QSelf, Type, TypeParamBound,
};
use syn::punctuated::Punctuated;
use syn::token::{As, Ident, Lifetime, Mark, Mut, Plus, Semi, Word};
use syn::{Macro, token};

/// Adds the attributes of a part, and then what it is called. So attributes stand before the word of what has them.
pub(super) fn node(word: &str, attrs: &Vec<Attribute>, out: &mut TreeText) {
    out.attributes(attrs);
    out.word(word);
}

/// Adds what shows a path, with the type before it if there is one: how many of its words are inside the `< >` of that, and `as` if it is
/// there.
pub(super) fn show_path(qself: &Option<QSelf>, path: &Path, out: &mut TreeText) {
    show_qualified(qself, path, out);
}

/// Adds what shows a type.
pub(super) fn show_type(ty: &Type, out: &mut TreeText) {
    ty.show(out);
}

/// Adds what shows a lifetime.
pub(super) fn show_lifetime(lifetime: &Lifetime, out: &mut TreeText) {
    out.token("'", lifetime.apostrophe);
    lifetime.ident.show(out);
}

/// Adds a lifetime, if there is one.
pub(super) fn show_target(label: &Option<Lifetime>, out: &mut TreeText) {
    match label {
        Some(lifetime) => show_lifetime(lifetime, out),
        None => {}
    }
}

/// Adds a label, if there is one.
pub(super) fn show_label(label: &Option<Label>, out: &mut TreeText) {
    match label {
        Some(label) => label.show(out),
        None => {}
    }
}

/// Adds a word, if it is there.
pub(super) fn show_word<K>(text: &str, token: &Option<Word<K>>, out: &mut TreeText) {
    match token {
        Some(token) => out.token(text, token.span),
        None => {}
    }
}

/// Adds a mark, if it is there.
pub(super) fn show_mark<K, const N: usize>(
    text: &str,
    token: &Option<Mark<K, N>>,
    out: &mut TreeText,
) {
    match token {
        Some(token) => out.mark(text, token),
        None => {}
    }
}

/// Adds `default`, if it is there.
pub(super) fn show_modifier(defaultness: &Option<token::Default>, out: &mut TreeText) {
    show_word("default", defaultness, out);
}

/// Adds `as` and a name, if they are there.
pub(super) fn show_rename(rename: &Option<(As, Ident)>, out: &mut TreeText) {
    if let Some((as_token, ident)) = rename {
        out.token("as", as_token.span);
        ident.show(out);
    }
}

/// Adds bounds, each with its `+`.
pub(super) fn show_bounds(bounds: &Punctuated<TypeParamBound, Plus>, out: &mut TreeText) {
    for (bound, plus) in bounds.pairs() {
        bound.show(out);
        out.mark("+", plus);
    }
    if let Some(bound) = bounds.trailing_value() {
        bound.show(out);
    }
}

/// Adds `mut`, if it is there.
pub(super) fn show_mut(mutability: &Option<Mut>, out: &mut TreeText) {
    match mutability {
        Some(token) => out.token("mut", token.span),
        None => {}
    }
}

/// Adds `;`, if it is there.
pub(super) fn show_semi(semi: &Option<Semi>, out: &mut TreeText) {
    match semi {
        Some(token) => out.mark(";", token),
        None => {}
    }
}

/// Adds generic arguments, if there are any.
pub(super) fn show_arguments(
    arguments: &Option<AngleBracketedGenericArguments>,
    out: &mut TreeText,
) {
    match arguments {
        Some(arguments) => arguments.show(out),
        None => {}
    }
}

impl Outlined for Label {
    fn show(&self, out: &mut TreeText) {
        show_lifetime(&self.name, out);
        out.mark(":", &self.colon_token);
    }
}

/// A number is shown by what it prints.
impl Outlined for Member {
    fn show(&self, out: &mut TreeText) {
        match self {
            Member::Named(ident) => ident.show(out),
            Member::Unnamed(index) => out.printed("Index", index),
        }
    }
}

impl Outlined for Macro {
    fn show(&self, out: &mut TreeText) {
        self.path.show(out);
        out.mark("!", &self.bang_token);
        out.tokens_in(self.delimiter, &self.tokens);
    }
}
