//! Lines, and the texts in them.

use std::alloc::Global;
use std::fmt::Write as _;
use syn::reader::token_text;
use syn::token::{Ident, TokenStream, TokenTreeRef};
use syn::{Span, ToTokens, Visibility};

/// Adds the line of an item or a member: how it is called, and its span.
pub(crate) fn add_line<T: ToTokens>(
    lines: &mut String,
    indent: &str,
    name: &str,
    tree: &T,
    alloc: Global,
) -> syn::Result<()> {
    let Span { start, end } = place_of(&tokens_of(tree, alloc)?);
    writeln!(lines, "{indent}{name} at {start}..{end}")?;
    Ok(())
}

/// A visibility, these words, and a name.
pub(crate) fn named(
    vis: &Visibility,
    words: &str,
    name: &Ident,
    alloc: Global,
) -> syn::Result<String> {
    let mut text = visible(vis, alloc)?;
    write!(text, "{words} {}", name.text())?;
    Ok(text)
}

/// A visibility followed by a space, or nothing.
pub(crate) fn visible(vis: &Visibility, alloc: Global) -> syn::Result<String> {
    let mut text = text_of(vis, alloc)?;
    if !matches!(vis, Visibility::Inherited) {
        text.push(' ')?;
    }
    Ok(text)
}

/// The text of a tree's tokens.
pub(crate) fn text_of<T: ToTokens>(tree: &T, alloc: Global) -> syn::Result<String> {
    token_text(&tokens_of(tree, alloc)?)
}

/// The tokens of a tree.
fn tokens_of<T: ToTokens>(tree: &T, alloc: Global) -> syn::Result<TokenStream> {
    let mut tokens = TokenStream::new(alloc);
    tree.to_tokens(&mut tokens)?;
    Ok(tokens)
}

/// From where the first of these tokens begins to where the last one ends; 0 to 0 where there are none. What is printed of a tree
/// that was read has the spans of what it was read of.
fn place_of(tokens: &TokenStream) -> Span {
    let mut trees = tokens.iter();
    let Some(first) = trees.next() else {
        return Span::call_site();
    };
    let start = first.span().start;
    let mut end = end_of(&first);
    for tree in trees {
        end = end_of(&tree);
    }
    Span { start, end }
}

/// Where a tree ends; a group where its closing delimiter does.
fn end_of(tree: &TokenTreeRef<'_>) -> usize {
    match tree {
        TokenTreeRef::Group(group) => group.closing.end,
        TokenTreeRef::Ident(_) | TokenTreeRef::Literal(_) | TokenTreeRef::Punct(_) => {
            tree.span().end
        }
    }
}
