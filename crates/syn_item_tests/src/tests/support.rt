//! Parts of items, made of texts, and what is asserted of the items.
//!
//! A test returns nothing: it takes its parts by `part`, which fails it where they are refused.
use std::alloc::Global;
use std::process::Abort;
use syn_lower::{Attribute, Generics, WhereClause};
use syn_parse::buffer::ParseBuffer;
use syn_parse::parse::Parse;
use syn_reader::reader::{read_tokens, token_text};
use syn_recognize::deferred::{DeferredItems, read_deferred_rest};
use syn_tokens::error::{Error, Result};
use syn_tokens::ident::Ident;
use syn_tokens::print::ToTokens;
use syn_tokens::span::Span;
use syn_tokens::stream::TokenStream;
use syn_tokens::syntactic::try_clone::TryClone;
use syn_tokens::token::Brace;
use syn_whole::parse::parse2;

/// What the result holds.
pub fn value<T: Drop>(rt: &impl Abort, answer: Result<T>) -> T {
    match answer {
        Ok(value) => value,
        Err(error) => panic!(rt; "{error}"),
    }
}

/// The tokens of a text.
pub fn tokens(rt: &impl Abort, alloc: Global, text: &str) -> TokenStream {
    value(rt, read_tokens(alloc, text))
}

/// What a text is parsed as.
pub fn part<T: Parse + Drop>(rt: &impl Abort, alloc: Global, text: &str) -> T {
    value(rt, parse2(tokens(rt, alloc, text)))
}

/// An identifier or a word of the language.
pub fn name(rt: &impl Abort, alloc: Global, text: &str) -> Ident {
    value(rt, Ident::new(alloc, text, Span::call_site()))
}

/// Attributes, outer ones and then inner ones.
pub fn attributes(rt: &impl Abort, alloc: Global, outer: &str, inner: &str) -> Vec<Attribute> {
    let (outer, inner) = (tokens(rt, alloc, outer), tokens(rt, alloc, inner));
    let mut attrs = value(rt, Attribute::parse_outer(&mut ParseBuffer::new(&outer)));
    for attr in value(rt, Attribute::parse_inner(&mut ParseBuffer::new(&inner))) {
        value(rt, attrs.push(attr).map_err(Error::from));
    }
    attrs
}

/// Generics with a where clause.
pub fn generics(rt: &impl Abort, alloc: Global, params: &str, clause: &str) -> Generics {
    let generics: Generics = part(rt, alloc, params);
    let clause: WhereClause = part(rt, alloc, clause);
    generics.with_where(Some(clause))
}

/// Items as in a module.
pub fn items(rt: &impl Abort, alloc: Global, text: &str) -> DeferredItems {
    let tokens = tokens(rt, alloc, text);
    match read_deferred_rest(&mut ParseBuffer::new(&tokens)) {
        Ok(items) => items,
        Err(_) => panic!(rt; "no items"),
    }
}

/// Braces, spans aside.
pub fn braces() -> Brace {
    Brace::new(Span::call_site(), Span::call_site())
}

/// The text that a tree prints.
fn printed<T: ToTokens>(alloc: Global, tree: &T) -> Result<String> {
    let mut tokens = TokenStream::new(alloc);
    tree.to_tokens(&mut tokens)?;
    token_text(&tokens)
}

/// Fails where the tree prints another text, or where a copy of it differs.
pub fn assert_tree<T: ToTokens + TryClone + PartialEq + Drop>(
    rt: &impl Abort,
    alloc: Global,
    tree: T,
    want: &str,
) {
    assert_eq!(rt; value(rt, printed(alloc, &tree)).as_str(), want);
    let copy = value(rt, tree.try_clone(alloc));
    assert!(rt; copy == tree, "a copy of {want:?} is another tree");
    assert_eq!(rt; value(rt, printed(alloc, &copy)).as_str(), want);
}

/// Fails where the two are equal.
pub fn assert_differ<T: PartialEq + Drop>(rt: &impl Abort, a: T, b: T) {
    assert!(rt; a != b);
}
