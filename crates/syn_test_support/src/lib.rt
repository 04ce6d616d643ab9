//! What the tests of `syn` share: texts in, texts out, tokens by hand, and what a refusal says. It is a library, so that crates of
//! tests are proved beside each other.
//!
//! A test asks small functions for a text or for yes or no. So few values are alive at once, and little is to be proved of each
//! function. Each of these answers an error of memory where memory is refused, so that a test then fails by that error and by no
//! assertion. Assertions themselves stand in the crates of tests: a library may not end the process.
#![tactic(auto)]

pub mod outline;

use crate::outline::{Outlined, outline};
use std::alloc::Global;
use syn::parse::{Parse, parse2};
use syn::reader::{read_tokens, token_text};
use syn::token::{Delimiter, Group, Ident, Punct, Spacing, Span, TokenStream, TokenTree};
use syn::{Error, Fault, Result, ToTokens};

/// The span from one byte to another.
pub fn span(start: usize, end: usize) -> Span {
    Span { start, end }
}

/// What the whole text is parsed as.
pub fn parsed<T: Parse + Drop>(alloc: Global, text: &str) -> Result<T> {
    parse2(read_tokens(alloc, text)?)
}

/// The text of what a tree prints.
pub fn printed<T: ToTokens>(alloc: Global, tree: &T) -> Result<String> {
    let mut tokens = TokenStream::new(alloc);
    tree.to_tokens(&mut tokens)?;
    token_text(&tokens)
}

/// The text of what the whole text is printed as, once parsed.
pub fn reprinted<T: Parse + ToTokens + Drop>(alloc: Global, text: &str) -> Result<String> {
    let tree: T = parsed(alloc, text)?;
    printed(alloc, &tree)
}

/// The first fault of a refused answer. Where it was not refused, or memory was, this is refused.
pub fn fault<T: Drop>(answer: Result<T>) -> Result<Fault> {
    let error = match answer {
        Ok(_accepted) => return Err(Error::new(Span::call_site(), "accepted")),
        Err(error) => error,
    };
    let first = error.faults().first().copied();
    match first {
        Some(fault) => Ok(fault),
        None => Err(error),
    }
}

/// The fault for which the whole text is refused as a `T`.
pub fn refused<T: Parse + Drop>(alloc: Global, text: &str) -> Result<Fault> {
    fault(parsed::<T>(alloc, text))
}

/// Where in the text the whole of it is refused as a `T`.
pub fn refused_at<T: Parse + Drop>(alloc: Global, text: &str) -> Result<usize> {
    Ok(refused::<T>(alloc, text)?.span.start)
}

/// What shows the tree that the whole text is parsed as.
pub fn shown<T: Parse + Outlined + Drop>(alloc: Global, text: &str) -> Result<String> {
    let tree: T = parsed(alloc, text)?;
    Ok(outline(alloc, &tree)?)
}

/// What shows the tokens that a tree prints.
pub fn print_shown<T: ToTokens>(alloc: Global, tree: &T) -> Result<String> {
    let mut tokens = TokenStream::new(alloc);
    tree.to_tokens(&mut tokens)?;
    Ok(outline(alloc, &tokens)?)
}

/// Adds an identifier of this text at the end of a stream, at 0 to 1.
pub fn push_ident(tokens: &mut TokenStream, text: &str) -> Result<()> {
    let ident = Ident::new(tokens.alloc(), text, span(0, 1))?;
    tokens.push(TokenTree::Ident(ident))
}

/// Adds the characters of marks at the end of a stream, each at 0 to 1.
pub fn push_marks(tokens: &mut TokenStream, characters: &str, spacing: Spacing) -> Result<()> {
    for character in characters.chars() {
        if !Punct::is_punct_character(character) {
            return Err(Error::new(span(0, 1), "no mark"));
        }
        tokens.push(TokenTree::Punct(Punct::new(character, spacing, span(0, 1))))?;
    }
    Ok(())
}

/// Adds a group at the end of a stream, its delimiters at 0 to 1 and 1 to 2.
pub fn push_group(
    tokens: &mut TokenStream,
    delimiter: Delimiter,
    content: TokenStream,
) -> Result<()> {
    tokens.push(TokenTree::Group(Group {
        delimiter,
        stream: content,
        opening: span(0, 1),
        closing: span(1, 2),
    }))
}
