//! What calls are made with.

use crate::named::Named;
use crate::ways::Ways;
use std::alloc::Global;
use syn::parse::Parse;
use syn::reader::read_tokens;
use syn::token::TokenStream;
use syn::{Result, ToTokens, parse2};

/// What stands before the tokens, in a buffer and in a stream.
const BEFORE: &str = "before";

/// A line of the input.
#[derive(Clone, Copy)]
pub(crate) struct Input<'a> {
    pub(crate) alloc: Global,
    /// The name of the variant that is to be read.
    pub(crate) variant: &'a str,
    pub(crate) tokens: &'a TokenStream,
}

/// The tokens of an input, the tree that they are, and what that prints.
#[derive(Drop)]
pub(crate) struct Given<T> {
    pub(crate) alloc: Global,
    pub(crate) tokens: TokenStream,
    pub(crate) tree: T,
    pub(crate) print: TokenStream,
    /// The tokens, behind one other.
    pub(crate) following: TokenStream,
    /// The same, with the print behind them.
    pub(crate) printed_after: TokenStream,
}

impl<T: Parse + ToTokens + Named + Drop> Given<T> {
    /// What calls on this input are made with. Nothing is refused here.
    pub(crate) fn new(input: &Input<'_>) -> Result<Given<T>> {
        let alloc = input.alloc;
        let tree: T = parse2(input.tokens.try_clone(alloc)?)?;
        let print = printed(alloc, &tree)?;
        let following = both(&read_tokens(alloc, BEFORE)?, input.tokens)?;
        let printed_after = both(&following, &print)?;
        Ok(Given {
            alloc,
            tokens: input.tokens.try_clone(alloc)?,
            tree,
            print,
            following,
            printed_after,
        })
    }

    /// Whether this is that tree again: equal to it, and with the same print, spans included.
    pub(crate) fn is_tree<W: Ways<T>>(&self, tree: &T) -> Result<bool> {
        let print = printed(self.alloc, tree)?;
        Ok(W::is_equal(&self.tree, tree) && is_stream(&self.print, &print))
    }
}

/// What a tree prints.
pub(crate) fn printed<T: ToTokens>(alloc: Global, tree: &T) -> Result<TokenStream> {
    let mut tokens = TokenStream::new(alloc);
    tree.to_tokens(&mut tokens)?;
    Ok(tokens)
}

/// The tokens of both, one behind the other.
fn both(front: &TokenStream, back: &TokenStream) -> Result<TokenStream> {
    let mut tokens = front.try_clone(front.alloc())?;
    tokens.append(back.try_clone(front.alloc())?)?;
    Ok(tokens)
}

/// Whether both hold the same tokens, at the same places.
pub(crate) fn is_stream(left: &TokenStream, right: &TokenStream) -> bool {
    left == right
        && left
            .entries()
            .iter()
            .zip(right.entries())
            .all(|(a, b)| a.span() == b.span())
}
