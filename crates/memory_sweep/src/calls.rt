//! The calls on the tokens of an input, and on the tree that they are.

use crate::ends::{Call, End, Run};
use crate::given::{Given, is_stream};
use crate::heap::{refuse, was_refused};
use crate::named::Named;
use crate::ways::Ways;
use std::marker::PhantomData;
use syn::canon::{Canonical, canonical, same_form};
use syn::parse::{Parse, ParseBuffer};
use syn::token::{Ident, TokenStream};
use syn::{Item, Result, ToTokens, parse2};
use syn_answers::answers::join_items;

/// `parse2`
pub(crate) struct ParseWhole<W> {
    ways: PhantomData<W>,
}

impl<T: Parse + ToTokens + Named + Drop, W: Ways<T>> Call<Given<T>> for ParseWhole<W> {
    fn once(given: &Given<T>, number: usize) -> Result<Run> {
        let tokens = given.tokens.try_clone(given.alloc)?;
        refuse(given.alloc, number);
        let answer: Result<T> = parse2(tokens);
        let is_refused = was_refused(given.alloc);
        let end = match answer {
            Ok(tree) => End::of_answer(given.is_tree::<W>(&tree)?),
            Err(error) => End::of_error(&error, true),
        };
        Ok(Run { is_refused, end })
    }
}

/// `T::parse`, on a buffer from which one token was read.
pub(crate) struct ParseAfter<W> {
    ways: PhantomData<W>,
}

impl<T: Parse + ToTokens + Named + Drop, W: Ways<T>> Call<Given<T>> for ParseAfter<W> {
    fn once(given: &Given<T>, number: usize) -> Result<Run> {
        let mut input = ParseBuffer::new(&given.following);
        let _before: Ident = input.parse()?;
        refuse(given.alloc, number);
        let answer = T::parse(&mut input);
        let is_refused = was_refused(given.alloc);
        let left = input.rest()?;
        let end = match answer {
            Ok(tree) => End::of_answer(left.is_empty() && given.is_tree::<W>(&tree)?),
            Err(error) => End::of_error(&error, is_stream(&left, &given.tokens)),
        };
        Ok(Run { is_refused, end })
    }
}

/// `to_tokens`, on a stream that holds tokens.
pub(crate) struct ToHeldTokens;

impl<T: ToTokens> Call<Given<T>> for ToHeldTokens {
    fn once(given: &Given<T>, number: usize) -> Result<Run> {
        let mut tokens = given.following.try_clone(given.alloc)?;
        refuse(given.alloc, number);
        let answer = given.tree.to_tokens(&mut tokens);
        let is_refused = was_refused(given.alloc);
        let end = match answer {
            Ok(()) => End::of_answer(is_stream(&tokens, &given.printed_after)),
            Err(error) => End::of_error(&error, is_stream(&tokens, &given.following)),
        };
        Ok(Run { is_refused, end })
    }
}

/// `try_clone`
pub(crate) struct TreeCopy<W> {
    ways: PhantomData<W>,
}

impl<T: Parse + ToTokens + Named + Drop, W: Ways<T>> Call<Given<T>> for TreeCopy<W> {
    fn once(given: &Given<T>, number: usize) -> Result<Run> {
        refuse(given.alloc, number);
        let answer = W::copy(&given.tree, given.alloc);
        let is_refused = was_refused(given.alloc);
        let end = match answer {
            Ok(tree) => End::of_answer(given.is_tree::<W>(&tree)?),
            Err(error) => End::of_error(&error, true),
        };
        Ok(Run { is_refused, end })
    }
}

/// `canonical`
pub(crate) struct CanonicalPrint;

impl<T: Canonical + Drop> Call<Given<T>> for CanonicalPrint {
    fn once(given: &Given<T>, number: usize) -> Result<Run> {
        let tokens = given.tokens.try_clone(given.alloc)?;
        refuse(given.alloc, number);
        let answer = canonical::<T>(tokens);
        let is_refused = was_refused(given.alloc);
        Ok(printed(answer, &given.print, is_refused))
    }
}

/// `same_form`, of the tokens with themselves.
pub(crate) struct SameForm;

impl<T: Canonical + Drop> Call<Given<T>> for SameForm {
    fn once(given: &Given<T>, number: usize) -> Result<Run> {
        let left = given.tokens.try_clone(given.alloc)?;
        let right = given.tokens.try_clone(given.alloc)?;
        refuse(given.alloc, number);
        let answer = same_form::<T>(left, right);
        let is_refused = was_refused(given.alloc);
        let end = match answer {
            Ok(is_same) => End::of_answer(is_same),
            Err(error) => End::of_error(&error, true),
        };
        Ok(Run { is_refused, end })
    }
}

/// `join_items`, of one piece.
pub(crate) struct JoinItems;

impl Call<Given<Item>> for JoinItems {
    fn once(given: &Given<Item>, number: usize) -> Result<Run> {
        let mut pieces = Vec::new(given.alloc);
        pieces.push(given.tokens.try_clone(given.alloc)?)?;
        refuse(given.alloc, number);
        let answer = join_items(given.alloc, pieces.as_slice());
        let is_refused = was_refused(given.alloc);
        Ok(printed(answer, &given.print, is_refused))
    }
}

/// The run of a call that answers this, and is to answer that print.
fn printed(answer: Result<TokenStream>, print: &TokenStream, is_refused: bool) -> Run {
    let end = match answer {
        Ok(tokens) => End::of_answer(is_stream(&tokens, print)),
        Err(error) => End::of_error(&error, true),
    };
    Run { is_refused, end }
}
