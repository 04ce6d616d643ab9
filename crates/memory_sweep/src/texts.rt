//! The calls between texts and tokens.

use crate::ends::{Call, End, Run};
use crate::given::is_stream;
use crate::heap::{refuse, was_refused};
use std::alloc::Global;
use syn::Result;
use syn::reader::{read_tokens, token_text};
use syn::token::TokenStream;

/// A text and its tokens, and the text of these.
#[derive(Drop)]
pub(crate) struct GivenText {
    pub(crate) alloc: Global,
    pub(crate) text: String,
    pub(crate) tokens: TokenStream,
    pub(crate) reported: String,
}

/// `read_tokens`
pub(crate) struct ReadTokens;

impl Call<GivenText> for ReadTokens {
    fn once(given: &GivenText, number: usize) -> Result<Run> {
        refuse(given.alloc, number);
        let answer = read_tokens(given.alloc, given.text.as_str());
        let is_refused = was_refused(given.alloc);
        let end = match answer {
            Ok(tokens) => End::of_answer(is_stream(&tokens, &given.tokens)),
            Err(error) => End::of_error(&error, true),
        };
        Ok(Run { is_refused, end })
    }
}

/// `token_text`
pub(crate) struct TokenText;

impl Call<GivenText> for TokenText {
    fn once(given: &GivenText, number: usize) -> Result<Run> {
        refuse(given.alloc, number);
        let answer = token_text(&given.tokens);
        let is_refused = was_refused(given.alloc);
        let end = match answer {
            Ok(text) => End::of_answer(text.as_str() == given.reported.as_str()),
            Err(error) => End::of_error(&error, true),
        };
        Ok(Run { is_refused, end })
    }
}
