//! The inputs, one a line.

use crate::by_kind::sweep_as;
use crate::failure::Failure;
use crate::given::Input;
use crate::opened::sweep_opened;
use crate::sweep::{as_piece, sweep};
use crate::tally::Tally;
use crate::texts::{GivenText, ReadTokens, TokenText};
use std::alloc::Global;
use syn::Span;
use syn::reader::{read_tokens, token_text};
use syn::token::{Delimiter, Group, TokenStream, TokenTree};

/// Makes each call on the input of each line.
pub(crate) fn sweep_lines(alloc: Global, source: &str, tally: &mut Tally) -> Result<(), Failure> {
    for line in source.lines() {
        tally.begin_line();
        match sweep_line(alloc, line, tally) {
            Ok(()) => {}
            Err(Failure::Broken) => tally.report_broken()?,
            Err(failure) => return Err(failure),
        }
    }
    Ok(())
}

/// Makes each call on the input of a line.
fn sweep_line(alloc: Global, line: &str, tally: &mut Tally) -> Result<(), Failure> {
    let (name, text) = line.split_once(' ').unwrap_or((line, ""));
    let (word, variant) = name.split_once("::").unwrap_or((name, ""));
    let tokens = tokens_of(alloc, text, tally)?;
    let input = Input {
        alloc,
        variant,
        tokens: &tokens,
    };
    sweep_as(word, &input, tally)?;
    sweep_opened(word, &input, tally)?;
    if word == "Item" {
        as_piece(&input, tally)?;
    }
    Ok(())
}

/// The tokens of a text. The calls that make them of it, and it of them, are made on the way.
fn tokens_of(alloc: Global, text: &str, tally: &mut Tally) -> Result<TokenStream, Failure> {
    match text
        .strip_prefix("<< ")
        .and_then(|held| held.strip_suffix(" >>"))
    {
        Some(held) => in_invisible_group(text_and_tokens(alloc, held, tally)?),
        None => text_and_tokens(alloc, text, tally),
    }
}

fn text_and_tokens(alloc: Global, text: &str, tally: &mut Tally) -> Result<TokenStream, Failure> {
    let tokens = read_tokens(alloc, text)?;
    let reported = token_text(&tokens)?;
    let given = GivenText {
        alloc,
        text: String::from_str(alloc, text)?,
        tokens,
        reported,
    };
    sweep::<GivenText, ReadTokens>(&given, "read_tokens", tally)?;
    sweep::<GivenText, TokenText>(&given, "token_text", tally)?;
    Ok(given.tokens.try_clone(alloc)?)
}

/// The tokens, in a group without delimiters.
fn in_invisible_group(stream: TokenStream) -> Result<TokenStream, Failure> {
    let mut tokens = TokenStream::new(stream.alloc());
    tokens.push(TokenTree::Group(Group {
        delimiter: Delimiter::None,
        stream,
        opening: Span::call_site(),
        closing: Span::call_site(),
    }))?;
    Ok(tokens)
}
