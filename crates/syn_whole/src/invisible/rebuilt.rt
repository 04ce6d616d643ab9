//! Rebuilding streams without the delimiters of opened groups.
use crate::invisible::opening::Opening;
use std::alloc::Global;
use syn_tokens::delimiter::Delimiter;
use syn_tokens::error::Result;
use syn_tokens::ident::Ident;
use syn_tokens::literal::{LitKind, Literal};
use syn_tokens::punct::Spacing;
use syn_tokens::span::Span;
use syn_tokens::stream::TokenStream;
use syn_tokens::stream::builder::StreamBuilder;
use syn_tokens::stream::entry::{Entry, Token};

/// The tokens that replace a group, to test how the parser uses its position.
#[derive(Clone, Copy)]
pub(crate) enum Probe {
    /// A number in an invisible group.
    Number,
    /// A name in an invisible group.
    Name,
    /// A word that starts an item.
    Item,
    /// A lifetime.
    Lifetime,
    /// A mark that starts nothing.
    Mark,
}

/// The stream without the delimiters of opened groups.
pub(crate) fn opened(opening: &Opening<'_>) -> Result<TokenStream> {
    let mut out = StreamBuilder::new(opening.alloc());
    for place in 0..opening.entries().len() {
        add(opening, place, false, &mut out)?;
    }
    out.finish()
}

/// The same, with the index of each token as its span, and with a probe in place of a group.
pub(crate) fn numbered(
    opening: &Opening<'_>,
    probe: Option<(usize, Probe)>,
) -> Result<TokenStream> {
    let mut out = StreamBuilder::new(opening.alloc());
    let (mut start, mut end) = (opening.entries().len(), 0);
    if let Some((group, _)) = probe {
        start = group;
        end = opening.end_of(group).unwrap_or(group);
    }
    for place in 0..opening.entries().len() {
        if place < start || place > end {
            add(opening, place, true, &mut out)?;
        } else if place == start {
            if let Some((_, kind)) = probe {
                add_probe(opening.alloc(), kind, number(place), &mut out)?;
            }
        }
    }
    out.finish()
}

/// The index as a span.
fn number(place: usize) -> Span {
    Span {
        start: place,
        end: place.saturating_add(1),
    }
}

#[tactic(auto, unfolding(syn_tokens::specs::Punct::is_punct_character))]
fn add_probe(alloc: Global, probe: Probe, span: Span, out: &mut StreamBuilder) -> Result<()> {
    match probe {
        Probe::Number => {
            out.open(Delimiter::None, span)?;
            out.add_literal(Literal::new(alloc, LitKind::Int, "1", span)?)?;
            out.close(Delimiter::None, span)
        }
        Probe::Name => {
            out.open(Delimiter::None, span)?;
            out.add_ident(Ident::new(alloc, "x", span)?)?;
            out.close(Delimiter::None, span)
        }
        Probe::Item => Ok(out.add_ident(Ident::new(alloc, "use", span)?)?),
        Probe::Mark => Ok(out.add_punct('@', Spacing::Alone, span)?),
        Probe::Lifetime => {
            out.add_punct('\'', Spacing::Joint, span)?;
            Ok(out.add_ident(Ident::new(alloc, "x", span)?)?)
        }
    }
}

/// Adds the token or delimiter at this index, unless it is omitted.
fn add(
    opening: &Opening<'_>,
    place: usize,
    is_numbered: bool,
    out: &mut StreamBuilder,
) -> Result<()> {
    if opening.is_opened(place) {
        return Ok(());
    }
    let span = if is_numbered {
        Some(number(place))
    } else {
        None
    };
    match opening.token(place) {
        Some(token) => add_token(opening.alloc(), &token, span, out),
        None => Ok(()),
    }
}

/// Adds a token or a delimiter, with the given span, if there is one, instead of its own.
fn add_token(
    alloc: Global,
    token: &Token<'_>,
    place: Option<Span>,
    out: &mut StreamBuilder,
) -> Result<()> {
    match token {
        Token::Ident(ident) => {
            let ident = Ident::new(alloc, ident.text(), place.unwrap_or(ident.span))?;
            Ok(out.add_ident(ident)?)
        }
        Token::Literal(literal) => {
            let span = place.unwrap_or(literal.span);
            let literal = Literal::new(alloc, literal.kind(), literal.text(), span)?;
            Ok(out.add_literal(literal)?)
        }
        Token::Punct(punct) => {
            let span = place.unwrap_or(punct.span);
            Ok(out.add_punct(punct.character(), punct.spacing, span)?)
        }
        Token::Open(open) => Ok(out.open(open.delimiter, place.unwrap_or(open.span))?),
        Token::Close(close) => out.close(close.delimiter, place.unwrap_or(close.span)),
    }
}
