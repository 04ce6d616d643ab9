//! Error messages of forms that aren't read: the expected form, the Rust form found that is left out, or the end of the input.
ghost use Rattle.syn_recognize.specs.Stops.{IsFault};

use crate::form::Form;
use crate::left_out::Place;
use crate::stop::{Stop, unexpected};
use crate::token::Token;
use crate::words::{Mark, mark_at_end, word_at_end};
use syn_parse::buffer::ParseBuffer;
use syn_tokens::delimiter::Delimiter;

/// Why the form that is next isn't read, from why what reads it stops. At the end of the input, and at a Rust form that is left out, the
/// message says so; otherwise it is unchanged.
pub(crate) fn reported(stop: Stop, form: &Form, input: &ParseBuffer<'_>) -> Stop
    ensures { IsFault result → IsFault stop }
{
    match stop {
        Stop::Memory(error) => Stop::Memory(error),
        Stop::Syntax { span, text } => Stop::Syntax {
            span,
            text: text_of(text, form, input),
        },
    }
}

/// Tokens are left over in a group.
pub(crate) fn left_over(input: &ParseBuffer<'_>) -> Stop
    ensures { IsFault result }
{
    match Place::Following.left_out(input) {
        Some(text) => unexpected(input, text),
        None => unexpected(input, "unexpected token"),
    }
}

/// The error message where the form isn't next, in place of the text.
fn text_of(text: &'static str, form: &Form, input: &ParseBuffer<'_>) -> &'static str {
    let known = if input.is_empty() {
        at_end(form)
    } else {
        left_out(form, input)
    };
    match known {
        Some(known) => known,
        None => text,
    }
}

/// The error message at a form that is left out.
fn left_out(form: &Form, input: &ParseBuffer<'_>) -> Option<&'static str> {
    match form {
        Form::TokenAt(_, place) => place.left_out(input),
        Form::MarkAt(_, place) => place.left_out(input),
        Form::Inside(Delimiter::Brace, _) => Place::Following.left_out(input),
        _ => None,
    }
}

/// The error message where this form, a token or a group, is expected at the end.
fn at_end(form: &Form) -> Option<&'static str> {
    match form {
        Form::Token(token) => token_at_end(*token),
        Form::TokenAt(token, _) => token_at_end(*token),
        Form::Mark(mark) => Some(mark_at_end(*mark)),
        Form::MarkAt(mark, _) => Some(mark_at_end(*mark)),
        Form::Ordered(_) => Some(mark_at_end(Mark::Lt)),
        Form::Lifetime => Some("unexpected end of input, expected lifetime"),
        Form::Inside(delimiter, _) => Some(group_at_end(*delimiter)),
        Form::Raw(delimiter) => Some(group_at_end(*delimiter)),
        _ => None,
    }
}

/// The error message where this token is expected at the end. The number of a field is only expected where an integer is next.
fn token_at_end(token: Token) -> Option<&'static str> {
    match token {
        Token::Word(word) => Some(word_at_end(word)),
        Token::Literal => Some("unexpected end of input, expected literal"),
        Token::Index => None,
        _ => Some("unexpected end of input, expected identifier"),
    }
}

/// The error message where a group with these delimiters is expected at the end.
fn group_at_end(delimiter: Delimiter) -> &'static str {
    match delimiter {
        Delimiter::Paren => "unexpected end of input, expected parentheses",
        Delimiter::Brace => "unexpected end of input, expected curly braces",
        Delimiter::Bracket => "unexpected end of input, expected square brackets",
        Delimiter::None => "unexpected end of input, expected invisible group",
    }
}
