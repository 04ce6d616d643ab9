//! Errors of the lexer.
ghost use Rattle.std.specs.Prelude.{◌≡◌, ◌∷◌, [], codes};

use std::marker::Model;
use syn_tokens::error::{Error, Fault};
use syn_tokens::span::Span;

/// The only fault at a position where no lexeme starts. It is smaller than an `Error`, which has room for four faults, so that
/// the result of each lexeme stays small.
#[derive(Drop)]
pub(in crate::reader) struct LexError {
    fault: Fault,
}

impl Model for LexError {
    ghost use Rattle.std.specs.Prelude.{List, [], ◌∷◌};
    ghost use Rattle.std.specs.Coded.{coded_list};
    ghost use Rattle.syn_tokens.specs.Faults.{FaultValue, coded_fault, fault_of};

    ghost Value = { List FaultValue };

    ghost coded = { coded_list coded_fault };

    ghost view = { λ e. fault_of e.fault ∷ [] };
}

/// The result of the lexer.
pub(in crate::reader) type Result<T> = std::result::Result<T, LexError>;

impl From<LexError> for Error {
    ghost use Rattle.syn_tokens.specs.Faults.{syntax_error};

    ghost from_gives = { λ faults error. error ≡ syntax_error faults };

    fn from(e: LexError) -> Error {
        Error::new(e.fault.span, e.fault.text)
    }
}

fn fault(span: Span, text: &'static str) -> LexError
    ensures { result ≡ (span, text.now) ∷ [] }
{
    LexError {
        fault: Fault { span, text },
    }
}

pub(super) fn unexpected_character(span: Span) -> LexError
    ensures { result ≡ (span, codes "unexpected character") ∷ [] }
{
    fault(span, "unexpected character")
}

pub(super) fn unterminated_literal(span: Span) -> LexError
    ensures { result ≡ (span, codes "unterminated literal") ∷ [] }
{
    fault(span, "unterminated literal")
}

pub(super) fn unterminated_comment(span: Span) -> LexError
    ensures { result ≡ (span, codes "unterminated comment") ∷ [] }
{
    fault(span, "unterminated comment")
}
