//! Sharing the text of words that are printed often.
ghost use Rattle.std.specs.Prelude.{◌≡◌, IsTrue, IfOk};
ghost use Rattle.syn_tokens.specs.Idents.{is_identifier};

use crate::ident::Ident;
use crate::span::Span;
use std::alloc::{AllocError, Global};

/// The largest number of words that are kept.
const MOST: usize = 16;

/// The first words that were printed, so that later copies of them share the text.
#[derive(Drop)]
pub(super) struct Words {
    kept: Vec<Ident>,
    alloc: Global,
}

impl Words {
    /// Keeps no words yet; allocates nothing.
    pub(super) fn new(alloc: Global) -> Words {
        Words {
            kept: Vec::new(alloc),
            alloc,
        }
    }

    /// The identifier of this text, which is known to be one. It shares the text of a kept identifier, if one has the same
    /// text.
    pub(super) fn ident(&mut self, text: &str, span: Span) -> Result<Ident, AllocError>
        requires { IsTrue (is_identifier text.now) }
        ensures { IfOk result (λ i. i ≡ record { text = text.now; span = span }) }
    {
        for known in &self.kept {
            if known.text() == text {
                let mut again = known.copy()?;
                again.span = span;
                return Ok(again);
            }
        }
        let ident = Ident::of_identifier(self.alloc, text, span)?;
        if self.kept.len() < MOST {
            self.kept.push(ident.copy()?)?;
        }
        Ok(ident)
    }
}
