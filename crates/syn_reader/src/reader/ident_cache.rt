//! Sharing the texts of equal identifiers.
ghost use Rattle.std.specs.Prelude.{◌≡◌, IsTrue, IfOk, IfSome};
ghost use Rattle.syn_tokens.specs.Idents.{is_identifier};

use std::alloc::{AllocError, Global};
use syn_tokens::ident::Ident;
use syn_tokens::span::Span;

/// The largest number of slots.
const MOST: usize = 512;

/// A cache of identifiers by the hash of their text. A slot keeps the last two identifiers with its hash, so a lookup takes
/// constant time for any texts.
#[derive(Drop)]
pub(super) struct IdentCache {
    places: Vec<Place>,
    alloc: Global,
}

/// The last two identifiers of a slot, so that two alternating names with one hash are both found.
#[derive(Drop)]
struct Place {
    last: Option<Ident>,
    before: Option<Ident>,
}

impl Place {
    /// The identifier of this text, if it is in the slot.
    fn find(&self, text: &str) -> Option<&Ident>
        ensures { IfSome result (λ known. known.now.text ≡ text.now) }
    {
        match (&self.last, &self.before) {
            (Some(last), _) if last.text() == text => Some(last),
            (_, Some(before)) if before.text() == text => Some(before),
            _ => None,
        }
    }

    /// Inserts an identifier, and evicts the oldest one.
    fn keep(&mut self, ident: Ident) {
        self.before = self.last.replace(ident);
    }
}

/// The hash of a text.
fn hash(text: &str) -> usize {
    let mut hash: usize = 0;
    for byte in text.as_bytes() {
        hash = hash.wrapping_mul(31).wrapping_add(*byte as usize);
    }
    hash
}

impl IdentCache {
    /// An empty cache, whose number of slots depends on the length of the text to be read.
    pub(super) fn new(alloc: Global, length: usize) -> Result<IdentCache, AllocError> {
        let mut places = Vec::new(alloc);
        places.resize_with(
            (length / 64).clamp(1, MOST),
            || Place {
                last: None,
                before: None,
            },
        )?;
        Ok(IdentCache { places, alloc })
    }

    /// The identifier of this text, which is known to be one. It shares the text of a cached identifier, if one has the same
    /// text.
    pub(super) fn ident(&mut self, text: &str, span: Span) -> Result<Ident, AllocError>
        requires { IsTrue (is_identifier text.now) }
        ensures { IfOk result (λ i. i ≡ record { text = text.now; span = span }) }
    {
        let Some(place) = hash(text).checked_rem(self.places.len()) else {
            return Ident::of_identifier(self.alloc, text, span);
        };
        let Some(kept) = self.places.get_mut(place) else {
            return Ident::of_identifier(self.alloc, text, span);
        };
        if let Some(known) = kept.find(text) {
            let mut again = known.as_ref().to_ident()?;
            again.span = span;
            return Ok(again);
        }
        let ident = Ident::of_identifier(self.alloc, text, span)?;
        kept.keep(ident.as_ref().to_ident()?);
        Ok(ident)
    }
}
