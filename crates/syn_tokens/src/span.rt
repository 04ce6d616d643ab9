//! Positions of tokens.
ghost use Rattle.std.specs.Prelude.{◌≡◌};

/// The byte range of a token in a text: `start` is the offset of its first byte, `end` the offset after its last byte.
#[derive(Clone, Copy, Debug, PartialEq, Eq)]
pub struct Span {
    pub start: usize,
    pub end: usize,
}

impl Span {
    /// The span of a token that is in no text: 0 to 0.
    pub fn call_site() -> Span
        ensures { result ≡ record { start = 0; end = 0 } }
    {
        Span { start: 0, end: 0 }
    }
}
