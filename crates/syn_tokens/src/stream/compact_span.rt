//! Compact spans: less than half the size of a span.
ghost use Rattle.std.specs.Prelude.{◌≡◌, IfSome, IsSome};
ghost use Rattle.syn_tokens.specs.CompactSpans.{wide, IsCompact};

use crate::span::Span;

/// A span of fewer than 2^16 bytes that starts within the first 2^32 bytes of a text. It takes 6 bytes, at any even address, so
/// it fits into an entry beside the two bytes of the entry's kind.
#[derive(Clone, Copy, Debug)]
pub(crate) struct CompactSpan {
    /// The lower half of the start.
    low: u16,
    /// The upper half of the start.
    high: u16,
    length: u16,
}

impl CompactSpan {
    /// The compact form of a span, if it has one.
    #[inline(always)]
    pub(crate) fn of(span: Span) -> Option<CompactSpan>
        ensures value { IfSome result (λ compact_span. wide compact_span ≡ span) }
        ensures compact_span { IsCompact span → IsSome result }
    {
        let length = span.end.checked_sub(span.start)?;
        Some(CompactSpan {
            low: u16::try_from(span.start % 0x10000).ok()?,
            high: u16::try_from(span.start / 0x10000).ok()?,
            length: u16::try_from(length).ok()?,
        })
    }

    /// The span.
    #[inline(always)]
    pub(crate) fn span(&self) -> Span
        ensures { result ≡ wide self.now }
    {
        let start = self.high as usize * 0x10000 + self.low as usize;
        Span {
            start,
            end: start + self.length as usize,
        }
    }
}
