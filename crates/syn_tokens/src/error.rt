//! Errors of public calls.
ghost use Rattle.std.specs.Prelude.{◌≡◌, [], ◌∷◌, ◌++◌, ◌↔◌, ◌<◌, ◌≤◌, IsTrue, length, map, take};

use crate::span::Span;
use std::alloc::{AllocError, AllocFailed};
use std::fmt;
use std::marker::Model;

/// One syntax error: its span and its message.
#[derive(Clone, Copy, Debug)]
pub struct Fault {
    pub span: Span,
    pub text: &'static str,
}

/// What was refused in place of a syntax error.
#[derive(Clone, Copy, Debug)]
enum Refused {
    /// The allocator refused memory with this error.
    Memory(AllocError),
    /// The nesting is too deep for the stack, from this token on.
    TooDeep(Span),
}

/// Why a call failed: one to four syntax faults, refused memory, or nesting that is too deep for the stack.
#[derive(Debug, Drop)]
pub struct Error {
    faults: [Fault; 4],
    count: usize,
    refused: Option<Refused>,
}

impl Model for Error {
    ghost use Rattle.std.specs.Prelude.{◌≡◌, ◌≤◌, length, map, take};
    ghost use Rattle.syn_tokens.specs.Faults.{ErrorValue, coded_error, error_of, fault_of, HasReason};

    ghost Value = { ErrorValue };

    ghost coded = { coded_error };

    ghost view = { λ e. error_of e.refused (map fault_of (take e.count e.faults)) };

    ghost invariant = { λ e. (e.count ≤ 4) × (length e.faults ≡ 4) × HasReason e.refused e.count };
}

/// The result of a public call.
pub type Result<T> = std::result::Result<T, Error>;

/// Fills the unused places after the faults.
const NO_FAULT: Fault = Fault {
    span: Span { start: 0, end: 0 },
    text: "",
};

impl Error {
    ghost use Rattle.syn_tokens.specs.Faults.{fault_of, faults_of, first_span, combined, syntax_error, too_deep, out_of_memory, IsSyntaxError, IsMemoryError, IsTooDeepError};

    /// The error with this one fault.
    pub fn new(span: Span, text: &'static str) -> Error
        ensures { result ≡ syntax_error ((span, text.now) ∷ []) }
    {
        Error {
            faults: [Fault { span, text }, NO_FAULT, NO_FAULT, NO_FAULT],
            count: 1,
            refused: None,
        }
    }

    /// The error with one fault, which spans from the start of the first token to the end of the last.
    pub fn new_range(first: Span, last: Span, text: &'static str) -> Error
        ensures { result ≡ syntax_error ((record { start = first.start; end = last.end }, text.now) ∷ []) }
    {
        let span = Span {
            start: first.start,
            end: last.end,
        };
        Error::new(span, text)
    }

    /// The error for nesting that is too deep for the stack; the token there is the first one that is too deep.
    pub fn too_deep(span: Span) -> Error
        ensures { result ≡ too_deep span }
    {
        Error {
            faults: [NO_FAULT; 4],
            count: 0,
            refused: Some(Refused::TooDeep(span)),
        }
    }

    /// The error for memory that the allocator refused with this error.
    fn memory(error: AllocError) -> Error
        ensures { result ≡ out_of_memory }
    {
        Error {
            faults: [NO_FAULT; 4],
            count: 0,
            refused: Some(Refused::Memory(error)),
        }
    }

    /// Whether memory was refused.
    pub fn is_memory(&self) -> bool
        ensures value { IsTrue result ↔ IsMemoryError self.now }
        ensures few { length (faults_of self.now) ≤ 4 }
    {
        match self.refused {
            Some(Refused::Memory(_)) => true,
            Some(Refused::TooDeep(_)) => false,
            None => false,
        }
    }

    /// The allocator's error, if this is known to report refused memory.
    pub fn into_alloc_error(self) -> AllocError
        requires { self ≡ out_of_memory }
    {
        match self.refused {
            Some(Refused::Memory(error)) => error,
            Some(Refused::TooDeep(_)) => unreachable!(),
            None => unreachable!(),
        }
    }

    /// Whether the nesting is too deep for the stack. More memory doesn't help then.
    pub fn is_too_deep(&self) -> bool
        ensures { IsTrue result ↔ IsTooDeepError self.now }
    {
        match self.refused {
            Some(Refused::Memory(_)) => false,
            Some(Refused::TooDeep(_)) => true,
            None => false,
        }
    }

    /// The faults; none if memory was refused, or the nesting is too deep.
    pub fn faults(&self) -> &[Fault]
        ensures faults { map fault_of result.now ≡ faults_of self.now }
        ensures few { length result.now ≤ 4 }
        ensures some { IsSyntaxError self.now → 0 < length result.now }
    {
        match self.refused {
            Some(Refused::Memory(_)) => &self.faults[..0],
            Some(Refused::TooDeep(_)) => &self.faults[..0],
            None => &self.faults[..self.count],
        }
    }

    /// The position of the first fault, or of the token that is nested too deep; 0 to 0 if memory was refused.
    pub fn span(&self) -> Span
        ensures { result ≡ first_span self.now }
    {
        match self.refused {
            Some(Refused::Memory(_)) => Span::call_site(),
            Some(Refused::TooDeep(span)) => span,
            None => match self.faults().first() {
                Some(fault) => fault.span,
                None => Span::call_site(),
            },
        }
    }

    /// Appends the faults of another error, up to four in total. Refused memory takes precedence over nesting that is too deep,
    /// and that over faults; the first of two nestings that are too deep is kept.
    #[tactic(auto, using(crate::proofs::Faults::memory_first, crate::proofs::Faults::memory_second, crate::proofs::Faults::deep_first, crate::proofs::Faults::deep_second, crate::proofs::Faults::nothing_added, crate::proofs::Faults::all_added))]
    pub fn combine(&mut self, other: Error)
        ensures { self.new ≡ combined self.old other }
    {
        if self.is_memory() {
            return;
        }
        if other.is_memory() {
            *self = other;
            return;
        }
        if self.is_too_deep() {
            return;
        }
        if other.is_too_deep() {
            *self = other;
            return;
        }
        for fault in other.faults() {
            self.add(*fault);
        }
    }

    /// Adds a fault to a syntax error with fewer than four.
    fn add(&mut self, fault: Fault)
        ensures { IsSyntaxError self.old → self.new ≡ syntax_error (take 4 (faults_of self.old ++ fault_of fault ∷ [])) }
    {
        match self.refused {
            Some(Refused::Memory(_)) => {}
            Some(Refused::TooDeep(_)) => {}
            None => if self.count < 4 {
                self.faults[self.count] = fault;
                self.count += 1;
            },
        }
    }
}

impl fmt::Display for Error {
    ghost use Rattle.syn_tokens.specs.Faults.{first_text};

    ghost output = { first_text };

    fn fmt<W: fmt::Write>(&self, f: &mut fmt::Formatter<W>) -> fmt::Result {
        let text = match self.refused {
            Some(Refused::Memory(_)) => "out of memory",
            Some(Refused::TooDeep(_)) => "nested too deeply",
            None => match self.faults().first() {
                Some(fault) => fault.text,
                None => "",
            },
        };
        f.write_str(text)
    }
}

impl From<AllocError> for Error {
    ghost use Rattle.syn_tokens.specs.Faults.{out_of_memory};

    ghost from_gives = { λ _ e. e ≡ out_of_memory };

    fn from(error: AllocError) -> Error {
        Error::memory(error)
    }
}

impl<T: Drop> From<AllocFailed<T>> for Error {
    ghost use Rattle.syn_tokens.specs.Faults.{out_of_memory};

    ghost from_gives = { λ _ e. e ≡ out_of_memory };

    fn from(failed: AllocFailed<T>) -> Error {
        Error::memory(AllocError::from(failed))
    }
}
