//! Why the program ends without its lines.
ghost use Rattle.std.specs.Prelude.{◌≡◌, ◌≢◌, ◌⊎◌, ◌↔◌};
ghost use Rattle.syn_tokens.specs.Faults.{IsMemoryError};
ghost use Rattle.std.specs.IoError.{error_kind};
ghost use Rattle.token_stats.specs.declared.failure.Failure.TheVariants.{OutOfMemory, Refused};

use std::alloc::{AllocError, AllocFailed};
use std::io::ErrorKind;
use std::{fmt, io};
use syn::error::Error;

/// Why a run ends without its lines.
#[derive(Drop)]
pub(crate) enum Failure {
    ReadFailed,
    NotUtf8,
    /// The text has no tokens.
    Refused(Error),
    WriteFailed,
    OutOfMemory,
}

impl Failure {
    /// What a failed read means.
    pub(crate) fn from_read(error: &io::Error) -> Failure
        ensures memory { error_kind error.now ≡ ErrorKind.OutOfMemory → result ≡ Failure.OutOfMemory }
        ensures other { error_kind error.now ≢ ErrorKind.OutOfMemory → result ≡ Failure.ReadFailed }
    {
        match error.kind() {
            ErrorKind::OutOfMemory => Failure::OutOfMemory,
            _ => Failure::ReadFailed,
        }
    }

    /// The exit status: 3 where memory was refused, and else 1.
    pub(crate) fn status(&self) -> u8
        ensures known { (result ≡ 1) ⊎ (result ≡ 3) }
        ensures memory { (result ≡ 3) ↔ (self.now ≡ OutOfMemory) }
    {
        match self {
            Failure::ReadFailed | Failure::NotUtf8 | Failure::Refused(_) | Failure::WriteFailed =>
                1,
            Failure::OutOfMemory => 3,
        }
    }
}

impl fmt::Display for Failure {
    ghost use Rattle.std.specs.Prelude.{Some};
    ghost use Rattle.token_stats.specs.Failures.{line_of};

    ghost output = { λ failure. Some (line_of failure) };

    fn fmt<W: fmt::Write>(&self, f: &mut fmt::Formatter<W>) -> fmt::Result {
        match self {
            Failure::ReadFailed => f.write_str("read failed"),
            Failure::NotUtf8 => f.write_str("refused at 0: input is not UTF-8"),
            Failure::Refused(error) => match error.faults().first() {
                Some(fault) => {
                    let start = fault.span.start;
                    let text = fault.text;
                    write!(f, "refused at {start}: {text}")
                }
                None => f.write_str("out of memory"),
            },
            Failure::WriteFailed => f.write_str("write failed"),
            Failure::OutOfMemory => f.write_str("out of memory"),
        }
    }
}

impl From<Error> for Failure {
    ghost from_gives = { λ error f. (IsMemoryError error → f ≡ OutOfMemory) × ((IsMemoryError error → ⊥) → f ≡ Refused error) };

    fn from(error: Error) -> Failure {
        if error.is_memory() {
            Failure::OutOfMemory
        } else {
            Failure::Refused(error)
        }
    }
}

impl From<AllocError> for Failure {
    ghost from_gives = { λ _ f. f ≡ OutOfMemory };

    fn from(_e: AllocError) -> Failure {
        Failure::OutOfMemory
    }
}

impl<T: Drop> From<AllocFailed<T>> for Failure {
    ghost from_gives = { λ _ f. f ≡ OutOfMemory };

    fn from(_e: AllocFailed<T>) -> Failure {
        Failure::OutOfMemory
    }
}
