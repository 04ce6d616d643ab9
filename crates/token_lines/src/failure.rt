//! Why the program stops.
ghost use Rattle.std.specs.Prelude.{◌≡◌, ◌⊎◌, ◌↔◌};
ghost use Rattle.syn_tokens.specs.Faults.{IsMemoryError};
ghost use Rattle.std.specs.IoError.{error_kind};
ghost use Rattle.std.specs.declared.io.ErrorKind.TheVariants as E;
ghost use Rattle.hex.specs.declared.error.FromHexError.TheVariants as H;
ghost use Rattle.token_lines.specs.declared.failure.Failure.TheVariants.{OutOfMemory};

use hex::FromHexError;
use std::alloc::{AllocError, AllocFailed};
use std::io;
use syn_tokens::error::Error;

/// Why the program stops before the last line.
#[derive(Clone, Copy, Debug, PartialEq, Eq)]
pub(crate) enum Failure {
    /// A line is no hex digits of a text, or can't be read or written.
    Broken,
    OutOfMemory,
}

impl Failure {
    /// The exit status: 3 where memory was refused, and else 1.
    pub(crate) fn status(self) -> u8
        ensures known { (result ≡ 1) ⊎ (result ≡ 3) }
        ensures memory { (result ≡ 3) ↔ (self ≡ OutOfMemory) }
    {
        match self {
            Failure::Broken => 1,
            Failure::OutOfMemory => 3,
        }
    }
}

impl From<io::Error> for Failure {
    ghost from_gives = { λ error f. (f ≡ OutOfMemory) ↔ (error_kind error ≡ E.OutOfMemory) };

    fn from(error: io::Error) -> Failure {
        match error.kind() {
            io::ErrorKind::OutOfMemory => Failure::OutOfMemory,
            _ => Failure::Broken,
        }
    }
}

impl From<FromHexError> for Failure {
    ghost from_gives = { λ error f. (f ≡ OutOfMemory) ↔ (error ≡ H.OutOfMemory) };

    fn from(error: FromHexError) -> Failure {
        match error {
            FromHexError::OutOfMemory => Failure::OutOfMemory,
            _ => Failure::Broken,
        }
    }
}

impl From<Error> for Failure {
    ghost from_gives = { λ error f. (f ≡ OutOfMemory) ↔ IsMemoryError error };

    fn from(error: Error) -> Failure {
        if error.is_memory() {
            Failure::OutOfMemory
        } else {
            Failure::Broken
        }
    }
}

impl From<AllocError> for Failure {
    ghost from_gives = { λ _ f. f ≡ OutOfMemory };

    fn from(_e: AllocError) -> Failure {
        Failure::OutOfMemory
    }
}

impl<T: Drop> From<AllocFailed<T>> for Failure {
    ghost from_gives = { λ _ f. f ≡ OutOfMemory };

    fn from(_e: AllocFailed<T>) -> Failure {
        Failure::OutOfMemory
    }
}
