//! Why the texts aren't all compared.

use hex::FromHexError;
use std::alloc::AllocError;
use std::io;
use syn::Error;

/// Why the texts aren't all compared.
#[derive(Clone, Copy)]
pub(crate) enum Failure {
    /// A line is no text in hex digits, or can't be read or written.
    Broken,
    OutOfMemory,
}

impl Failure {
    /// The exit status: 3 where memory was refused, and else 1.
    pub(crate) fn status(self) -> u8 {
        match self {
            Failure::Broken => 1,
            Failure::OutOfMemory => 3,
        }
    }
}

impl From<io::Error> for Failure {
    fn from(error: io::Error) -> Failure {
        match error.kind() {
            io::ErrorKind::OutOfMemory => Failure::OutOfMemory,
            _ => Failure::Broken,
        }
    }
}

impl From<FromHexError> for Failure {
    fn from(error: FromHexError) -> Failure {
        match error {
            FromHexError::OutOfMemory => Failure::OutOfMemory,
            _ => Failure::Broken,
        }
    }
}

impl From<Error> for Failure {
    fn from(error: Error) -> Failure {
        if error.is_memory() || error.is_too_deep() {
            Failure::OutOfMemory
        } else {
            Failure::Broken
        }
    }
}

impl From<AllocError> for Failure {
    fn from(_e: AllocError) -> Failure {
        Failure::OutOfMemory
    }
}
