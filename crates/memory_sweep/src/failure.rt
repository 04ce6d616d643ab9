//! Why an input isn't swept.

use std::alloc::AllocError;
use std::io;
use syn::Error;

/// Why an input isn't swept.
#[derive(Clone, Copy)]
pub(crate) enum Failure {
    /// The text isn't read as the type that is named, or there is no such type.
    Broken,
    /// The input can't be read, or the output written.
    Unread,
    /// The heap refuses nothing that it is told to.
    NoSuchHeap,
    OutOfMemory,
}

impl Failure {
    /// The exit status.
    pub(crate) fn status(self) -> u8 {
        match self {
            Failure::Broken | Failure::Unread => 1,
            Failure::NoSuchHeap => 2,
            Failure::OutOfMemory => 3,
        }
    }
}

impl From<io::Error> for Failure {
    fn from(error: io::Error) -> Failure {
        match error.kind() {
            io::ErrorKind::OutOfMemory => Failure::OutOfMemory,
            _ => Failure::Unread,
        }
    }
}

impl From<Error> for Failure {
    fn from(error: Error) -> Failure {
        if error.is_memory() {
            Failure::OutOfMemory
        } else {
            Failure::Broken
        }
    }
}

impl From<AllocError> for Failure {
    fn from(_e: AllocError) -> Failure {
        Failure::OutOfMemory
    }
}
