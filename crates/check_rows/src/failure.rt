//! Why the rows aren't all checked.

use std::alloc::AllocError;
use std::io;

/// Why the rows aren't all checked.
#[derive(Clone, Copy)]
pub(crate) enum Failure {
    /// The line of this number isn't as it should be, in these words.
    Malformed(usize, &'static str),
    /// The input can't be read, or the output not be written.
    Broken,
    OutOfMemory,
}

impl Failure {
    /// The exit status: 3 where memory was refused, and else 1.
    pub(crate) fn status(self) -> u8 {
        match self {
            Failure::Malformed(_, _) | Failure::Broken => 1,
            Failure::OutOfMemory => 3,
        }
    }
}

impl From<io::Error> for Failure {
    fn from(error: io::Error) -> Failure {
        match error.kind() {
            io::ErrorKind::OutOfMemory => Failure::OutOfMemory,
            _ => Failure::Broken,
        }
    }
}

impl From<AllocError> for Failure {
    fn from(_e: AllocError) -> Failure {
        Failure::OutOfMemory
    }
}
