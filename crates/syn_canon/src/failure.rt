//! Why the program ends without output.
ghost use Rattle.std.specs.Prelude.{◌≡◌, ◌≢◌};
ghost use Rattle.std.specs.IoError.{error_kind};
ghost use Rattle.syn_canon.specs.Statuses.{is_decided, status_of, failure_of};
ghost use Rattle.syn_canon.specs.declared.failure.Failure.TheVariants.{OutOfMemory};

use std::alloc::{AllocError, AllocFailed};
use std::io::ErrorKind;
use std::{fmt, io};
use syn_tokens::error::Error;

/// Why a run ends without output.
#[derive(Drop)]
pub(crate) enum Failure {
    /// The words are no command.
    Usage,
    ReadFailed,
    NotUtf8,
    /// The text is not of the kind.
    Refused(Error),
    WriteFailed,
    OutOfMemory,
}

impl Failure {
    /// The failure of a system's error: `OutOfMemory` for refused memory, otherwise this one.
    pub(crate) fn from_io(error: &io::Error, otherwise: Failure) -> Failure
        ensures memory { error_kind error.now ≡ ErrorKind.OutOfMemory → result ≡ Failure.OutOfMemory }
        ensures other { error_kind error.now ≢ ErrorKind.OutOfMemory → result ≡ otherwise }
    {
        match error.kind() {
            ErrorKind::OutOfMemory => Failure::OutOfMemory,
            _ => otherwise,
        }
    }

    /// The exit status.
    pub(crate) fn status(&self) -> u8
        ensures { result ≡ status_of self.now }
    {
        match self {
            Failure::ReadFailed | Failure::NotUtf8 | Failure::Refused(_) | Failure::WriteFailed =>
                1,
            Failure::Usage => 2,
            Failure::OutOfMemory => 3,
        }
    }

    /// Whether the words and the text alone decide it: no memory was refused, and no read or write failed.
    pub(crate) fn is_decided(&self) -> bool
        ensures { result ≡ is_decided self.now }
    {
        match self {
            Failure::Usage | Failure::NotUtf8 | Failure::Refused(_) => true,
            Failure::ReadFailed | Failure::WriteFailed | Failure::OutOfMemory => false,
        }
    }
}

impl fmt::Display for Failure {
    ghost use Rattle.std.specs.Prelude.{Some};
    ghost use Rattle.syn_canon.specs.Statuses.{line_of};

    ghost output = { λ failure. Some (line_of failure) };

    fn fmt<W: fmt::Write>(&self, f: &mut fmt::Formatter<W>) -> fmt::Result {
        match self {
            Failure::Usage => {
                f.write_str("usage: syn_canon print|check KIND, or syn_canon list")
            }
            Failure::ReadFailed => f.write_str("read failed"),
            Failure::NotUtf8 => f.write_str("refused at 0: input is not UTF-8"),
            Failure::Refused(error) => match error.faults().first() {
                Some(fault) => {
                    let start = fault.span.start;
                    let text = fault.text;
                    write!(f, "refused at {start}: {text}")
                }
                None => f.write_str("out of memory"),
            },
            Failure::WriteFailed => f.write_str("write failed"),
            Failure::OutOfMemory => f.write_str("out of memory"),
        }
    }
}

impl From<Error> for Failure {
    ghost from_gives = { λ error f. f ≡ failure_of error };

    fn from(error: Error) -> Failure {
        if error.is_memory() || error.is_too_deep() {
            Failure::OutOfMemory
        } else {
            Failure::Refused(error)
        }
    }
}

impl From<AllocError> for Failure {
    ghost from_gives = { λ _ f. f ≡ OutOfMemory };

    fn from(_e: AllocError) -> Failure {
        Failure::OutOfMemory
    }
}

impl<T: Drop> From<AllocFailed<T>> for Failure {
    ghost from_gives = { λ _ f. f ≡ OutOfMemory };

    fn from(_e: AllocFailed<T>) -> Failure {
        Failure::OutOfMemory
    }
}
