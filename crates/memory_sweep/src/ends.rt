//! How a call ends while memory is short.

use syn::Error;

/// How a call ends.
#[derive(Clone, Copy)]
pub(crate) enum End {
    /// As it ends where no request is refused.
    Right,
    /// By the refusal of memory, with everything as it was.
    Memory,
    /// Otherwise, which is wrong.
    Wrong(&'static str),
}

impl End {
    /// The end of a call that answers; whether that is the right thing.
    pub(crate) fn of_answer(is_right: bool) -> End {
        if is_right {
            End::Right
        } else {
            End::Wrong("another answer")
        }
    }

    /// The end of a call that answers this error; whether everything is as it was.
    pub(crate) fn of_error(error: &Error, is_kept: bool) -> End {
        if !error.is_memory() {
            End::Wrong("refused as no such syntax")
        } else if is_kept {
            End::Memory
        } else {
            End::Wrong("memory refused, and not everything is as it was")
        }
    }
}

/// One run of a call.
#[derive(Clone, Copy)]
pub(crate) struct Run {
    /// Whether the request that was to be refused came.
    pub(crate) is_refused: bool,
    pub(crate) end: End,
}

/// A call that can be made again and again.
pub(crate) trait Call<G> {
    /// Makes the call with the request of this number refused.
    fn once(given: &G, number: usize) -> syn::Result<Run>;
}
