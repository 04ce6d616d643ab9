//! The refusal of memory, combined with a fault of syntax.

use crate::ends::{Call, End, Run};
use crate::failure::Failure;
use crate::heap::{refuse, was_refused};
use crate::sweep::sweep;
use crate::tally::Tally;
use std::alloc::Global;
use syn::reader::read_tokens;
use syn::{Error, Result, Span};

/// Combines both, in each order.
pub(crate) fn sweep_combined(alloc: Global, tally: &mut Tally) -> std::result::Result<(), Failure> {
    sweep::<Global, SyntaxFirst>(&alloc, "combine with memory", tally)?;
    sweep::<Global, MemoryFirst>(&alloc, "combine memory", tally)
}

/// A fault of syntax, with the refusal of memory behind it.
struct SyntaxFirst;

impl Call<Global> for SyntaxFirst {
    fn once(alloc: &Global, number: usize) -> Result<Run> {
        Ok(combined(*alloc, number, fault(), refusal(*alloc)?))
    }
}

/// The other order.
struct MemoryFirst;

impl Call<Global> for MemoryFirst {
    fn once(alloc: &Global, number: usize) -> Result<Run> {
        Ok(combined(*alloc, number, refusal(*alloc)?, fault()))
    }
}

/// What comes of both is the refusal of memory.
fn combined(alloc: Global, number: usize, mut first: Error, second: Error) -> Run {
    refuse(alloc, number);
    first.combine(second);
    let is_refused = was_refused(alloc);
    let is_right = first.is_memory() && first.faults().is_empty();
    Run {
        is_refused,
        end: End::of_answer(is_right),
    }
}

fn fault() -> Error {
    Error::new(Span { start: 1, end: 2 }, "a fault")
}

/// The error of a call that was refused memory.
fn refusal(alloc: Global) -> Result<Error> {
    refuse(alloc, 1);
    let answer = read_tokens(alloc, "a");
    let _is_refused = was_refused(alloc);
    match answer {
        Ok(_tokens) => Err(fault()),
        Err(error) => Ok(error),
    }
}
