//! Makes each call that takes memory again and again, with its first request for memory refused, then its second, and so on, until a
//! run asks for no more than it was given.
//!
//! Each line of standard input is the name of a type, behind which may stand `::` and the name of the variant that is to be read, and
//! behind a space the text; a text in `<< >>` stands in a group without delimiters. On each these calls are made: `read_tokens`,
//! `token_text`, `parse2`, `T::parse` on a buffer from which one token was read, `to_tokens` on a stream that holds tokens, `try_clone`;
//! where the type has a canonical print `canonical` and `same_form`; where it may be deferred `open`; and `join_items` of that one piece where
//! it is an `Item`.
//!
//! A run that is refused a request has to answer that memory is refused, and nothing else; the buffer then stands where it stood, and
//! the stream is as it was, spans included. The run that is refused none has to answer the right thing. A call may also ask again for
//! what it was refused, and answer the right thing: such runs are counted by themselves. And the refusal of memory is combined with a
//! fault of syntax, in both orders.
//!
//! It takes a heap that refuses what it is told to (`tools/refusing_heap.c`); with another the status is 2.
//!
//! For each call that asks again there is a line on standard output, with the number of the input's line, the call, and how many
//! runs did; for each that is wrong one with the number of the first such run, and why; and at the end there stands what was counted. The
//! status is 0; 1 where something is wrong, or the input can't be read or the output written; 3 where memory is refused to the sweep
//! itself.
#![tactic(auto)]

mod by_kind;
mod calls;
mod combined;
mod ends;
mod failure;
mod given;
mod heap;
mod lines;
mod named;
mod opened;
mod sweep;
mod tally;
mod texts;
mod variants;
mod ways;

use crate::combined::sweep_combined;
use crate::failure::Failure;
use crate::heap::is_obeyed;
use crate::lines::sweep_lines;
use crate::tally::Tally;
use std::alloc::Global;
use std::io::{self, BufWriter, Read, Write};
use std::process::ExitCode;

/// Writes what is wrong with the calls on the inputs, and what was counted, and answers the exit status.
pub fn run<R: Read + Drop, W: Write + Drop>(alloc: Global, input: R, output: W) -> u8 {
    match report(alloc, input, output) {
        Ok(true) => 0,
        Ok(false) => 1,
        Err(failure) => failure.status(),
    }
}

/// Whether nothing is wrong.
fn report<R: Read + Drop, W: Write + Drop>(
    alloc: Global,
    input: R,
    mut output: W,
) -> Result<bool, Failure> {
    let source = io::read_to_string(alloc, input)?;
    let mut tally = Tally::new(alloc);
    if !source.is_empty() {
        if !is_obeyed(alloc) {
            return Err(Failure::NoSuchHeap);
        }
        sweep_combined(alloc, &mut tally)?;
        sweep_lines(alloc, source.as_str(), &mut tally)?;
    }
    let is_clean = tally.is_clean();
    let said = tally.report()?;
    output.write_all(said.as_bytes())?;
    output.flush()?;
    Ok(is_clean)
}

fn main(rt: HostRuntime) -> ExitCode {
    let status = match BufWriter::new(rt.alloc(), rt.stdout()) {
        Ok(output) => run(rt.alloc(), rt.stdin(), output),
        Err(_) => 3,
    };
    ExitCode::from(status)
}
