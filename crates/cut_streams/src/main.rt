//! Asks what is read of token streams, also of such as no text has: `tools/cuts.py` makes them.
//!
//! Each line of standard input is a kind of trees, as `Item`, and behind spaces a token stream. Of that each word is
//!
//! - `(`, `)`, `[`, `]`, `{` or `}`: the sign of a group; `<` or `>`: that of an invisible one;
//! - `+` or `-` and a character: a mark of that character, which is Joint or Alone;
//! - `Ident`, or the kind of a literal as `Int`, then `:` and the hex digits of its text.
//!
//! A line that begins with `#` is a comment. The answer to each other line is a line on standard output:
//!
//! - `ok` and the hex digits of the text that the tree prints as which the stream is read by `parse2`;
//! - `refused`;
//! - `memory`, where memory is refused to trees, or they are nested too deep;
//! - `broken` and words: what doesn't hold of this stream, but holds of each. The print of an accepted stream is read again, and prints
//!   itself. Where a stream is refused, a buffer stands where it stood, unless a tree stands at its front and something is left behind
//!   it. And by recognition (`syn_answers`) the same streams are read, with the same prints, but
//!   for such in which `parse2` looks through an invisible group.
//!
//! The status is 0; 1 where a line is no kind and stream, or where the input can't be read or the output written; 3 where memory is
//! refused otherwise than to trees. In these two cases nothing is written.
#![tactic(auto)]

mod answer;
mod by_kind;
mod failure;
mod notation;

use crate::answer::Answer;
use crate::by_kind::answer_as;
use crate::failure::Failure;
use crate::notation::stream_of;
use std::alloc::Global;
use std::fmt::Write as _;
use std::io::{self, BufWriter, Read, Write};
use std::process::ExitCode;

/// Writes what is answered to the lines of the input, and answers the exit status.
pub fn run<R: Read + Drop, W: Write + Drop>(alloc: Global, input: R, output: W) -> u8 {
    match report(alloc, input, output) {
        Ok(()) => 0,
        Err(failure) => failure.status(),
    }
}

/// Writes the answers, once all are found.
fn report<R: Read + Drop, W: Write + Drop>(
    alloc: Global,
    input: R,
    mut output: W,
) -> Result<(), Failure> {
    let source = io::read_to_string(alloc, input)?;
    let mut said = String::new(alloc);
    for line in source.lines() {
        if !line.starts_with('#') {
            add_answer(alloc, line, &mut said)?;
        }
    }
    output.write_all(said.as_bytes())?;
    output.flush()?;
    Ok(())
}

/// Adds the line of the answer to this line.
fn add_answer(alloc: Global, line: &str, said: &mut String) -> Result<(), Failure> {
    let (kind, words) = line.split_once(' ').unwrap_or((line, ""));
    let tokens = stream_of(alloc, words)?;
    match answer_as(kind, &tokens)? {
        Answer::Accepted(text) => {
            let digits = hex::encode(alloc, text.as_bytes())?;
            writeln!(said, "ok {digits}")?;
        }
        Answer::Refused => said.push_str("refused\n")?,
        Answer::Memory => said.push_str("memory\n")?,
        Answer::Broken(fault) => writeln!(said, "broken {fault}")?,
    }
    Ok(())
}

fn main(rt: HostRuntime) -> ExitCode {
    let status = match BufWriter::new(rt.alloc(), rt.stdout()) {
        Ok(output) => run(rt.alloc(), rt.stdin(), output),
        Err(_) => 3,
    };
    ExitCode::from(status)
}
