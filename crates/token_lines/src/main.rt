//! Writes the tokens of many texts, for tools that compare them with those of another reader.
//!
//! Each line of standard input is the hex digits of a text's bytes. For each, one line goes to standard output:
//! `refused at BYTE: TEXT`, or the tokens of the text with a blank between them, then a tab and the hex digits of the token
//! text. A token is its kind, where it begins and ends, and its text in hex digits: `Ident:0:1:61`, `Int:0:1:31`; of a mark's
//! character also its spacing, as `Punct:0:1:2b:Joint`; a group is its two delimiters, `(:0:1` and `):1:2`, and what is in it.
//!
//! The status is 0; 1 where a line is no hex digits of a text in UTF-8, or can't be read or written; 3 where memory is
//! refused.
#![tactic(auto)]

ghost use Rattle.std.specs.Prelude.{◌≡◌, ◌⊎◌, ◌↔◌, OnOk, IfErr};
ghost use Rattle.token_lines.specs.declared.failure.Failure.TheVariants.{OutOfMemory};

mod failure;
mod line;

use crate::failure::Failure;
use crate::line::add_line;
use std::alloc::Global;
use std::io::{self, BufReader, BufWriter, Read, Write};
use std::process::ExitCode;

/// The exit status: 0, or that of the failure.
fn status(done: Result<(), Failure>) -> u8
    ensures ok { OnOk done (result ≡ 0) }
    ensures err { IfErr done (λ failure. (result ≡ 1) ⊎ (result ≡ 3)) }
    ensures memory { IfErr done (λ failure. (result ≡ 3) ↔ (failure ≡ OutOfMemory)) }
{
    match done {
        Ok(()) => 0,
        Err(failure) => failure.status(),
    }
}

/// Writes the line of each line of the input, in order, up to the first that is no text.
fn run<R: Read + Drop, W: Write + Drop>(
    alloc: Global,
    input: R,
    mut output: W,
) -> Result<(), Failure> {
    let source = io::read_to_string(alloc, input)?;
    for line in source.as_str().lines() {
        let mut out = String::new(alloc);
        add_line(alloc, line, &mut out)?;
        output.write_all(out.as_bytes())?;
    }
    output.flush()?;
    Ok(())
}

fn main(rt: HostRuntime) -> ExitCode {
    let status = match BufWriter::new(rt.alloc(), rt.stdout()) {
        Ok(output) => status(run(rt.alloc(), rt.stdin(), output)),
        Err(_) => 3,
    };
    ExitCode::from(status)
}
