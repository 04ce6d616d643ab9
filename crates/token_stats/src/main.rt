//! Counts the tokens of a text by kind: reads the text from standard input, and writes a line for each kind with its count
//! and the longest text among those tokens.
//!
//! The kinds are: identifiers that are names, keywords, lifetimes, marks, literals by what they are, and groups by their
//! delimiters. A mark is the longest one that the library knows at that place, such as `<<=`; `..=` counts as `..` and `=`. The
//! text of a group is its two delimiters, whatever is in it. A doc comment counts as the tokens of the attribute that it is.
//! Lengths are in bytes, and of texts of one length the first is reported, in quotes and with escapes, so that a line stays one.
//!
//! The status is 0; 1 where the text is refused or can't be read or written, with a line on standard error; 3 where memory
//! is refused.
#![tactic(auto)]

ghost use Rattle.std.specs.Prelude.{◌≡◌, ◌⊎◌, ◌↔◌, IfOk, OnOk, string_bytes};
ghost use Rattle.token_stats.specs.Answers.{IsRead, IsCounted};
ghost use Rattle.token_stats.specs.declared.failure.Failure.TheVariants.{OutOfMemory};

mod failure;
mod stats;
mod walk;

use crate::failure::Failure;
use crate::walk::count;
use std::alloc::Global;
use std::io::{Read, Write};
use std::process::ExitCode;

/// Counts the tokens of the text in `input`, writes the lines to `output` once all is counted, and returns the exit status.
/// Where it fails, one line goes to `faults`.
pub fn run<R: Read + Drop, W: Write + Drop, V: Write + Drop>(
    alloc: Global,
    input: R,
    output: W,
    faults: V,
) -> u8
    ensures known { (result ≡ 0) ⊎ ((result ≡ 1) ⊎ (result ≡ 3)) }
    ensures done { result ≡ 0 → IsCounted (R.remaining input) }
{
    match answer(alloc, input, output) {
        Ok(()) => 0,
        Err(failure) => report(faults, &failure),
    }
}

fn answer<R: Read + Drop, W: Write + Drop>(
    alloc: Global,
    input: R,
    mut output: W,
) -> Result<(), Failure>
    ensures { OnOk result (IsCounted (R.remaining input)) }
{
    let text = read_text(alloc, input)?;
    let lines = count(alloc, text.as_str())?.lines()?;
    let written = output
        .write_all(lines.as_bytes())
        .and_then(|_| output.flush());
    written.map_err(|_| Failure::WriteFailed)
}

/// All that is to be read.
fn read_text<R: Read + Drop>(alloc: Global, mut input: R) -> Result<String, Failure>
    ensures { IfOk result (λ text. IsRead (R.remaining input) (string_bytes text)) }
{
    let mut bytes = Vec::new(alloc);
    if let Err(e) = input.read_to_end(&mut bytes) {
        return Err(Failure::from_read(&e));
    }
    String::from_utf8(bytes).map_err(|_| Failure::NotUtf8)
}

/// Writes the failure's line, and returns its status, also where the line can't be written.
fn report<V: Write + Drop>(mut faults: V, failure: &Failure) -> u8
    ensures known { (result ≡ 1) ⊎ (result ≡ 3) }
    ensures memory { (result ≡ 3) ↔ (failure.now ≡ OutOfMemory) }
{
    let _ = writeln!(faults, "{failure}");
    let _ = faults.flush();
    failure.status()
}

fn main(rt: HostRuntime) -> ExitCode {
    let status = run(rt.alloc(), rt.stdin(), rt.stdout(), rt.stderr());
    ExitCode::from(status)
}
