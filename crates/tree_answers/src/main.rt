//! Compares two ways to answer about texts: by trees, as `canonical` and `same_form` of `syn` do, and by recognition, as
//! `canonical_by`, `derived_by` and `same_form_by` of `syn_answers` do.
//!
//! Each line of standard input is the hex digits of a text's bytes, and behind them may stand words of kinds, each behind a space. As
//! each of these kinds, or of all in `by_kind` where none stands there, both ways are asked of it
//!
//! - `print`: its canonical print, each token with its spans;
//! - `check`: whether it has one;
//!
//! and where it has
//!
//! - `form of its print`: whether the text of that has the same form;
//! - `form of the text before`: whether the last text before it that could be read has, and
//! - `form, as the text before has it`: the same in the other order.
//!
//! Both have to answer the same, or to refuse the text at the same byte; the words may differ. Recognition has two such bytes: where
//! it stops reading, and the one of which is told, as of the `self` of a receiver behind other parameters where reading stops at its
//! `&`; trees may be refused at either. Trees refuse what is nested too deep, and recognition doesn't: where one of them refuses this, or
//! memory, that is counted, and nothing is compared.
//!
//! Each question whose answers differ is three lines on standard output, and at the end there stands what was counted. The
//! status is 0; 1 where answers differ, where a line is no text in hex digits, or where the input can't be read or the output
//! written; 3 where memory is refused to the comparison itself.
#![tactic(auto)]

mod answer;
mod by_kind;
mod case;
mod compared;
mod failure;
mod tally;
mod texts;

use crate::failure::Failure;
use crate::tally::Tally;
use crate::texts::compare_texts;
use std::alloc::Global;
use std::io::{self, BufWriter, Read, Write};
use std::process::ExitCode;

/// Writes what differs about the texts of the input, and what was counted, and answers the exit status.
pub fn run<R: Read + Drop, W: Write + Drop>(alloc: Global, input: R, output: W) -> u8 {
    match report(alloc, input, output) {
        Ok(true) => 0,
        Ok(false) => 1,
        Err(failure) => failure.status(),
    }
}

/// Whether nothing differs.
fn report<R: Read + Drop, W: Write + Drop>(
    alloc: Global,
    input: R,
    mut output: W,
) -> Result<bool, Failure> {
    let source = io::read_to_string(alloc, input)?;
    let mut tally = Tally::new(alloc);
    compare_texts(alloc, source.as_str(), &mut tally)?;
    let is_clean = tally.is_clean();
    let said = tally.report()?;
    output.write_all(said.as_bytes())?;
    output.flush()?;
    Ok(is_clean)
}

fn main(rt: HostRuntime) -> ExitCode {
    let status = match BufWriter::new(rt.alloc(), rt.stdout()) {
        Ok(output) => run(rt.alloc(), rt.stdin(), output),
        Err(_) => 3,
    };
    ExitCode::from(status)
}
