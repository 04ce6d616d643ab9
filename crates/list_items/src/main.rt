//! What a tool walks that reads whole files: reads a file from standard input, and writes a tree of its items.
//!
//! It writes a line for each item and each member of an impl, a trait or a foreign module: its visibility, what it is, what it is
//! called, and its byte range, its attributes included. Modules are opened, and what is in one is indented
//! below it; bodies of functions stay closed. The status is 0; 1 where the text is refused or can't be read or written, with a line on
//! standard error.
#![tactic(auto)]

mod list;
mod members;
mod names;
mod text;

use crate::list::list_file;
use std::alloc::Global;
use std::fmt::Write as _;
use std::io::{Read, Write};
use std::process::ExitCode;
use syn::reader::read_tokens;
use syn::{File, parse2};

/// What is written of the file that this text spells.
fn describe(alloc: Global, text: &str) -> syn::Result<String> {
    let file: File = parse2(read_tokens(alloc, text)?)?;
    list_file(&file, alloc)
}

/// Reads all of the input, writes the tree of its items, and returns the exit status.
fn run<R: Read + Drop, W: Write + Drop, V: Write + Drop>(
    alloc: Global,
    mut input: R,
    mut output: W,
    mut faults: V,
) -> u8 {
    let mut text = String::new(alloc);
    if input.read_to_string(&mut text).is_err() {
        let _ = writeln!(faults, "read failed");
        return 1;
    }
    match describe(alloc, text.as_str()) {
        Ok(lines) => match output
            .write_all(lines.as_bytes())
            .and_then(|_| output.flush())
        {
            Ok(()) => 0,
            Err(_) => {
                let _ = writeln!(faults, "write failed");
                1
            }
        },
        Err(error) => {
            let start = error.span().start;
            let _ = writeln!(faults, "refused at {start}: {error}");
            1
        }
    }
}

fn main(rt: HostRuntime) -> ExitCode {
    ExitCode::from(run(rt.alloc(), rt.stdin(), rt.stdout(), rt.stderr()))
}
