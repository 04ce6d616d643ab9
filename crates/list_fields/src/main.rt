//! What a derive macro walks: reads a struct, an enum or a union from standard input, and writes its fields, each with its
//! type and its span.
//!
//! It writes a line with the kind and the name, the generics and the predicates of the where clause where there are any, and a
//! line for each variant and each field. The status is 0; 1 where the text is refused or can't be read or written, with a line
//! on standard error.
#![tactic(auto)]

mod list;

use crate::list::add_input;
use std::alloc::Global;
use std::fmt::Write as _;
use std::io::{Read, Write};
use std::process::ExitCode;
use syn::reader::read_tokens;
use syn::{DeriveInput, parse2};

/// What is written of what this text spells.
fn describe(alloc: Global, text: &str) -> syn::Result<String> {
    let input: DeriveInput = parse2(read_tokens(alloc, text)?)?;
    let mut lines = String::new(alloc);
    add_input(&mut lines, &input, alloc)?;
    Ok(lines)
}

/// Reads all of the input, writes what it spells, and returns the exit status.
fn run<R: Read + Drop, W: Write + Drop, V: Write + Drop>(
    alloc: Global,
    mut input: R,
    mut output: W,
    mut faults: V,
) -> u8 {
    let mut text = String::new(alloc);
    if input.read_to_string(&mut text).is_err() {
        let _ = writeln!(faults, "read failed");
        return 1;
    }
    match describe(alloc, text.as_str()) {
        Ok(lines) => match output
            .write_all(lines.as_bytes())
            .and_then(|_| output.flush())
        {
            Ok(()) => 0,
            Err(_) => 1,
        },
        Err(error) => {
            let start = error.span().start;
            let _ = writeln!(faults, "refused at {start}: {error}");
            1
        }
    }
}

fn main(rt: HostRuntime) -> ExitCode {
    ExitCode::from(run(rt.alloc(), rt.stdin(), rt.stdout(), rt.stderr()))
}
