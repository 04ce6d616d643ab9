//! What an attribute macro on functions does: reads a function from standard input, such as `#[a] fn p(x: u8) -> u8 { let y = x; y }`.
//! Its body is kept verbatim, opened, changed, and kept verbatim again.
//!
//! It writes a line with the name, one with the number of attributes, one for each parameter but a variadic one, one for each
//! statement (what it is, its byte range, and its text), and one with the function whose body has no value: `;`
//! follows a last expression that had none. The status is 0; 1 where the text is refused or can't be read or written, with a line
//! on standard error.
#![tactic(auto)]

mod block;
mod list;

use crate::list::add_function;
use std::alloc::Global;
use std::fmt::Write as _;
use std::io::{Read, Write};
use std::process::ExitCode;
use syn::reader::read_tokens;
use syn::{ItemFn, parse2};

/// The lines of the function that a text is.
fn describe(alloc: Global, text: &str) -> syn::Result<String> {
    let function: ItemFn = parse2(read_tokens(alloc, text)?)?;
    let mut lines = String::new(alloc);
    add_function(&mut lines, function, alloc)?;
    Ok(lines)
}

/// Reads all of the input, writes the lines to the output, and returns the exit status.
fn run<R: Read + Drop, W: Write + Drop, V: Write + Drop>(
    alloc: Global,
    mut input: R,
    mut output: W,
    mut faults: V,
) -> u8 {
    let mut text = String::new(alloc);
    if input.read_to_string(&mut text).is_err() {
        let _ = writeln!(faults, "read failed");
        return 1;
    }
    match describe(alloc, text.as_str()) {
        Ok(lines) => match output
            .write_all(lines.as_bytes())
            .and_then(|_| output.flush())
        {
            Ok(()) => 0,
            Err(_) => 1,
        },
        Err(error) => {
            let start = error.span().start;
            let _ = writeln!(faults, "refused at {start}: {error}");
            1
        }
    }
}

fn main(rt: HostRuntime) -> ExitCode {
    ExitCode::from(run(rt.alloc(), rt.stdin(), rt.stdout(), rt.stderr()))
}
