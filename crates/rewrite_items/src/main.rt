//! What a tool does that rewrites whole files: reads a file from standard input, and writes it with each private function visible in
//! its whole crate, as `pub(crate)`.
//!
//! That are the functions among the items of the file and of its modules, and those of impls that are of no trait. Bodies stay closed,
//! so what is in one is as it was. It writes the tokens of the file on one line. The status is 0; 1 where the text is refused or
//! can't be read or written, with a line on standard error.
#![tactic(auto)]

mod widen;

use crate::widen::widen_file;
use std::alloc::Global;
use std::fmt::Write as _;
use std::io::{Read, Write};
use std::process::ExitCode;
use syn::reader::{read_tokens, token_text};
use syn::token::TokenStream;
use syn::{File, ToTokens, parse2};

/// The text of the file that this text spells, rewritten.
fn rewritten(alloc: Global, text: &str) -> syn::Result<String> {
    let mut file: File = parse2(read_tokens(alloc, text)?)?;
    widen_file(&mut file, alloc)?;
    let mut tokens = TokenStream::new(alloc);
    file.to_tokens(&mut tokens)?;
    let mut line = token_text(&tokens)?;
    line.push('\n')?;
    Ok(line)
}

/// Reads all of the input, writes it rewritten, and returns the exit status.
fn run<R: Read + Drop, W: Write + Drop, V: Write + Drop>(
    alloc: Global,
    mut input: R,
    mut output: W,
    mut faults: V,
) -> u8 {
    let mut text = String::new(alloc);
    if input.read_to_string(&mut text).is_err() {
        let _ = writeln!(faults, "read failed");
        return 1;
    }
    match rewritten(alloc, text.as_str()) {
        Ok(line) => match output
            .write_all(line.as_bytes())
            .and_then(|_| output.flush())
        {
            Ok(()) => 0,
            Err(_) => {
                let _ = writeln!(faults, "write failed");
                1
            }
        },
        Err(error) => {
            let start = error.span().start;
            let _ = writeln!(faults, "refused at {start}: {error}");
            1
        }
    }
}

fn main(rt: HostRuntime) -> ExitCode {
    ExitCode::from(run(rt.alloc(), rt.stdin(), rt.stdout(), rt.stderr()))
}
