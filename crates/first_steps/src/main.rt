//! A derive macro's first step: reads a struct from standard input, walks its fields, and prints it.
//!
//! It writes the struct's name, a line for each field, and the tokens of the whole. The status is 0; 1 where the text is
//! refused or can't be read or written, with a line on standard error.
#![tactic(auto)]

use std::alloc::Global;
use std::fmt::Write as _;
use std::io::{Read, Write};
use std::process::ExitCode;
use syn::reader::{read_tokens, token_text};
use syn::token::TokenStream;
use syn::{Data, DeriveInput, Error, ToTokens, parse2};

/// The tokens of a tree, as text.
fn printed<T: ToTokens>(alloc: Global, tree: &T) -> syn::Result<String> {
    let mut tokens = TokenStream::new(alloc);
    tree.to_tokens(&mut tokens)?;
    token_text(&tokens)
}

/// What is written of a struct. An enum or a union is refused.
fn describe(alloc: Global, input: &DeriveInput) -> syn::Result<String> {
    let Data::Struct(data) = &input.shape else {
        return Err(Error::new(input.ident.span, "expected a struct"));
    };
    let mut lines = String::new(alloc);
    writeln!(lines, "struct {}", input.ident.text())?;
    for field in data.fields.iter() {
        writeln!(lines, "field: {}", printed(alloc, &field.ty)?.as_str())?;
    }
    writeln!(lines, "{}", printed(alloc, input)?.as_str())?;
    Ok(lines)
}

/// The same of the struct that this text spells.
fn describe_text(alloc: Global, text: &str) -> syn::Result<String> {
    let input: DeriveInput = parse2(read_tokens(alloc, text)?)?;
    describe(alloc, &input)
}

/// Reads all of the input, writes what it spells, and returns the exit status.
fn run<R: Read + Drop, W: Write + Drop, V: Write + Drop>(
    alloc: Global,
    mut input: R,
    mut output: W,
    mut faults: V,
) -> u8 {
    let mut text = String::new(alloc);
    if input.read_to_string(&mut text).is_err() {
        let _ = writeln!(faults, "read failed");
        return 1;
    }
    match describe_text(alloc, text.as_str()) {
        Ok(lines) => match output
            .write_all(lines.as_bytes())
            .and_then(|_| output.flush())
        {
            Ok(()) => 0,
            Err(_) => 1,
        },
        Err(error) => {
            let start = error.span().start;
            let _ = writeln!(faults, "refused at {start}: {error}");
            1
        }
    }
}

fn main(rt: HostRuntime) -> ExitCode {
    ExitCode::from(run(rt.alloc(), rt.stdin(), rt.stdout(), rt.stderr()))
}
