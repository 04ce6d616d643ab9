//! Reads routes, a syntax of its own, from standard input, and writes two lines for each: what it says, and its tokens.
//!
//! A route is `route GET "/users" ~> users::list [page: u8, size: u8] if admin`, with or without the part that begins with
//! `if`; a `;` is between routes. The status is 0; 1 where the text is refused or can't be read or written, with a line
//! on standard error.
#![tactic(auto)]

ghost use Rattle.syn_grammar.specs.Words.{semicolon};
ghost use Rattle.syn_tokens.specs.Faults.{IsSyntaxError};
ghost use Rattle.syn_tokens.specs.Kinds.{semi_syntax};
ghost use Rattle.syn_parse.specs.Form.{ListOutcome, punctuation};
ghost use Rattle.own_syntax.specs.Routes.{route_form};
ghost use Rattle.own_syntax.specs.Syntax.{syntax_of_Route};

mod kw;
mod line;
mod print;
mod route;

use crate::line::add_route;
use crate::route::Route;
use std::alloc::Global;
use std::fmt::Write as _;
use std::io::{Read, Write};
use std::process::ExitCode;
use syn::ToTokens;
use syn::parse::ParseBuffer;
use syn::punctuated::Punctuated;
use syn::reader::{read_tokens, token_text};
use syn::token::{Semi, TokenStream};

/// The routes that a whole stream is, with `;` between them.
///
/// It is refused where it is no such list, with the fault ``expected `route` `` or the like at the token that isn't allowed
/// there; at a literal that is no path, `` expected a path that begins with `/` ``.
pub fn parse_routes(tokens: &TokenStream) -> syn::Result<Punctuated<Route, Semi>>
    ensures { ListOutcome IsSyntaxError syntax_of_Route semi_syntax route_form (punctuation semicolon) tokens.now result }
{
    ParseBuffer::new(tokens).parse_terminated()
}

/// The lines of all routes of a text.
fn lines(alloc: Global, text: &str) -> syn::Result<String> {
    let tokens = read_tokens(alloc, text)?;
    let mut lines = String::new(alloc);
    for route in parse_routes(&tokens)?.iter() {
        add_route(&mut lines, route)?;
        let mut printed = TokenStream::new(alloc);
        route.to_tokens(&mut printed)?;
        writeln!(lines, "    {}", token_text(&printed)?.as_str())?;
    }
    Ok(lines)
}

/// Reads all of the input, writes the lines to the output, and returns the exit status.
fn run<R: Read + Drop, W: Write + Drop, V: Write + Drop>(
    alloc: Global,
    mut input: R,
    mut output: W,
    mut faults: V,
) -> u8 {
    let mut text = String::new(alloc);
    if input.read_to_string(&mut text).is_err() {
        let _ = writeln!(faults, "read failed");
        return 1;
    }
    match lines(alloc, text.as_str()) {
        Ok(lines) => match output
            .write_all(lines.as_bytes())
            .and_then(|_| output.flush())
        {
            Ok(()) => 0,
            Err(_) => 1,
        },
        Err(error) => {
            let start = error.span().start;
            let _ = writeln!(faults, "refused at {start}: {error}");
            1
        }
    }
}

fn main(rt: HostRuntime) -> ExitCode {
    ExitCode::from(run(rt.alloc(), rt.stdin(), rt.stdout(), rt.stderr()))
}
