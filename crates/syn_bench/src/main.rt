//! Times the steps of `print derive`, `print stmts` and `print file`, each by itself, and the reading of any source.
//!
//!     syn_bench ROUNDS         reads a struct from standard input; the nanoseconds of a round: text to tokens, tokens to
//!                              a tree, the tree to tokens, tokens to text, and letting all of it go
//!     syn_bench stmts ROUNDS   the same of statements
//!     syn_bench file ROUNDS    the same of a file
//!     syn_bench read ROUNDS    reads any source; of a round: text to tokens, and letting them go
//!     syn_bench text ROUNDS    reads any source once; of a round: tokens to text, and letting that go
//!
//! The nanoseconds are a line on standard error for each round. At the end there is on standard output: how many bytes
//! the text has; how many token trees the source has, a group counted as one; or the text.
#![tactic(auto)]

ghost use Rattle.std.specs.Prelude.{◌≡◌};
ghost use Rattle.syn_bench.specs.declared.Stop.TheVariants.{Refused, System};

use std::alloc::Global;
use std::process::ExitCode;
use std::time::{Clock, Duration, Instant};
use std::{env, io};
use syn::canon::Stmts;
use syn::derive::DeriveInput;
use syn::error::Error;
use syn::parse::{Parse, parse2};
use syn::reader::{read_tokens, token_text};
use syn::token::TokenStream;
use syn::{File, ToTokens};

/// Why a run ends without its result.
#[derive(Drop)]
enum Stop {
    Usage,
    Refused(Error),
    System(io::Error),
}

impl From<Error> for Stop {
    ghost from_gives = { λ error stop. stop ≡ Refused error };

    fn from(error: Error) -> Stop {
        Stop::Refused(error)
    }
}

impl From<io::Error> for Stop {
    ghost from_gives = { λ error stop. stop ≡ System error };

    fn from(error: io::Error) -> Stop {
        Stop::System(error)
    }
}

/// How long each step of a round took.
#[derive(Clone, Copy)]
struct Times {
    read: Duration,
    parse: Duration,
    print: Duration,
    text: Duration,
    drop: Duration,
}

/// Takes the source through all steps once, as a `T`, and returns how many bytes its text has.
fn round<T: Parse + ToTokens + Drop, C: Clock>(
    clock: &C,
    alloc: Global,
    source: &str,
) -> Result<(Times, usize), Stop> {
    let start = Instant::now(clock)?;
    let tokens = read_tokens(alloc, source)?;
    let read = start.elapsed(clock)?;

    let start = Instant::now(clock)?;
    let tree: T = parse2(tokens)?;
    let parse = start.elapsed(clock)?;

    let start = Instant::now(clock)?;
    let mut printed = TokenStream::new(alloc);
    tree.to_tokens(&mut printed)?;
    let print = start.elapsed(clock)?;

    let start = Instant::now(clock)?;
    let written = token_text(&printed)?;
    let text = start.elapsed(clock)?;

    let bytes = written.len();
    let start = Instant::now(clock)?;
    drop(tree);
    drop(printed);
    drop(written);
    let dropped = start.elapsed(clock)?;
    let times = Times {
        read,
        parse,
        print,
        text,
        drop: dropped,
    };
    Ok((times, bytes))
}

/// Reads the source once: how long it took, how long letting the tokens go, and how many trees there were.
fn read_round<C: Clock>(
    clock: &C,
    alloc: Global,
    source: &str,
) -> Result<(Duration, Duration, usize), Stop> {
    let start = Instant::now(clock)?;
    let tokens = read_tokens(alloc, source)?;
    let read = start.elapsed(clock)?;

    let trees = tokens.len();
    let start = Instant::now(clock)?;
    drop(tokens);
    Ok((read, start.elapsed(clock)?, trees))
}

/// Writes the tokens as text once: how long it took, and how long letting the text go.
fn text_round<C: Clock>(clock: &C, tokens: &TokenStream) -> Result<(Duration, Duration), Stop> {
    let start = Instant::now(clock)?;
    let written = token_text(tokens)?;
    let text = start.elapsed(clock)?;

    let start = Instant::now(clock)?;
    drop(written);
    Ok((text, start.elapsed(clock)?))
}

/// What is to be timed.
#[derive(Clone, Copy)]
enum Task {
    Derive,
    Stmts,
    File,
    Read,
    Text,
}

/// What the words after the program's name ask for, and how often.
fn command(rt: &HostRuntime) -> Result<(Task, u32), Stop> {
    let mut words = env::args(rt)?.skip(1);
    let Some(first) = words.next() else {
        return Err(Stop::Usage);
    };
    let (task, count) = match (first.as_str(), words.next()) {
        (_, None) => (Task::Derive, first),
        ("stmts", Some(count)) => (Task::Stmts, count),
        ("file", Some(count)) => (Task::File, count),
        ("read", Some(count)) => (Task::Read, count),
        ("text", Some(count)) => (Task::Text, count),
        _ => return Err(Stop::Usage),
    };
    match count.parse::<u32>() {
        Ok(rounds) => Ok((task, rounds)),
        Err(_) => Err(Stop::Usage),
    }
}

fn run(rt: &HostRuntime) -> Result<(), Stop> {
    let (task, rounds) = command(rt)?;
    let source = io::read_to_string(rt.alloc(), rt.stdin())?;
    match task {
        Task::Derive => rounds_of::<DeriveInput>(rt, rounds, source.as_str()),
        Task::Stmts => rounds_of::<Stmts>(rt, rounds, source.as_str()),
        Task::File => rounds_of::<File>(rt, rounds, source.as_str()),
        Task::Read => read_rounds(rt, rounds, source.as_str()),
        Task::Text => text_rounds(rt, rounds, source.as_str()),
    }
}

fn read_rounds(rt: &HostRuntime, rounds: u32, source: &str) -> Result<(), Stop> {
    let mut trees = 0;
    for _ in 0..rounds {
        let (read, dropped, count) = read_round(rt, rt.alloc(), source)?;
        trees = count;
        eprintln!(rt; "{} {}", read.as_nanos(), dropped.as_nanos())?;
    }
    println!(rt; "{trees}")?;
    Ok(())
}

fn text_rounds(rt: &HostRuntime, rounds: u32, source: &str) -> Result<(), Stop> {
    let tokens = read_tokens(rt.alloc(), source)?;
    for _ in 0..rounds {
        let (text, dropped) = text_round(rt, &tokens)?;
        eprintln!(rt; "{} {}", text.as_nanos(), dropped.as_nanos())?;
    }
    let written = token_text(&tokens)?;
    println!(rt; "{}", written.as_str())?;
    Ok(())
}

/// Writes the line of a round.
fn write_times(rt: &HostRuntime, times: &Times) -> Result<(), Stop> {
    eprintln!(rt;
        "{} {} {} {} {}",
        times.read.as_nanos(),
        times.parse.as_nanos(),
        times.print.as_nanos(),
        times.text.as_nanos(),
        times.drop.as_nanos()
    )?;
    Ok(())
}

fn rounds_of<T: Parse + ToTokens + Drop>(
    rt: &HostRuntime,
    rounds: u32,
    source: &str,
) -> Result<(), Stop> {
    let mut bytes = 0;
    for _ in 0..rounds {
        let (times, length) = round::<T, HostRuntime>(rt, rt.alloc(), source)?;
        bytes = length;
        write_times(rt, &times)?;
    }
    println!(rt; "{bytes}")?;
    Ok(())
}

fn main(rt: HostRuntime) -> ExitCode {
    match run(&rt) {
        Ok(()) => ExitCode::from(0),
        Err(Stop::Usage) => {
            let _ = eprintln!(rt; "usage: syn_bench [stmts|file|read|text] ROUNDS");
            ExitCode::from(2)
        }
        Err(Stop::Refused(error)) => {
            let start = error.span().start;
            let _ = eprintln!(rt; "refused at {start}");
            ExitCode::from(1)
        }
        Err(Stop::System(_)) => {
            let _ = eprintln!(rt; "read or write failed");
            ExitCode::from(1)
        }
    }
}
