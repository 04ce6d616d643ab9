//! Checks rows of texts, each with what it should be: its tree, its print, where it is refused, what is left behind it, or a text
//! that it is equal to.
//!
//! Standard input holds sections, with empty lines between them. A line `# ..` before the heading of one is a comment. The heading
//! is a question and kinds of trees, as `tree Path` or `print ItemEnum DeriveInput`; each row below it is a line of text, and a line
//! of what it should be as each of these kinds, behind four spaces:
//!
//! - `tree`: what shows the tree that the whole text is parsed as (`syn_test_support::outline`). A copy of it has to be equal to it,
//!   and to be shown alike;
//! - `print`: the text of that tree's print. A copy of it has to print the same;
//! - `refused`: the byte at which the whole text is refused, `8`, or also in which words, `8: expected identifier`, or also where
//!   that ends, `8..9: expected identifier`;
//! - `left`: what a tree that is parsed from the front of the text leaves;
//! - `left refused`: what is left where none could be parsed from there;
//! - `equal`, `differs`: another text, whose tree is equal to that of the first, or isn't: by `==` in both orders, by `is_same`, and
//!   by copies of both;
//! - `canonical`: the canonical print, which has to have itself as such;
//! - `canonical refused`: where the text has none, as of `refused`;
//! - `alike`, `unlike`: another text, which has the same form, or hasn't, in both orders;
//! - `parts`: what the tree is made of (`parts`, `types`);
//! - `fields`: of a struct's fields, what the word behind it says: `members` what they are called, `names` the names of those that
//!   have one, `number` how many there are, `prints` what each prints, `changed` and `changed_struct` what all of them and the
//!   struct print once the type of each is `()`;
//! - `faults`: what `require_empty` says of the tree's modifiers: each fault's first byte and words, or `none`.
//!
//! A kind of the first seven may also be a call, as `Attribute::parse_outer` or `Item::from(ItemEnum)` (`call`). It reads a tree at
//! the front of the text, and doesn't ask what is left behind that.
//!
//! In both lines `\n`, `\t`, `\\` and `\s` are a line break, a tab, a backslash and a space, and `\e` is nothing: an empty text is
//! `\e`, and a space at an end is `\s`.
//!
//! Each row that isn't as it should be is written to standard output, and at the end how many there were and how many of them were
//! wrong; a row counts once for each kind. Where a line isn't as it should be, the first such is written, and nothing behind it is
//! read. The status is 0; 1 where something was wrong, or the input can't be read or the output written; 3 where memory is refused.
#![tactic(auto)]

mod answer;
mod by_kind;
mod call;
mod called;
mod compared;
mod conversions;
mod escapes;
mod failure;
mod fields;
mod form;
mod forms_by_kind;
mod kinds;
mod modifiers;
mod parts;
mod question;
mod row;
mod rows;
mod types;

use crate::failure::Failure;
use crate::rows::check;
use std::alloc::Global;
use std::io::{self, BufWriter, Read, Write};
use std::process::ExitCode;

/// Writes what is wrong with the rows of the input, and answers the exit status.
pub fn run<R: Read + Drop, W: Write + Drop>(alloc: Global, input: R, output: W) -> u8 {
    match report(alloc, input, output) {
        Ok(true) => 0,
        Ok(false) => 1,
        Err(failure) => failure.status(),
    }
}

/// Whether all is as it should be.
fn report<R: Read + Drop, W: Write + Drop>(
    alloc: Global,
    input: R,
    mut output: W,
) -> Result<bool, Failure> {
    let source = io::read_to_string(alloc, input)?;
    let mut said = String::new(alloc);
    let is_right = check(alloc, source.as_str(), &mut said)?;
    output.write_all(said.as_bytes())?;
    output.flush()?;
    Ok(is_right)
}

fn main(rt: HostRuntime) -> ExitCode {
    let status = match BufWriter::new(rt.alloc(), rt.stdout()) {
        Ok(output) => run(rt.alloc(), rt.stdin(), output),
        Err(_) => 3,
    };
    ExitCode::from(status)
}
