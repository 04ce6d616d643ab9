//! The rows, one behind another.

use crate::escapes::text_of;
use crate::failure::Failure;
use crate::kinds::answer_as;
use crate::question::{FormQuestion, Heading, Question, TreeQuestion};
use crate::row::Row;
use std::alloc::{AllocError, Global};
use std::fmt::Write as _;

/// What is wrong with a row of one line.
const NO_SECOND: &str = "no line of what this text should be";

/// How many rows there were, and how many of them were wrong.
#[derive(Clone, Copy)]
struct Count {
    rows: usize,
    wrong: usize,
}

/// Where in the sections the next line stands.
#[derive(Clone, Copy)]
enum Place<'a> {
    /// Before the heading of one.
    Before,
    /// Behind the heading, or a row.
    Within(Heading<'a>),
    /// Behind the text of a row, and the number of its line.
    Following(Heading<'a>, usize, &'a str),
}

/// Adds what is wrong with the rows, or with a line that isn't as it should be, and answers whether nothing is.
pub(crate) fn check(alloc: Global, source: &str, said: &mut String) -> Result<bool, Failure> {
    let mut count = Count { rows: 0, wrong: 0 };
    match check_lines(alloc, source, &mut count, said) {
        Ok(()) => {
            writeln!(said, "{} rows, {} wrong", count.rows, count.wrong)?;
            Ok(count.wrong == 0)
        }
        Err(Failure::Malformed(line, words)) => {
            writeln!(said, "line {line}: {words}")?;
            Ok(false)
        }
        Err(failure) => Err(failure),
    }
}

fn check_lines(
    alloc: Global,
    source: &str,
    count: &mut Count,
    said: &mut String,
) -> Result<(), Failure> {
    let mut place = Place::Before;
    let mut number = 0_usize;
    for line in source.lines() {
        number = number.saturating_add(1);
        if let Place::Following(heading, first, text) = place {
            let row = Row {
                line: first,
                text,
                want: line,
            };
            check_row(alloc, &heading, &row, count, said)?;
        }
        place = following(place, number, line)?;
    }
    match place {
        Place::Following(_, number, _) => Err(Failure::Malformed(number, NO_SECOND)),
        _ => Ok(()),
    }
}

/// Adds what is wrong with the row of these lines.
fn check_row(
    alloc: Global,
    heading: &Heading<'_>,
    row: &Row<'_>,
    count: &mut Count,
    said: &mut String,
) -> Result<(), Failure> {
    let Some(want) = row.want.strip_prefix("    ") else {
        return Err(Failure::Malformed(row.line, NO_SECOND));
    };
    let text = unescaped(alloc, row.line, row.text)?;
    let want = unescaped(alloc, row.line, want)?;
    let row = Row {
        line: row.line,
        text: text.as_str(),
        want: want.as_str(),
    };
    for kind in heading.kinds.split(' ') {
        check_as(alloc, heading, kind, &row, count, said)?;
    }
    Ok(())
}

/// What a line stands for, of the row whose first line has this number.
fn unescaped(alloc: Global, number: usize, line: &str) -> Result<String, Failure> {
    match text_of(alloc, line)? {
        Some(text) => Ok(text),
        None => Err(Failure::Malformed(number, "no escape")),
    }
}

/// Adds what is wrong with the row as this kind.
fn check_as(
    alloc: Global,
    heading: &Heading<'_>,
    kind: &str,
    row: &Row<'_>,
    count: &mut Count,
    said: &mut String,
) -> Result<(), Failure> {
    let found = answer_as(alloc, heading, kind, row)?;
    count.rows = count.rows.saturating_add(1);
    if !is_right(heading, found.as_str(), row.want) {
        count.wrong = count.wrong.saturating_add(1);
        note(said, kind, row, heading.verdict)?;
        note_answers(said, found.as_str(), heading.verdict.unwrap_or(row.want))?;
    }
    Ok(())
}

/// Whether what was found is what it should be.
fn is_right(heading: &Heading<'_>, found: &str, want: &str) -> bool {
    match heading.verdict {
        Some(verdict) => found == verdict,
        None if asks_for_fault(heading.question) => is_fault(found, want),
        None => found == want,
    }
}

fn asks_for_fault(question: Question) -> bool {
    matches!(
        question,
        Question::OfTree(TreeQuestion::Refused) | Question::OfForm(FormQuestion::Refused)
    )
}

/// Whether that is the fault. Of it a row may say the first byte alone, or this and the words.
fn is_fault(found: &str, want: &str) -> bool {
    if found == want {
        return true;
    }
    match (found.split_once(".."), found.split_once(": ")) {
        (Some((start, _)), Some((_, words))) => is_start(start, words, want),
        _ => false,
    }
}

/// Whether that is what a fault with these words begins with.
fn is_start(start: &str, words: &str, want: &str) -> bool {
    match want.split_once(": ") {
        Some((want_start, want_words)) => want_start == start && want_words == words,
        None => want == start,
    }
}

/// Adds what says which row is wrong: its text, or its two texts.
fn note(
    said: &mut String,
    kind: &str,
    row: &Row<'_>,
    verdict: Option<&str>,
) -> Result<(), AllocError> {
    let Row { line, text, want } = *row;
    write!(said, "line {line}, {kind}, {text:?}")?;
    if verdict.is_some() {
        write!(said, " and {want:?}")?;
    }
    Ok(())
}

/// Adds what was found, and what it should be.
fn note_answers(said: &mut String, found: &str, want: &str) -> Result<(), AllocError> {
    writeln!(said, ": {found:?}, not {want:?}")
}

/// The place behind the line of this number.
fn following<'a>(place: Place<'a>, number: usize, line: &'a str) -> Result<Place<'a>, Failure> {
    match place {
        Place::Before => after_title(number, line),
        Place::Within(heading) => after_text(heading, number, line),
        Place::Following(heading, _, _) => Ok(Place::Within(heading)),
    }
}

/// The same of a line before the rows of a section.
fn after_title<'a>(number: usize, line: &'a str) -> Result<Place<'a>, Failure> {
    if line.is_empty() || line.starts_with('#') {
        return Ok(Place::Before);
    }
    match Heading::from_line(number, line) {
        Some(heading) => Ok(Place::Within(heading)),
        None => Err(Failure::Malformed(number, "no question and kinds")),
    }
}

/// The same of the first line of a row, or the empty line behind the last.
fn after_text<'a>(
    heading: Heading<'a>,
    number: usize,
    line: &'a str,
) -> Result<Place<'a>, Failure> {
    if line.is_empty() {
        return Ok(Place::Before);
    }
    if line.starts_with(' ') {
        return Err(Failure::Malformed(number, "no text before this line"));
    }
    Ok(Place::Following(heading, number, line))
}
