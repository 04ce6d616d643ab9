//! What fails a test, and texts of what is answered.
use std::alloc::Global;
use std::process::Abort;
use syn_answers::answers::{canonical_by, derived_by, join_items};
use syn_answers::list::list_items;
use syn_reader::reader::{read_tokens, token_text};
use syn_recognize::Rule;
use syn_tokens::error::{Error, Result};
use syn_tokens::stream::TokenStream;

/// The text of a stream, or where it is refused: `refused at 1: no item`.
fn reported(alloc: Global, answer: Result<TokenStream>) -> Result<String> {
    match answer {
        Ok(tokens) => token_text(&tokens),
        Err(error) => refusal(alloc, error),
    }
}

/// Where it is refused.
fn refusal(alloc: Global, error: Error) -> Result<String> {
    if error.is_memory() {
        return Err(error);
    }
    let start = error.span().start;
    Ok(format!(in alloc; "refused at {start}")?)
}

/// Where a result is refused, and what is said: `1: no item`; where it isn't, `read`.
fn fault_of<T: Drop>(alloc: Global, answer: Result<T>) -> Result<String> {
    match answer {
        Ok(_) => Ok(String::from_str(alloc, "read")?),
        Err(error) => {
            if error.is_memory() {
                return Err(error);
            }
            let start = error.span().start;
            Ok(format!(in alloc; "{start}: {error}")?)
        }
    }
}

/// Where the text is refused that the rule is to read, and what is said of it: where it is printed, and where it is only read, if
/// that differs.
pub fn fault(alloc: Global, rule: Rule, text: &str) -> Result<String> {
    let printed = fault_of(alloc, canonical_by(rule, read_tokens(alloc, text)?))?;
    let derived = fault_of(alloc, derived_by(rule, read_tokens(alloc, text)?))?;
    if printed == derived {
        Ok(printed)
    } else {
        Ok(format!(in alloc; "{printed}, but {derived}")?)
    }
}

/// Where the text is refused that is to be a file, and what is said.
pub fn list_fault(alloc: Global, text: &str) -> Result<String> {
    fault_of(alloc, list_items(&read_tokens(alloc, text)?))
}

/// What the items of these texts are joined to.
pub fn joined(alloc: Global, texts: &[&str]) -> Result<String> {
    let mut pieces = Vec::new(alloc);
    for text in texts {
        pieces.push(read_tokens(alloc, text)?)?;
    }
    reported(alloc, join_items(alloc, pieces.as_slice()))
}

/// What a file lists: of each item its name and its span, or `-`.
pub fn names(alloc: Global, text: &str) -> Result<String> {
    let items = match list_items(&read_tokens(alloc, text)?) {
        Ok(items) => items,
        Err(error) => return refusal(alloc, error),
    };
    let mut names = String::new(alloc);
    for item in &items {
        match &item.name {
            Some(name) => {
                let (start, end) = (name.span.start, name.span.end);
                let kind = item.kind;
                names.push_str(format!(in alloc;
                    "{kind:?} {}@{start}..{end};",
                    name.text()
                )?.as_str())?;
            }
            None => {
                let kind = item.kind;
                names.push_str(format!(in alloc; "{kind:?};")?.as_str())?;
            }
        }
    }
    Ok(names)
}

/// Fails where memory is refused, or where the text is another.
pub fn assert_text(rt: &impl Abort, found: Result<String>, want: &str) {
    match found {
        Ok(text) => assert_eq!(rt; text.as_str(), want),
        Err(_) => panic!(rt; "no memory"),
    }
}
