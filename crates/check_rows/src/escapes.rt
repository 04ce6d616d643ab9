//! What a line of a row stands for.

use std::alloc::{AllocError, Global};

/// The text that the line stands for; none where a backslash begins no escape.
pub(crate) fn text_of(alloc: Global, line: &str) -> Result<Option<String>, AllocError> {
    let mut text = String::new(alloc);
    let mut is_escape = false;
    for character in line.chars() {
        if !is_escape && character == '\\' {
            is_escape = true;
        } else if !is_escape {
            text.push(character)?;
        } else if add_escaped(&mut text, character)? {
            is_escape = false;
        } else {
            return Ok(None);
        }
    }
    Ok(if is_escape { None } else { Some(text) })
}

/// Adds what this character behind a backslash stands for, and answers whether it stands for anything.
fn add_escaped(text: &mut String, character: char) -> Result<bool, AllocError> {
    match character {
        'n' => text.push('\n')?,
        't' => text.push('\t')?,
        's' => text.push(' ')?,
        '\\' => text.push('\\')?,
        'e' => {}
        _ => return Ok(false),
    }
    Ok(true)
}
