//! What fails a test. A library has no such function, since it may end the process.
use std::process::Abort;

/// Fails where what came of a text isn't what it should be.
pub fn assert_text_of(rt: &impl Abort, text: &str, found: &str, want: &str) {
    assert_eq!(rt; found, want, "of {text:?}");
}
