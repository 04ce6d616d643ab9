//! A row.

/// A row: the number of its first line, its text, and what that should be or a second text, as its lines write them or as they
/// stand for them.
#[derive(Clone, Copy)]
pub(crate) struct Row<'a> {
    pub(crate) line: usize,
    pub(crate) text: &'a str,
    pub(crate) want: &'a str,
}
