//! The delimiters of a group.
/// The delimiters around a group; those of a `None` group are invisible.
#[derive(Clone, Copy, Debug, PartialEq, Eq)]
pub enum Delimiter {
    /// `( )`
    Paren,
    /// `{ }`
    Brace,
    /// `[ ]`
    Bracket,
    None,
}
