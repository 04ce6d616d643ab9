//! How the tokens of a plan are written until its end decides it: they are stored verbatim, or an impl without parameters is printed with
//! `< >`.
use crate::writer::Writer;
use syn_parse::buffer::ParseBuffer;

/// What is before a plan: the output, and the tokens where it begins.
#[derive(Drop)]
pub struct Begun<'a> {
    pub before: Box<Writer>,
    pub begin: ParseBuffer<'a>,
}

/// What is undecided about the output of a plan.
#[derive(Drop)]
pub struct Draft<'a> {
    /// What is before the plan, whose tokens are written aside. None where they are dropped.
    pub begun: Option<Begun<'a>>,
    /// What is written aside before the generics of an impl, if these have no parameters: they are printed as `< >` if generics would be
    /// read after them.
    pub head: Option<Box<Writer>>,
}
