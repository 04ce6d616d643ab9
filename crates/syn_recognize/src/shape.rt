//! Written by tools/recognizers.py; edits are lost.
//!
//! The shapes of values, as the specifications build them. Reading needs none of them.

/// How the value of a form is built.
#[derive(Clone, Copy)]
pub enum Shape {
    ALocal,
    AfterIt(Variant),
    Based,
    Bracketed,
    Chain,
    Choice,
    Dotted,
    Fields,
    Labelled,
    Leading,
    Listed,
    Lone,
    Operand(Variant),
    Operator(Variant),
    Parameters,
    Said,
    SaidMacro,
    Untagged,
}

/// A variant of expressions.
#[derive(Clone, Copy)]
pub enum Variant {
    Assign,
    Binary,
    Block,
    Break,
    Call,
    Cast,
    Continue,
    ForLoop,
    Grouped,
    If,
    Index,
    Lit,
    Loop,
    Macro,
    Path,
    Reference,
    Return,
    Try,
    Unary,
    Unsafe,
    While,
}
