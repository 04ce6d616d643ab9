//! Rust forms that the grammar leaves out: how each begins, and its error message.
use syn_parse::buffer::ParseBuffer;
use syn_tokens::ident::Ident;
use syn_tokens::literal::Literal;
use syn_tokens::token::{
    And, Async, At, Await, Brace, Bracket, Colon, Const, DotDot, Dyn, Extern, False, Fn, For, Impl,
    Let, Match, Minus, Move, Mut, Not, Or, Paren, SelfValue, Star, Static, Tilde, True, Try,
    Underscore, Unsafe, Use, Yield,
};

/// Where Rust accepts another form than the one that is read.
#[derive(Clone, Copy)]
pub enum Place {
    /// An expression begins.
    Expression,
    /// A type or a bound begins.
    Type,
    /// A pattern begins.
    Pattern,
    /// After the dot of a member.
    Member,
    /// After a whole expression, type or pattern.
    Following,
}

impl Place {
    /// The error message, where a form that is left out begins at the next token.
    pub(crate) fn left_out(self, input: &ParseBuffer<'_>) -> Option<&'static str> {
        match self {
            Place::Expression => expression(input),
            Place::Type => type_or_bound(input),
            Place::Pattern => pattern(input),
            Place::Member => member(input),
            Place::Following => following(input),
        }
    }
}

/// An expression that is left out.
fn expression(input: &ParseBuffer<'_>) -> Option<&'static str> {
    if input.peek::<Match>() {
        Some("`match` is not read here")
    } else if input.peek::<Or>() || input.peek::<Move>() {
        Some("closures are not read here")
    } else if input.peek::<DotDot>() {
        Some("ranges are not read here")
    } else if input.peek::<Let>() {
        Some("`let` in conditions is not read here")
    } else if input.peek::<Async>() {
        Some("`async` is not read here")
    } else if input.peek::<Const>() {
        Some("`const` is not read here")
    } else if input.peek::<Static>() {
        Some("`static` is not read here")
    } else if input.peek::<Try>() {
        Some("`try` blocks are not read here")
    } else if input.peek::<Yield>() {
        Some("`yield` is not read here")
    } else if input.peek::<Underscore>() {
        Some("`_` as an expression is not read here")
    } else {
        None
    }
}

/// A type, a bound or a generic argument that is left out.
fn type_or_bound(input: &ParseBuffer<'_>) -> Option<&'static str> {
    if input.peek::<Dyn>() {
        Some("`dyn` types are not read here")
    } else if input.peek::<Impl>() {
        Some("`impl` types are not read here")
    } else if at_function_type(input) {
        Some("function types are not read here")
    } else if input.peek::<Underscore>() {
        Some("`_` as a type is not read here")
    } else if input.peek::<Const>() || input.peek::<Tilde>() || input.peek::<Bracket>() {
        Some("`const` bounds are not read here")
    } else if input.peek::<Async>() {
        Some("`async` bounds are not read here")
    } else if input.peek::<Use>() {
        Some("`use` bounds are not read here")
    } else if input.peek::<Minus>() {
        Some("negative literals as arguments are not read here")
    } else {
        None
    }
}

/// Whether the next token is a keyword that begins a function type.
fn at_function_type(input: &ParseBuffer<'_>) -> bool {
    input.peek::<Fn>() || input.peek::<Unsafe>() || input.peek::<Extern>() || input.peek::<For>()
}

/// A pattern that is left out.
fn pattern(input: &ParseBuffer<'_>) -> Option<&'static str> {
    if at_literal_pattern(input) {
        Some("literal patterns are not read here")
    } else if input.peek::<And>() {
        Some("reference patterns are not read here")
    } else if input.peek::<Bracket>() {
        Some("slice patterns are not read here")
    } else if input.peek::<DotDot>() {
        Some("`..` in patterns is not read here")
    } else if input.peek::<Or>() {
        Some("or-patterns are not read here")
    } else if input.peek::<Const>() {
        Some("`const` blocks are not read here")
    } else {
        None
    }
}

/// Whether a literal is next, perhaps after a sign.
fn at_literal_pattern(input: &ParseBuffer<'_>) -> bool {
    input.peek::<Literal>()
        || input.peek::<True>()
        || input.peek::<False>()
        || input.peek::<Minus>()
}

/// Neither a field nor a method. A literal that is no integer is taken for a number with a dot.
fn member(input: &ParseBuffer<'_>) -> Option<&'static str> {
    if input.peek::<Await>() {
        Some("`.await` is not read here")
    } else if input.peek::<Literal>() {
        Some("two field numbers in one, as in `.0.1`, are not read here")
    } else {
        None
    }
}

/// A continuation of an expression, a type or a pattern that is left out.
fn following(input: &ParseBuffer<'_>) -> Option<&'static str> {
    if input.peek::<DotDot>() {
        Some("ranges are not read here")
    } else if input.peek::<At>() {
        Some("`@` patterns are not read here")
    } else if input.peek::<Or>() {
        Some("or-patterns are not read here")
    } else if at_macro(input) {
        Some("macros as types and patterns are not read here")
    } else if input.peek::<Brace>() {
        Some("struct patterns are not read here")
    } else if at_raw(input) {
        Some("raw references are not read here")
    } else {
        None
    }
}

/// Whether `!` is next, followed by a group.
fn at_macro(input: &ParseBuffer<'_>) -> bool {
    input.peek::<Not>()
        && (input.peek2::<Paren>() || input.peek2::<Bracket>() || input.peek2::<Brace>())
}

/// Whether `const` or `mut` is next as in a raw reference: an operand follows, and no item begins here.
fn at_raw(input: &ParseBuffer<'_>) -> bool {
    (input.peek::<Const>() || input.peek::<Mut>()) && at_operand2(input) && !input.peek3::<Colon>()
}

/// Whether the second token may begin the operand of a raw reference.
fn at_operand2(input: &ParseBuffer<'_>) -> bool {
    input.peek2::<Ident>()
        || input.peek2::<SelfValue>()
        || input.peek2::<Star>()
        || input.peek2::<Paren>()
}
