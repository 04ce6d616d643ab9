//! The forms of the grammar as data.
use crate::fading::Fading;
use crate::fault::Fault;
use crate::left_out::Place;
use crate::list::List;
use crate::look::Look;
use crate::plan::Planned;
use crate::rules::{Part, Rule};
use crate::shape::Shape;
use crate::supplied::Nameless;
use crate::token::Token;
use crate::words::Mark;
use syn_tokens::delimiter::Delimiter;

/// A form of the grammar.
#[derive(Clone, Copy)]
pub enum Form {
    Empty,
    /// Never read; refused for this reason.
    Never(Fault),
    Token(Token),
    /// A token at a place where Rust accepts another form too.
    TokenAt(Token, Place),
    Mark(Mark),
    /// A mark at such a place.
    MarkAt(Mark, Place),
    /// A mark, refused for this reason where another token is next.
    MarkElse(Mark, Fault),
    Lifetime,
    Then(&'static Form, &'static Form),
    When(Look, &'static Form, &'static Form),
    Inside(Delimiter, &'static Form),
    Raw(Delimiter),
    RestAfter(Mark),
    Rule(Rule),
    Part(Part),
    Shaped(Shape, &'static Form),
    Unshown,
    /// A list in `< >`.
    Ordered(List),
    /// Parameters in `< >`, if `<` is next; not printed where there are none.
    Generics,
    /// A part that isn't printed where its list is empty.
    Fading(Fading),
    /// A part that is never printed, if the lookahead holds.
    Hidden(&'static Look, &'static Form),
    /// A part whose tokens are copied unchanged.
    Captured(&'static Form),
    /// One of several rules with a common beginning, which a plan reads.
    Planned(Planned),
    /// A union of this rule alone.
    Only(Rule),
    /// A pattern, a colon and what follows them; where a name is before `<`, only what follows, with an implied `_ :` before it.
    Supplied(Nameless),
    /// A whole expression, and what follows it: the first form where its last token tree is a group in braces, else the second.
    ByBraces(&'static Form, &'static Form),
}
