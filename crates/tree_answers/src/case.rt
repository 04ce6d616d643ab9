//! What is asked about a text.

use std::alloc::Global;
use std::fmt;
use syn::token::TokenStream;
use syn_recognize::Rule;

/// A text, and the one before it.
#[derive(Clone, Copy)]
pub(crate) struct Case<'a> {
    pub(crate) alloc: Global,
    /// The number of its line.
    pub(crate) line: usize,
    /// The words of the kinds as which it is asked about, with a space between them; none where that is each.
    pub(crate) words: &'a str,
    pub(crate) text: &'a str,
    pub(crate) tokens: &'a TokenStream,
    /// The tokens of the last text before it that could be read; none where it is the first.
    pub(crate) before: &'a TokenStream,
}

impl Case<'_> {
    /// Whether it is asked about as the kind of this word.
    pub(crate) fn is_asked_as(&self, word: &str) -> bool {
        self.words.is_empty() || self.words.split(' ').any(|each| each == word)
    }
}

/// A kind, as a word and by the rule that reads it.
#[derive(Clone, Copy)]
pub(crate) struct Kind {
    pub(crate) word: &'static str,
    pub(crate) rule: Rule,
}

/// A question about a text.
#[derive(Clone, Copy, PartialEq, Eq)]
pub(crate) enum Question {
    /// Its canonical print.
    Print,
    /// Whether it has one.
    Check,
    /// Whether the text of its print has the same form.
    LikePrint,
    /// Whether the text before has the same form.
    LikeBefore,
    /// The same in the other order.
    BeforeLike,
}

impl fmt::Display for Question {
    fn fmt<W: fmt::Write>(&self, f: &mut fmt::Formatter<W>) -> fmt::Result {
        f.write_str(match self {
            Question::Print => "print",
            Question::Check => "check",
            Question::LikePrint => "form of its print",
            Question::LikeBefore => "form of the text before",
            Question::BeforeLike => "form, as the text before has it",
        })
    }
}
