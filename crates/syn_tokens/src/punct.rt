//! The characters of marks.
ghost use Rattle.std.specs.Prelude.{◌≡◌, IsTrue};
ghost use Rattle.syn_tokens.specs.Punct.{is_punct_character};

use crate::span::Span;
use std::marker::Model;

/// Whether the next character belongs to the same mark.
#[derive(Clone, Copy, Debug, PartialEq, Eq)]
pub enum Spacing {
    /// The next character follows directly.
    Joint,
    Alone,
}

/// One character of a mark, such as the first `:` of `::`. Two are equal if their characters and spacings are; spans are
/// ignored.
#[derive(Clone, Copy, Debug)]
pub struct Punct {
    character: char,
    pub spacing: Spacing,
    pub span: Span,
}

impl Model for Punct {
    ghost use Rattle.std.specs.Prelude.{IsTrue};
    ghost use Rattle.syn_tokens.specs.Punct.{PunctValue, is_punct_character};

    ghost Value = { PunctValue };

    ghost view = { λ p. record { character = p.character; spacing = p.spacing; span = p.span } };

    ghost invariant = { λ p. IsTrue (is_punct_character p.character) };

    ghost inverse = { λ v. record { character = v.character; spacing = v.spacing; span = v.span } };
}

impl PartialEq for Punct {
    ghost use Rattle.syn_tokens.specs.Punct.{same_punct, same_punct_per};

    ghost eq = { same_punct };

    ghost laws = { same_punct_per };

    fn eq(&self, other: &Punct) -> bool {
        self.character == other.character && self.spacing == other.spacing
    }
}

impl Eq for Punct {
    ghost use Rattle.syn_tokens.specs.Punct.{same_punct_equiv};

    ghost laws = { same_punct_equiv };
}

impl Punct {
    /// Whether marks are made of the character: one of ~ ! @ # $ % ^ & * - = + | ; : , < . > / ? '
    #[tactic(auto, unfolding(crate::specs::Punct::is_punct_character))]
    pub fn is_punct_character(character: char) -> bool
        ensures { result ≡ is_punct_character character }
    {
        matches!(character, '!' | '#'..='\'' | '*'..='/' | ':'..='@' | '^' | '|' | '~')
    }

    /// A character of a mark; `is_punct_character` says which characters are allowed.
    pub fn new(character: char, spacing: Spacing, span: Span) -> Punct
        requires { IsTrue (is_punct_character character) }
        ensures { result ≡ record { character = character; spacing = spacing; span = span } }
    {
        Punct {
            character,
            spacing,
            span,
        }
    }

    /// The character itself.
    pub fn character(&self) -> char
        ensures value { result ≡ self.now.character }
        ensures known { IsTrue (is_punct_character result) }
    {
        self.character
    }
}
