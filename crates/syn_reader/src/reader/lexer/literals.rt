//! Strings and characters.
ghost use Rattle.std.specs.Prelude.{◌≡◌, ◌∷◌, [], ◌<◌, ◌≤◌, ◌==◌, ◌&&◌, ℕ, true, false, drop, length, MatchOption, MatchResult, OnSome};
ghost use Rattle.std.specs.Char.{encode_utf8};
ghost use Rattle.syn_tokens.specs.Idents.{may_start};
ghost use Rattle.syn_reader.specs.Scanning.{where_found, begins_with, literal_at, Scanned, after_suffix, closed, after_quote, after_raw_string, after_raw, has_hashes, raw_string_at, character_at, prefixed_at, begins_raw_string, begins_byte, begins_character};
ghost use Rattle.syn_tokens.specs.declared.literal.LitKind.{LitKind};
ghost use Rattle.syn_reader.specs.Places.{left, Onward};
ghost use Rattle.syn_reader.specs.Spelling.{Present};
ghost use Rattle.syn_reader.specs.Refusals.{IsLexicalFault};

use crate::reader::cursor::Cursor;
use crate::reader::lexer::error::{Result, unexpected_character, unterminated_literal};
use crate::reader::lexer::{Lexeme, Lexer, is_at_name};
use syn_tokens::literal::LitKind;
use syn_tokens::punct::{Punct, Spacing};
use unicode_ident::is_xid_continue;

impl<'a> Lexer<'a> {
    ghost use Rattle.syn_reader.specs.Places.{IsPast};
    ghost use Rattle.syn_reader.specs.Lexemes.{IsLexemeFrom};

    /// The lexeme that starts with `'`, which is consumed: a character, or the `'` of a lifetime.
    pub(super) fn apostrophe(&mut self, start: &Cursor<'a>) -> Result<Lexeme<'a>>
        requires past { IsPast 39 start.now self.old.cursor }
        requires first { Present start.now.text.now (encode_utf8 39) start.now.offset self.old.cursor.offset }
        ensures onward { Onward self.old.cursor self.new.cursor }
        ensures present { MatchResult result (λ l. IsLexemeFrom start.now.text.now start.now.offset l self.new.cursor.offset) (IsLexicalFault start.now.text.now start.now.offset) }
    {
        if begins_character(self.cursor) {
            return self.character(LitKind::Char, start);
        }
        let span = self.cursor.span_since(start);
        if is_at_name(self.cursor) {
            Ok(Lexeme::Punct(Punct::new('\'', Spacing::Joint, span)))
        } else {
            Err(unexpected_character(span))
        }
    }

    /// The byte from `start`, whose `b` is consumed, with an opening quote next.
    pub(super) fn byte(&mut self, start: &Cursor<'a>) -> Result<Lexeme<'a>>
        requires past { IsPast 98 start.now self.old.cursor }
        requires begins { begins_byte (left self.old.cursor) ≡ true }
        ensures onward { Onward self.old.cursor self.new.cursor }
        ensures present { MatchResult result (λ l. IsLexemeFrom start.now.text.now start.now.offset l self.new.cursor.offset) (IsLexicalFault start.now.text.now start.now.offset) }
    {
        self.step();
        self.character(LitKind::Byte, start)
    }

    /// The lexeme that starts with `b` or `c`, which is consumed: a string of that kind, or an identifier.
    pub(super) fn prefixed(
        &mut self,
        kind: LitKind,
        start: &Cursor<'a>,
        first: char,
    ) -> Result<Lexeme<'a>>
        requires past { IsPast first start.now self.old.cursor }
        requires may_start { may_start first ≡ true }
        requires letter { (first == 114) ≡ false }
        requires literal { literal_at (left start.now) ≡ prefixed_at kind (left self.old.cursor) }
        ensures onward { Onward self.old.cursor self.new.cursor }
        ensures present { MatchResult result (λ l. IsLexemeFrom start.now.text.now start.now.offset l self.new.cursor.offset) (IsLexicalFault start.now.text.now start.now.offset) }
    {
        if self.cursor.is_at('"') {
            self.step();
            return self.quoted(kind, start);
        }
        if begins_prefixed_raw_string(self.cursor) {
            self.step();
            return self.raw_string(kind, start);
        }
        Ok(self.identifier(start))
    }

    /// The string whose opening quote is consumed.
    pub(super) fn quoted(&mut self, kind: LitKind, start: &Cursor<'a>) -> Result<Lexeme<'a>>
        requires text { self.old.cursor.text ≡ start.now.text }
        requires earlier { start.now.offset < self.old.cursor.offset }
        requires literal { literal_at (left start.now) ≡ closed kind (after_quote 34 (left self.old.cursor)) }
        ensures onward { Onward self.old.cursor self.new.cursor }
        ensures present { MatchResult result (λ l. IsLexemeFrom start.now.text.now start.now.offset l self.new.cursor.offset) (IsLexicalFault start.now.text.now start.now.offset) }
    {
        let is_closed = self.closes_by('"');
        self.literal(is_closed, kind, start)
    }

    /// The raw string whose prefix letters are consumed.
    pub(super) fn raw_string(&mut self, kind: LitKind, start: &Cursor<'a>) -> Result<Lexeme<'a>>
        requires text { self.old.cursor.text ≡ start.now.text }
        requires earlier { start.now.offset < self.old.cursor.offset }
        requires literal { literal_at (left start.now) ≡ closed kind (after_raw_string 0 (left self.old.cursor)) }
        ensures onward { Onward self.old.cursor self.new.cursor }
        ensures present { MatchResult result (λ l. IsLexemeFrom start.now.text.now start.now.offset l self.new.cursor.offset) (IsLexicalFault start.now.text.now start.now.offset) }
    {
        let is_closed = self.raw_closes();
        self.literal(is_closed, kind, start)
    }

    /// The character or byte whose opening quote is consumed.
    fn character(&mut self, kind: LitKind, start: &Cursor<'a>) -> Result<Lexeme<'a>>
        requires text { self.old.cursor.text ≡ start.now.text }
        requires earlier { start.now.offset < self.old.cursor.offset }
        requires begins { begins_character (left self.old.cursor) ≡ true }
        requires literal { literal_at (left start.now) ≡ character_at kind (left self.old.cursor) }
        ensures onward { Onward self.old.cursor self.new.cursor }
        ensures present { MatchResult result (λ l. IsLexemeFrom start.now.text.now start.now.offset l self.new.cursor.offset) (IsLexicalFault start.now.text.now start.now.offset) }
    {
        let is_closed = self.character_closes();
        self.literal(is_closed, kind, start)
    }

    /// Skips past the closing quote of a character or byte. False if the text ends before it.
    fn character_closes(&mut self) -> bool
        requires { begins_character (left self.old.cursor) ≡ true }
        ensures onward { Onward self.old.cursor self.new.cursor }
        ensures closes { (kind : LitKind) → character_at kind (left self.old.cursor) ≡ closed kind (where_found result (left self.new.cursor)) }
    {
        if self.cursor.is_at('\\') {
            return self.closes_by('\'');
        }
        self.step();
        self.step();
        true
    }

    /// Consumes the next character and returns it; none at the end of the text.
    pub(super) fn step(&mut self) -> Option<char>
        ensures onward { Onward self.old.cursor self.new.cursor }
        ensures further { OnSome result (self.old.cursor.offset < self.new.cursor.offset) }
        ensures left { MatchOption result (left self.old.cursor ≡ []) (λ c. left self.old.cursor ≡ c ∷ left self.new.cursor) }
        ensures rest { left self.new.cursor ≡ drop 1 (left self.old.cursor) }
    {
        let mut ahead = self.cursor;
        let next = ahead.bump()?;
        self.cursor = ahead;
        Some(next)
    }

    /// Skips past the next such quote; a backslash escapes the character after it. False if the text ends before it.
    fn closes_by(&mut self, quote: char) -> bool
        ensures onward { Onward self.old.cursor self.new.cursor }
        ensures closes { after_quote quote (left self.old.cursor) ≡ where_found result (left self.new.cursor) }
    {
        while let Some(character) = self.step() {
            if character == quote {
                return true;
            }
            if character == '\\' {
                self.step();
            }
        }
        false
    }

    /// Skips past the end of a raw string that starts with `#`s and a quote: a quote and as many `#`s. False if the text ends
    /// before it.
    fn raw_closes(&mut self) -> bool
        ensures onward { Onward self.old.cursor self.new.cursor }
        ensures closes { after_raw_string 0 (left self.old.cursor) ≡ where_found result (left self.new.cursor) }
    {
        for hashes in 0..self.cursor.rest().len() {
            let Some(character) = self.step() else {
                return false;
            };
            if character == '"' {
                return self.raw_content_closes(hashes);
            }
            if character != '#' {
                return false;
            }
        }
        false
    }

    /// Skips past the next quote that is followed by so many `#`s, and past these. False if the text ends before them.
    fn raw_content_closes(&mut self, hashes: usize) -> bool
        ensures onward { Onward self.old.cursor self.new.cursor }
        ensures closes { after_raw hashes (left self.old.cursor) ≡ where_found result (left self.new.cursor) }
    {
        while let Some(character) = self.step() {
            if character == '"' && self.skip_hashes(hashes) {
                return true;
            }
        }
        false
    }

    /// Consumes so many `#`s and returns true; if there are fewer, consumes those and returns false.
    fn skip_hashes(&mut self, hashes: usize) -> bool
        ensures onward { Onward self.old.cursor self.new.cursor }
        ensures no_more { length (left self.new.cursor) ≤ length (left self.old.cursor) }
        ensures hashes { result ≡ has_hashes hashes (left self.old.cursor) }
        ensures all { result ≡ true → left self.new.cursor ≡ drop hashes (left self.old.cursor) }
        ensures fewer { result ≡ false → (n : ℕ) → after_raw n (left self.new.cursor) ≡ after_raw n (left self.old.cursor) }
    {
        for _ in 0..hashes {
            if !self.cursor.is_at('#') {
                return false;
            }
            self.step();
        }
        true
    }

    /// The literal that is consumed up to its suffix; fails if it was not closed.
    #[tactic(auto, unfolding(crate::specs::Scanning::closed))]
    fn literal(&mut self, is_closed: bool, kind: LitKind, start: &Cursor<'a>) -> Result<Lexeme<'a>>
        requires text { self.old.cursor.text ≡ start.now.text }
        requires earlier { start.now.offset < self.old.cursor.offset }
        requires literal { literal_at (left start.now) ≡ closed kind (where_found is_closed (left self.old.cursor)) }
        ensures onward { Onward self.old.cursor self.new.cursor }
        ensures present { MatchResult result (λ l. IsLexemeFrom start.now.text.now start.now.offset l self.new.cursor.offset) (IsLexicalFault start.now.text.now start.now.offset) }
    {
        if !is_closed {
            return Err(unterminated_literal(self.cursor.span_since(start)));
        }
        self.skip_suffix();
        Ok(self.literal_since(kind, start))
    }

    /// Skips the suffix of a literal, if there is one.
    #[tactic(auto, unfolding(crate::specs::Scanning::after_suffix))]
    fn skip_suffix(&mut self)
        ensures onward { Onward self.old.cursor self.new.cursor }
        ensures left { left self.new.cursor ≡ after_suffix (left self.old.cursor) }
    {
        if is_at_name(self.cursor) {
            self.cursor.skip_while(is_xid_continue);
        }
    }

    /// The literal from `start` to this position.
    pub(super) fn literal_since(&self, kind: LitKind, start: &Cursor<'a>) -> Lexeme<'a>
        requires text { self.now.cursor.text ≡ start.now.text }
        requires earlier { start.now.offset < self.now.cursor.offset }
        requires literal { literal_at (left start.now) ≡ Scanned kind (left self.now.cursor) }
        ensures { IsLexemeFrom start.now.text.now start.now.offset result self.now.cursor.offset }
    {
        Lexeme::Literal(
            kind,
            self.cursor.text_since(start),
            self.cursor.span_since(start),
        )
    }
}

/// Whether the text after the prefix letters continues as a raw string.
#[tactic(auto, unfolding(crate::specs::Scanning::begins_raw_string))]
pub(super) fn begins_raw_string(cursor: Cursor<'_>) -> bool
    ensures { result ≡ begins_raw_string (left cursor.entry) }
{
    let mut ahead = cursor;
    ahead.skip_while(|c| c == '#');
    ahead.is_at('"')
}

/// Whether the text after a `b` or `c` continues as a raw string.
fn begins_prefixed_raw_string(cursor: Cursor<'_>) -> bool
    ensures { result ≡ (begins_with 114 (left cursor.entry) && begins_raw_string (drop 1 (left cursor.entry))) }
{
    let mut ahead = cursor;
    match ahead.bump() {
        Some('r') => begins_raw_string(ahead),
        _ => false,
    }
}

/// Whether the text after a `b` continues as a byte.
#[tactic(auto, unfolding(crate::specs::Scanning::begins_byte))]
pub(super) fn begins_byte(cursor: Cursor<'_>) -> bool
    ensures { result ≡ begins_byte (left cursor.entry) }
{
    let mut ahead = cursor;
    match ahead.bump() {
        Some('\'') => begins_character(ahead),
        _ => false,
    }
}

/// Whether the text after an opening quote continues as a character.
#[tactic(auto, unfolding(crate::specs::Scanning::begins_character))]
fn begins_character(cursor: Cursor<'_>) -> bool
    ensures { result ≡ begins_character (left cursor.entry) }
{
    let mut ahead = cursor;
    match ahead.bump() {
        Some('\\') => true,
        Some(_) => ahead.is_at('\''),
        None => false,
    }
}
