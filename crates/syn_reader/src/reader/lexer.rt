//! The lexer: splits a text into lexemes.
ghost use Rattle.std.specs.Prelude.{◌≡◌, ◌<◌, ◌≤◌, ◌-◌, ◌&&◌, ◌==◌, ℕ, List, true, false, not, [], ◌∷◌, ◌++◌, length, codes, IfOk, IfErr, MatchResult};
ghost use Rattle.std.specs.Iterator.{at_most};
ghost use Rattle.std.specs.Char.{encode_utf8, is_ascii_digit, is_not_whitespace};
ghost use Rattle.unicode_ident.specs.Ident.{is_xid_continue};
ghost use Rattle.syn_tokens.specs.Spans.{at};
ghost use Rattle.syn_tokens.specs.Idents.{may_start};
ghost use Rattle.syn_tokens.specs.Punct.{is_joint, is_punct_character};
ghost use Rattle.syn_reader.specs.Scanning.{first_passes, drop_while, literal_at, Absent, after_word, begins_comment, begins_raw_name};
ghost use Rattle.syn_reader.specs.Places.{left};
ghost use Rattle.syn_reader.specs.Lexemes.{IsDelimiter};
ghost use Rattle.syn_reader.specs.Spelling.{Present};
ghost use Rattle.syn_reader.specs.Refusals.{NoDelimiter, IsLexicalFault};

use crate::reader::cursor::Cursor;
use syn_tokens::delimiter::Delimiter;
use syn_tokens::literal::LitKind;
use syn_tokens::punct::{Punct, Spacing};
use syn_tokens::span::Span;
use unicode_ident::{is_xid_continue, is_xid_start};

mod comments;
mod error;
mod literals;
mod numbers;

use crate::reader::lexer::error::{Result, unexpected_character};
use crate::reader::lexer::literals::{begins_byte, begins_raw_string};

/// A lexeme: a token, a delimiter of a group, or a comment.
pub(super) enum Lexeme<'a> {
    Open(Delimiter, Span),
    Close(Delimiter, Span),
    Ident(&'a str, Span),
    Literal(LitKind, &'a str, Span),
    Punct(Punct),
    Comment(&'a str, Span),
}

/// Splits a text into lexemes, from left to right.
#[derive(Drop)]
pub(super) struct Lexer<'a> {
    cursor: Cursor<'a>,
}

impl<'a> Lexer<'a> {
    ghost use Rattle.syn_reader.specs.Places.{Onward, IsPast, BeginsName};
    ghost use Rattle.syn_reader.specs.Lexemes.{IsLexemeFrom};

    /// The lexer of a text.
    pub(super) fn new(text: &'a str) -> Lexer<'a>
        ensures text { result.cursor.text.now ≡ text.now }
        ensures beginning { result.cursor.offset ≡ 0 }
    {
        Lexer {
            cursor: Cursor::new(text),
        }
    }

    /// The lexeme from `start`, whose first character is consumed.
    fn lexeme(&mut self, start: &Cursor<'a>, first: char) -> Result<Lexeme<'a>>
        requires past { IsPast first start.now self.old.cursor }
        requires first { Present start.now.text.now (encode_utf8 first) start.now.offset self.old.cursor.offset }
        requires no_space { is_not_whitespace first ≡ true }
        ensures onward { Onward self.old.cursor self.new.cursor }
        ensures present { MatchResult result (λ l. IsLexemeFrom start.now.text.now start.now.offset l self.new.cursor.offset) (IsLexicalFault start.now.text.now start.now.offset) }
    {
        if first.is_ascii_digit() {
            return Ok(self.number(start, first));
        }
        if starts_identifier(first) {
            return self.word(start, first);
        }
        if begins_comment(*start) {
            return self.comment(start);
        }
        if first == '"' {
            return self.quoted(LitKind::Str, start);
        }
        if first == '\'' {
            return self.apostrophe(start);
        }
        if Punct::is_punct_character(first) {
            return Ok(self.mark(start, first));
        }
        group_delimiter(first, self.cursor.span_since(start))
    }

    /// The character of a mark from `start`, which is consumed.
    fn mark(&self, start: &Cursor<'a>, character: char) -> Lexeme<'a>
        requires past { IsPast character start.now self.now.cursor }
        requires first { Present start.now.text.now (encode_utf8 character) start.now.offset self.now.cursor.offset }
        requires mark { is_punct_character character ≡ true }
        requires apart { (character == 39) ≡ false }
        requires no_digit { is_ascii_digit character ≡ false }
        requires no_comment { begins_comment (left start.now) ≡ false }
        ensures present { IsLexemeFrom start.now.text.now start.now.offset result self.now.cursor.offset }
    {
        let span = self.cursor.span_since(start);
        Lexeme::Punct(Punct::new(character, self.spacing(), span))
    }

    /// The lexeme that starts with a letter or `_`: a literal with a prefix, or an identifier.
    fn word(&mut self, start: &Cursor<'a>, first: char) -> Result<Lexeme<'a>>
        requires past { IsPast first start.now self.old.cursor }
        requires may_start { may_start first ≡ true }
        requires no_digit { is_ascii_digit first ≡ false }
        ensures onward { Onward self.old.cursor self.new.cursor }
        ensures present { MatchResult result (λ l. IsLexemeFrom start.now.text.now start.now.offset l self.new.cursor.offset) (IsLexicalFault start.now.text.now start.now.offset) }
    {
        if first == 'r' {
            return self.following_r(start);
        }
        if first == 'b' {
            return self.following_b(start);
        }
        if first == 'c' {
            return self.prefixed(LitKind::CStr, start, first);
        }
        Ok(self.identifier(start))
    }

    /// The lexeme that starts with `r`, which is consumed: a raw string, a raw identifier, or another identifier.
    fn following_r(&mut self, start: &Cursor<'a>) -> Result<Lexeme<'a>>
        requires past { IsPast 114 start.now self.old.cursor }
        ensures onward { Onward self.old.cursor self.new.cursor }
        ensures present { MatchResult result (λ l. IsLexemeFrom start.now.text.now start.now.offset l self.new.cursor.offset) (IsLexicalFault start.now.text.now start.now.offset) }
    {
        if begins_raw_string(self.cursor) {
            self.raw_string(LitKind::Str, start)
        } else if begins_raw_name(self.cursor) {
            Ok(self.raw_identifier(start))
        } else {
            Ok(self.identifier(start))
        }
    }

    /// The lexeme that starts with `b`, which is consumed: a byte, a byte string, or an identifier.
    fn following_b(&mut self, start: &Cursor<'a>) -> Result<Lexeme<'a>>
        requires past { IsPast 98 start.now self.old.cursor }
        ensures onward { Onward self.old.cursor self.new.cursor }
        ensures present { MatchResult result (λ l. IsLexemeFrom start.now.text.now start.now.offset l self.new.cursor.offset) (IsLexicalFault start.now.text.now start.now.offset) }
    {
        if begins_byte(self.cursor) {
            self.byte(start)
        } else {
            self.prefixed(LitKind::ByteStr, start, 'b')
        }
    }

    /// The identifier from `start`, whose `r` is consumed, with `#` next.
    fn raw_identifier(&mut self, start: &Cursor<'a>) -> Lexeme<'a>
        requires past { IsPast 114 start.now self.old.cursor }
        requires absent { literal_at (left start.now) ≡ Absent }
        requires raw { begins_raw_name (left self.old.cursor) ≡ true }
        ensures onward { Onward self.old.cursor self.new.cursor }
        ensures present { IsLexemeFrom start.now.text.now start.now.offset result self.new.cursor.offset }
    {
        self.cursor.bump();
        self.cursor.bump();
        self.identifier(start)
    }

    /// The identifier from `start`, whose first characters are consumed.
    fn identifier(&mut self, start: &Cursor<'a>) -> Lexeme<'a>
        requires text { self.old.cursor.text ≡ start.now.text }
        requires earlier { start.now.offset < self.old.cursor.offset }
        requires front { (front : List ℕ) × BeginsName front × (left start.now ≡ front ++ left self.old.cursor) }
        requires absent { literal_at (left start.now) ≡ Absent }
        requires word { (c : ℕ) × (rest : List ℕ) × (left start.now ≡ c ∷ rest) × (drop_while is_xid_continue (left self.old.cursor) ≡ after_word c rest) }
        ensures onward { Onward self.old.cursor self.new.cursor }
        ensures present { IsLexemeFrom start.now.text.now start.now.offset result self.new.cursor.offset }
    {
        self.cursor.skip_while(is_xid_continue);
        Lexeme::Ident(self.cursor.text_since(start), self.cursor.span_since(start))
    }

    /// Whether the consumed character of a mark and the next character belong to the same mark.
    fn spacing(&self) -> Spacing
        ensures { is_joint result ≡ (first_passes is_punct_character (left self.now.cursor) && not (begins_comment (left self.now.cursor))) }
    {
        match self.cursor.peek() {
            Some(next) if Punct::is_punct_character(next) && !begins_comment(self.cursor) => {
                Spacing::Joint
            }
            _ => Spacing::Alone,
        }
    }
}

impl<'a> Iterator for Lexer<'a> {
    type Item = Result<Lexeme<'a>>;

    ghost use Rattle.syn_reader.specs.Lexemes.{StepsOver};

    ghost next_gives = { StepsOver };

    ghost remaining = { λ l. at_most (length l.cursor.text.now - l.cursor.offset) };

    fn next(&mut self) -> Option<Result<Lexeme<'a>>> {
        self.cursor.skip_white_space();
        let start = self.cursor;
        let first = self.cursor.bump()?;
        Some(self.lexeme(&start, first))
    }
}

fn starts_identifier(character: char) -> bool
    ensures { result ≡ may_start character }
{
    character == '_' || is_xid_start(character)
}

/// Whether a character that starts an identifier is next.
fn is_at_name(cursor: Cursor<'_>) -> bool
    ensures { result ≡ first_passes may_start (left cursor.entry) }
{
    match cursor.peek() {
        Some(next) => starts_identifier(next),
        None => false,
    }
}

/// Whether the text after an `r` continues as a raw identifier.
#[tactic(auto, unfolding(crate::specs::Scanning::begins_raw_name))]
fn begins_raw_name(cursor: Cursor<'_>) -> bool
    ensures { result ≡ begins_raw_name (left cursor.entry) }
{
    let mut ahead = cursor;
    match ahead.bump() {
        Some('#') => is_at_name(ahead),
        _ => false,
    }
}

/// Whether a comment is next.
#[tactic(auto, unfolding(crate::specs::Scanning::begins_comment))]
fn begins_comment(cursor: Cursor<'_>) -> bool
    ensures { result ≡ begins_comment (left cursor.entry) }
{
    let mut ahead = cursor;
    match ahead.bump() {
        Some('/') => ahead.is_at('/') || ahead.is_at('*'),
        _ => false,
    }
}

/// The delimiter of a group that this character denotes, if it denotes one.
fn group_delimiter<'a>(character: char, span: Span) -> Result<Lexeme<'a>>
    ensures ok { IfOk result (IsDelimiter character span) }
    ensures none { IfErr result (λ _. NoDelimiter character) }
    ensures err { IfErr result (λ e. e ≡ (span, codes "unexpected character") ∷ []) }
{
    match character {
        '(' => Ok(Lexeme::Open(Delimiter::Paren, span)),
        '{' => Ok(Lexeme::Open(Delimiter::Brace, span)),
        '[' => Ok(Lexeme::Open(Delimiter::Bracket, span)),
        ')' => Ok(Lexeme::Close(Delimiter::Paren, span)),
        '}' => Ok(Lexeme::Close(Delimiter::Brace, span)),
        ']' => Ok(Lexeme::Close(Delimiter::Bracket, span)),
        _ => Err(unexpected_character(span)),
    }
}
