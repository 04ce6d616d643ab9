//! Numbers.
ghost use Rattle.std.specs.Prelude.{◌≡◌, ◌&&◌, ◌||◌, if◌then◌else◌, true, false, Some, None, IfSome, MatchOption};
ghost use Rattle.std.specs.Char.{is_ascii_digit};
ghost use Rattle.syn_reader.specs.Places.{left, Onward};
ghost use Rattle.syn_reader.specs.Scanning.{literal_at, number_at, decimal_at, Scanned, after_digits, has_exponent, is_plain, is_some, or_else, after_exponent, after_sign, begins_fraction, begins_with, first_passes, is_decimal, continues_number};

use crate::reader::cursor::Cursor;
use crate::reader::lexer::{Lexeme, Lexer, is_at_name};
use syn_tokens::literal::LitKind;

impl<'a> Lexer<'a> {
    ghost use Rattle.syn_reader.specs.Places.{IsPast};
    ghost use Rattle.syn_reader.specs.Lexemes.{IsLexemeFrom};

    /// The number from `start`, whose first digit is consumed.
    pub(super) fn number(&mut self, start: &Cursor<'a>, first: char) -> Lexeme<'a>
        requires past { IsPast first start.now self.old.cursor }
        requires literal { literal_at (left start.now) ≡ number_at first (left self.old.cursor) }
        ensures onward { Onward self.old.cursor self.new.cursor }
        ensures present { IsLexemeFrom start.now.text.now start.now.offset result self.new.cursor.offset }
    {
        let kind = self.number_kind(first);
        self.literal_since(kind, start)
    }

    /// Skips the rest of a number, whose first digit is consumed, and returns its kind.
    #[tactic(auto, unfolding(crate::specs::Scanning::number_at))]
    fn number_kind(&mut self, first: char) -> LitKind
        ensures onward { Onward self.old.cursor self.new.cursor }
        ensures scanned { number_at first (left self.old.cursor) ≡ Scanned result (left self.new.cursor) }
    {
        if first == '0' && is_at_base(self.cursor) {
            self.cursor.skip_while(continues_number);
            LitKind::Int
        } else {
            self.decimal()
        }
    }

    /// Skips the rest of a number without a base prefix, whose first digit is consumed, and returns its kind.
    #[tactic(auto, unfolding(crate::specs::Scanning::decimal_at))]
    fn decimal(&mut self) -> LitKind
        ensures onward { Onward self.old.cursor self.new.cursor }
        ensures scanned { decimal_at (left self.old.cursor) ≡ Scanned result (left self.new.cursor) }
    {
        let digits = self.digits(true);
        if !begins_fraction(self.cursor) {
            return if digits.has_exponent {
                LitKind::Float
            } else {
                LitKind::Int
            };
        }
        self.step();
        self.digits(digits.is_plain);
        LitKind::Float
    }

    /// Skips decimal digits, an exponent if one is allowed, and the letters and digits after them.
    #[tactic(auto, unfolding(crate::specs::Scanning::after_digits, crate::specs::Scanning::has_exponent, crate::specs::Scanning::is_plain))]
    fn digits(&mut self, may_have_exponent: bool) -> Digits
        ensures onward { Onward self.old.cursor self.new.cursor }
        ensures exponent { result.has_exponent ≡ (may_have_exponent && has_exponent (left self.old.cursor)) }
        ensures plain { result.is_plain ≡ is_plain (left self.old.cursor) }
        ensures left { left self.new.cursor ≡ after_digits may_have_exponent (left self.old.cursor) }
    {
        self.cursor.skip_while(is_decimal);
        let is_plain = !is_at_letter(self.cursor);
        let has_exponent = self.exponent(may_have_exponent);
        self.cursor.skip_while(continues_number);
        Digits {
            has_exponent,
            is_plain,
        }
    }

    /// Skips the letter and sign of an exponent, if one is allowed and next; returns whether it is.
    fn exponent(&mut self, may_present: bool) -> bool
        ensures onward { Onward self.old.cursor self.new.cursor }
        ensures found { result ≡ (may_present && is_some (after_exponent (left self.old.cursor))) }
        ensures left { left self.new.cursor ≡ (if may_present then or_else (after_exponent (left self.old.cursor)) (left self.old.cursor) else left self.old.cursor) }
    {
        if !may_present {
            return false;
        }
        match following_exponent(self.cursor) {
            Some(cursor) => {
                self.cursor = cursor;
                true
            }
            None => false,
        }
    }
}

/// What follows the digits of a number.
#[derive(Clone, Copy)]
struct Digits {
    has_exponent: bool,
    /// No letter.
    is_plain: bool,
}

/// The position after the letter and the sign of an exponent, if an exponent is next.
#[tactic(auto, unfolding(crate::specs::Scanning::after_exponent))]
fn following_exponent(cursor: Cursor<'_>) -> Option<Cursor<'_>>
    ensures onward { IfSome result (Onward cursor.entry) }
    ensures found { MatchOption result (after_exponent (left cursor.entry) ≡ None) (λ c. after_exponent (left cursor.entry) ≡ Some (left c)) }
{
    let mut ahead = cursor;
    match ahead.bump() {
        Some('e' | 'E') => following_sign(ahead),
        _ => None,
    }
}

/// The position after the sign of an exponent, or the same position if it has no sign; none if no digit follows.
#[tactic(auto, unfolding(crate::specs::Scanning::after_sign))]
fn following_sign(cursor: Cursor<'_>) -> Option<Cursor<'_>>
    ensures onward { IfSome result (Onward cursor.entry) }
    ensures found { MatchOption result (after_sign (left cursor.entry) ≡ None) (λ c. after_sign (left cursor.entry) ≡ Some (left c)) }
{
    let mut ahead = cursor;
    if is_at_sign(cursor) {
        ahead.bump();
        return if is_at_digit(ahead) {
            Some(ahead)
        } else {
            None
        };
    }
    ahead.skip_while(|c| c == '_');
    if is_at_digit(ahead) {
        Some(cursor)
    } else {
        None
    }
}

/// Whether a sign is next.
fn is_at_sign(cursor: Cursor<'_>) -> bool
    ensures { result ≡ (begins_with 43 (left cursor.entry) || begins_with 45 (left cursor.entry)) }
{
    cursor.is_at('+') || cursor.is_at('-')
}

/// Whether the letter of a base is next: `x`, `o` or `b`.
fn is_at_base(cursor: Cursor<'_>) -> bool
    ensures { result ≡ (begins_with 120 (left cursor.entry) || begins_with 111 (left cursor.entry) || begins_with 98 (left cursor.entry)) }
{
    cursor.is_at('x') || cursor.is_at('o') || cursor.is_at('b')
}

/// Whether a digit is next.
fn is_at_digit(cursor: Cursor<'_>) -> bool
    ensures { result ≡ first_passes is_ascii_digit (left cursor.entry) }
{
    match cursor.peek() {
        Some(next) => next.is_ascii_digit(),
        None => false,
    }
}

/// Whether a digit, a letter or `_` is next.
fn is_at_letter(cursor: Cursor<'_>) -> bool
    ensures { result ≡ first_passes continues_number (left cursor.entry) }
{
    match cursor.peek() {
        Some(next) => continues_number(next),
        None => false,
    }
}

/// Whether the `.` of a number is next: no other `.`, no `_` and no identifier follows it.
#[tactic(auto, unfolding(crate::specs::Scanning::begins_fraction))]
fn begins_fraction(cursor: Cursor<'_>) -> bool
    ensures { result ≡ begins_fraction (left cursor.entry) }
{
    let mut ahead = cursor;
    match ahead.bump() {
        Some('.') => !ahead.is_at('.') && !is_at_name(ahead),
        _ => false,
    }
}

fn is_decimal(character: char) -> bool
    ensures { result ≡ is_decimal character }
{
    character.is_ascii_digit() || character == '_'
}

fn continues_number(character: char) -> bool
    ensures { result ≡ continues_number character }
{
    character.is_ascii_alphanumeric() || character == '_'
}
