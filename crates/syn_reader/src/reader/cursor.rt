//! Positions in a text.
ghost use Rattle.std.specs.Prelude.{◌≡◌, ◌++◌, ◌∷◌, [], ◌<◌, ◌≤◌, ℕ, Bool, List, true, drop, length, ◌^◌, MatchOption, OnSome};
ghost use Rattle.std.specs.Char.{encode_utf8, is_not_whitespace};
ghost use Rattle.std.specs.Str.{IsCharBoundary};
ghost use Rattle.std.specs.Fn.{AlwaysReturns};
ghost use Rattle.syn_reader.specs.Scanning.{first_of, begins_with, drop_while};
ghost use Rattle.syn_reader.specs.Spelling.{Present, IsBlank};

use syn_tokens::span::Span;

/// A position in a text, between two characters.
#[derive(Clone, Copy)]
pub(super) struct Cursor<'a> {
    text: &'a str,
    offset: usize,
    ghost boundary: { IsCharBoundary text.now offset },
}

impl<'a> Cursor<'a> {
    ghost use Rattle.syn_reader.specs.Places.{EndsWith, Skips, left};

    /// The beginning of the text.
    pub(super) fn new(text: &'a str) -> Cursor<'a>
        ensures text { result.text.now ≡ text.now }
        ensures beginning { result.offset ≡ 0 }
    {
        Cursor { text, offset: 0 }
    }

    /// The number of bytes before it.
    pub(super) fn offset(&self) -> usize
        ensures { result ≡ self.now.offset }
    {
        self.offset
    }

    /// The text after it.
    pub(super) fn rest(&self) -> &'a str
        ensures { result.now ≡ drop self.now.offset self.now.text.now }
    {
        &self.text[self.offset..]
    }

    /// Moves to the position after which `rest` remains.
    fn step_to(&mut self, rest: &str)
        requires { EndsWith (drop self.old.offset self.old.text.now) rest.now }
        ensures text { self.new.text ≡ self.old.text }
        ensures onward { self.old.offset ≤ self.new.offset }
        ensures fits { self.new.offset < 2 ^ 64 }
        ensures rest { drop self.new.offset self.old.text.now ≡ rest.now }
        ensures present { (front : List ℕ) → drop self.old.offset self.old.text.now ≡ front ++ rest.now → Present self.old.text.now front self.old.offset self.new.offset }
    {
        self.offset = self.text.len() - rest.len();
    }

    /// Consumes the next character and returns it; none at the end of the text.
    pub(super) fn bump(&mut self) -> Option<char>
        ensures text { self.new.text ≡ self.old.text }
        ensures onward { self.old.offset ≤ self.new.offset }
        ensures moved { OnSome result (self.old.offset < self.new.offset) }
        ensures fits { OnSome result (self.new.offset < 2 ^ 64) }
        ensures drops { left self.new ≡ drop 1 (left self.old) }
        ensures left { MatchOption result (left self.old ≡ []) (λ c. left self.old ≡ c ∷ left self.new) }
        ensures present { MatchOption result (IsBlank self.old.text.now self.old.offset (length self.old.text.now)) (λ c. Present self.old.text.now (encode_utf8 c) self.old.offset self.new.offset) }
    {
        let mut characters = self.rest().chars();
        let first = characters.next()?;
        self.step_to(characters.as_str());
        Some(first)
    }

    /// The next character; none at the end of the text.
    pub(super) fn peek(&self) -> Option<char>
        ensures { result ≡ first_of (left self.now) }
    {
        self.rest().chars().next()
    }

    /// Whether this character is next.
    pub(super) fn is_at(&self, character: char) -> bool
        ensures { result ≡ begins_with character (left self.now) }
    {
        match self.peek() {
            Some(next) => next == character,
            None => false,
        }
    }

    /// Skips white space.
    pub(super) fn skip_white_space(&mut self)
        ensures text { self.new.text ≡ self.old.text }
        ensures onward { self.old.offset ≤ self.new.offset }
        ensures blank { IsBlank self.old.text.now self.old.offset self.new.offset }
        ensures stops { (c : ℕ) → (cs : List ℕ) → left self.new ≡ c ∷ cs → is_not_whitespace c ≡ true }
    {
        self.step_to(self.rest().trim_start());
    }

    /// Skips the characters that pass the test, up to the first that does not.
    pub(super) fn skip_while<F: FnMut(char) -> bool + Drop>(&mut self, test: F)
        requires { F.IsAlwaysCallable test }
        ensures text { self.new.text ≡ self.old.text }
        ensures onward { self.old.offset ≤ self.new.offset }
        ensures skips { (passes : ℕ → Bool) → AlwaysReturns F.FnMut (λ a r. r ≡ passes a.0) test → Skips passes self.old.text.now self.old.offset self.new.offset }
        ensures left { (passes : ℕ → Bool) → AlwaysReturns F.FnMut (λ a r. r ≡ passes a.0) test → left self.new ≡ drop_while passes (left self.old) }
    {
        self.step_to(self.rest().trim_start_matches(test));
    }

    /// The text from an earlier position up to this one.
    pub(super) fn text_since(&self, start: &Cursor<'a>) -> &'a str
        requires text { self.now.text ≡ start.now.text }
        requires earlier { start.now.offset ≤ self.now.offset }
        ensures { Present self.now.text.now result.now start.now.offset self.now.offset }
    {
        &self.text[start.offset..self.offset]
    }

    /// The span from an earlier position up to this one.
    pub(super) fn span_since(&self, start: &Cursor<'a>) -> Span
        ensures { result ≡ record { start = start.now.offset; end = self.now.offset } }
    {
        Span {
            start: start.offset,
            end: self.offset,
        }
    }
}
