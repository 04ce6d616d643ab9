//! Comments.
ghost use Rattle.std.specs.Prelude.{◌≡◌, ◌<◌, ◌==◌, ◌&&◌, true, drop, length, MatchResult};
ghost use Rattle.syn_reader.specs.Scanning.{begins_comment, begins_with, where_found, after_comment, after_blocks};
ghost use Rattle.syn_reader.specs.Refusals.{IsLexicalFault};

use crate::reader::cursor::Cursor;
use crate::reader::lexer::error::{Result, unterminated_comment};
use crate::reader::lexer::{Lexeme, Lexer};

impl<'a> Lexer<'a> {
    ghost use Rattle.syn_reader.specs.Places.{left, Onward, IsPast};
    ghost use Rattle.syn_reader.specs.Lexemes.{IsLexemeFrom};

    /// The comment from `start`, whose first character is consumed.
    pub(super) fn comment(&mut self, start: &Cursor<'a>) -> Result<Lexeme<'a>>
        requires past { IsPast 47 start.now self.old.cursor }
        requires begins { begins_comment (left start.now) ≡ true }
        ensures onward { Onward self.old.cursor self.new.cursor }
        ensures present { MatchResult result (λ l. IsLexemeFrom start.now.text.now start.now.offset l self.new.cursor.offset) (IsLexicalFault start.now.text.now start.now.offset) }
    {
        if !self.comment_ends() {
            return Err(unterminated_comment(self.cursor.span_since(start)));
        }
        Ok(Lexeme::Comment(self.cursor.text_since(start), self.cursor.span_since(start)))
    }

    /// Skips to the end of the comment; false if the text ends before it.
    #[tactic(auto, unfolding(crate::specs::Scanning::after_comment))]
    fn comment_ends(&mut self) -> bool
        requires inside { 0 < self.old.cursor.offset }
        ensures onward { Onward self.old.cursor self.new.cursor }
        ensures ends { after_comment (left self.old.cursor) ≡ where_found result (left self.new.cursor) }
    {
        if self.cursor.is_at('*') {
            self.cursor.bump();
            return self.block_ends();
        }
        self.cursor.skip_while(|c| c != '\n');
        true
    }

    /// Skips past the `*/` that closes a block comment, which may contain nested ones.
    fn block_ends(&mut self) -> bool
        requires inside { 0 < self.old.cursor.offset }
        ensures onward { Onward self.old.cursor self.new.cursor }
        ensures ends { after_blocks 1 (left self.old.cursor) ≡ where_found result (left self.new.cursor) }
    {
        let mut depth: usize = 1;
        while depth > 0 {
            let Some(character) = self.cursor.bump() else {
                return false;
            };
            if self.is_pair(character, '*', '/') {
                self.cursor.bump();
                depth -= 1;
            } else if self.is_pair(character, '/', '*') {
                self.cursor.bump();
                depth += 1;
            }
        }
        true
    }

    /// Whether the consumed character is the first of these, and the second is next.
    fn is_pair(&self, character: char, first: char, second: char) -> bool
        ensures { result ≡ (character == first && begins_with second (left self.now.cursor)) }
    {
        character == first && self.cursor.is_at(second)
    }
}
