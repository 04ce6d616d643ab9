//! Marks of one to three characters.
ghost use Rattle.std.specs.Prelude.{◌≡◌, ◌∷◌, [], true, IfErr};
ghost use Rattle.syn_grammar.specs.Tokens.{at_mark};
ghost use Rattle.syn_grammar.specs.Take.{sees, take_mark};
ghost use Rattle.syn_grammar.specs.Promises.{Computes, Takes};
ghost use Rattle.syn_grammar.proofs.Looks.{known_mark};
ghost use Rattle.syn_parse.specs.Refusals.{IsSyntax};
ghost use Rattle.syn_tokens.specs.Leaves.{syntax_of_mark};
ghost use Rattle.syn_parse.specs.Nexts.{RefusedNext};

use crate::buffer::ParseBuffer;
use crate::buffer::first_token::{split_joint, split_last};
use crate::read::refusal::Parsed;
use syn_tokens::span::Span;

impl<'a> ParseBuffer<'a> {
    /// Parses a mark of one character, and returns its span. If it is not next, fails at the next token with the given message.
    #[tactic(auto, using(crate::proofs::FirstTokens::mark_is))]
    pub fn read_mark1(&mut self, c: char, expected: &'static str) -> Parsed<[Span; 1]>
        ensures reads { Computes IsSyntax (syntax_of_mark (c ∷ [])) (take_mark (c ∷ []) self.old) result self.new }
        ensures moved { Takes 1 self.old result self.new }
        ensures fault { IfErr result (RefusedNext self.old expected.now) }
    {
        let Some((first, rest)) = split_last(&self.tokens, c) else {
            return Err(self.refusal(expected));
        };
        self.tokens = rest;
        Ok([first])
    }

    /// Parses a mark of two characters, the first of them joint, and returns their spans. If it is not next, fails at the next
    /// token with the given message.
    #[tactic(auto, using(crate::proofs::FirstTokens::mark_is))]
    pub fn read_mark2(&mut self, c: char, d: char, expected: &'static str) -> Parsed<[Span; 2]>
        ensures reads { Computes IsSyntax (syntax_of_mark (c ∷ d ∷ [])) (take_mark (c ∷ d ∷ []) self.old) result self.new }
        ensures moved { Takes 1 self.old result self.new }
        ensures fault { IfErr result (RefusedNext self.old expected.now) }
    {
        let Some((first, rest)) = split_joint(&self.tokens, c) else {
            return Err(self.refusal(expected));
        };
        let Some((second, rest)) = split_last(&rest, d) else {
            return Err(self.refusal(expected));
        };
        self.tokens = rest;
        Ok([first, second])
    }

    /// Parses a mark of three characters, all but the last of them joint, and returns their spans. If it is not next, fails at
    /// the next token with the given message.
    #[tactic(auto, using(crate::proofs::FirstTokens::mark_is))]
    pub fn read_mark3(
        &mut self,
        c: char,
        d: char,
        e: char,
        expected: &'static str,
    ) -> Parsed<[Span; 3]>
        ensures reads { Computes IsSyntax (syntax_of_mark (c ∷ d ∷ e ∷ [])) (take_mark (c ∷ d ∷ e ∷ []) self.old) result self.new }
        ensures moved { Takes 1 self.old result self.new }
        ensures fault { IfErr result (RefusedNext self.old expected.now) }
    {
        let Some((first, rest)) = split_joint(&self.tokens, c) else {
            return Err(self.refusal(expected));
        };
        let Some((second, rest)) = split_joint(&rest, d) else {
            return Err(self.refusal(expected));
        };
        let Some((third, rest)) = split_last(&rest, e) else {
            return Err(self.refusal(expected));
        };
        self.tokens = rest;
        Ok([first, second, third])
    }

    /// Whether this mark of one character is next.
    #[tactic(auto, using(syn_grammar::proofs::Looks::sees_one, crate::proofs::FirstTokens::mark_is))]
    pub(crate) fn is_at_mark1(&self, c: char) -> bool
        ensures { result ≡ sees (at_mark (c ∷ [])) self.now }
    {
        split_last(&self.tokens, c).is_some()
    }

    /// Whether this mark of two characters is next.
    #[tactic(auto, using(syn_grammar::proofs::Looks::sees_mark, crate::proofs::FirstTokens::mark_is))]
    pub(crate) fn is_at_mark2(&self, c: char, d: char) -> bool
        requires { known_mark (c ∷ d ∷ []) ≡ true }
        ensures { result ≡ sees (at_mark (c ∷ d ∷ [])) self.now }
    {
        match split_joint(&self.tokens, c) {
            Some((_, rest)) => split_last(&rest, d).is_some(),
            None => false,
        }
    }

    /// Whether this mark of three characters is next.
    #[tactic(auto, using(syn_grammar::proofs::Looks::sees_mark, crate::proofs::FirstTokens::mark_is))]
    pub(crate) fn is_at_mark3(&self, c: char, d: char, e: char) -> bool
        requires { known_mark (c ∷ d ∷ e ∷ []) ≡ true }
        ensures { result ≡ sees (at_mark (c ∷ d ∷ e ∷ [])) self.now }
    {
        let Some((_, rest)) = split_joint(&self.tokens, c) else {
            return false;
        };
        match split_joint(&rest, d) {
            Some((_, rest)) => split_last(&rest, e).is_some(),
            None => false,
        }
    }
}
