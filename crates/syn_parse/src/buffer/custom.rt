//! Custom keywords and marks.
ghost use Rattle.std.specs.Prelude.{◌≡◌, ◌∷◌, [], IfErr};
ghost use Rattle.syn_grammar.specs.Take.{take_mark, taken};
ghost use Rattle.syn_grammar.specs.Promises.{Computes, Takes};
ghost use Rattle.syn_tokens.specs.Leaves.{syntax_of_word};
ghost use Rattle.syn_parse.specs.Form.{take_keyword};
ghost use Rattle.syn_parse.specs.Nexts.{RefusedNext};
ghost use Rattle.syn_parse.specs.Refusals.{IsSyntax};

use crate::buffer::ParseBuffer;
use crate::buffer::first_token::{split_ident, split_joint, split_last};
use crate::read::refusal::Parsed;
use syn_tokens::span::Span;

impl<'a> ParseBuffer<'a> {
    /// The identifier of this text, whether or not the grammar knows it.
    #[tactic(auto, using(crate::proofs::Words::take_the_keyword, crate::proofs::Words::take_no_keyword, crate::proofs::Words::no_keyword), unfolding(syn_grammar::specs::Take::left))]
    pub(crate) fn read_keyword(&mut self, text: &str, expected: &'static str) -> Parsed<Span>
        ensures reads { Computes IsSyntax (syntax_of_word text.now) (take_keyword text.now self.old) result self.new }
        ensures moved { Takes 1 self.old result self.new }
        ensures fault { IfErr result (RefusedNext self.old expected.now) }
    {
        let Some((ident, rest)) = split_ident(&self.tokens) else {
            return Err(self.refusal(expected));
        };
        if !ident.is(text) {
            return Err(self.refusal(expected));
        }
        self.tokens = rest;
        Ok(ident.span)
    }

    /// Whether the next token is the identifier of this text, whether or not the grammar knows it.
    #[tactic(auto, using(crate::proofs::Words::take_the_keyword, crate::proofs::Words::take_no_keyword, crate::proofs::Words::no_keyword))]
    pub(crate) fn is_at_keyword(&self, text: &str) -> bool
        ensures { result ≡ taken (take_keyword text.now self.now) }
    {
        match split_ident(&self.tokens) {
            Some((ident, _)) => ident.is(text),
            None => false,
        }
    }

    /// Whether the next tokens are these two characters, the first of them joint.
    #[tactic(auto, using(crate::proofs::FirstTokens::mark_is))]
    pub(crate) fn is_at_punctuation2(&self, c: char, d: char) -> bool
        ensures { result ≡ taken (take_mark (c ∷ d ∷ []) self.now) }
    {
        match split_joint(&self.tokens, c) {
            Some((_, rest)) => split_last(&rest, d).is_some(),
            None => false,
        }
    }

    /// Whether the next tokens are these three characters, all but the last of them joint.
    #[tactic(auto, using(crate::proofs::FirstTokens::mark_is))]
    pub(crate) fn is_at_punctuation3(&self, c: char, d: char, e: char) -> bool
        ensures { result ≡ taken (take_mark (c ∷ d ∷ e ∷ []) self.now) }
    {
        let Some((_, rest)) = split_joint(&self.tokens, c) else {
            return false;
        };
        match split_joint(&rest, d) {
            Some((_, rest)) => split_last(&rest, e).is_some(),
            None => false,
        }
    }
}
