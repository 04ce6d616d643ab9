//! Copies of parsed and of remaining tokens.
ghost use Rattle.std.specs.Prelude.{◌≡◌, IfOk, IfErr, OnOk, OnErr};
ghost use Rattle.syn_grammar.specs.Tokens.{end};
ghost use Rattle.syn_grammar.specs.Take.{before};
ghost use Rattle.syn_tokens.specs.Faults.{out_of_memory};

use crate::buffer::ParseBuffer;
use syn_tokens::error::Result;
use syn_tokens::stream::TokenStream;
use syn_tokens::stream::cursor::Cursor;

impl<'a> ParseBuffer<'a> {
    /// A copy of the tokens between this buffer and the other, which is further on in the same stream. Fails only if memory is
    /// refused.
    #[tactic(auto, unfolding(syn_grammar::specs::Take::before))]
    pub fn between(&self, end: &ParseBuffer<'a>) -> Result<TokenStream>
        ensures ok { IfOk result (λ copy. copy ≡ before self.now end.now) }
        ensures err { IfErr result (λ e. e ≡ out_of_memory) }
    {
        let count = self.tokens.len().saturating_sub(end.tokens.len());
        Ok(self.tokens.first_to_stream(count, self.alloc)?)
    }

    /// Consumes the remaining tokens, and returns a copy of them. Fails only if memory is refused; then nothing is consumed.
    pub fn rest(&mut self) -> Result<TokenStream>
        ensures copy { IfOk result (λ copy. copy ≡ self.old) }
        ensures ok { OnOk result (self.new ≡ end) }
        ensures err { OnErr result (self.new ≡ self.old) }
        ensures memory { IfErr result (λ e. e ≡ out_of_memory) }
    {
        let copy = self.tokens.to_stream(self.alloc)?;
        self.tokens = Cursor::none();
        Ok(copy)
    }
}
