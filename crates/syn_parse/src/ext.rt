//! Extension methods for types of `syn_tokens` that need a parse buffer.
ghost use Rattle.std.specs.Prelude.{◌≡◌, IfErr, OnErr, codes};
ghost use Rattle.syn_grammar.specs.Grammar.{identifier};
ghost use Rattle.syn_grammar.specs.Take.{take_token};
ghost use Rattle.syn_grammar.specs.Promises.{Computes, Takes};
ghost use Rattle.syn_tokens.specs.Faults.{IsSyntaxError};
ghost use Rattle.syn_tokens.specs.Leaves.{syntax_of_ident};
ghost use Rattle.syn_parse.specs.Nexts.{HasFaultNext};

use crate::buffer::ParseBuffer;
use syn_tokens::error::Result;
use syn_tokens::ident::Ident;

/// Extension methods of identifiers.
pub trait IdentExt {
    /// Parses any identifier, including keywords and `_`. If there is none, fails with `expected identifier` at the next token;
    /// fails also if memory is refused. On failure nothing is consumed.
    fn parse_any(input: &mut ParseBuffer<'_>) -> Result<Ident>
        ensures reads { Computes IsSyntaxError syntax_of_ident (take_token identifier input.old) result input.new }
        ensures moved { Takes 1 input.old result input.new }
        ensures unchanged { OnErr result (input.new ≡ input.old) }
        ensures fault { IfErr result (λ e. IsSyntaxError e → HasFaultNext input.old (codes "expected identifier") e) };
}

impl IdentExt for Ident {
    #[tactic(auto, using(crate::proofs::Refused::refused_by_syntax, crate::proofs::Refused::refused_next))]
    fn parse_any(input: &mut ParseBuffer<'_>) -> Result<Ident> {
        let mut ahead = input.fork();
        let ident = ahead.read_identifier()?;
        input.advance_to(&ahead);
        Ok(ident)
    }
}
