//! The conditions of the grammar on the next tokens, by their names.
ghost use Rattle.std.specs.Prelude.{◌≡◌};
ghost use Rattle.syn_grammar.specs.Take.{sees};
ghost use Rattle.syn_grammar.specs.Table as table;

use syn_parse::buffer::ParseBuffer;
use syn_tokens::token::{Mut, Ref};

/// Whether `ref` or `mut` is next.
#[tactic(auto, using(syn_grammar::proofs::Looks::sees_or))]
pub(crate) fn at_binding_word(input: &ParseBuffer<'_>) -> bool
    ensures { result ≡ sees table.at_binding_word input.now }
{
    input.peek::<Ref>() || input.peek::<Mut>()
}
