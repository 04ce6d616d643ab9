//! Lexing text to token streams, and printing token streams as text.
ghost use Rattle.std.specs.Prelude.{◌≡◌, true, length, IfOk, IfErr, MatchResult};
ghost use Rattle.syn_grammar.specs.Tokens.{visible};
ghost use Rattle.syn_reader.specs.Spelling.{Spells, IsFaultWithin};
ghost use Rattle.syn_reader.specs.Refusals.{IsRefusal};

mod cursor;
mod docs;
mod ident_cache;
mod lexer;
mod text;
mod trees;

use crate::reader::lexer::Lexer;
pub use crate::reader::text::token_text;
use crate::reader::trees::TreeBuilder;
use std::alloc::Global;
use syn_tokens::error::Result;
use syn_tokens::stream::TokenStream;

/// The token stream of a text: identifiers, lifetimes, literals, marks and groups, with their byte offsets. White space and
/// comments separate tokens; a doc comment becomes the attribute that it denotes, all of whose tokens have the comment's span.
/// The function returns for every text, however deep the groups are nested.
///
/// Fails with one fault, at the bytes that it names: `unexpected character` at a character that no token starts with,
/// `unterminated literal` and `unterminated comment` at the start of an unclosed one, `unbalanced group` at a closing delimiter
/// that doesn't match the innermost open group, or, at the end of the text, at the outermost open group. Fails without a fault
/// if memory is refused.
pub fn read_tokens(alloc: Global, text: &str) -> Result<TokenStream>
    ensures visible { IfOk result (λ stream. visible stream ≡ true) }
    ensures spelled { MatchResult result (λ stream. Spells text.now stream) (IsFaultWithin (length text.now)) }
    ensures fault { IfErr result (IsRefusal text.now) }
{
    let mut trees = TreeBuilder::new(alloc, text.len())?;
    for lexeme in Lexer::new(text) {
        trees.add(lexeme?)?;
    }
    trees.finish()
}
