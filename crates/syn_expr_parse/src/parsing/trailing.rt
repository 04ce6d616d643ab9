//! Whether what was read ends with braces.
ghost use Rattle.std.specs.Prelude.{◌≡◌, false};
ghost use Rattle.syn_grammar.specs.Tokens.{Stream};
ghost use Rattle.syn_grammar.specs.Take.{before};
ghost use Rattle.syn_grammar.specs.Promises.{OrMemory};
ghost use Rattle.syn_parse.specs.Refusals.{IsSyntax};
ghost use Rattle.syn_tokens.specs.Cursors.{before_next};
ghost use Rattle.syn_recognize.specs.Trailing.{ends_by, is_brace_group};

use syn_parse::buffer::ParseBuffer;
use syn_parse::read::refusal::{Parsed, Refusal};
use syn_tokens::delimiter::Delimiter;
use syn_tokens::stream::TokenStream;
use syn_tokens::stream::cursor::TokenTreeRef;

/// Whether a group in braces is the last token tree that was read from the first buffer up to the second. Refused only where memory is.
pub(super) fn has_trailing_brace<'a>(start: &ParseBuffer<'a>, end: &ParseBuffer<'a>) -> Parsed<bool>
    ensures { OrMemory IsSyntax result (λ b. b ≡ ends_by false (before start.now end.now)) }
{
    match start.between(end) {
        Ok(tokens) => Ok(ends_with_braces(&tokens)),
        Err(error) => Err(Refusal::Memory(error.into_alloc_error())),
    }
}

/// Whether the last of these token trees is a group in braces.
fn ends_with_braces(tokens: &TokenStream) -> bool
    ensures { result ≡ ends_by false tokens.now }
{
    let mut rest = tokens.cursor();
    let mut braces = false;
    'trees: while let Some((tree, following)) = rest.split() {
        braces = is_in_braces(&tree);
        rest = following;
    }
    braces
}

/// Whether a token tree is a group in braces.
fn is_in_braces(tree: &TokenTreeRef<'_>) -> bool
    ensures { result ≡ is_brace_group tree.now }
{
    match tree {
        TokenTreeRef::Ident(_) => false,
        TokenTreeRef::Literal(_) => false,
        TokenTreeRef::Punct(_) => false,
        TokenTreeRef::Group(group) => group.delimiter == Delimiter::Brace,
    }
}
