//! Whether the tokens that were read end with braces.
ghost use Rattle.std.specs.Prelude.{◌≡◌, false};
ghost use Rattle.syn_grammar.specs.Take.{before, first};
ghost use Rattle.syn_recognize.specs.Trailing.{ends_by, is_brace_group};

use syn_parse::buffer::ParseBuffer;
use syn_tokens::delimiter::Delimiter;
use syn_tokens::stream::cursor::{Cursor, TokenTreeRef};

/// Whether the last token tree between `start` and `end` is a group in braces.
#[tactic(auto, unfolding(syn_grammar::specs::Take::before))]
pub(crate) fn has_trailing_brace<'a>(start: &ParseBuffer<'a>, end: &ParseBuffer<'a>) -> bool
    ensures { result ≡ ends_by false (before start.now end.now) }
{
    let trees = start.cursor();
    let count = trees.len().saturating_sub(end.cursor().len());
    ends_with_braces(&trees, count)
}

/// Whether the last of this many token trees is a group in braces.
fn ends_with_braces(trees: &Cursor<'_>, count: usize) -> bool
    ensures { result ≡ ends_by false (first count trees.now) }
{
    let mut rest = trees.fork();
    let mut braces = false;
    'trees: for _tree in 0..count {
        let Some((tree, following)) = rest.split() else {
            return braces;
        };
        braces = is_in_braces(&tree);
        rest = following;
    }
    braces
}

/// Whether a token tree is a group in braces.
fn is_in_braces(tree: &TokenTreeRef<'_>) -> bool
    ensures { result ≡ is_brace_group tree.now }
{
    match tree {
        TokenTreeRef::Ident(_) => false,
        TokenTreeRef::Literal(_) => false,
        TokenTreeRef::Punct(_) => false,
        TokenTreeRef::Group(group) => group.delimiter == Delimiter::Brace,
    }
}
