//! The way through all tokens of a text.
ghost use Rattle.std.specs.Prelude.{OnOk};
ghost use Rattle.token_stats.specs.Answers.{HasTokens};

use crate::failure::Failure;
use crate::stats::{Kind, Stats};
use std::alloc::Global;
use std::mem::replace;
use syn::Error;
use syn::reader::read_tokens;
use syn::token::{Delimiter, IdentRef, Punct, Spacing, TokenTreeRef};
use syn::token_stream::Iter;

/// The tokens of a text, by kind, at every depth. Each tree is looked at once, and where a mark may continue once more.
pub(crate) fn count(alloc: Global, text: &str) -> Result<Stats, Failure>
    ensures { OnOk result (HasTokens text.now) }
{
    let tokens = read_tokens(alloc, text)?;
    let mut stats = Stats::new(alloc);
    let mut trees = tokens.iter();
    let mut around = Vec::new(alloc);
    for _ in 0..u64::MAX {
        let Some(tree) = trees.next() else {
            let Some(outer) = around.pop() else {
                return Ok(stats);
            };
            trees = outer;
            continue;
        };
        match &tree {
            TokenTreeRef::Group(group) => {
                if let Some((kind, text)) = kind_of_group(group.delimiter) {
                    stats.add(kind, text)?;
                }
                around.push(replace(&mut trees, group.content.iter()))?;
            }
            TokenTreeRef::Ident(ident) => stats.add(kind_of(ident), ident.text())?,
            TokenTreeRef::Literal(literal) => {
                stats.add(Kind::Literal(literal.kind()), literal.text())?
            }
            TokenTreeRef::Punct(punct) => {
                let (kind, text) = mark(alloc, punct, &mut trees)?;
                stats.add(kind, text.as_str())?
            }
        }
    }
    Ok(stats)
}

/// What a group is, and its two delimiters; none of an invisible group.
fn kind_of_group(delimiter: Delimiter) -> Option<(Kind, &'static str)> {
    match delimiter {
        Delimiter::Paren => Some((Kind::Parentheses, "( )")),
        Delimiter::Brace => Some((Kind::Braces, "{ }")),
        Delimiter::Bracket => Some((Kind::Brackets, "[ ]")),
        Delimiter::None => None,
    }
}

/// What an identifier is.
fn kind_of(ident: &IdentRef<'_>) -> Kind {
    if ident.is_keyword() {
        Kind::Keyword
    } else {
        Kind::Identifier
    }
}

/// The lifetime or the longest mark that begins with this character, and its text. Its other trees are taken from those that
/// follow. A `'` that begins no lifetime is refused.
fn mark(alloc: Global, first: &Punct, trees: &mut Iter<'_>) -> Result<(Kind, String), Failure> {
    let mut text = String::new(alloc);
    text.push(first.character())?;
    let mut is_joint = first.spacing == Spacing::Joint;
    if first.character() == '\'' {
        if let (true, Some(TokenTreeRef::Ident(ident))) = (is_joint, &trees.next()) {
            text.push_str(ident.text())?;
            return Ok((Kind::Lifetime, text));
        }
        return Err(Failure::Refused(Error::new(first.span, "unknown token")));
    }
    for _ in 0..2 {
        let mut ahead = trees.clone()?;
        let Some(TokenTreeRef::Punct(next)) = &ahead.next() else {
            break;
        };
        if !is_joint {
            break;
        }
        text.push(next.character())?;
        if !is_long_mark(text.as_str()) {
            text.pop();
            break;
        }
        is_joint = next.spacing == Spacing::Joint;
        *trees = ahead;
    }
    Ok((Kind::Mark, text))
}

/// Whether these characters are a mark of two or three.
fn is_long_mark(text: &str) -> bool {
    matches!(
        text,
        "..."
            | "<<="
            | ">>="
            | "!="
            | "%="
            | "&&"
            | "&="
            | "*="
            | "+="
            | "-="
            | "->"
            | ".."
            | "/="
            | "::"
            | "<<"
            | "<="
            | "=="
            | "=>"
            | ">="
            | ">>"
            | "^="
            | "|="
            | "||"
    )
}
