//! Token streams.
ghost use Rattle.std.specs.Prelude.{◌≡◌, [], ◌∷◌, ◌++◌, IfErr, OnOk, OnErr};
ghost use Rattle.syn_grammar.specs.Tokens.{end, group, ◌⧺◌};
ghost use Rattle.syn_tokens.specs.Spans.{at};
ghost use Rattle.syn_tokens.specs.Delimiters.{delimiter_of};
ghost use Rattle.syn_tokens.specs.Entries.{encode, decode, IsFlat, IsToken};
ghost use Rattle.syn_grammar.specs.Take.{first, length, is_end};
ghost use Rattle.syn_tokens.specs.Faults.{out_of_memory};

use crate::error::Result;
use crate::span::Span;
use crate::stream::cursor::Cursor;
use crate::stream::entry::{Close, Entry, Open};
use crate::stream::tree::{Group, TokenTree};
use std::alloc::{AllocError, Global};
use std::marker::Model;

pub mod builder;
mod compact_span;
mod copies;
pub mod cursor;
pub mod entry;
pub mod iter;
mod same;
pub mod tree;
mod words;

/// A list of token trees.
#[derive(Drop)]
pub struct TokenStream {
    /// The tokens of the trees and the delimiters of their groups, at every depth.
    entries: Vec<Entry>,
    /// The number of trees.
    trees: usize,
    alloc: Global,
}

impl Model for TokenStream {
    ghost use Rattle.syn_grammar.specs.Tokens.{Stream};
    ghost use Rattle.syn_grammar.specs.Codes.{stream_code};
    ghost use Rattle.syn_tokens.specs.Entries.{decode, IsFlat};

    ghost Value = { Stream };

    ghost coded = { stream_code };

    ghost view = { λ s. decode s.entries.items };

    ghost invariant = { λ s. IsFlat s.entries.items s.trees };
}

/// Appends a group's delimiters with these entries between them; if memory is refused, all is unchanged.
fn enclose(
    entries: &mut Vec<Entry>,
    opening: Entry,
    content: &mut Vec<Entry>,
    closing: Entry,
) -> std::result::Result<(), AllocError>
    ensures ok { OnOk result (entries.new.items ≡ entries.old.items ++ opening ∷ (content.old.items ++ closing ∷ [])) }
    ensures err { OnErr result (entries.new.items ≡ entries.old.items) }
{
    if entries.len() < content.len() {
        return enclose_longer(entries, opening, content, closing);
    }
    entries.reserve(content.len().saturating_add(2))?;
    entries.push(opening)?;
    entries.append(content)?;
    entries.push(closing)?;
    Ok(())
}

/// The same for a content that is longer than the entries before it: reuses its memory.
fn enclose_longer(
    entries: &mut Vec<Entry>,
    opening: Entry,
    content: &mut Vec<Entry>,
    closing: Entry,
) -> std::result::Result<(), AllocError>
    ensures ok { OnOk result (entries.new.items ≡ entries.old.items ++ opening ∷ (content.old.items ++ closing ∷ [])) }
    ensures err { OnErr result (entries.new.items ≡ entries.old.items) }
{
    let before = entries.len();
    content.reserve(before.saturating_add(2))?;
    content.append(entries)?;
    content.push(opening)?;
    content.rotate_right(before + 1);
    content.push(closing)?;
    std::mem::swap(entries, content);
    Ok(())
}

impl TokenStream {
    ghost use Rattle.syn_tokens.specs.Trees.{before};

    /// The empty stream, which grows in memory from `alloc`.
    pub fn new(alloc: Global) -> TokenStream
        ensures { result ≡ end }
    {
        TokenStream {
            entries: Vec::new(alloc),
            trees: 0,
            alloc,
        }
    }

    /// The stream of these entries, which form so many trees.
    pub(crate) fn of_entries(entries: Vec<Entry>, trees: usize, alloc: Global) -> TokenStream
        requires { IsFlat entries.items trees }
        ensures { result ≡ decode entries.items }
    {
        TokenStream {
            entries,
            trees,
            alloc,
        }
    }

    /// The entries, and the number of trees that they form.
    pub(crate) fn into_entries(self) -> (Vec<Entry>, usize)
        ensures flat { IsFlat result.0.items result.1 }
        ensures same { decode result.0.items ≡ self }
    {
        (self.entries, self.trees)
    }

    /// The allocator.
    pub fn alloc(&self) -> Global {
        self.alloc
    }

    /// The tokens and the delimiters of the groups, in order and at every depth.
    pub fn entries(&self) -> &[Entry]
        ensures { result.now ≡ encode self.now }
    {
        self.entries.as_slice()
    }

    /// A cursor over the trees, from the first one.
    pub fn cursor(&self) -> Cursor<'_>
        ensures { result ≡ self.now }
    {
        Cursor::new(self.entries.as_slice(), self.trees)
    }

    /// The number of token trees; a group counts as one.
    pub fn len(&self) -> usize
        ensures { result ≡ length self.now }
    {
        self.cursor().len()
    }

    /// Whether the stream is empty.
    #[tactic(auto, using(crate::proofs::Streams::is_end_of))]
    pub fn is_empty(&self) -> bool
        ensures { result ≡ is_end self.now }
    {
        self.trees == 0
    }

    /// Appends a tree. If memory is refused, the stream is unchanged and the tree is dropped.
    pub fn push(&mut self, tree: TokenTree) -> Result<()>
        ensures ok { OnOk result (self.new ≡ self.old ⧺ before tree end) }
        ensures err { OnErr result (self.new ≡ self.old) }
        ensures memory { IfErr result (λ e. e ≡ out_of_memory) }
    {
        Ok(self.add(tree)?)
    }

    /// The same, with an error type that says that only memory can be refused.
    fn add(&mut self, tree: TokenTree) -> std::result::Result<(), AllocError>
        ensures ok { OnOk result (self.new ≡ self.old ⧺ before tree end) }
        ensures err { OnErr result (self.new ≡ self.old) }
    {
        match tree {
            TokenTree::Group(group) => self.add_group(group),
            TokenTree::Ident(ident) => self.add_token(Entry::ident(self.alloc, ident)?),
            TokenTree::Punct(punct) => self.add_token(Entry::punct(self.alloc, punct)?),
            TokenTree::Literal(literal) => { self.add_token(Entry::literal(self.alloc, literal)?) }
        }
    }

    /// Appends a token; if memory is refused, the stream is unchanged.
    #[inline(always)]
    fn add_token(&mut self, token: Entry) -> std::result::Result<(), AllocError>
        requires { IsToken token }
        ensures ok { OnOk result (self.new ≡ self.old ⧺ decode (token ∷ [])) }
        ensures err { OnErr result (self.new ≡ self.old) }
    {
        self.entries.push(token)?;
        self.trees += 1;
        Ok(())
    }

    /// Appends a group; if memory is refused, the stream is unchanged.
    fn add_group(&mut self, tree: Group) -> std::result::Result<(), AllocError>
        ensures ok { OnOk result (self.new ≡ self.old ⧺ group (delimiter_of tree.delimiter) (at tree.opening) (at tree.closing) tree.stream end) }
        ensures err { OnErr result (self.new ≡ self.old) }
    {
        let Group {
            delimiter,
            stream,
            opening,
            closing,
        } = tree;
        let TokenStream { entries, trees, .. } = stream;
        let mut content = entries;
        let open = Open {
            delimiter,
            span: opening,
            skip: content.len(),
        };
        let close = Close {
            delimiter,
            span: closing,
            trees,
        };
        let opening = Entry::open(self.alloc, open)?;
        let closing = Entry::close(self.alloc, close)?;
        enclose(&mut self.entries, opening, &mut content, closing)?;
        self.trees += 1;
        Ok(())
    }

    /// Appends the trees of another stream; if memory is refused, this stream is unchanged. If this stream is empty, it takes
    /// over the memory of the other.
    pub fn append(&mut self, other: TokenStream) -> std::result::Result<(), AllocError>
        ensures ok { OnOk result (self.new ≡ self.old ⧺ other) }
        ensures err { OnErr result (self.new ≡ self.old) }
    {
        if self.entries.is_empty() {
            *self = other;
            return Ok(());
        }
        let TokenStream { entries, trees, .. } = other;
        let mut entries = entries;
        self.entries.append(&mut entries)?;
        self.trees += trees;
        Ok(())
    }

    /// Keeps the first `count` trees, if there are more; a group counts as one.
    pub fn truncate(&mut self, count: usize)
        ensures { self.new ≡ first count self.old }
    {
        let kept = self.cursor().front(count).len();
        self.entries.truncate(kept);
        self.trees = self.trees.min(count);
    }
}
