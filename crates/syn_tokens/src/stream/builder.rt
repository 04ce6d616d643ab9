//! Building token streams, one token or delimiter after another.
ghost use Rattle.std.specs.Prelude.{◌≡◌, ◌<◌, IsTrue, List, [], ◌∷◌, ◌++◌, true, length, slice_set, IfErr, OnOk, OnErr, MatchResult, IfOk, take};
ghost use Rattle.syn_grammar.specs.Tokens.{end, ident, leaf, punct, ◌⧺◌};
ghost use Rattle.syn_tokens.specs.Entries.{decode, IsToken};
ghost use Rattle.syn_tokens.specs.Spans.{at};
ghost use Rattle.syn_tokens.specs.Building.{OpenGroup, Closes, NotOpen, IsUnbalanced, unbalanced, added, is_open, out_of_group};
ghost use Rattle.syn_tokens.specs.Idents.{is_identifier};
ghost use Rattle.syn_tokens.specs.Leaves.{ident_leaf, literal_leaf};
ghost use Rattle.syn_tokens.specs.Punct.{is_joint, is_punct_character};

use crate::delimiter::Delimiter;
use crate::error::{Error, Result};
use crate::ident::Ident;
use crate::literal::Literal;
use crate::punct::{Punct, Spacing};
use crate::span::Span;
use crate::stream::TokenStream;
use crate::stream::entry::{Close, Entry, Open};
use crate::stream::words::Words;
use std::alloc::{AllocError, Global};
use std::collections::VecDeque;
use std::marker::Model;

/// A group that is not closed yet.
#[derive(Clone, Copy)]
struct Pending {
    delimiter: Delimiter,
    opening: Span,
    /// The number of entries before it.
    at: usize,
    /// The number of trees before it in the enclosing group, or in the stream.
    trees: usize,
}

/// The part of a builder that was there from the beginning.
#[derive(Clone, Copy)]
struct Mark {
    entries: usize,
    trees: usize,
}

/// Builds a token stream from tokens and the delimiters of groups, one after another. Open groups may be nested; the time of a
/// call doesn't depend on the depth. It may begin with a stream, which `undo` restores.
#[derive(Drop)]
pub struct StreamBuilder {
    /// A queue: entries are put before others in the time of their own number.
    entries: VecDeque<Entry>,
    mark: Mark,
    /// From the outermost to the innermost.
    pending: Vec<Pending>,
    /// The number of trees so far in the innermost open group, or in the stream.
    trees: usize,
    words: Words,
    alloc: Global,
}

impl Model for StreamBuilder {
    ghost use Rattle.syn_tokens.specs.Building.{Building, coded_building, building};

    ghost Value = { Building };

    ghost coded = { coded_building };

    ghost view = { λ b. building b.mark.entries b.entries.items };

    ghost use Rattle.syn_tokens.specs.Builders.{IsBuilt, IsBegun};

    ghost invariant = { λ b. IsBuilt b.entries.items b.pending.items b.trees × IsBegun b.mark.entries b.mark.trees b.entries.items };
}

/// Appends copies of these entries to others; if memory is refused, some of them may have been added.
fn push_copies(
    following: &mut VecDeque<Entry>,
    entries: &[Entry],
) -> std::result::Result<(), AllocError>
    ensures ok { OnOk result (following.new.items ≡ following.old.items ++ entries.now) }
    ensures kept { take (length following.old.items) following.new.items ≡ following.old.items }
{
    for entry in entries {
        following.push_back(entry.copy()?)?;
    }
    Ok(())
}

/// Appends copies of these entries to others; if memory is refused, those are unchanged.
fn append_copies(
    following: &mut VecDeque<Entry>,
    entries: &[Entry],
) -> std::result::Result<(), AllocError>
    ensures ok { OnOk result (following.new.items ≡ following.old.items ++ entries.now) }
    ensures err { OnErr result (following.new.items ≡ following.old.items) }
{
    let before = following.len();
    following.reserve(entries.len())?;
    match push_copies(following, entries) {
        Ok(()) => Ok(()),
        Err(error) => {
            following.truncate(before);
            Err(error)
        }
    }
}

/// Puts these entries before others, in the time of their own number; if memory is refused, both are unchanged.
fn put_before(
    entries: &mut VecDeque<Entry>,
    following: &mut VecDeque<Entry>,
) -> std::result::Result<(), AllocError>
    ensures ok { OnOk result (following.new.items ≡ entries.old.items ++ following.old.items) }
    ensures err { OnErr result (entries.new.items ≡ entries.old.items) }
{
    let count = entries.len();
    following.append(entries)?;
    following.rotate_right(count);
    Ok(())
}

/// Appends entries to others, in the time of the fewer; if memory is refused, the others are unchanged.
fn append_entries(
    entries: &mut VecDeque<Entry>,
    mut following: VecDeque<Entry>,
) -> std::result::Result<(), AllocError>
    ensures ok { OnOk result (entries.new.items ≡ entries.old.items ++ following.items) }
    ensures err { OnErr result (entries.new.items ≡ entries.old.items) }
{
    if following.len() <= entries.len() {
        return entries.append(&mut following);
    }
    put_before(entries, &mut following)?;
    *entries = following;
    Ok(())
}

/// Completes the opening delimiter of a group, and adds its closing delimiter; if memory is refused, the entries are unchanged.
fn enclose(
    entries: &mut VecDeque<Entry>,
    place: usize,
    opening: Entry,
    closing: Entry,
) -> std::result::Result<(), AllocError>
    requires { place < length entries.old.items }
    ensures ok { OnOk result (entries.new.items ≡ slice_set (entries.old.items ++ closing ∷ []) place opening) }
    ensures err { OnErr result (entries.new.items ≡ entries.old.items) }
{
    entries.push_back(closing)?;
    entries[place] = opening;
    Ok(())
}

fn not_balanced(span: Span) -> Error
    ensures { result ≡ unbalanced span }
{
    Error::new(span, "unbalanced group")
}

impl StreamBuilder {
    /// Begins with no tree and no open group. It grows in memory from `alloc`.
    pub fn new(alloc: Global) -> StreamBuilder
        ensures { result ≡ record { before = end; open_groups = []; stream = end } }
    {
        StreamBuilder::following(TokenStream::new(alloc))
    }

    /// Begins with this stream, and appends to it. It takes over the stream without copying, in constant time.
    pub(crate) fn following(stream: TokenStream) -> StreamBuilder
        ensures { result ≡ record { before = stream; open_groups = []; stream = stream } }
    {
        let alloc = stream.alloc();
        let (entries, trees) = stream.into_entries();
        StreamBuilder {
            mark: Mark {
                entries: entries.len(),
                trees,
            },
            entries: VecDeque::from_vec(entries),
            pending: Vec::new(alloc),
            trees,
            words: Words::new(alloc),
            alloc,
        }
    }

    /// The allocator.
    pub fn alloc(&self) -> Global {
        self.alloc
    }

    /// Appends a token; if memory is refused, all is unchanged.
    #[inline(always)]
    pub fn push(&mut self, token: Entry) -> std::result::Result<(), AllocError>
        requires { IsToken token }
        ensures ok { OnOk result (self.new ≡ record self.old { stream = self.old.stream ⧺ decode (token ∷ []) }) }
        ensures err { OnErr result (self.new ≡ self.old) }
    {
        self.entries.push_back(token)?;
        self.trees += 1;
        Ok(())
    }

    /// Appends copies of the trees of a stream, with one allocation however deep they are; if memory is refused, all is
    /// unchanged.
    pub fn append(&mut self, stream: &TokenStream) -> std::result::Result<(), AllocError>
        ensures prints { OnOk result (self.new ≡ added self.old stream.now) }
        ensures err { OnErr result (self.new ≡ self.old) }
        ensures begins { self.new.before ≡ self.old.before }
    {
        append_copies(&mut self.entries, stream.entries())?;
        self.trees += stream.len();
        Ok(())
    }

    /// Appends the trees of another builder, in which no group is open. It moves the entries of the shorter builder and copies none;
    /// if memory is refused, nothing is appended.
    pub fn append_built(&mut self, other: StreamBuilder) -> std::result::Result<(), AllocError>
        requires { other.open_groups ≡ [] }
        ensures prints { OnOk result (self.new ≡ added self.old other.stream) }
        ensures err { OnErr result (self.new ≡ self.old) }
        ensures begins { self.new.before ≡ self.old.before }
    {
        let StreamBuilder { entries, trees, .. } = other;
        append_entries(&mut self.entries, entries)?;
        self.trees += trees;
        Ok(())
    }

    /// Appends an identifier.
    #[tactic(auto, unfolding(crate::specs::Building::added))]
    #[inline(always)]
    pub fn add_ident(&mut self, ident: Ident) -> std::result::Result<(), AllocError>
        ensures prints { OnOk result (self.new ≡ added self.old (leaf (ident_leaf ident) (at ident.span) end)) }
        ensures begins { self.new.before ≡ self.old.before }
    {
        let entry = Entry::ident(self.alloc, ident)?;
        self.push(entry)
    }

    /// Appends the identifier of a text that is known to be one. It shares the text of an earlier identifier that was added by
    /// this call, if that is one of the first few.
    #[tactic(auto, unfolding(crate::specs::Building::added))]
    pub fn add_word(&mut self, text: &str, span: Span) -> std::result::Result<(), AllocError>
        requires { IsTrue (is_identifier text.now) }
        ensures prints { OnOk result (self.new ≡ added self.old (leaf (ident text.now) (at span) end)) }
        ensures begins { self.new.before ≡ self.old.before }
    {
        let ident = self.words.ident(text, span)?;
        self.add_ident(ident)
    }

    /// Appends a literal.
    #[tactic(auto, unfolding(crate::specs::Building::added))]
    #[inline(always)]
    pub fn add_literal(&mut self, literal: Literal) -> std::result::Result<(), AllocError>
        ensures prints { OnOk result (self.new ≡ added self.old (leaf (literal_leaf literal) (at literal.span) end)) }
        ensures begins { self.new.before ≡ self.old.before }
    {
        let entry = Entry::literal(self.alloc, literal)?;
        self.push(entry)
    }

    /// Appends one character of a mark.
    #[tactic(auto, unfolding(crate::specs::Building::added))]
    pub fn add_punct(
        &mut self,
        character: char,
        spacing: Spacing,
        span: Span,
    ) -> std::result::Result<(), AllocError>
        requires { IsTrue (is_punct_character character) }
        ensures prints { OnOk result (self.new ≡ added self.old (punct character (is_joint spacing) (at span) end)) }
        ensures begins { self.new.before ≡ self.old.before }
    {
        let punct = Punct::new(character, spacing, span);
        let entry = Entry::punct(self.alloc, punct)?;
        self.push(entry)
    }

    /// Whether a group is open.
    pub fn is_open(&self) -> bool
        ensures { result ≡ is_open self.now }
    {
        !self.pending.is_empty()
    }

    /// Opens a group; if memory is refused, all is unchanged.
    pub fn open(
        &mut self,
        delimiter: Delimiter,
        opening: Span,
    ) -> std::result::Result<(), AllocError>
        ensures ok { OnOk result (self.new ≡ record self.old { open_groups = self.old.open_groups ++ record { delimiter = delimiter; opening = opening; outer = self.old.stream } ∷ []; stream = end }) }
        ensures err { OnErr result (self.new ≡ self.old) }
    {
        let open = Open {
            delimiter,
            span: opening,
            skip: 0,
        };
        let entry = Entry::open(self.alloc, open)?;
        self.pending.reserve(1)?;
        let at = self.entries.len();
        self.entries.push_back(entry)?;
        self.pending.push(Pending {
            delimiter,
            opening,
            at,
            trees: self.trees,
        })?;
        self.trees = 0;
        Ok(())
    }

    /// Closes the innermost open group, which becomes a tree of the enclosing group. Fails with `unbalanced group` at the
    /// delimiter if the innermost open group has another delimiter, or none is open; on failure all is unchanged.
    pub fn close(&mut self, delimiter: Delimiter, closing: Span) -> Result<()>
        ensures ok { OnOk result (Closes delimiter closing self.old self.new) }
        ensures err { IfErr result (IsUnbalanced closing (NotOpen delimiter self.old)) }
        ensures unchanged { OnErr result (self.new ≡ self.old) }
    {
        let innermost = match self.pending.split_last() {
            Some((innermost, _)) => innermost.delimiter,
            None => return Err(not_balanced(closing)),
        };
        if innermost != delimiter {
            return Err(not_balanced(closing));
        }
        Ok(self.close_group(closing)?)
    }

    /// Closes the innermost open group, whichever delimiter it has; on failure all is unchanged.
    pub fn close_group(&mut self, closing: Span) -> std::result::Result<(), AllocError>
        requires { is_open self.old ≡ true }
        ensures ok { OnOk result (self.new ≡ out_of_group (at closing) self.old) }
        ensures err { OnErr result (self.new ≡ self.old) }
        ensures begins { self.new.before ≡ self.old.before }
    {
        let (innermost, around) = match self.pending.split_last() {
            Some((innermost, around)) => (*innermost, around.len()),
            None => return Ok(()),
        };
        let open = Open {
            delimiter: innermost.delimiter,
            span: innermost.opening,
            skip: self.entries.len() - innermost.at - 1,
        };
        let close = Close {
            delimiter: innermost.delimiter,
            span: closing,
            trees: self.trees,
        };
        let opening = Entry::open(self.alloc, open)?;
        let closing = Entry::close(self.alloc, close)?;
        enclose(&mut self.entries, innermost.at, opening, closing)?;
        self.pending.truncate(around);
        self.trees = innermost.trees + 1;
        Ok(())
    }

    /// The stream, if no group is open. Otherwise fails with `unbalanced group` at the outermost open delimiter. It allocates
    /// nothing.
    pub fn finish(self) -> Result<TokenStream>
        ensures { MatchResult result (λ stream. (self.open_groups ≡ []) × (self.stream ≡ stream))
            (λ e. (g : OpenGroup) × (gs : List OpenGroup) × (self.open_groups ≡ g ∷ gs) × (e ≡ unbalanced g.opening)) }
    {
        match self.pending.split_first() {
            Some((outermost, _)) => Err(not_balanced(outermost.opening)),
            None => Ok(self.into_stream()),
        }
    }

    /// The stream. It allocates nothing.
    pub fn into_stream(self) -> TokenStream
        requires { self.open_groups ≡ [] }
        ensures { result ≡ self.stream }
    {
        let StreamBuilder {
            entries,
            trees,
            alloc,
            ..
        } = self;
        TokenStream::of_entries(entries.into_vec(), trees, alloc)
    }

    /// What the builder began with, without what was added, even if groups are open. It allocates nothing.
    pub(crate) fn undo(self) -> TokenStream
        ensures { result ≡ self.before }
    {
        let StreamBuilder {
            entries,
            mark,
            alloc,
            ..
        } = self;
        let mut entries = entries;
        entries.truncate(mark.entries);
        TokenStream::of_entries(entries.into_vec(), mark.trees, alloc)
    }
}
