//! Building token trees from lexemes.
ghost use Rattle.std.specs.Prelude.{◌≡◌, ◌++◌, ◌∷◌, ◌<◌, ◌≤◌, ℕ, List, [], IsTrue, false, length, if◌then◌else◌, IfOk, IfErr, MatchResult};
ghost use Rattle.syn_tokens.specs.Spans.{at};
ghost use Rattle.syn_tokens.specs.Punct.{is_punct_character};
ghost use Rattle.syn_grammar.specs.Tokens.{Stream};
ghost use Rattle.syn_tokens.specs.Entries.{decode, IsToken};
ghost use Rattle.syn_tokens.specs.Building.{NotOpen, IsUnbalanced};
ghost use Rattle.syn_tokens.specs.Delimiters.{delimiter_of};
ghost use Rattle.syn_reader.specs.Flat.{opened, closed, punctuation, flat};
ghost use Rattle.syn_reader.specs.Spelling.{IsFaultWithin, doc_tokens};
ghost use Rattle.syn_reader.specs.Refusals.{IsRefusal};
ghost use Rattle.syn_tokens.specs.Faults.{out_of_memory};

use crate::reader::docs::{Doc, doc_of, quoted};
use crate::reader::ident_cache::IdentCache;
use crate::reader::lexer::Lexeme;
use std::alloc::{AllocError, Global};
use syn_tokens::delimiter::Delimiter;
use syn_tokens::error::Result;
use syn_tokens::literal::{LitKind, Literal};
use syn_tokens::punct::{Punct, Spacing};
use syn_tokens::span::Span;
use syn_tokens::stream::TokenStream;
use syn_tokens::stream::builder::StreamBuilder;
use syn_tokens::stream::entry::Entry;

/// Builds token trees from lexemes, one after another.
#[derive(Drop)]
pub(super) struct TreeBuilder {
    inner: StreamBuilder,
    ident_cache: IdentCache,
}

impl TreeBuilder {
    ghost use Rattle.syn_reader.specs.Lexemes.{FollowsAsLexeme, IsNamed};
    ghost use Rattle.syn_reader.specs.Building.{Builds, AllWithin, IsOutermost, tokens_so_far};

    /// Starts with no tree and no open group, for a text of this length. It grows in memory from `alloc`.
    pub(super) fn new(alloc: Global, length: usize) -> std::result::Result<TreeBuilder, AllocError>
        ensures { (text : List ℕ) → IfOk result (λ b. Builds text b 0) }
    {
        Ok(TreeBuilder {
            inner: StreamBuilder::new(alloc),
            ident_cache: IdentCache::new(alloc, length)?,
        })
    }

    /// Adds the next lexeme. Fails with `unbalanced group` if it closes a group other than the innermost open one.
    pub(super) fn add(&mut self, lexeme: Lexeme<'_>) -> Result<()>
        requires { IsNamed lexeme }
        ensures builds { (text : List ℕ) (i j : ℕ) → Builds text self.old i → FollowsAsLexeme text i lexeme.entry j → MatchResult result (λ _. Builds text self.new j) (IsFaultWithin (length text)) }
        ensures fault { (text : List ℕ) (i j : ℕ) → Builds text self.old i → FollowsAsLexeme text i lexeme.entry j → IfErr result (IsRefusal text) }
    {
        let alloc = self.inner.alloc();
        match lexeme {
            Lexeme::Open(delimiter, span) => Ok(self.open(delimiter, span)?),
            Lexeme::Close(delimiter, span) => self.close(delimiter, span),
            Lexeme::Ident(text, span) => {
                let ident = self.ident_cache.ident(text, span)?;
                let entry = Entry::ident(alloc, ident)?;
                Ok(self.push(entry)?)
            }
            Lexeme::Literal(kind, text, span) => {
                let literal = Literal::new(alloc, kind, text, span)?;
                let entry = Entry::literal(alloc, literal)?;
                Ok(self.push(entry)?)
            }
            Lexeme::Punct(punct) => {
                let entry = Entry::punct(alloc, punct)?;
                Ok(self.push(entry)?)
            }
            Lexeme::Comment(text, span) => match doc_of(text) {
                Some(doc) => self.doc(&doc, span),
                None => Ok(()),
            },
        }
    }

    /// The trees, if no group is open. Otherwise fails at the outermost open delimiter.
    pub(super) fn finish(self) -> Result<TokenStream>
        ensures tokens { (n : ℕ) → AllWithin n self.inner.open_groups → MatchResult result (λ stream. flat stream ≡ tokens_so_far self) (IsFaultWithin n) }
        ensures fault { IfErr result (IsOutermost self) }
    {
        self.inner.finish()
    }

    /// Opens a group.
    #[tactic(auto, using(crate::proofs::Groups::opened_more, crate::proofs::Groups::within_more))]
    fn open(&mut self, delimiter: Delimiter, opening: Span) -> std::result::Result<(), AllocError>
        ensures tokens { IfOk result (λ _. tokens_so_far self.new ≡ tokens_so_far self.old ++ (opened (delimiter_of delimiter) (at opening) ∷ [])) }
        ensures within { (n : ℕ) → AllWithin n self.old.inner.open_groups → opening.start < opening.end → opening.end ≤ n → IfOk result (λ _. AllWithin n self.new.inner.open_groups) }
        ensures innermost { IfOk result (λ _. (outer : Stream) × (self.new.inner.open_groups ≡ self.old.inner.open_groups ++ record { delimiter = delimiter; opening = opening; outer = outer } ∷ [])) }
    {
        self.inner.open(delimiter, opening)
    }

    /// Closes the innermost open group, which becomes a tree of the enclosing group.
    fn close(&mut self, delimiter: Delimiter, closing: Span) -> Result<()>
        ensures tokens { IfOk result (λ _. tokens_so_far self.new ≡ tokens_so_far self.old ++ (closed (delimiter_of delimiter) (at closing) ∷ [])) }
        ensures within { (n : ℕ) → AllWithin n self.old.inner.open_groups → closing.start < closing.end → closing.end ≤ n → MatchResult result (λ _. AllWithin n self.new.inner.open_groups) (IsFaultWithin n) }
        ensures fault { IfErr result (IsUnbalanced closing (NotOpen delimiter self.old.inner)) }
    {
        self.inner.close(delimiter, closing)
    }

    /// Adds the tokens of the attribute that a doc comment denotes; all have the span of the comment.
    #[tactic(auto, unfolding(syn_tokens::specs::Punct::is_punct_character))]
    fn doc(&mut self, doc: &Doc<'_>, span: Span) -> Result<()>
        ensures tokens { IfOk result (λ _. tokens_so_far self.new ≡ tokens_so_far self.old ++ doc_tokens doc.now.inner doc.now.text.now (at span)) }
        ensures within { (n : ℕ) → AllWithin n self.old.inner.open_groups → span.start < span.end → span.end ≤ n → MatchResult result (λ _. AllWithin n self.new.inner.open_groups) (IsFaultWithin n) }
        ensures memory { IfErr result (λ e. e ≡ out_of_memory) }
    {
        let alloc = self.inner.alloc();
        self.attribute_punct(doc.inner, span)?;
        self.open(Delimiter::Bracket, span)?;
        let name = self.ident_cache.ident("doc", span)?;
        let entry = Entry::ident(alloc, name)?;
        self.push(entry)?;
        self.mark('=', span)?;
        let text = quoted(alloc, doc.text)?;
        let literal = Literal::new(alloc, LitKind::Str, text.as_str(), span)?;
        let entry = Entry::literal(alloc, literal)?;
        self.push(entry)?;
        self.close(Delimiter::Bracket, span)
    }

    /// Adds the `#` of an attribute, or `#!` if it is inside its item.
    #[tactic(auto, using(crate::proofs::Groups::joined), unfolding(syn_tokens::specs::Punct::is_punct_character))]
    fn attribute_punct(&mut self, inner: bool, span: Span) -> std::result::Result<(), AllocError>
        ensures tokens { IfOk result (λ _. tokens_so_far self.new ≡ tokens_so_far self.old ++ (punctuation 35 false (at span) ∷ (if inner then punctuation 33 false (at span) ∷ [] else []))) }
        ensures groups { self.new.inner.open_groups ≡ self.old.inner.open_groups }
    {
        self.mark('#', span)?;
        if inner { self.mark('!', span) } else { Ok(()) }
    }

    /// Adds a mark of a single character.
    fn mark(&mut self, character: char, span: Span) -> std::result::Result<(), AllocError>
        requires { IsTrue (is_punct_character character) }
        ensures tokens { IfOk result (λ _. tokens_so_far self.new ≡ tokens_so_far self.old ++ (punctuation character false (at span) ∷ [])) }
        ensures groups { self.new.inner.open_groups ≡ self.old.inner.open_groups }
    {
        let punct = Punct::new(character, Spacing::Alone, span);
        let entry = Entry::punct(self.inner.alloc(), punct)?;
        self.push(entry)
    }

    /// Adds a token.
    #[tactic(auto, using(crate::proofs::Flattened::flat_more))]
    #[inline(always)]
    fn push(&mut self, token: Entry) -> std::result::Result<(), AllocError>
        requires { IsToken token }
        ensures tokens { IfOk result (λ _. tokens_so_far self.new ≡ tokens_so_far self.old ++ flat (decode (token ∷ []))) }
        ensures groups { self.new.inner.open_groups ≡ self.old.inner.open_groups }
    {
        self.inner.push(token)
    }
}
