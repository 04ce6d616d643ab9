//! What a stream keeps of its tokens, spans aside.
use crate::tests::support::{at, is_shown, stream, tokens_from};
use std::alloc::Global;
use std::mem::size_of;
use syn_outlines::add_token;
use syn_tokens::delimiter::Delimiter;
use syn_tokens::error::Result;
use syn_tokens::ident::Ident;
use syn_tokens::ident::ident_ref::IdentRef;
use syn_tokens::literal::literal_ref::LiteralRef;
use syn_tokens::punct::{Punct, Spacing};
use syn_tokens::span::Span;
use syn_tokens::stream::TokenStream;
use syn_tokens::stream::entry::{Entry, Token};
use syn_tokens::stream::tree::{Group, TokenTree};

/// The first byte that 32 bits can't count.
const FAR: usize = 4_294_967_296;

const SAMPLE: &str = "a { 'x' ;; } struct";

/// What shows each token of it, without its span.
const WORDS: &str = "a { Char'x' ;+ ; } struct";

/// The sample, from this byte on.
fn sample(alloc: Global, start: usize) -> Result<TokenStream> {
    tokens_from(alloc, SAMPLE, start)
}

/// What shows the sample from this byte on.
fn want(alloc: Global, start: usize) -> Result<String> {
    let mut out = String::new(alloc);
    for (place, word) in WORDS.split_whitespace().enumerate() {
        add_token(&mut out, word, at(start.saturating_add(place)))?;
    }
    Ok(out)
}

/// Whether all of the sample is there, at these places.
fn is_there(stream: &TokenStream, start: usize) -> bool {
    matches!(want(stream.alloc(), start), Ok(want) if is_shown(stream, want.as_str()))
}

/// Whether each entry's span is the next byte, from this one on.
fn is_in_order(stream: &TokenStream, start: usize) -> bool {
    let mut entries = stream.entries().iter().enumerate();
    entries.all(|(place, entry)| entry.span() == at(start.saturating_add(place)))
}

#[test]
fn room(rt: HostRuntime) {
    assert_eq!(rt; size_of::<Entry>(), 16);
}

/// The entry of an identifier there.
fn entry_at(alloc: Global, span: Span) -> Result<Entry> {
    Ok(Entry::ident(alloc, Ident::new(alloc, "a", span)?)?)
}

/// Whether the entry's copy has its span.
fn is_entry_copied(entry: &Entry) -> bool {
    matches!(entry.copy(), Ok(copy) if copy.span() == entry.span())
}

/// The longest span that is compact, a longer one, and one that ends before it starts.
#[test]
fn long(rt: HostRuntime) {
    for (start, end) in [(7, 0x10006), (7, 0x10007), (7, 3)] {
        let entry = entry_at(rt.alloc(), Span { start, end }).expect(&rt, "an entry");
        assert!(rt;
            entry.span() == Span { start, end } && is_entry_copied(&entry),
            "{end}"
        );
    }
}

/// Whether seven entries and three trees are at these places.
fn is_kept(stream: &TokenStream, start: usize) -> bool {
    stream.entries().len() == 7
        && stream.len() == 3
        && is_in_order(stream, start)
        && is_there(stream, start)
}

/// Whether a copy of the stream is the same, at these places.
fn is_copied(stream: &TokenStream, start: usize) -> bool {
    matches!(stream.try_clone(stream.alloc()), Ok(copy) if copy == *stream && is_there(&copy, start))
}

/// All of the sample is there from each of these bytes on, near ones and far ones; it is the same as the one from 0 on; and
/// what it lends, and what can be had of it in memory of its own, is the same.
#[test]
fn wherever_they_are(rt: HostRuntime) {
    let near = stream(&rt, rt.alloc(), SAMPLE);
    for start in [0, 1, 1000, FAR - 8, FAR - 4, FAR - 1, FAR, usize::MAX - 7] {
        let stream = sample(rt.alloc(), start).expect(&rt, "a stream");
        assert!(rt; is_kept(&stream, start) && stream == near, "{start}");
        assert!(rt;
            are_lent(&stream) && are_owned(&stream) && is_copied(&stream, start),
            "{start}"
        );
    }
}

/// Whether the identifier has this text and no other, and is a keyword or not.
fn is_ident(ident: &IdentRef<'_>, text: &str, is_keyword: bool) -> bool {
    ident.text() == text && ident.is(text) && !ident.is("b") && ident.is_keyword() == is_keyword
}

/// Whether the identifier is the one that the sample has at this place.
fn is_ident_there(ident: &IdentRef<'_>, place: usize) -> bool {
    match place {
        0 => is_ident(ident, "a", false),
        6 => is_ident(ident, "struct", true),
        _ => false,
    }
}

/// Whether what the entry lends is what the sample has at this place.
fn is_lent(entry: &Entry, place: usize) -> bool {
    match entry.token() {
        Token::Ident(ident) => is_ident_there(&ident, place),
        Token::Literal(literal) => place == 2,
        Token::Punct(punct) => (place == 3 || place == 4) && punct.character() == ';',
        Token::Open(open) => place == 1 && open.skip == 3 && open.delimiter == Delimiter::Brace,
        Token::Close(close) => {
            place == 5 && close.trees == 3 && close.delimiter == Delimiter::Brace
        }
    }
}

fn are_lent(stream: &TokenStream) -> bool {
    let mut entries = stream.entries().iter().enumerate();
    entries.all(|(place, entry)| is_lent(entry, place))
}

/// Whether the text of the identifier can be had in memory of its own.
fn is_ident_owned(ident: &IdentRef<'_>) -> bool {
    matches!(ident.to_ident(), Ok(own) if own.text() == ident.text())
}

/// Whether the text of the literal can be had in memory of its own.
fn is_literal_owned(literal: &LiteralRef<'_>) -> bool {
    matches!(literal.to_literal(), Ok(own) if own.text() == literal.text())
}

/// Whether the first identifier and the first literal of the stream can be had in memory of their own.
fn are_owned(stream: &TokenStream) -> bool {
    let [first, _, third, ..] = stream.entries() else {
        return false;
    };
    match (first.token(), third.token()) {
        (Token::Ident(ident), Token::Literal(literal)) => {
            is_ident_owned(&ident) && is_literal_owned(&literal)
        }
        _ => false,
    }
}

/// Whether it is a group with delimiters there, and three trees.
fn is_group(tree: &TokenTree, opening: usize, closing: usize) -> bool {
    match tree {
        TokenTree::Group(group) => {
            group.opening == at(opening) && group.closing == at(closing) && group.stream.len() == 3
        }
        _ => false,
    }
}

/// Whether it is the keyword of the sample, there, and what it lends is too.
fn is_keyword(tree: &TokenTree, span: Span) -> bool {
    match tree {
        TokenTree::Ident(ident) => {
            is_ident(&ident.as_ref(), "struct", true)
                && ident.is_keyword()
                && ident.is("struct")
                && ident.span == span
        }
        _ => false,
    }
}

#[test]
fn far_trees(rt: HostRuntime) {
    let far = sample(rt.alloc(), FAR).expect(&rt, "a stream");
    assert!(rt; matches!(far.get(1), Ok(Some(tree)) if is_group(&tree, FAR + 1, FAR + 5)));
    assert!(rt; matches!(far.get(2), Ok(Some(tree)) if is_keyword(&tree, at(FAR + 6))));
}

/// Whether the copy of the stream's first entry has its span.
fn is_first_copied(stream: &TokenStream) -> bool {
    matches!(stream.entries().first(), Some(entry) if is_entry_copied(entry))
}

#[test]
fn copied_entries(rt: HostRuntime) {
    for text in ["a", "'x'", ";", "( )"] {
        let stream = stream(&rt, rt.alloc(), text);
        assert!(rt; is_first_copied(&stream), "{text}");
    }
}

/// So many `;`.
#[tactic(auto, unfolding(syn_tokens::specs::Punct::is_punct_character))]
fn marks(alloc: Global, count: usize) -> Result<TokenStream> {
    let mut stream = TokenStream::new(alloc);
    for start in 0..count {
        stream.push(TokenTree::Punct(Punct::new(';', Spacing::Alone, at(start))))?;
    }
    Ok(stream)
}

/// So many `;`, and a group after them with so many.
fn grouped(alloc: Global, before: usize, inside: usize) -> Result<TokenStream> {
    let mut stream = marks(alloc, before)?;
    stream.push(TokenTree::Group(Group {
        delimiter: Delimiter::Bracket,
        stream: marks(alloc, inside)?,
        opening: at(100),
        closing: at(200),
    }))?;
    Ok(stream)
}

/// Whether the stream is so many `;`.
fn are_marks(stream: &TokenStream, count: usize) -> bool {
    matches!(marks(stream.alloc(), count), Ok(marks) if *stream == marks)
}

/// Whether it is the group with so many `;`.
fn is_group_of_marks(tree: &TokenTree, count: usize) -> bool {
    match tree {
        TokenTree::Group(group) => {
            group.opening == at(100) && group.closing == at(200) && are_marks(&group.stream, count)
        }
        _ => false,
    }
}

/// Whether the tree at this place is that group.
fn has_group(stream: &TokenStream, place: usize, count: usize) -> bool {
    matches!(stream.get(place), Ok(Some(tree)) if is_group_of_marks(&tree, count))
}

/// A group after fewer tokens than it has, after as many, and after more; the tokens are left where it is taken away.
#[test]
fn groups_after_tokens(rt: HostRuntime) {
    for (before, inside) in [(0, 0), (0, 9), (2, 9), (9, 9), (9, 2), (9, 0)] {
        let mut stream = grouped(rt.alloc(), before, inside).expect(&rt, "a stream");
        let entries = before.saturating_add(inside).saturating_add(2);
        assert!(rt; has_group(&stream, before, inside), "{before} {inside}");
        assert!(rt; stream.len() == before.saturating_add(1) && stream.entries().len() == entries);
        stream.truncate(before);
        assert!(rt; are_marks(&stream, before), "{before} {inside}");
    }
}
