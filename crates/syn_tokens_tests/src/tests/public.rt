//! What callers ask of buffers, and of whole streams.
use crate::tests::support::{assert_parsed, at, refused, reports, stream, tokens};
use std::alloc::Global;
use syn_parse::buffer::ParseBuffer;
use syn_parse::ext::IdentExt;
use syn_tokens::error::{Error, Result};
use syn_tokens::ident::Ident;
use syn_tokens::punctuated::Punctuated;
use syn_tokens::stream::TokenStream;
use syn_tokens::token::{Comma, DelimiterKind, Delimiters, Enum, PathSep, Pub, Struct, Type};
use syn_whole::parse::parse2;

/// Whether it is the identifier of this text.
fn is_name(answer: Result<Ident>, text: &str) -> bool {
    matches!(answer, Ok(name) if name.text() == text)
}

#[test]
fn parsed(rt: HostRuntime) {
    let stream = stream(&rt, rt.alloc(), "pub a");
    let mut input = ParseBuffer::new(&stream);
    assert!(rt; refused(&input.parse::<Struct>(), 0, "expected `struct`"));
    assert_parsed::<Pub>(&rt, &mut input, "pub@0..1");
    assert!(rt; is_name(input.parse(), "a") && input.finish().is_ok());
}

/// Whether it is a group with delimiters there, and whether it is empty.
fn is_group<K: DelimiterKind>(
    answer: &Result<(Delimiters<K>, ParseBuffer<'_>)>,
    places: [usize; 2],
    is_empty: bool,
) -> bool {
    match answer {
        Ok((signs, content)) => {
            signs.opening == at(places[0])
                && signs.closing == at(places[1])
                && content.is_empty() == is_empty
        }
        Err(_) => false,
    }
}

/// Parentheses are no braces and no brackets, and nothing follows them.
#[test]
fn no_braces_and_brackets(rt: HostRuntime) {
    let stream = stream(&rt, rt.alloc(), "( a )");
    let mut input = ParseBuffer::new(&stream);
    assert!(rt; refused(&input.braced(), 0, "expected curly braces"));
    assert!(rt; refused(&input.bracketed(), 0, "expected square brackets"));
    assert!(rt; is_group(&input.parenthesized(), [0, 2], false));
    assert!(rt; refused(&input.parenthesized(), 3, "expected parentheses"));
}

/// Whether a name is between the parentheses, and its end is refused before it alone.
fn is_content_parsed(content: &mut ParseBuffer<'_>) -> bool {
    refused(&content.finish(), 1, "unexpected token")
        && is_name(content.parse(), "a")
        && content.finish().is_ok()
        && reports(&content.error("no more"), 2, "no more")
}

#[test]
fn in_parentheses(rt: HostRuntime) {
    let stream = stream(&rt, rt.alloc(), "( a )");
    let (_, mut content) = ParseBuffer::new(&stream)
        .parenthesized()
        .expect(&rt, "a group");
    assert!(rt; is_content_parsed(&mut content));
}

#[test]
fn braces_and_brackets(rt: HostRuntime) {
    let stream = stream(&rt, rt.alloc(), "{ } [ ]");
    let mut input = ParseBuffer::new(&stream);
    assert!(rt; is_group(&input.braced(), [0, 1], true));
    assert!(rt; is_group(&input.bracketed(), [2, 3], true));
}

/// The identifier that is the whole text.
fn whole(alloc: Global, text: &str) -> Result<Ident> {
    parse2(tokens(alloc, text)?)
}

#[test]
fn whole_streams(rt: HostRuntime) {
    assert!(rt; is_name(whole(rt.alloc(), "a"), "a"));
    assert!(rt;
        matches!(
            parse2::<Option<Pub>>(TokenStream::new(rt.alloc())),
            Ok(None)
        )
    );
    assert!(rt; refused(&whole(rt.alloc(), "a b c"), 1, "unexpected token"));
    assert!(rt; refused(&whole(rt.alloc(), "pub"), 0, "expected identifier"));
}

/// Whether the faults are at 0, and these are their texts, in order.
fn settles_all(error: &Error, texts: &str) -> bool {
    let mut texts = texts.split(';');
    for fault in error.faults() {
        if fault.span != at(0) || texts.next() != Some(fault.text) {
            return false;
        }
    }
    texts.next().is_none()
}

/// Whether the first four are reported where more is looked for than there is room for, and not the one that is there.
fn is_much_looked_for(input: &ParseBuffer<'_>, texts: &str) -> bool {
    let mut lookahead = input.lookahead1();
    let seen = lookahead.peek::<Struct>();
    let is_there = lookahead.peek::<Pub>();
    let seen = seen || lookahead.peek::<Enum>() || lookahead.peek::<Ident>();
    let seen = seen || lookahead.peek::<Comma>() || lookahead.peek::<PathSep>();
    !seen && is_there && settles_all(&lookahead.error(), texts)
}

#[test]
fn looked_for(rt: HostRuntime) {
    let stream = stream(&rt, rt.alloc(), "pub a");
    let texts = "expected `struct`;expected `enum`;expected identifier;expected `,`";
    assert!(rt; is_much_looked_for(&ParseBuffer::new(&stream), texts));
}

/// Whether nothing that was looked for is reported with this text there, and `type`, looked for, as missing there.
fn settles_next(input: &ParseBuffer<'_>, start: usize, text: &str) -> bool {
    let mut lookahead = input.lookahead1();
    reports(&input.lookahead1().error(), start, text)
        && !lookahead.peek::<Type>()
        && reports(&lookahead.error(), start, "expected `type`")
}

/// That is so before a token, and at the end after it.
#[test]
fn looked_for_nothing(rt: HostRuntime) {
    let stream = stream(&rt, rt.alloc(), "pub");
    let mut input = ParseBuffer::new(&stream);
    assert!(rt; settles_next(&input, 0, "unexpected token") && input.parse::<Pub>().is_ok());
    assert!(rt; settles_next(&input, 1, "unexpected end of input"));
}

/// Whether so many names are a list to the end, and whether a `,` follows the last.
fn is_list(stream: &TokenStream, length: usize, is_trailing: bool) -> bool {
    let mut input = ParseBuffer::new(stream);
    let list: Result<Punctuated<Ident, Comma>> = input.parse_terminated();
    let is_there =
        matches!(&list, Ok(list) if list.len() == length && list.trailing_punct() == is_trailing);
    is_there && input.finish().is_ok()
}

#[test]
fn lists_to_the_end(rt: HostRuntime) {
    for (text, length, is_trailing) in [
        ("", 0, false),
        ("a", 1, false),
        ("a ,", 1, true),
        ("a , b", 2, false),
        ("a , b ,", 2, true),
    ] {
        let stream = stream(&rt, rt.alloc(), text);
        assert!(rt; is_list(&stream, length, is_trailing), "{text}");
    }
}

/// Whether a list is refused there, and put back.
fn is_list_put_back(stream: &TokenStream, start: usize, fault: &str) -> bool {
    let mut input = ParseBuffer::new(stream);
    let answer = input.parse_terminated::<Ident, Comma>();
    refused(&answer, start, fault) && input.span() == at(0)
}

#[test]
fn no_lists_to_the_end(rt: HostRuntime) {
    for (text, start, fault) in [
        (",", 0, "expected identifier"),
        ("a b", 1, "expected `,`"),
        ("a , ,", 2, "expected identifier"),
        ("a , pub", 2, "expected identifier"),
    ] {
        let stream = stream(&rt, rt.alloc(), text);
        assert!(rt; is_list_put_back(&stream, start, fault), "{text}");
    }
}

/// Past `pub` and a name.
fn skip_both(input: &mut ParseBuffer<'_>) -> Result<()> {
    input.parse::<Pub>()?;
    input.parse::<Ident>()?;
    Ok(())
}

/// `struct` and a name, or any other word and a name: then both are read, and refused.
fn structure(input: &mut ParseBuffer<'_>) -> Result<Ident> {
    if input.parse::<Option<Struct>>()?.is_none() {
        skip_both(input)?;
        return Err(input.error("too late"));
    }
    input.parse()
}

/// The function reads the name, and is refused after it, and the buffer put back.
#[test]
fn called(rt: HostRuntime) {
    let stream = stream(&rt, rt.alloc(), "struct a pub b");
    let mut input = ParseBuffer::new(&stream);
    assert!(rt; is_name(input.call(structure), "a") && input.span() == at(2));
    assert!(rt; refused(&input.call(structure), 4, "too late") && input.span() == at(2));
}

/// Closures read the word and the name.
#[test]
fn called_closures(rt: HostRuntime) {
    let stream = stream(&rt, rt.alloc(), "pub b");
    let mut input = ParseBuffer::new(&stream);
    let word = input.call(|input| input.parse::<Pub>());
    assert!(rt; matches!(word, Ok(word) if word.span == at(0)));
    assert!(rt; is_name(input.call(|input| input.parse::<Ident>()), "b"));
}

/// The three words are read, and the `,` after them isn't.
#[test]
fn any_identifiers(rt: HostRuntime) {
    let stream = stream(&rt, rt.alloc(), "struct _ a ,");
    let mut input = ParseBuffer::new(&stream);
    for text in ["struct", "_", "a"] {
        assert!(rt; is_name(Ident::parse_any(&mut input), text), "{text}");
    }
    assert!(rt; refused(&Ident::parse_any(&mut input), 3, "expected identifier"));
    assert!(rt; input.span() == at(3));
}

/// Whether what is looked for is reported there.
fn is_looked_for(input: &ParseBuffer<'_>, start: usize) -> bool {
    let mut lookahead = input.lookahead1();
    let seen = lookahead.peek::<Ident>();
    !seen && reports(&lookahead.error(), start, "expected identifier")
}

/// Whether the buffer is at the end of a group whose closing delimiter is at 2: each refusal is at that place.
fn is_at_close(input: &mut ParseBuffer<'_>) -> bool {
    input.span() == at(2)
        && reports(&input.error("no"), 2, "no")
        && is_looked_for(input, 2)
        && refused(&input.parse::<Struct>(), 2, "expected `struct`")
        && refused(&input.parenthesized(), 2, "expected parentheses")
        && input.finish().is_ok()
}

/// A buffer that is read to the end of a group is there, one that is advanced to it, and a fork of that.
#[test]
fn ends_of_groups(rt: HostRuntime) {
    let stream = stream(&rt, rt.alloc(), "( a )");
    let (_, mut content) = ParseBuffer::new(&stream)
        .parenthesized()
        .expect(&rt, "a group");
    let mut ahead = content.fork();
    assert!(rt; ahead.parse::<Ident>().is_ok() && is_at_close(&mut ahead));
    content.advance_to(&ahead);
    assert!(rt; is_at_close(&mut content) && is_at_close(&mut content.fork()));
}

/// A buffer that ended after the group ends with it where it is advanced to its end.
#[test]
fn ends_of_other_buffers(rt: HostRuntime) {
    let stream = stream(&rt, rt.alloc(), "( a )");
    let mut input = ParseBuffer::new(&stream);
    let (_, mut content) = input.parenthesized().expect(&rt, "a group");
    assert!(rt; content.parse::<Ident>().is_ok() && input.span().start == 3);
    input.advance_to(&content);
    assert!(rt; is_at_close(&mut input));
}
