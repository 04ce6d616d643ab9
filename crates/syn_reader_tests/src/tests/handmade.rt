//! The text of streams that no text spells.
use crate::tests::asserts::assert_text_of;
use std::alloc::Global;
use syn_reader::reader::token_text;
use syn_tokens::delimiter::Delimiter;
use syn_tokens::error::Result;
use syn_tokens::ident::Ident;
use syn_tokens::literal::{LitKind, Literal};
use syn_tokens::punct::{Punct, Spacing};
use syn_tokens::span::Span;
use syn_tokens::stream::TokenStream;
use syn_tokens::stream::builder::StreamBuilder;

/// Streams, and their texts: `<` and `>` are the delimiters of a `None` group, `:` is a colon that is Alone, `;` one that is
/// Joint, and `1` the literal `"a b"`.
const MADE: &[(&str, &str)] = &[
    ("1x", "\"a b\" x"),
    ("1;1", "\"a b\" :\"a b\""),
    // invisible groups
    ("x<y>z", "x y z"),
    ("x<>y", "x y"),
    ("<><<>>", ""),
    ("<>x<>", "x"),
    ("<(x)>", "( x )"),
    ("<x><y>", "x y"),
    ("<x<:>>:", "x : :"),
    // empty groups
    ("(){}[]", "( ) { } [ ]"),
    ("(<>)", "( )"),
    ("[{()}]", "[ { ( ) } ]"),
    ("<()><[]>", "( ) [ ]"),
    ("{<><>}<>()", "{ } ( )"),
    // what follows a mark that is Joint
    (";<:>", "::"),
    ("<;>x", ":x"),
    (";<>x", ":x"),
    ("<;><><:>", "::"),
    ("<<;>>1", ":\"a b\""),
    ("(;)x", "( :) x"),
    ("[;]:", "[ :] :"),
    ("{<;>}", "{ :}"),
    ("(<>;<>)", "( :)"),
    (";()", ":( )"),
    (";{;}", ":{ :}"),
    ("<;>[x]", ":[ x ]"),
    ("x;", "x :"),
    ("x:(y)", "x : ( y )"),
];

/// Adds a `:`.
fn add_colon(out: &mut StreamBuilder, spacing: Spacing) -> Result<()> {
    let colon = ':';
    if Punct::is_punct_character(colon) {
        out.add_punct(colon, spacing, Span::call_site())?;
    }
    Ok(())
}

/// Adds the literal, for `1`, or the identifier of this letter.
fn add_leaf(out: &mut StreamBuilder, letter: char) -> Result<()> {
    let (alloc, span) = (out.alloc(), Span::call_site());
    if letter == '1' {
        out.add_literal(Literal::new(alloc, LitKind::Str, "\"a b\"", span)?)?;
        return Ok(());
    }
    let text = format!(in alloc; "{letter}")?;
    out.add_ident(Ident::new(alloc, text.as_str(), span)?)?;
    Ok(())
}

fn add(out: &mut StreamBuilder, letter: char) -> Result<()> {
    let span = Span::call_site();
    match letter {
        '(' => out.open(Delimiter::Paren, span)?,
        '{' => out.open(Delimiter::Brace, span)?,
        '[' => out.open(Delimiter::Bracket, span)?,
        '<' => out.open(Delimiter::None, span)?,
        ')' => out.close(Delimiter::Paren, span)?,
        '}' => out.close(Delimiter::Brace, span)?,
        ']' => out.close(Delimiter::Bracket, span)?,
        '>' => out.close(Delimiter::None, span)?,
        ':' => add_colon(out, Spacing::Alone)?,
        ';' => add_colon(out, Spacing::Joint)?,
        _ => add_leaf(out, letter)?,
    }
    Ok(())
}

fn made(alloc: Global, letters: &str) -> Result<TokenStream> {
    let mut builder = StreamBuilder::new(alloc);
    for letter in letters.chars() {
        add(&mut builder, letter)?;
    }
    builder.finish()
}

fn made_text(alloc: Global, letters: &str) -> Result<String> {
    token_text(&made(alloc, letters)?)
}

#[test]
fn writes(rt: HostRuntime) -> Result<()> {
    for (letters, text) in MADE {
        assert_text_of(&rt, letters, made_text(rt.alloc(), letters)?.as_str(), text);
    }
    Ok(())
}
