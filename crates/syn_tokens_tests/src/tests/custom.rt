//! Keywords and marks of own syntaxes.
ghost use Rattle.std.specs.Prelude.{codes, refl};
ghost use Rattle.syn_tokens.specs.Punct.{is_punct_character};

use crate::tests::support::{assert_parsed, assert_shown, at, is_left, printed, stream, tokens};
use std::alloc::Global;
use syn_parse::buffer::ParseBuffer;
use syn_parse::parse::Parse;
use syn_parse::read::Peek;
use syn_tokens::error::Result;
use syn_tokens::ident::Ident;
use syn_tokens::print::ToTokens;
use syn_tokens::span::Span;
use syn_tokens::stream::TokenStream;
use syn_tokens::syntactic::compare::Compared;
use syn_tokens::syntactic::try_clone::TryClone;
use syn_tokens::token::{
    CustomKeyword, CustomKeywordKind, CustomPunctuation, CustomPunctuationKind, Tilde,
};

struct RouteKind;

impl CustomKeywordKind for RouteKind {
    ghost text = { codes "route" };

    fn text() -> &'static str {
        "route"
    }

    fn expected() -> &'static str {
        "expected `route`"
    }

    ghost plain = { refl };
}

/// `route`
type Route = CustomKeyword<RouteKind>;

struct LeadsToKind;

impl CustomPunctuationKind<2> for LeadsToKind {
    ghost text = { codes "~>" };

    fn characters() -> [char; 2] {
        ['~', '>']
    }

    fn expected() -> &'static str {
        "expected `~>`"
    }

    ghost printable = { unfold is_punct_character in refl };
}

/// `~>`
type LeadsTo = CustomPunctuation<LeadsToKind, 2>;

struct BothWaysKind;

impl CustomPunctuationKind<3> for BothWaysKind {
    ghost text = { codes "<->" };

    fn characters() -> [char; 3] {
        ['<', '-', '>']
    }

    fn expected() -> &'static str {
        "expected `<->`"
    }

    ghost printable = { unfold is_punct_character in refl };
}

/// `<->`
type BothWays = CustomPunctuation<BothWaysKind, 3>;

const HERE: Span = Span { start: 3, end: 8 };

#[test]
fn texts_of_faults(rt: HostRuntime) {
    assert!(rt; Route::expected() == "expected `route`");
    assert!(rt; LeadsTo::expected() == "expected `~>`");
    assert!(rt; BothWays::expected() == "expected `<->`");
}

/// A keyword of an own syntax is a mere identifier elsewhere.
#[test]
fn keywords(rt: HostRuntime) {
    let stream = stream(&rt, rt.alloc(), "a route route b");
    let mut input = ParseBuffer::new(&stream);
    assert!(rt; input.peek2::<Route>() && is_left::<Route>(&mut input, "expected `route`"));
    assert_parsed::<Ident>(&rt, &mut input, "a@0..1");
    assert_parsed::<Route>(&rt, &mut input, "route@1..2");
    assert_parsed::<Ident>(&rt, &mut input, "route@2..3");
    assert!(rt; input.span() == at(3));
}

/// Whether it is the identifier `route`, there, and no keyword.
fn is_route(ident: &Ident) -> bool {
    ident.text() == "route" && ident.span == HERE && !ident.is_keyword()
}

#[test]
fn identifiers(rt: HostRuntime) {
    assert!(rt; matches!(Route::new(HERE).to_ident(rt.alloc()), Ok(ident) if is_route(&ident)));
}

/// Whether such a mark is neither seen nor read at the front of the text, with this fault there, and nothing is read.
fn is_refused<M: Peek + Parse + Drop>(alloc: Global, text: &str, fault: &str) -> Result<bool> {
    let stream = tokens(alloc, text)?;
    Ok(is_left::<M>(&mut ParseBuffer::new(&stream), fault))
}

#[test]
fn marks(rt: HostRuntime) {
    let stream = stream(&rt, rt.alloc(), "~> <-> ~");
    let mut input = ParseBuffer::new(&stream);
    assert_parsed::<LeadsTo>(&rt, &mut input, "~+@0..1 >@1..2");
    assert_parsed::<BothWays>(&rt, &mut input, "<+@2..3 -+@3..4 >@4..5");
    assert_parsed::<Tilde>(&rt, &mut input, "~@5..6");
    assert!(rt; input.is_empty());
}

#[test]
fn no_marks_of_two(rt: HostRuntime) {
    for text in "~ > not ~ not ~< not >~ not a ~>".split(" not ") {
        let answer = is_refused::<LeadsTo>(rt.alloc(), text, "expected `~>`");
        assert!(rt; matches!(answer, Ok(true)), "{text}");
    }
}

#[test]
fn no_marks_of_three(rt: HostRuntime) {
    for text in "< -> not <- > not <- not <-= not -> not a <->".split(" not ") {
        let answer = is_refused::<BothWays>(rt.alloc(), text, "expected `<->`");
        assert!(rt; matches!(answer, Ok(true)), "{text}");
    }
}

/// Copies keep their places, and all of one kind are the same.
#[test]
fn copies_of_keywords(rt: HostRuntime) {
    let word = Route::new(HERE);
    assert!(rt; matches!(TryClone::try_clone(&word, rt.alloc()), Ok(copy) if copy.span == HERE));
    assert!(rt; word.is_same(&Route::default()) && word == Route::default());
}

#[test]
fn copies_of_marks(rt: HostRuntime) {
    let spans = [at(0), at(1), at(2)];
    let mark = BothWays::new(spans);
    let elsewhere = BothWays::new([HERE; 3]);
    let copy = TryClone::try_clone(&mark, rt.alloc()).expect(&rt, "a copy");
    let found = copy.spans;
    assert!(rt; found == spans);
    assert!(rt; mark.is_same(&elsewhere) && mark == elsewhere);
}

/// What the three print, one after another.
fn three_printed(alloc: Global) -> Result<TokenStream> {
    let mut out = printed(alloc, &Route::new(HERE))?;
    BothWays::new([at(1), at(2), at(3)]).to_tokens(&mut out)?;
    LeadsTo::new([at(4), at(5)]).to_tokens(&mut out)?;
    Ok(out)
}

/// Each prints its text at its places, all characters of a mark but the last Joint.
#[test]
fn prints(rt: HostRuntime) {
    let out = three_printed(rt.alloc()).expect(&rt, "a print");
    let want = "route@3..8 <+@1..2 -+@2..3 >@3..4 ~+@4..5 >@5..6";
    assert_shown(&rt, &out, want);
}
