//! Where memory is refused, that is the result, nothing else changes, and the next call returns rightly.
//!
//! These tests pass with ample memory, and with `rt try --test --fail-alloc N` for every N, which refuses one request.
//! Each does the same twice: one of both has to be right, the other may be refused for lack of memory.
ghost use Rattle.std.specs.Prelude.{None};

use std::alloc::Global;
use std::process::Abort;
use syn::canon::{canonical, same_form};
use syn::data::FieldsUnnamed;
use syn::deferred::DeferredConstant;
use syn::derive::DeriveInput;
use syn::parse::{Parse, ParseBuffer};
use syn::print::ToTokens;
use syn::punctuated::Punctuated;
use syn::reader::{read_tokens, token_text};
use syn::restriction::Visibility;
use syn::token::{Ident, LitKind, Literal, TokenStream};
use syn::{Expr, Result, TryClone};
use syn_test_support::{fault, parsed, printed, push_ident, refused_at, reprinted, span};

const STRUCT: &str = "pub struct S(pub(in a::b) c, ::d::e,);";

const PRINTED: &str = "pub struct S ( pub ( in a :: b ) c , :: d :: e , ) ;";

const SOURCE: &str = "/// a \"b\"\n#[c] r#d 'e b\"f\" 1.5e-3 { [ ( ) ] } /* g */ //! h";

const TEXT: &str =
    "# [ doc = \" a \\\"b\\\"\" ] # [ c ] r#d 'e b\"f\" 1.5e-3 { [ ( ) ] } # ! [ doc = \" h\" ]";

/// Whether one result is right, and the other one is right too or a lack of memory.
fn are_right(first: Result<bool>, second: Result<bool>) -> bool {
    match (first, second) {
        (Ok(first), Ok(second)) => first && second,
        (Ok(first), Err(error)) => first && error.is_memory(),
        (Err(error), Ok(second)) => second && error.is_memory(),
        (Err(_), Err(_)) => false,
    }
}

/// Fails where that isn't so.
fn assert_right(rt: &impl Abort, first: Result<bool>, second: Result<bool>) {
    assert!(rt; are_right(first, second));
}

/// Whether this is the text of the tokens.
fn is_text(tokens: &TokenStream, want: &str) -> Result<bool> {
    Ok(token_text(tokens)?.as_str() == want)
}

fn is_read(alloc: Global) -> Result<bool> {
    let tokens = read_tokens(alloc, STRUCT)?;
    Ok(tokens.len() == 5 && is_text(&tokens, PRINTED)?)
}

fn is_source_read(alloc: Global) -> Result<bool> {
    is_text(&read_tokens(alloc, SOURCE)?, TEXT)
}

fn is_refused_by_reader(alloc: Global) -> Result<bool> {
    let fault = fault(read_tokens(alloc, "pub struct S(a::b, (c {"))?;
    Ok(fault.span.start == 12 && fault.text == "unbalanced group")
}

#[test]
fn reader(rt: HostRuntime) {
    let alloc = rt.alloc();
    assert_right(&rt, is_read(alloc), is_read(alloc));
    assert_right(&rt, is_source_read(alloc), is_source_read(alloc));
    assert_right(
        &rt,
        is_refused_by_reader(alloc),
        is_refused_by_reader(alloc),
    );
}

fn is_reprinted(alloc: Global) -> Result<bool> {
    Ok(reprinted::<DeriveInput>(alloc, STRUCT)?.as_str() == PRINTED)
}

fn is_refused(alloc: Global) -> Result<bool> {
    let whole = refused_at::<DeriveInput>(alloc, "struct S(a::b, pub c d);")?;
    Ok(whole == 21 && refused_at::<FieldsUnnamed>(alloc, "(a, b) c")? == 7)
}

#[test]
fn parsers(rt: HostRuntime) {
    let alloc = rt.alloc();
    assert_right(&rt, is_reprinted(alloc), is_reprinted(alloc));
    assert_right(&rt, is_refused(alloc), is_refused(alloc));
}

fn is_canonical(alloc: Global) -> Result<bool> {
    let print = canonical::<DeriveInput>(read_tokens(alloc, STRUCT)?)?;
    is_text(&print, PRINTED)
}

fn has_same_form(alloc: Global) -> Result<bool> {
    let tokens = read_tokens(alloc, STRUCT)?;
    let print = read_tokens(alloc, PRINTED)?;
    same_form::<DeriveInput>(tokens, print)
}

fn has_other_form(alloc: Global) -> Result<bool> {
    let first = read_tokens(alloc, "(a::b, c)")?;
    let second = read_tokens(alloc, "(a::b, c,)")?;
    Ok(!same_form::<FieldsUnnamed>(first, second)?)
}

#[test]
fn forms(rt: HostRuntime) {
    let alloc = rt.alloc();
    assert_right(&rt, is_canonical(alloc), is_canonical(alloc));
    assert_right(&rt, has_same_form(alloc), has_same_form(alloc));
    assert_right(&rt, has_other_form(alloc), has_other_form(alloc));
}

/// Whether the copy of a stream is equal to it, and so is that of a group in it.
fn equals_copy(tokens: &TokenStream) -> Result<bool> {
    let copy = tokens.try_clone(tokens.alloc())?;
    let group = tokens.get(3)?;
    Ok(copy == *tokens && group == copy.get(3)?)
}

fn is_copied(alloc: Global) -> Result<bool> {
    equals_copy(&read_tokens(alloc, STRUCT)?)
}

/// Whether what is left of a stream before any of it is read is equal to it, and so is what was read then.
fn equals_rest(tokens: &TokenStream) -> Result<bool> {
    let start = ParseBuffer::new(tokens);
    let mut input = start.fork();
    Ok(input.rest()? == *tokens && start.between(&input)? == *tokens)
}

fn is_taken_over(alloc: Global) -> Result<bool> {
    equals_rest(&read_tokens(alloc, STRUCT)?)
}

/// Whether the tree's copy is equal to it.
fn is_equal_copied<T: TryClone + PartialEq + Drop>(alloc: Global, tree: T) -> Result<bool> {
    Ok(tree.try_clone(alloc)? == tree)
}

fn is_tree_copied(alloc: Global) -> Result<bool> {
    is_equal_copied::<DeriveInput>(alloc, parsed(alloc, STRUCT)?)
}

#[test]
fn copies(rt: HostRuntime) {
    let alloc = rt.alloc();
    assert_right(&rt, is_tree_copied(alloc), is_tree_copied(alloc));
    assert_right(&rt, is_copied(alloc), is_copied(alloc));
    assert_right(&rt, is_taken_over(alloc), is_taken_over(alloc));
}

/// Whether the tree prints this text.
fn prints<T: ToTokens + Drop>(alloc: Global, tree: T, want: &str) -> Result<bool> {
    Ok(printed(alloc, &tree)?.as_str() == want)
}

const CALL: &str = "{ f::<A, 'a>(b) }";

const CALL_PRINTED: &str = "{ f :: < 'a , A , > ( b ) }";

/// Its print has lifetimes first, so it is kept twice.
fn is_deferred(alloc: Global) -> Result<bool> {
    let deferred: DeferredConstant = parsed(alloc, CALL)?;
    let copy = deferred.try_clone(alloc)?;
    Ok(copy == deferred && prints(alloc, copy, CALL_PRINTED)?)
}

fn is_made_by_hand(alloc: Global) -> Result<bool> {
    let tree: Expr = parsed(alloc, "{ a + 1 }")?;
    let deferred: Result<DeferredConstant> = DeferredConstant::new(&tree, alloc);
    prints(alloc, deferred?, "{ a + 1 }")
}

fn is_opened(alloc: Global) -> Result<bool> {
    let deferred: DeferredConstant = parsed(alloc, CALL)?;
    prints::<Expr>(alloc, deferred.open()?, CALL_PRINTED)
}

#[test]
fn deferred_trees(rt: HostRuntime) {
    let alloc = rt.alloc();
    assert_right(&rt, is_deferred(alloc), is_deferred(alloc));
    assert_right(&rt, is_made_by_hand(alloc), is_made_by_hand(alloc));
    assert_right(&rt, is_opened(alloc), is_opened(alloc));
}

/// Whether a parse that is refused for lack of memory leaves its buffer, and the next one is right.
fn parse_leaves(alloc: Global) -> Result<bool> {
    let tokens = read_tokens(alloc, STRUCT)?;
    let mut input = ParseBuffer::new(&tokens);
    match input.parse::<DeriveInput>() {
        Ok(_) => Ok(input.is_empty()),
        Err(error) => {
            let is_left = error.is_memory() && input.span() == span(0, 3);
            Ok(is_left && input.parse::<DeriveInput>().is_ok() && input.is_empty())
        }
    }
}

/// Whether nothing is read where the copy of what is left is refused.
fn rest_leaves(alloc: Global) -> Result<bool> {
    let tokens = read_tokens(alloc, STRUCT)?;
    let mut input = ParseBuffer::new(&tokens);
    match input.rest() {
        Ok(_) => Ok(input.is_empty()),
        Err(error) => {
            let is_left = error.is_memory() && input.span() == span(0, 3);
            Ok(is_left && input.rest()? == tokens)
        }
    }
}

#[test]
fn buffers(rt: HostRuntime) {
    let alloc = rt.alloc();
    assert_right(&rt, parse_leaves(alloc), parse_leaves(alloc));
    assert_right(&rt, rest_leaves(alloc), rest_leaves(alloc));
}

/// Whether a refused print leaves the stream, which is `x`, as it was, and the next one is right.
fn is_appended<T: ToTokens>(tree: &T, tokens: &mut TokenStream) -> Result<bool> {
    if let Err(error) = tree.to_tokens(tokens) {
        let is_left = error.is_memory() && is_text(tokens, "x")?;
        tree.to_tokens(tokens)?;
        return Ok(is_left && tokens.len() == 3);
    }
    is_text(tokens, "x pub ( in a :: b )")
}

fn print_leaves(alloc: Global) -> Result<bool> {
    let mut tokens = read_tokens(alloc, "x")?;
    let tree: Visibility = parsed(alloc, "pub(in a::b)")?;
    is_appended(&tree, &mut tokens)
}

/// Whether a refused push leaves the stream, which holds so many trees, as it was, and the next one is right.
fn is_pushed(tokens: &mut TokenStream, count: usize) -> Result<bool> {
    if let Err(error) = push_ident(tokens, "a") {
        let is_left = error.is_memory() && tokens.len() == count;
        push_ident(tokens, "a")?;
        return Ok(is_left);
    }
    Ok(true)
}

fn push_leaves(alloc: Global) -> Result<bool> {
    let mut tokens = TokenStream::new(alloc);
    for count in 0..12 {
        if !is_pushed(&mut tokens, count)? {
            return Ok(false);
        }
    }
    Ok(tokens.len() == 12)
}

#[test]
fn streams(rt: HostRuntime) {
    let alloc = rt.alloc();
    assert_right(&rt, print_leaves(alloc), print_leaves(alloc));
    assert_right(&rt, push_leaves(alloc), push_leaves(alloc));
}

/// Whether refused pushes leave a list as it was.
fn list_keeps(alloc: Global) -> Result<bool> {
    let mut list: Punctuated<usize, char> = Punctuated::new(alloc);
    for count in 0..12 {
        if !list.empty_or_trailing() {
            return Ok(false);
        }
        if list.push_pair(count, ',').is_err() {
            if list.len() != count || !list.empty_or_trailing() {
                return Ok(false);
            }
            list.push_pair(count, ',')?;
        }
    }
    if !list.empty_or_trailing() {
        return Ok(false);
    }
    if list.push_value(12).is_err() {
        return Ok(list.len() == 12 && list.trailing_punct());
    }
    Ok(list.len() == 13 && list.iter().copied().eq(0..13))
}

#[test]
fn lists(rt: HostRuntime) {
    assert_right(&rt, list_keeps(rt.alloc()), list_keeps(rt.alloc()));
}

fn is_ident_made(alloc: Global) -> Result<bool> {
    let ident = Ident::new(alloc, "r#a", span(0, 1))?;
    Ok(ident.text() == "r#a" && is_equal_copied(alloc, ident)?)
}

fn is_literal_made(alloc: Global) -> Result<bool> {
    let literal = Literal::new(alloc, LitKind::Char, "'a'", span(0, 1))?;
    Ok(literal.text() == "'a'" && is_equal_copied(alloc, literal)?)
}

/// Whether the result is a fault and no lack of memory.
fn is_fault<T>(answer: &Result<T>) -> bool {
    matches!(answer, Err(error) if !error.is_memory())
}

/// A text that is no identifier is refused by a fault, whatever memory there is.
#[test]
fn leaves(rt: HostRuntime) {
    let alloc = rt.alloc();
    assert_right(&rt, is_ident_made(alloc), is_ident_made(alloc));
    assert_right(&rt, is_literal_made(alloc), is_literal_made(alloc));
    for text in ["", "1a", "a-b", "r#"] {
        assert!(rt; is_fault(&Ident::new(alloc, text, span(0, 1))), "{text}");
    }
}
