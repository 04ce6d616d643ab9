//! What tests assert, and how they take their values.
//!
//! Each test is proved, and a proof grows with every way out of a function and with what is owned there. So a test returns
//! nothing: it takes its values by `value`, and hands trees to functions that assert, which are proved once for trees of all
//! types. Where memory is refused, the test fails with that error.
use std::alloc::Global;
use std::fmt::Debug;
use std::process::Abort;
use syn::parse::Parse;
use syn::reader::read_tokens;
use syn::token::{Delimiter, Span, TokenStream};
use syn::{Error, ToTokens, TryClone};
use syn_test_support::{parsed, print_shown, printed, push_group};

/// What the result holds. A refusal fails the test, and is shown.
pub fn value<T, E: Debug>(rt: &impl Abort, answer: Result<T, E>) -> T {
    answer.expect(rt, "an answer")
}

/// Where the result is refused as nested too deep. Any other result fails the test, and where it is refused it is shown.
pub fn too_deep_at<T: Drop>(rt: &impl Abort, answer: Result<T, Error>) -> Span {
    match answer {
        Ok(_value) => panic!(rt; "not refused as nested too deeply"),
        Err(error) => {
            if error.is_too_deep() && !error.is_memory() {
                return error.span();
            }
            value(rt, Err(error))
        }
    }
}

/// What the whole text is parsed as.
pub fn tree_of<T: Parse + Drop>(rt: &impl Abort, alloc: Global, text: &str) -> T {
    value(rt, parsed(alloc, text))
}

/// The tokens of the text.
pub fn tokens_of(rt: &impl Abort, alloc: Global, text: &str) -> TokenStream {
    value(rt, read_tokens(alloc, text))
}

/// The tokens of a text, and after them a group that holds those of another.
pub fn grouped(
    rt: &impl Abort,
    alloc: Global,
    before: &str,
    delimiter: Delimiter,
    inside: &str,
) -> TokenStream {
    let mut tokens = tokens_of(rt, alloc, before);
    let content = tokens_of(rt, alloc, inside);
    value(rt, push_group(&mut tokens, delimiter, content));
    tokens
}

/// Fails where the text isn't what it should be.
pub fn assert_text<E: Debug>(rt: &impl Abort, found: Result<String, E>, want: &str) {
    assert_eq!(rt; value(rt, found).as_str(), want);
}

/// Fails where what came of a text isn't what it should be.
pub fn assert_text_of<E: Debug>(rt: &impl Abort, text: &str, found: Result<String, E>, want: &str) {
    assert_eq!(rt; value(rt, found).as_str(), want, "of {text:?}");
}

/// Fails where the tree prints something else.
pub fn assert_printed<T: ToTokens + Drop>(rt: &impl Abort, alloc: Global, tree: T, want: &str) {
    assert_text(rt, printed(alloc, &tree), want);
}

/// Fails where something else shows the tokens that the tree prints.
pub fn assert_print_shown<T: ToTokens + Drop>(rt: &impl Abort, alloc: Global, tree: T, want: &str) {
    assert_text(rt, print_shown(alloc, &tree), want);
}

/// Fails where the tree's copy prints something else.
pub fn assert_copy_printed<T: ToTokens + TryClone + Drop>(
    rt: &impl Abort,
    alloc: Global,
    tree: T,
    want: &str,
) {
    let copy = value(rt, tree.try_clone(alloc));
    assert_printed(rt, alloc, copy, want);
}

/// Fails where the tree isn't equal to its copy.
pub fn assert_equals_copy<T: TryClone + PartialEq + Drop>(rt: &impl Abort, alloc: Global, tree: T) {
    assert!(rt; value(rt, tree.try_clone(alloc)) == tree);
}

/// Fails where the trees are equal and shouldn't be, or the other way round.
pub fn assert_equality<T: PartialEq + Drop>(rt: &impl Abort, left: T, right: T, want: bool) {
    assert!(rt; (left == right) == want, "not {want}");
}
