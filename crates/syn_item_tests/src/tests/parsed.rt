//! The fields of what was parsed, the words of refusals, and parsers that no type is read by.
use crate::tests::support::{part, tokens, value};
use std::alloc::Global;
use std::process::Abort;
use syn_item::function::ItemFn;
use syn_item::item::Item;
use syn_item::sig::{
    FnArg, Receiver, ReceiverKind, SafeOrUnsafe, Safety, Signature, UnsafeOnly, foreign_signature,
};
use syn_item::simple::{
    ItemConst, ItemMod, ItemType, ItemUse, StaticMutability, WhereClausePlacement,
};
use syn_item::use_tree::{UseName, UseTree};
use syn_parse::buffer::ParseBuffer;
use syn_parse::limits::{STACK, USE_TREE};
use syn_parse::parse::Parse;
use syn_pat::Pat;
use syn_tokens::error::Result;
use syn_tokens::span::Span;
use syn_whole::parse::parse2;

/// Every part of a function has its field.
#[test]
fn function(rt: HostRuntime) {
    let alloc = rt.alloc();
    let text =
        "#[a] pub async unsafe extern \"C\" fn f<T>(&'b mut self, x: T) -> u8 where T: C { #![d] x }";
    let item: ItemFn = part(&rt, alloc, text);
    assert_eq!(rt; item.attrs.len(), 2);
    let sig = &item.sig;
    assert!(rt; sig.constness.is_none() && sig.asyncness.is_some());
    assert!(rt; matches!(sig.safety, Safety::Unsafe(_)));
    assert!(rt; matches!(&sig.abi, Some(abi) if abi.name.is_some()));
    assert_eq!(rt; sig.ident.text(), "f");
    assert_eq!(rt; sig.generics.params.len(), 1);
    assert!(rt; sig.generics.where_clause.is_some());
    assert_eq!(rt; sig.inputs.len(), 2);
    assert!(rt; sig.variadic.is_none());
}

/// Where a parameter without a name begins, its `_` and its `:` are.
#[test]
fn nameless_parameter(rt: HostRuntime) {
    let sig: Signature = part(&rt, rt.alloc(), "fn f( #[a] A<B>)");
    let want = Span { start: 11, end: 12 };
    let Some(FnArg::Typed(typed)) = sig.inputs.first() else {
        panic!(rt; "no parameter with a type");
    };
    assert_eq!(rt; typed.attrs.len(), 1);
    assert_eq!(rt; typed.colon_token.spans[0], want);
    let Pat::Wild(wild) = &*typed.pat else {
        panic!(rt; "another pattern");
    };
    assert_eq!(rt; wild.underscore_token.span, want);
}

/// A variadic parameter is none of the inputs, and keeps its name and its comma.
#[test]
fn variadic(rt: HostRuntime) {
    let sig: Signature = part(&rt, rt.alloc(), "fn f(a: u8, #[b] c: ...,)");
    assert_eq!(rt; sig.inputs.len(), 1);
    assert!(rt; sig.inputs.trailing_punct());
    let Some(variadic) = &sig.variadic else {
        panic!(rt; "no variadic parameter");
    };
    assert_eq!(rt; variadic.attrs.len(), 1);
    assert!(rt; variadic.pat.is_some() && variadic.comma.is_some());
    let sig: Signature = part(&rt, rt.alloc(), "fn f(...)");
    assert!(rt; matches!(&sig.variadic, Some(last) if last.pat.is_none() && last.comma.is_none()));
}

/// The first parameter is the receiver, or there is none.
#[test]
fn receiver_of_signature(rt: HostRuntime) {
    let alloc = rt.alloc();
    let sig: Signature = part(&rt, alloc, "fn f(#[a] &mut self, b: u8)");
    let Some(receiver) = sig.receiver() else {
        panic!(rt; "no receiver");
    };
    assert_eq!(rt; receiver.attrs.len(), 1);
    assert!(rt; receiver.mutability.is_none());
    assert!(rt; matches!(&receiver.kind, ReceiverKind::Reference(_, None, Some(_))));
    let sig: Signature = part(&rt, alloc, "fn f(a: u8)");
    assert!(rt; sig.receiver().is_none());
    let sig: Signature = part(&rt, alloc, "fn f()");
    assert!(rt; sig.receiver().is_none());
}

/// A where clause is before `=` or after the type; where there is none, its place is before it.
#[test]
fn placement(rt: HostRuntime) {
    let alloc = rt.alloc();
    let early: ItemType = part(&rt, alloc, "type A where T: B = C;");
    assert!(rt; matches!(early.where_clause_placement, WhereClausePlacement::Early));
    assert!(rt; early.generics.where_clause.is_some());
    let late: ItemType = part(&rt, alloc, "type A = C where;");
    assert!(rt; matches!(late.where_clause_placement, WhereClausePlacement::Late));
    assert!(rt; late.generics.where_clause.is_some());
    let none: ItemType = part(&rt, alloc, "type A = C;");
    assert!(rt; matches!(none.where_clause_placement, WhereClausePlacement::Early));
    assert!(rt; none.generics.where_clause.is_none());
}

/// A module has the inner attributes after the outer ones, and either braces or a semicolon.
#[test]
fn modules(rt: HostRuntime) {
    let alloc = rt.alloc();
    let braced: ItemMod = part(&rt, alloc, "#[a] unsafe mod b { #![c] struct D; }");
    assert_eq!(rt; braced.attrs.len(), 2);
    assert!(rt; braced.unsafety.is_some() && braced.content.is_some() && braced.semi.is_none());
    let plain: ItemMod = part(&rt, alloc, "mod b;");
    assert!(rt; plain.unsafety.is_none() && plain.content.is_none() && plain.semi.is_some());
}

/// Which safety `parse_safe_or_unsafe` parses from a text, and whether something is left.
fn either(rt: &impl Abort, alloc: Global, text: &str) -> (Safety, bool) {
    let tokens = tokens(rt, alloc, text);
    let mut input = ParseBuffer::new(&tokens);
    let safety = value(rt, Safety::parse_safe_or_unsafe(&mut input));
    (safety, !input.is_empty())
}

/// The same of `parse_unsafe_only`.
fn unsafe_only(rt: &impl Abort, alloc: Global, text: &str) -> (Safety, bool) {
    let tokens = tokens(rt, alloc, text);
    let mut input = ParseBuffer::new(&tokens);
    let safety = value(rt, Safety::parse_unsafe_only(&mut input));
    (safety, !input.is_empty())
}

/// `safe` and `unsafe` are read where they are next, and else nothing.
#[test]
fn safe_or_unsafe(rt: HostRuntime) {
    let alloc = rt.alloc();
    assert!(rt; matches!(either(&rt, alloc, "safe"), (Safety::Safe(_), false)));
    assert!(rt; matches!(either(&rt, alloc, "unsafe fn"), (Safety::Unsafe(_), true)));
    assert!(rt; matches!(either(&rt, alloc, "fn"), (Safety::Default, true)));
    assert!(rt; matches!(either(&rt, alloc, ""), (Safety::Default, false)));
    let wrapped: SafeOrUnsafe = part(&rt, alloc, "safe");
    assert!(rt; matches!(wrapped.0, Safety::Safe(_)));
}

/// `unsafe` alone is read where it is next, and else nothing.
#[test]
fn only_unsafe(rt: HostRuntime) {
    let alloc = rt.alloc();
    assert!(rt; matches!(unsafe_only(&rt, alloc, "safe"), (Safety::Default, true)));
    assert!(rt;
        matches!(
            unsafe_only(&rt, alloc, "unsafe"),
            (Safety::Unsafe(_), false)
        )
    );
    assert!(rt; matches!(unsafe_only(&rt, alloc, "(unsafe)"), (Safety::Default, true)));
    let wrapped: UnsafeOnly = part(&rt, alloc, "unsafe");
    assert!(rt; matches!(wrapped.0, Safety::Unsafe(_)));
}

/// Whether `StaticMutability::parse` finds `mut` in a text, and whether something is left.
fn finds_mut(rt: &impl Abort, alloc: Global, text: &str) -> (bool, bool) {
    let tokens = tokens(rt, alloc, text);
    let mut input = ParseBuffer::new(&tokens);
    let mutability = value(rt, StaticMutability::parse(&mut input));
    (
        matches!(mutability, StaticMutability::Mut(_)),
        !input.is_empty(),
    )
}

/// `mut` is read where it is next, and else nothing; it is never refused.
#[test]
fn static_mutability(rt: HostRuntime) {
    let alloc = rt.alloc();
    assert_eq!(rt; finds_mut(&rt, alloc, "mut"), (true, false));
    assert_eq!(rt; finds_mut(&rt, alloc, "mut a"), (true, true));
    assert_eq!(rt; finds_mut(&rt, alloc, "(mut)"), (false, true));
    assert_eq!(rt; finds_mut(&rt, alloc, ""), (false, false));
}

/// By default neither `safe` nor `unsafe` is present.
#[test]
fn default_safety(rt: HostRuntime) {
    assert!(rt; matches!(Safety::default(), Safety::Default));
}

/// A foreign signature may be `safe`, and no other.
#[test]
fn foreign(rt: HostRuntime) {
    let alloc = rt.alloc();
    let tokens = tokens(&rt, alloc, "safe extern fn f(a: u8, ...) -> u8;");
    let mut input = ParseBuffer::new(&tokens);
    let Ok(sig) = foreign_signature(&mut input) else {
        panic!(rt; "no foreign signature");
    };
    assert!(rt; matches!(sig.safety, Safety::Safe(_)));
    assert!(rt; sig.variadic.is_some() && !input.is_empty());
}

/// Fails where the text isn't refused as a `T` with these words.
fn assert_words<T: Parse + Drop>(rt: &impl Abort, alloc: Global, text: &str, want: &str) {
    let answer: Result<T> = parse2(tokens(rt, alloc, text));
    match answer {
        Ok(_) => panic!(rt; "{text:?} is read"),
        Err(error) => {
            let start = error.span().start;
            let words = value(
                rt,
                format!(in alloc; "{start}: {error}").map_err(|e| e.into()),
            );
            assert_eq!(rt; words.as_str(), want);
        }
    }
}

/// The message, if it says more than that something is unexpected.
#[test]
fn words(rt: HostRuntime) {
    let alloc = rt.alloc();
    let late = "12: unexpected method receiver";
    assert_words::<Signature>(&rt, alloc, "fn f(a: u8, self)", late);
    let second = "12: unexpected second method receiver";
    assert_words::<Signature>(&rt, alloc, "fn f(self, &self)", second);
    let third = "19: unexpected second method receiver";
    assert_words::<Signature>(&rt, alloc, "fn f(self, a: u8, &self)", third);
    assert_words::<Receiver>(&rt, alloc, "mut self::A", "8: expected `:`");
    let rename = "9: expected identifier or underscore";
    assert_words::<ItemUse>(&rt, alloc, "use a as 1;", rename);
    assert_words::<ItemUse>(&rt, alloc, "use {a, ::b};", "12: unexpected token");
    let renames = "14: expected identifier or underscore";
    assert_words::<ItemUse>(&rt, alloc, "use {a, ::b as};", renames);
}

/// A kind of items becomes an item, and a word a tree of a use.
#[test]
fn conversions(rt: HostRuntime) {
    let alloc = rt.alloc();
    let item: ItemConst = part(&rt, alloc, "const A: u8 = 1;");
    assert!(rt; matches!(Item::from(item), Item::Const(_)));
    let item: ItemFn = part(&rt, alloc, "fn f() {}");
    assert!(rt; matches!(Item::from(item), Item::Fn(_)));
    let name = UseName {
        ident: part(&rt, alloc, "a"),
    };
    assert!(rt; matches!(UseTree::from(name), UseTree::Name(_)));
    let receiver: Receiver = part(&rt, alloc, "self");
    assert!(rt; matches!(FnArg::from(receiver), FnArg::Receiver(_)));
}

/// Trees of a use may be nested so deep, and one more is refused where it begins.
#[test]
fn deep_uses(rt: HostRuntime) {
    let alloc = rt.alloc();
    let mut text = String::new(alloc);
    for _ in 1..STACK / USE_TREE {
        value(&rt, text.push_str("a::").map_err(|e| e.into()));
    }
    let mut longer = value(
        &rt,
        String::from_str(alloc, text.as_str()).map_err(|e| e.into()),
    );
    value(&rt, text.push_str("b").map_err(|e| e.into()));
    let _tree: UseTree = part(&rt, alloc, text.as_str());
    value(&rt, longer.push_str("a::b").map_err(|e| e.into()));
    let answer: Result<UseTree> = parse2(tokens(&rt, alloc, longer.as_str()));
    let start = (STACK / USE_TREE) as usize * "a::".len();
    assert!(rt;
        matches!(answer, Err(error) if error.is_too_deep() && !error.is_memory() && error.span().start == start)
    );
}
