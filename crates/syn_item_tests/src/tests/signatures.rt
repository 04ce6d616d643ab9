//! Signatures.
use crate::tests::support::{assert_differ, assert_tree, generics, name, part, value};
use std::alloc::Global;
use std::process::Abort;
use syn_item::sig::{Abi, FnArg, Receiver, ReceiverKind, Safety, Signature, Variadic};
use syn_lower::Type;
use syn_pat::{Pat, PatType};
use syn_tokens::error::Error;
use syn_tokens::punctuated::Punctuated;
use syn_tokens::span::Span;
use syn_tokens::token::{Comma, Paren};

/// A parameter of this name and type.
fn typed(rt: &impl Abort, alloc: Global, pat: &str, ty: &str) -> FnArg {
    let pat: Box<Pat> = part(rt, alloc, pat);
    FnArg::Typed(PatType {
        attrs: Vec::new(alloc),
        pat,
        colon_token: part(rt, alloc, ":"),
        ty: part(rt, alloc, ty),
    })
}

/// A receiver of this kind, with `mut` before it or without.
fn receiver(rt: &impl Abort, alloc: Global, kind: ReceiverKind, is_mut: bool) -> Receiver {
    Receiver {
        attrs: Vec::new(alloc),
        mutability: if is_mut {
            Some(part(rt, alloc, "mut"))
        } else {
            None
        },
        self_token: part(rt, alloc, "self"),
        kind,
    }
}

/// `&'a mut`, around a receiver.
fn reference(rt: &impl Abort, alloc: Global) -> ReceiverKind {
    let mutability = Some(part(rt, alloc, "mut"));
    ReceiverKind::Reference(
        part(rt, alloc, "&"),
        Some(part(rt, alloc, "'a")),
        mutability,
    )
}

/// A list of one parameter, without a comma after it.
fn one_input(rt: &impl Abort, alloc: Global) -> Punctuated<FnArg, Comma> {
    let mut inputs = Punctuated::new(alloc);
    let pushed = inputs.push_value(typed(rt, alloc, "a", "u8"));
    value(rt, pushed.map_err(Error::from));
    inputs
}

/// A signature of these parameters.
pub fn signature(
    rt: &impl Abort,
    alloc: Global,
    inputs: Punctuated<FnArg, Comma>,
    variadic: Option<Variadic>,
) -> Signature {
    Signature {
        constness: None,
        asyncness: None,
        safety: Safety::Unsafe(part(rt, alloc, "unsafe")),
        abi: Some(Abi {
            extern_token: part(rt, alloc, "extern"),
            name: Some(part(rt, alloc, "\"C\"")),
        }),
        fn_token: part(rt, alloc, "fn"),
        ident: name(rt, alloc, "f"),
        generics: generics(rt, alloc, "<T>", "where T: A"),
        paren_token: Paren::new(Span::call_site(), Span::call_site()),
        inputs,
        variadic,
        output: part(rt, alloc, "-> T"),
    }
}

/// `...`, followed by a comma.
fn variadic(rt: &impl Abort, alloc: Global) -> Variadic {
    Variadic {
        attrs: Vec::new(alloc),
        pat: Some((part(rt, alloc, "args"), part(rt, alloc, ":"))),
        dots: part(rt, alloc, "..."),
        comma: Some(part(rt, alloc, ",")),
    }
}

/// The where clause follows the return type.
#[test]
fn whole(rt: HostRuntime) {
    let alloc = rt.alloc();
    let signature = signature(&rt, alloc, one_input(&rt, alloc), None);
    let want = "unsafe extern \"C\" fn f < T > ( a : u8 ) -> T where T : A";
    assert_tree(&rt, alloc, signature, want);
}

/// A comma is added before a variadic parameter.
#[test]
fn comma_before_variadic(rt: HostRuntime) {
    let alloc = rt.alloc();
    let last = Some(variadic(&rt, alloc));
    let signature = signature(&rt, alloc, one_input(&rt, alloc), last);
    let want = "unsafe extern \"C\" fn f < T > ( a : u8 , args : ... , ) -> T where T : A";
    assert_tree(&rt, alloc, signature, want);
}

/// Before a variadic parameter alone there is none.
#[test]
fn variadic_alone(rt: HostRuntime) {
    let alloc = rt.alloc();
    let last = Some(variadic(&rt, alloc));
    let signature = signature(&rt, alloc, Punctuated::new(alloc), last);
    let want = "unsafe extern \"C\" fn f < T > ( args : ... , ) -> T where T : A";
    assert_tree(&rt, alloc, signature, want);
}

/// Of a receiver by reference the `mut` before `self` isn't printed.
#[test]
fn receivers(rt: HostRuntime) {
    let alloc = rt.alloc();
    let by_reference = receiver(&rt, alloc, reference(&rt, alloc), true);
    assert_tree(&rt, alloc, by_reference, "& 'a mut self");
    let by_value = receiver(&rt, alloc, ReceiverKind::Value, true);
    assert_tree(&rt, alloc, FnArg::Receiver(by_value), "mut self");
    let ty: Box<Type> = part(&rt, alloc, "Box<Self>");
    let typed = ReceiverKind::Typed(part(&rt, alloc, ":"), ty);
    let typed = receiver(&rt, alloc, typed, false);
    assert_tree(&rt, alloc, typed, "self : Box < Self >");
}

/// Two receivers differ also by what is never printed.
#[test]
fn unlike_receivers(rt: HostRuntime) {
    let alloc = rt.alloc();
    let one = receiver(&rt, alloc, reference(&rt, alloc), true);
    let other = receiver(&rt, alloc, reference(&rt, alloc), false);
    assert_differ(&rt, one, other);
    let receiver = receiver(&rt, alloc, ReceiverKind::Value, false);
    assert_differ(&rt, FnArg::Receiver(receiver), typed(&rt, alloc, "a", "u8"));
}
