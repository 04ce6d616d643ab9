//! The modifiers of items, fields and statements: none by default, and what is refused of those that are there.
use crate::tests::asserts::{assert_equals_copy, assert_text};
use std::alloc::{AllocError, Global};
use std::fmt::Write as _;
use std::process::Abort;
use syn::data::FieldModifiers;
use syn::item::{ConstModifiers, FnModifiers, ImplModifiers, TraitModifiers, TypeModifiers};
use syn::stmt::LocalModifiers;
use syn::token::{self, Auto, Const, Not};
use syn::{Fault, Result};
use syn_test_support::span;

/// Adds where one fault is, and its text.
fn add_fault(text: &mut String, fault: &Fault) -> std::result::Result<(), AllocError> {
    write!(text, "{}: {};", fault.span.start, fault.text)
}

/// The faults of the result; `ok` where there are none.
fn faults(alloc: Global, answer: &Result<()>) -> std::result::Result<String, AllocError> {
    let mut text = String::new(alloc);
    match answer {
        Ok(()) => text.push_str("ok")?,
        Err(error) => {
            for fault in error.faults() {
                add_fault(&mut text, fault)?;
            }
        }
    }
    Ok(text)
}

/// Fails where the result has other faults.
fn assert_faults(rt: &impl Abort, alloc: Global, answer: Result<()>, want: &str) {
    assert_text(rt, faults(alloc, &answer), want);
}

/// `default` at this place.
fn default_at(start: usize, end: usize) -> Option<token::Default> {
    Some(token::Default::new(span(start, end)))
}

#[test]
fn absent(rt: HostRuntime) {
    assert!(rt;
        FieldModifiers::default().require_empty().is_ok()
            && LocalModifiers::default().require_empty().is_ok()
            && ConstModifiers::default().require_empty().is_ok()
            && FnModifiers::default().require_empty().is_ok()
            && TypeModifiers::default().require_empty().is_ok()
            && ImplModifiers::default().require_empty().is_ok()
            && TraitModifiers::default().require_empty().is_ok()
    );
}

/// Of what has no modifiers one is as another.
#[test]
fn of_fields_and_statements(rt: HostRuntime) {
    assert_equals_copy(&rt, rt.alloc(), FieldModifiers::default());
    assert_equals_copy(&rt, rt.alloc(), LocalModifiers::default());
}

/// `const` at this place.
fn const_at(start: usize, end: usize) -> Option<Const> {
    Some(Const::new(span(start, end)))
}

/// An `impl` with a `!` at 3, a `default` at 9 and a `const` at 6, or with some of these.
fn of_impl(defaultness: bool, polarity: bool, constness: bool) -> ImplModifiers {
    ImplModifiers {
        defaultness: if defaultness { default_at(9, 16) } else { None },
        constness: if constness { const_at(6, 11) } else { None },
        polarity: if polarity {
            Some(Not::new([span(3, 4)]))
        } else {
            None
        },
    }
}

/// Each is reported: `default` before `!`, and `const` after both.
#[test]
fn of_impls(rt: HostRuntime) {
    for (defaultness, polarity, constness, want) in [
        (false, false, false, "ok"),
        (true, false, false, "9: unexpected impl modifier;"),
        (false, true, false, "3: unexpected impl modifier;"),
        (false, false, true, "6: unexpected impl modifier;"),
        (
            true,
            true,
            false,
            "9: unexpected impl modifier;3: unexpected impl modifier;",
        ),
        (
            true,
            false,
            true,
            "9: unexpected impl modifier;6: unexpected impl modifier;",
        ),
        (
            true,
            true,
            true,
            "9: unexpected impl modifier;3: unexpected impl modifier;6: unexpected impl modifier;",
        ),
    ] {
        let answer = of_impl(defaultness, polarity, constness).require_empty();
        assert_faults(&rt, rt.alloc(), answer, want);
    }
}

/// `auto` is reported before `const`.
#[test]
fn of_traits(rt: HostRuntime) {
    let both = TraitModifiers {
        constness: const_at(2, 7),
        auto_token: Some(Auto::new(span(4, 8))),
    };
    let want = "4: unexpected trait modifier;2: unexpected trait modifier;";
    assert_faults(&rt, rt.alloc(), both.require_empty(), want);
}

#[test]
fn of_others(rt: HostRuntime) {
    let alloc = rt.alloc();
    let constant = ConstModifiers {
        defaultness: default_at(1, 8),
    };
    let want = "1: unexpected const item modifier;";
    assert_faults(&rt, alloc, constant.require_empty(), want);
    let function = FnModifiers {
        defaultness: default_at(2, 9),
    };
    let want = "2: unexpected function modifier;";
    assert_faults(&rt, alloc, function.require_empty(), want);
    let alias = TypeModifiers {
        defaultness: default_at(3, 10),
    };
    let want = "3: unexpected type alias modifier;";
    assert_faults(&rt, alloc, alias.require_empty(), want);
    let auto = TraitModifiers {
        constness: None,
        auto_token: Some(Auto::new(span(4, 8))),
    };
    let want = "4: unexpected trait modifier;";
    assert_faults(&rt, alloc, auto.require_empty(), want);
}
