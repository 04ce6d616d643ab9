//! The message and the place of a refusal that depends on more than one token.
use crate::tests::support::{assert_text, fault, list_fault};
use std::alloc::Global;
use std::process::Abort;
use syn_recognize::Rule;

/// A text, and the fault that it is refused with.
type Refused = (&'static str, &'static str);

/// Fails where a text that the rule is to read is refused in another way.
fn assert_faults(rt: &impl Abort, alloc: Global, rule: Rule, table: &[Refused]) {
    for (text, want) in table {
        assert_text(rt, fault(alloc, rule, text), want);
    }
}

const USES: &[Refused] = &[
    ("use a as 1;", "9: expected identifier or underscore"),
    ("use a as;", "8: expected identifier or underscore"),
    ("use a as", "8: expected identifier or underscore"),
    ("use a as as;", "9: expected identifier or underscore"),
    (
        "use a::{b, {c as}};",
        "16: expected identifier or underscore",
    ),
    (
        "use {::a, b as 1};",
        "15: expected identifier or underscore",
    ),
    (
        "fn f() { { use a as 1; } }",
        "20: expected identifier or underscore",
    ),
    // `as` in other places
    ("extern crate a as 1;", "18: expected identifier"),
    ("fn f() { use a; { b as 1 } }", "23: expected identifier"),
    (
        "fn f() { use a; let b: <C as 1>::D; }",
        "29: expected identifier",
    ),
    // other words of a use
    ("use as 1;", "4: expected identifier"),
    ("use a::1;", "7: expected identifier"),
];

/// A use renames to an identifier or `_`.
#[test]
fn renames(rt: HostRuntime) {
    assert_faults(&rt, rt.alloc(), Rule::ITEM, USES);
}

const RECEIVERS: &[Refused] = &[
    ("self::X", "4: expected `:`"),
    ("mut self::X", "8: expected `:`"),
    ("& 'a mut self ::", "14: expected `:`"),
    ("self self", "5: unexpected token"),
    ("self: A ::<B> :: C d", "19: unexpected token"),
    ("self: (self)::X", "12: unexpected token"),
    ("#[a] self::X", "0: unexpected token"),
];

/// A path isn't a receiver, whatever it begins with.
#[test]
fn receivers_alone(rt: HostRuntime) {
    assert_faults(&rt, rt.alloc(), Rule::RECEIVER, RECEIVERS);
}

const ARGUMENTS: &[Refused] = &[
    ("fn f(a: u8, self)", "12: unexpected method receiver"),
    (
        "fn f(a: A<B, C>, #[d] #[e] & 'a mut self)",
        "36: unexpected method receiver",
    ),
    (
        "fn f<T: Fn(A) -> B<C>>(a: u8, mut self: T)",
        "34: unexpected method receiver",
    ),
    ("fn f(A<B>, self, self)", "11: unexpected method receiver"),
    ("fn f(self::A: u8, self)", "18: unexpected method receiver"),
    (
        "fn f(a: [u8; { fn g(self, self) {} }], self)",
        "26: unexpected second method receiver",
    ),
    ("fn f(self, self)", "11: unexpected second method receiver"),
    (
        "fn f(#[a] &self, b: u8, &self)",
        "25: unexpected second method receiver",
    ),
    (
        "fn f(/** a */ self: A, /** b */ mut self)",
        "36: unexpected second method receiver",
    ),
    // what is no receiver, and no argument
    ("fn f(a: u8, &self::X)", "12: unexpected token"),
    ("fn f(a: u8 self)", "11: unexpected token"),
    ("fn f(self self)", "10: unexpected token"),
    ("fn f(a: Fn(A, &self b))", "20: unexpected token"),
    ("fn f(a: u8, ..., self)", "17: unexpected token"),
    ("fn f(a: u8, b: ..., self)", "20: unexpected token"),
    ("fn f<T: Fn(A, &self b)>()", "20: unexpected token"),
    ("fn f(a: [u8; { g(a, self b) }])", "25: unexpected token"),
];

/// A receiver is first.
#[test]
fn receivers_among_arguments(rt: HostRuntime) {
    assert_faults(&rt, rt.alloc(), Rule::SIGNATURE, ARGUMENTS);
}

const IMPLS: &[Refused] = &[
    ("impl !A {}", "5: inherent impls cannot be negative"),
    ("impl !A", "5: inherent impls cannot be negative"),
    (
        "#[a] const impl<T: Fn() -> u8> !A<T> where {}",
        "31: inherent impls cannot be negative",
    ),
    ("impl !&A {}", "5: inherent impls cannot be negative"),
    ("impl &A for B {}", "5: expected trait path"),
    (
        "unsafe impl<T: for<'a> X<'a>> (A) for B {}",
        "30: expected trait path",
    ),
    (
        "impl [A; { for x in y {} }] for B {}",
        "5: expected trait path",
    ),
    ("impl !&A for B {}", "6: expected trait path"),
    ("impl ![A] for B {}", "6: expected trait path"),
    // where `<` begins generics, and where a type
    ("impl<> <T>::A for B {}", "7: expected trait path"),
    ("impl<T> <T>::A for B {}", "8: expected trait path"),
    ("impl<'a: 'b> &'a A for B {}", "13: expected trait path"),
    ("impl<#[a] T> &A for B {}", "13: expected trait path"),
    ("impl<const N: u8> &A for B {}", "18: expected trait path"),
    ("impl <T as X>::A for B {}", "5: expected trait path"),
    ("impl <T::B>::A for B {}", "5: expected trait path"),
    ("impl <T<A>>::B for C {}", "5: expected trait path"),
    ("impl <T(A)>::B for C {}", "5: expected trait path"),
    // where a `for` follows more than a type, and where something else follows a type
    ("impl A for B for C {}", "13: expected curly braces"),
    ("impl &A where T: X for B {}", "19: expected curly braces"),
    ("impl (A) b for C {}", "9: expected curly braces"),
    ("impl !1 {}", "6: expected identifier"),
    ("impl !A<{ 'a: x }> for B {}", "14: expected `for`"),
    ("impl A { fn f() { 'a: x } }", "22: expected `for`"),
    (
        "impl A { fn f() { impl !B {} } }",
        "23: inherent impls cannot be negative",
    ),
    (
        "impl A { fn f() { impl &B for C for D {} } }",
        "32: expected curly braces",
    ),
];

/// An impl is of a trait if there is `for`, and a negative one always.
#[test]
fn traits_of_impls(rt: HostRuntime) {
    assert_faults(&rt, rt.alloc(), Rule::IMPL_DEFINITION, IMPLS);
}

/// A list of items says the same.
#[test]
fn faults_of_a_list(rt: HostRuntime) {
    let found = list_fault(rt.alloc(), "use a; mod b { use c as 1; }");
    assert_text(&rt, found, "24: expected identifier or underscore");
    let found = list_fault(rt.alloc(), "impl A {} impl !B {}");
    assert_text(&rt, found, "15: inherent impls cannot be negative");
    let found = list_fault(rt.alloc(), "fn f(self, &self) {}");
    assert_text(&rt, found, "12: unexpected second method receiver");
}
