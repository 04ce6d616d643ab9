//! The fields of structs from both ends, and what they are called: names and places, their copies, equality and prints.
use crate::tests::asserts::{assert_printed, assert_text, assert_text_of, tree_of, value};
use std::alloc::{AllocError, Global};
use std::fmt::Write as _;
use std::process::Abort;
use syn::TryClone;
use syn::data::{Field, Fields, Index, MemberRef, Members};
use syn::item::ItemStruct;
use syn::lower::{Type, TypeTuple};
use syn::punctuated::{IntoIter, Iter, Punctuated};
use syn::token::{Comma, Paren, Span};
use syn_test_support::{printed, refused, span};
use syn_tokens::syntactic::compare::Compared;

/// The fields of the struct that the text spells.
fn fields_of(rt: &impl Abort, alloc: Global, text: &str) -> Fields {
    let item: ItemStruct = tree_of(rt, alloc, text);
    item.fields
}

/// Adds what one field is called: its name, or its place and where its type begins.
fn add_member(text: &mut String, member: &MemberRef<'_>) -> Result<(), AllocError> {
    match member {
        MemberRef::Named(ident) => write!(text, "{};", ident.text()),
        MemberRef::Unnamed(member) => {
            let Span { start, end } = member.span;
            write!(text, "{}@{start}..{end};", member.index)
        }
    }
}

/// What fields are called, in order.
fn described(alloc: Global, members: Members<'_>) -> Result<String, AllocError> {
    let mut text = String::new(alloc);
    for member in members {
        add_member(&mut text, &member)?;
    }
    Ok(text)
}

/// Fails where the fields after so many of them are called otherwise.
fn assert_members(rt: &impl Abort, alloc: Global, fields: &Fields, taken: usize, want: &str) {
    assert!(rt; fields.len() <= 1000);
    let mut members = fields.members();
    for _ in 0..taken {
        let _member = members.next();
    }
    let copy = value(rt, members.clone());
    assert_text(rt, described(alloc, copy), want);
}

const MEMBERS: &[(&str, usize, &str)] = &[
    ("struct S(u8, &'a str);", 0, "0@9..11;1@13..14;"),
    ("struct S(u8, &'a str);", 1, "1@13..14;"),
    ("struct S(u8, &'a str);", 2, ""),
    ("struct S(u8, &'a str);", 3, ""),
    ("struct S { a: u8, b: u8 }", 0, "a;b;"),
    ("struct S { a: u8, r#in: u8 }", 1, "r#in;"),
];

#[test]
fn members(rt: HostRuntime) {
    for (text, taken, want) in MEMBERS {
        let fields = fields_of(&rt, rt.alloc(), text);
        assert_members(&rt, rt.alloc(), &fields, *taken, want);
    }
}

/// What the last field is called.
fn last_member<'a>(rt: &impl Abort, fields: &'a Fields) -> MemberRef<'a> {
    assert!(rt; fields.len() <= 1000);
    let mut last = None;
    for member in fields.members() {
        last = Some(member);
    }
    last.expect(rt, "a field")
}

/// Fails where a copy of the first equals the second by either way to ask that, and shouldn't, or the other way round.
fn assert_member_equality(
    rt: &impl Abort,
    alloc: Global,
    left: &MemberRef<'_>,
    right: &MemberRef<'_>,
    want: bool,
) {
    let copy = value(rt, left.try_clone(alloc));
    assert!(rt; (copy == *right) == want, "not {want}");
    assert!(rt; copy.is_same(right) == want, "not {want}");
}

/// Where the fields' types begin doesn't count.
#[test]
fn equality_of_members(rt: HostRuntime) {
    for (left, right, want) in [
        ("struct S(u8, u16);", "struct Other(u8, bool);", true),
        ("struct S(u8);", "struct S(u8, u16);", false),
        ("struct S { a: u8 }", "struct S { b: u8, a: u8 }", true),
        ("struct S { a: u8 }", "struct S { b: u8 }", false),
        ("struct S { a: u8 }", "struct S(u8);", false),
    ] {
        let left = fields_of(&rt, rt.alloc(), left);
        let right = fields_of(&rt, rt.alloc(), right);
        let (left, right) = (last_member(&rt, &left), last_member(&rt, &right));
        assert_member_equality(&rt, rt.alloc(), &left, &right, want);
    }
}

#[test]
fn prints_of_members(rt: HostRuntime) {
    for (text, want) in [
        ("struct S(u8, u16);", "1"),
        ("struct S { a: u8, r#in: u8 }", "r#in"),
    ] {
        let fields = fields_of(&rt, rt.alloc(), text);
        let member = last_member(&rt, &fields);
        assert_text_of(&rt, text, printed(rt.alloc(), &member), want);
    }
}

/// The place of this number, at this byte.
fn place(index: u32, start: usize) -> Index {
    Index {
        index,
        span: span(start, 40),
    }
}

#[test]
fn places(rt: HostRuntime) {
    let copy = value(&rt, TryClone::try_clone(&place(10, 2), rt.alloc()));
    assert!(rt; copy.span.start == 2);
    assert!(rt; copy == place(10, 7), "wherever it stands");
    assert!(rt; copy != place(1, 2));
    assert!(rt; copy != place(0, 2));
}

#[test]
fn places_read(rt: HostRuntime) {
    for (text, want) in [("0", 0), ("10", 10), ("4294967295", 4_294_967_295)] {
        let place: Index = tree_of(&rt, rt.alloc(), text);
        assert!(rt; place.index == want, "{text}");
    }
    for text in ["01", "4294967296", "1u8", "1_0", "1.2", "\"1\""] {
        let fault = value(&rt, refused::<Index>(rt.alloc(), text));
        assert!(rt; fault.text == "expected unsuffixed integer", "{text}");
        assert!(rt; fault.span.start == 0, "{text}");
    }
}

#[test]
fn prints_of_places(rt: HostRuntime) {
    for (index, want) in [
        (0, "0"),
        (7, "7"),
        (10, "10"),
        (4_294_967_295, "4294967295"),
    ] {
        assert_printed(&rt, rt.alloc(), place(index, 3), want);
    }
}

/// The name of a field; `-` where there is no field.
fn name_of(field: Option<&Field>) -> &str {
    match field {
        Some(field) => match &field.ident {
            Some(ident) => ident.text(),
            None => "",
        },
        None => "-",
    }
}

/// The names of the first, the last, and of both again of what is then left.
type Names = [&'static str; 4];

/// Fails where the fields, used up, have other names.
fn assert_taken(rt: &impl Abort, mut fields: IntoIter<Field, Comma>, names: &Names) {
    assert!(rt; name_of(fields.next().as_ref()) == names[0]);
    assert!(rt; name_of(fields.next_back().as_ref()) == names[1]);
    assert!(rt; name_of(fields.next().as_ref()) == names[2]);
    assert!(rt; name_of(fields.next_back().as_ref()) == names[3]);
}

/// The same of fields that are lent; of those that are left a copy of the walk takes the last, and then it takes the first itself.
fn assert_lent(rt: &impl Abort, mut fields: Iter<'_, Field, Comma>, names: &Names) {
    assert!(rt; name_of(fields.next()) == names[0]);
    assert!(rt; name_of(fields.next_back()) == names[1]);
    let mut left = value(rt, fields.clone());
    assert!(rt; name_of(left.next_back()) == names[2]);
    assert!(rt; name_of(fields.next()) == names[3]);
}

#[test]
fn both_ends(rt: HostRuntime) {
    for (text, taken, lent) in [
        (
            "struct S { a: u8, b: u8 }",
            ["a", "b", "-", "-"],
            ["a", "b", "-", "-"],
        ),
        (
            "struct S { a: u8, b: u8, c: u8 }",
            ["a", "c", "b", "-"],
            ["a", "c", "b", "b"],
        ),
        ("struct S;", ["-"; 4], ["-"; 4]),
        ("struct S {}", ["-"; 4], ["-"; 4]),
    ] {
        let fields = fields_of(&rt, rt.alloc(), text);
        assert_lent(&rt, fields.iter(), &lent);
        assert_taken(&rt, fields.into_iter(), &taken);
    }
}

/// Makes `()` the type of a field, where there is one.
fn make_unit(alloc: Global, field: Option<&mut Field>) {
    if let Some(field) = field {
        field.ty = Type::Tuple(TypeTuple {
            paren_token: Paren::new(span(0, 1), span(1, 2)),
            elems: Punctuated::new(alloc),
        });
    }
}

/// The type of the last is `()`, and then that of the first of those that are left.
#[test]
fn changed_at_both_ends(rt: HostRuntime) {
    for (text, want) in [
        ("struct S(a, b, c);", "( ( ) , b , ( ) )"),
        ("struct S { a: b }", "{ a : ( ) }"),
        ("struct S();", "( )"),
        ("struct S;", ""),
    ] {
        let mut fields = fields_of(&rt, rt.alloc(), text);
        let mut lent = fields.iter_mut();
        make_unit(rt.alloc(), lent.next_back());
        make_unit(rt.alloc(), lent.next());
        assert_printed(&rt, rt.alloc(), fields, want);
    }
}
