//! Texts of files: a line each, so that others may be added.

/// What is read, with what it prints.
pub const READ: &[(&str, &str)] = &[
    ("", ""),
    ("#![a]", "# ! [ a ]"),
    (
        "#![a] #![b] fn f() {} mod a;",
        "# ! [ a ] # ! [ b ] fn f ( ) { } mod a ;",
    ),
    ("fn f();", "fn f ( ) ;"),
    (
        "fn f() {} fn g(); use {::a}; struct S;",
        "fn f ( ) { } fn g ( ) ; use { :: a } ; struct S ;",
    ),
    (
        "mod a { mod b { mod c { fn f(); } } }",
        "mod a { mod b { mod c { fn f ( ) ; } } }",
    ),
    (
        "use a::b; use c::{d, e}; macro_rules! m { () => {} } m!{} m!();",
        "use a :: b ; use c :: { d , e } ; macro_rules ! m { ( ) => { } } m ! { } m ! ( ) ;",
    ),
    (
        "trait A { fn f(); } impl A for B { fn f() {} }",
        "trait A { fn f ( ) ; } impl A for B { fn f ( ) { } }",
    ),
    (
        "extern \"C\" { fn f(); } extern crate a;",
        "extern \"C\" { fn f ( ) ; } extern crate a ;",
    ),
    (
        "struct A; enum B {} union C { a: u8 }",
        "struct A ; enum B { } union C { a : u8 }",
    ),
    (
        "const A: u8 = 1; static B: u8 = 2; type C = D;",
        "const A : u8 = 1 ; static B : u8 = 2 ; type C = D ;",
    ),
    (
        "const fn f() {} const _: () = {}; const impl A for B {}",
        "const fn f ( ) { } const _ : ( ) = { } ; const impl A for B { }",
    ),
    ("//! a", "# ! [ doc = \" a\" ]"),
    ("//! doc\nuse a;", "# ! [ doc = \" doc\" ] use a ;"),
    ("/*! a */ use b;", "# ! [ doc = \" a \" ] use b ;"),
    ("pub struct T { }", "pub struct T { }"),
    ("type T < > = c ;", "type T = c ;"),
    ("use  a1; use _b;", "use a1 ; use _b ;"),
    ("pub( super)\nuse*;", "pub ( super ) use * ;"),
    ("unsafe\nextern { }", "unsafe extern { }"),
    ("/// doc\nstruct zS;", "# [ doc = \" doc\" ] struct zS ;"),
    (
        "//! a\n//! b\n\nuse c1;",
        "# ! [ doc = \" a\" ] # ! [ doc = \" b\" ] use c1 ;",
    ),
    (
        "extern{#![ r#fn=07'_! 'static]}",
        "extern { # ! [ r#fn = 07 '_ ! 'static ] }",
    ),
    (
        "unsafe impl < > A < foo , > { }",
        "unsafe impl A < foo , > { }",
    ),
    (
        "fn f() {} struct S; m!{} impl A {}",
        "fn f ( ) { } struct S ; m ! { } impl A { }",
    ),
    (
        "#![ax] //! b\n use zc; /// d\n use ex;",
        "# ! [ ax ] # ! [ doc = \" b\" ] use zc ; # [ doc = \" d\" ] use ex ;",
    ),
    (
        "const trait A {} const impl A for B {}",
        "const trait A { } const impl A for B { }",
    ),
    (
        "pub enum r#fn where A : { auto ( ) , }",
        "pub enum r#fn where A : { auto ( ) , }",
    ),
    (
        "struct _S; /**/ #[_a] /**/ struct T1; ",
        "struct _S ; # [ _a ] struct T1 ;",
    ),
    (
        "macro_rules! m { () => {} } m!(); m! x {}",
        "macro_rules ! m { ( ) => { } } m ! ( ) ; m ! x { }",
    ),
    (
        "extern crate za; mod _b; mod ccq { #![zd] fn _e() {} }\n",
        "extern crate za ; mod _b ; mod ccq { # ! [ zd ] fn _e ( ) { } }",
    ),
    (
        "static B = break ; pub ( in\nT )\nconst\nU :\nS < > =\nsafe ? ;",
        "static B = break ; pub ( in T ) const U : S < > = safe ? ;",
    ),
    (
        "type foo : ? T where 'b : 'a + 'a , 'a : 'b + , ; enum raw { macro_rules }",
        "type foo : ? T where 'b : 'a + 'a , 'a : 'b + , ; enum raw { macro_rules }",
    ),
    (
        "trait\nb\n= A\n+\ncrate + ; type A < A ,\n'static , raw >\nwhere union\n:\n, b : = safe ;",
        "trait b = A + crate + ; type A < 'static , A , raw > where union : , b : = safe ;",
    ),
    (
        "extern crate self ; # [ raw ] pub ( crate ) static c : T ; extern crate self as A ;",
        "extern crate self ; # [ raw ] pub ( crate ) static c : T ; extern crate self as A ;",
    ),
    (
        "b ! ( a b ) ; impl < '_ > Self for < union > :: U { } pub const unsafe auto trait T { }",
        "b ! ( a b ) ; impl < '_ > Self for < union > :: U { } pub const unsafe auto trait T { }",
    ),
];

/// What is refused, with the byte where.
pub const REFUSED: &[(&str, usize)] = &[
    ("fn f() {} 1", 10),
    ("#[a] fn f() {} #![b]", 16),
    ("impl A { fn f() } fn g() {}", 16),
    ("#!/bin/a\nfn f() {}", 2),
    ("fn f() {} fn", 12),
    ("fn f() {};", 9),
    ("pub(crate) fn f() {} pub struct S", 33),
    ("mod a { #![b] } mod c { #[d] }", 29),
    ("1", 0),
    ("a1", 2),
    ("#!a", 2),
    ("{ }", 0),
    ("/// a", 5),
    ("#[_a] // e", 5),
    ("struct S; ?", 10),
    ("let aaq = 1;", 0),
    ("use a; #![b]", 8),
    ("# ! [ ; A\n]\nT\n! { }", 6),
    ("# [\nT T] const a <\n>:macro_rules=raw\n: ;", 6),
    ("pub\n( ) macro A ( .\n) {\n# a ..\n} const\n_ : x ;", 4),
    (
        "extern \"C\"\n{ } fn\nb ( mut b\n: , mut safe : A )\n->\na ;",
        30,
    ),
    (
        "auto trait a { # ! [ & :: T == \"s\" A macro_rules ] # ! [ a ] }",
        21,
    ),
    (
        "unsafe extern \"C\" [ static A : a = \"s\" ; pub static safe : T A = a ; ]",
        18,
    ),
    (
        "const a : S = 0 [ \"s\" ] ; struct a < safe , foo : :: a + self > ( , foo , pub b ) ;",
        66,
    ),
    (
        "extern crate self as A ; enum A < T\n: , '_ > { } impl\nA : :\n< foo\n, 'a , A >\nfor crate where {\n}",
        56,
    ),
    (
        "'pub\nmod\ndefault { }\npub ( self\n)\nenum union < '_ : '_ + 'b ,\nconst a : a = { } ,\n> { T ( ) = 1\n, }",
        0,
    ),
    (
        "fn\nauto <\nsafe , '_ , > ( self : c , #\n[ c ] #\n[ :: a ] mut foo : T ,\n)\n> safe where\n'b : , a :\n,\n{ T } extern\n{ }",
        72,
    ),
];
