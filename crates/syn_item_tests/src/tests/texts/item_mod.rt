//! Texts of modules: a line each, so that others may be added.

/// What is read, with what it prints.
pub const READ: &[(&str, &str)] = &[
    (
        "mod a { #![b] struct S; }",
        "mod a { # ! [ b ] struct S ; }",
    ),
    ("unsafe mod a {}", "unsafe mod a { }"),
    (
        "#[a] mod b { #![c] #![d] fn f() {} mod e { use f; } }",
        "# [ a ] mod b { # ! [ c ] # ! [ d ] fn f ( ) { } mod e { use f ; } }",
    ),
    ("mod a;", "mod a ;"),
    ("mod T ;", "mod T ;"),
    ("mod a ;", "mod a ;"),
    ("mod b ;", "mod b ;"),
    ("mod try;", "mod try ;"),
    ("mod safe ;", "mod safe ;"),
    ("mod try\n{}", "mod try { }"),
    ("mod\nsafe {}", "mod safe { }"),
    ("pub mod a ;", "pub mod a ;"),
    ("unsafe mod a;", "unsafe mod a ;"),
    ("mod a { #![b] }", "mod a { # ! [ b ] }"),
    ("mod B {# ! [ unsafe\n]}", "mod B { # ! [ unsafe ] }"),
    ("mod a { mod b { mod c; } }", "mod a { mod b { mod c ; } }"),
    (
        "#\n[\na( B 1.5 [][ ] ) ]\nmod b;",
        "# [ a ( B 1.5 [ ] [ ] ) ] mod b ;",
    ),
    (
        "pub mod aaq\n{ /**/ struct S1; }",
        "pub mod aaq { struct S1 ; }",
    ),
    (
        "#\n[\ndefault :: T\n[\nT 'c' ]\n]\nmod a {\n}",
        "# [ default :: T [ T 'c' ] ] mod a { }",
    ),
    (
        "# [ A { 1u8 , ( A r#self ) } ] mod A ;",
        "# [ A { 1u8 , ( A r#self ) } ] mod A ;",
    ),
    (
        "pub ( in ::\na ) mod b\n{ a\n:: S ! (\n) ;\n}",
        "pub ( in :: a ) mod b { a :: S ! ( ) ; }",
    ),
    (
        "#[xx] mod _a { #![zy] #![zz] use b1; } // e",
        "# [ xx ] mod _a { # ! [ zy ] # ! [ zz ] use b1 ; }",
    ),
    (
        "mod auto { pub ( crate ) extern crate b ; }",
        "mod auto { pub ( crate ) extern crate b ; }",
    ),
    (
        "mod a { impl ! A for < A > ::\na :: auto {\n} }",
        "mod a { impl < > ! A for < A > :: a :: auto { } }",
    ),
    (
        "pub(self) unsafe mod a { m!{} m!(); fn f() {} }",
        "pub ( self ) unsafe mod a { m ! { } m ! ( ) ; fn f ( ) { } }",
    ),
    (
        "mod A { impl ! auto for T { } union T { S :A } }",
        "mod A { impl ! auto for T { } union T { S : A } }",
    ),
    (
        "pub ( super ) mod try { extern crate A ; use b ; }",
        "pub ( super ) mod try { extern crate A ; use b ; }",
    ),
    (
        "mod try { # ! [ :: T ] pub ( self ) extern crate A as _ ; }",
        "mod try { # ! [ :: T ] pub ( self ) extern crate A as _ ; }",
    ),
    (
        "# [ :: b ]\npub ( crate ) mod\nT\n{ # [ a\n== 'c' 'b 'static b ] # [ A ] pub static r#fn = 0 . a ; }",
        "# [ :: b ] pub ( crate ) mod T { # [ a == 'c' 'b 'static b ] # [ A ] pub static r#fn = 0 . a ; }",
    ),
];

/// What is refused, with the byte where.
pub const REFUSED: &[(&str, usize)] = &[
    ("mod a { fn }", 11),
    ("mod a { fn f() {} 1 }", 18),
    ("mod a {} 1", 9),
    ("mod a { #![b] #[c] }", 19),
    ("", 0),
    ("mod a", 5),
    ("mod;\n", 3),
    ("mod{}", 3),
    ("mod self;", 4),
    ("mod\n_a::zb;", 6),
    ("mod a { ; }", 8),
    ("mod a<T> {}", 5),
    ("mod T pub { }", 6),
    ("mod a1 { x1 }\n", 12),
    ("#[ b() ]\nmod T !", 15),
    ("mod _a { #[zb] }", 15),
    ("mod _a();\n/* e */\n", 6),
    ("unsafe pub mod za;", 7),
    ("mod _a {};\n/* e */\n", 9),
    ("#\n{ Self } mod A { }", 2),
    ("unsafe unsafe mod a;", 7),
    ("#[ Self < ] mod a { }", 8),
    ("mod a { use b; #![c] }", 16),
    ("mod b { # ! ; # ! [ foo [ '_ == @ true ] ] }", 12),
    (
        "mod union & { pub const _ : T = b\"x\" ? . a ( A . T , 4294967295 ) [ T ] ; }",
        10,
    ),
];
