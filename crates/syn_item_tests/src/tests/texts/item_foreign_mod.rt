//! Texts of foreign modules: a line each, so that others may be added.

/// What is read, with what it prints.
pub const READ: &[(&str, &str)] = &[
    ("extern \"C\" {}", "extern \"C\" { }"),
    ("extern {}", "extern { }"),
    ("unsafe extern \"C\" {}", "unsafe extern \"C\" { }"),
    ("unsafe extern {}", "unsafe extern { }"),
    ("extern r\"C\" {}", "extern r\"C\" { }"),
    (
        "#[a] extern \"C\" { #![b] fn f(); }",
        "# [ a ] extern \"C\" { # ! [ b ] fn f ( ) ; }",
    ),
    (
        "extern \"C\" { fn f(); static A: u8; type B; m!(); }",
        "extern \"C\" { fn f ( ) ; static A : u8 ; type B ; m ! ( ) ; }",
    ),
    (
        "extern \"C\" { safe fn f(a: u8, ...); unsafe static mut A: u8; }",
        "extern \"C\" { safe fn f ( a : u8 , ... ) ; unsafe static mut A : u8 ; }",
    ),
    (
        "extern \"C\" { fn f() {} static A: u8 = 1; type A = B; }",
        "extern \"C\" { fn f ( ) { } static A : u8 = 1 ; type A = B ; }",
    ),
    (
        "extern \"C\" { pub fn f(); pub(crate) static A: u8; }",
        "extern \"C\" { pub fn f ( ) ; pub ( crate ) static A : u8 ; }",
    ),
    (
        "extern \"C\" { #[a] fn f(); #[b] type C; }",
        "extern \"C\" { # [ a ] fn f ( ) ; # [ b ] type C ; }",
    ),
    (
        "extern \"C\" { safe::m!{} }",
        "extern \"C\" { safe :: m ! { } }",
    ),
    (
        "extern \"C\" { type A where T: B; }",
        "extern \"C\" { type A where T : B ; }",
    ),
    (
        "extern \"C\" { fn f(...) ; }",
        "extern \"C\" { fn f ( ... ) ; }",
    ),
    (
        "extern \"C\" { #![a] #![b] }",
        "extern \"C\" { # ! [ a ] # ! [ b ] }",
    ),
    ("extern{ }", "extern { }"),
    ("extern \"C\"{}", "extern \"C\" { }"),
    ("extern \"C\" { }", "extern \"C\" { }"),
    ("unsafe  extern {}", "unsafe extern { }"),
    ("unsafe extern {\n}", "unsafe extern { }"),
    ("extern { fn ffq(); }\n", "extern { fn ffq ( ) ; }"),
    (
        "#[unsafe\n]\nextern \"C\"\n{}",
        "# [ unsafe ] extern \"C\" { }",
    ),
    (
        "#[link] extern \"C\" { #![a] }",
        "# [ link ] extern \"C\" { # ! [ a ] }",
    ),
    (
        "unsafe extern \"C\" { static T : ! ; }",
        "unsafe extern \"C\" { static T : ! ; }",
    ),
    (
        "# [ S :: B [ b S => 0 ] ] extern \"C\" { }",
        "# [ S :: B [ b S => 0 ] ] extern \"C\" { }",
    ),
    (
        "unsafe extern { safe static A : A = 'c' ; }",
        "unsafe extern { safe static A : A = 'c' ; }",
    ),
    (
        "# [ unsafe [ -static>'static ] ]\nextern\"C\"{ }",
        "# [ unsafe [ - static >'static ] ] extern \"C\" { }",
    ),
    (
        "extern \"C\" { A ! [ false false b'x' ( [ ? b ] ) ] ; }",
        "extern \"C\" { A ! [ false false b'x' ( [ ? b ] ) ] ; }",
    ),
    (
        "extern \"C\"\n{ static\nb\n:r#self <07 , >\n=false[ a ] >= T ;}",
        "extern \"C\" { static b : r#self < 07 , > = false [ a ] >= T ; }",
    ),
    (
        "extern\"C\"{#[::macro_rules::T::a ]T::A!() ;safe!(..==>); }",
        "extern \"C\" { # [ :: macro_rules :: T :: a ] T :: A ! ( ) ; safe ! ( ..==> ) ; }",
    ),
    (
        "extern { pub ( in self ) fn A ( ref S : T , ) { r#self } }",
        "extern { pub ( in self ) fn A ( ref S : T , ) { r#self } }",
    ),
    (
        "unsafe extern\n{ pub static mut r#self : ( T , auto )\n= b\n[ a ] ; }",
        "unsafe extern { pub static mut r#self : ( T , auto ) = b [ a ] ; }",
    ),
    (
        "# [ b ] extern \"C\" { # ![ unsafe [ 1.5 U 'static ] ] # ! [ super :: A ] }",
        "# [ b ] extern \"C\" { # ! [ unsafe [ 1.5 U 'static ] ] # ! [ super :: A ] }",
    ),
    (
        "extern { static T : T < A , 'a > = < macro_rules as T > :: self . a ( auto , ) as b ; }",
        "extern { static T : T < A , 'a > = < macro_rules as T > :: self . a ( auto , ) as b ; }",
    ),
    (
        "unsafe\nextern { #\n! [ auto ] static\nmut macro_rules\n:\n& mut T ; A\n! [ { safe ! }\n@ == ] ; }",
        "unsafe extern { # ! [ auto ] static mut macro_rules : & mut T ; A ! [ { safe ! } @ == ] ; }",
    ),
    (
        "extern \"C\" { fn fx(_a: _u8, ...) -> _u8; pub static mut zX: _u8; type Tx; zm!(); zm!{} } // e",
        "extern \"C\" { fn fx ( _a : _u8 , ... ) -> _u8 ; pub static mut zX : _u8 ; type Tx ; zm ! ( ) ; zm ! { } }",
    ),
    (
        "unsafe extern \"C\"\n{ fn union( )-> union where a : for < 'a\n:\n'b\n,'_ > b :: A + b ,\nT\n: , {\n} }",
        "unsafe extern \"C\" { fn union ( ) -> union where a : for < 'a : 'b ,'_ > b :: A + b , T : , { } }",
    ),
    (
        "# [ :: T == 1u8 ] unsafe extern { fn b ( ref mut A : b ) -> a where foo : A + ; fn a ( ) -> S where ; }",
        "# [ :: T = = 1u8 ] unsafe extern { fn b ( ref mut A : b ) -> a where foo : A + ; fn a ( ) -> S ; }",
    ),
    (
        "extern\n\"C\"\n{ pub\ntype b < >\n: c +\ncrate + where x : 'a , 'static\n:\n'a =\n[ a ] ;\nfn\nS < > ( ) ->\nA where ;\n}",
        "extern \"C\" { pub type b < > : c + crate + where x : 'a , 'static : 'a = [ a ] ; fn S ( ) -> A ; }",
    ),
];

/// What is refused, with the byte where.
pub const REFUSED: &[(&str, usize)] = &[
    ("extern b\"C\" {}", 7),
    ("extern 1 {}", 7),
    ("extern \"C\" { fn f() }", 20),
    ("extern \"C\" { 1 }", 13),
    ("pub extern \"C\" {}", 0),
    ("const extern \"C\" {}", 0),
    ("extern \"C\"", 10),
    ("extern \"C\";", 10),
    ("extern \"C\" {} 1", 14),
    ("safe extern \"C\" {}", 0),
    ("extern crate a;", 7),
    ("extern \"C\" { const A: u8; }", 19),
    ("extern \"C\" { #[a] }", 18),
    ("extern \"C\" { Self!{} }", 13),
    ("unsafe", 6),
    ("", 0),
    ("extern fn f() {}", 7),
    ("extern \"C\" \"D\" {}", 11),
    ("unsafe unsafe extern {}", 7),
    ("extern b", 7),
    ("extern ()", 7),
    ("extern {};", 9),
    ("extern { x }", 11),
    ("pub extern {}", 0),
    ("const extern {}", 0),
    ("extern crate {}", 7),
    ("unsafe extern\nA", 14),
    ("{ }\n{}\nextern{\n}", 0),
    ("[\n] extern \"C\"\n{ }", 0),
    ("extern \"C\" unsafe {}", 11),
    ("unsafe pub extern {}", 7),
    ("extern extern \"C\" { }", 7),
    ("unsafe extern unsafe { }", 14),
    ("extern \"C\" { struct S1; }", 13),
    ("unsafe\n{\n}\nextern\n( )\n{ }", 7),
    ("extern for { static r#self : a = 0 ; }", 7),
    ("extern\n( pub\ntype a where\ndefault :\n; )", 7),
    ("extern \"C\" { b !{ } : T static a :: a < > ; }", 20),
    (
        "# [ unsafe = 1 'b 'static 1u8 T ] extern \"C\" { unsafe fn safe ( # [ unsafe ] _ : B ) ; fn ; ( ) -> A T }",
        90,
    ),
    (
        "unsafe\nextern { pub ( + crate\n) type A\n< # [\nunsafe ( {\n'static\n-> true b }\nA A ) ] safe , # [ A\n]\nc ,\nb > ; unsafe static mut a\n: !\n; }",
        20,
    ),
];
