//! Texts of functions: a line each, so that others may be added.

/// What is read, with what it prints.
pub const READ: &[(&str, &str)] = &[
    (
        "fn f() { #![a] #![b] 1 }",
        "fn f ( ) { # ! [ a ] # ! [ b ] 1 }",
    ),
    ("#[a] fn f() { #![b] }", "# [ a ] fn f ( ) { # ! [ b ] }"),
    (
        "pub(crate) unsafe extern \"C\" fn f() {}",
        "pub ( crate ) unsafe extern \"C\" fn f ( ) { }",
    ),
    ("fn f() { let a = 1; a }", "fn f ( ) { let a = 1 ; a }"),
    ("fn f(&self) {}", "fn f ( & self ) { }"),
    (
        "async fn f(A<B>) -> C {}",
        "async fn f ( _ : A < B > ) -> C { }",
    ),
    ("fn f() {}", "fn f ( ) { }"),
    ("fn f() where T: A {}", "fn f ( ) where T : A { }"),
    (
        "#[a] pub fn f() { #![b] }",
        "# [ a ] pub fn f ( ) { # ! [ b ] }",
    ),
    (
        "pub(in a) const fn f() {}",
        "pub ( in a ) const fn f ( ) { }",
    ),
    (
        "const fn b ( ) { # ! [ A ] }",
        "const fn b ( ) { # ! [ A ] }",
    ),
    (
        "fn zf(x1: zu8) -> zu8 { x1 }\n",
        "fn zf ( x1 : zu8 ) -> zu8 { x1 }",
    ),
    (
        "fn T ( a : A , mut b : T ) -> T { T }",
        "fn T ( a : A , mut b : T ) -> T { T }",
    ),
    (
        "unsafe extern \"C\" fn f(a: u8, ...) {}",
        "unsafe extern \"C\" fn f ( a : u8 , ... ) { }",
    ),
    (
        "fn r#self\n( x\n:\n... ,\n) { macro_rules }",
        "fn r#self ( x : ... , ) { macro_rules }",
    ),
    (
        "fn b < foo ,>( self , c < 'b , b > ) { }",
        "fn b < foo , > ( self , _ : c < 'b , b > ) { }",
    ),
    (
        "fn\nmacro_rules <a> (\nself ::a : b ) { a }",
        "fn macro_rules < a > ( self :: a : b ) { a }",
    ),
    (
        "fn  ffq() { /**/ #![aaq] #![b1(zc)]  xx }",
        "fn ffq ( ) { # ! [ aaq ] # ! [ b1 ( zc ) ] xx }",
    ),
    (
        "fn T ( self :: b : ( ) ) { union ! { } ; }",
        "fn T ( self :: b : ( ) ) { union ! { } ; }",
    ),
    (
        "fn T < safe = b , # [ b = 1 .. ] '_ > ( ) { }",
        "fn T < # [ b = 1 .. ] '_ , safe = b , > ( ) { }",
    ),
    (
        "pub ( self ) unsafe fn union < > ( ) -> T { }",
        "pub ( self ) unsafe fn union ( ) -> T { }",
    ),
    (
        "const extern \"C\" fn a ( union : auto ) ->auto { }",
        "const extern \"C\" fn a ( union : auto ) -> auto { }",
    ),
    (
        "fn foo ( mut safe :b , self :: b : a ) { #[ T ] b }",
        "fn foo ( mut safe : b , self :: b : a ) { # [ T ] b }",
    ),
    (
        "fn b ( & mut self , ref a : T , A : safe ) -> a { T }",
        "fn b ( & mut self , ref a : T , A : safe ) -> a { T }",
    ),
    (
        "pub\n( in self :: foo ) const\nfn T ( default\n: T , )\n{ }",
        "pub ( in self :: foo ) const fn T ( default : T , ) { }",
    ),
    (
        "fn A <b\n: , a> ( self : a, T :S\n,\n... )\n{ #\n! [ T :: self ] }",
        "fn A < b , a > ( self : a , T : S , ... ) { # ! [ T :: self ] }",
    ),
    (
        "const fn A (\nmut\nself : U , b : x , # [ a { A\nwhere . } ] a : r#self , ) where { }",
        "const fn A ( mut self : U , b : x , # [ a { A where . } ] a : r#self , ) { }",
    ),
    (
        "unsafe fn T < foo : ? for < 'a : , > r#self + , > ( T < 'b > :: foo , ref x : ... ) -> a { }",
        "unsafe fn T < foo : ? for < 'a , > r#self + , > ( _ : T < 'b > :: foo , ref x : ... ) -> a { }",
    ),
    (
        "pub fn T < a : for\n< > b , A , '_ > ( &\n'static mut self , mut U :\nT , ref a :\nb ) ->\nraw {\n}",
        "pub fn T < '_ , a : for < > b , A , > ( & 'static mut self , mut U : T , ref a : b ) -> raw { }",
    ),
];

/// What is refused, with the byte where.
pub const REFUSED: &[(&str, usize)] = &[
    ("fn f();", 6),
    ("fn f() { 1 2 }", 11),
    ("fn f() {} 1", 10),
    ("default fn f() {}", 0),
    ("", 0),
    ("fn f( {}", 4),
    ("fn fx() {};", 10),
    ("fn fx(za) {}", 8),
    ("fn ffq() -> u8x", 15),
    ("safe fn f1() {} ", 0),
    ("fn f() { x #![a] }", 11),
    ("fn  f1() {} /**/ {}", 17),
    ("fn f(self, self) {}", 11),
    ("fn zf(zx: u81, self) {}", 15),
    ("fn fx(self, mut self) {}", 16),
    ("fn macro_rules {\n: :\nmacro_rules } {\n}", 15),
    (
        "const fn r#self ( A\n: b , # { A }\na :\na\n, ) where\n{ auto\n}",
        28,
    ),
    (
        "fn x [ & '_ self , ] -> union { # ! [ safe = 1.5 'b A '_ ] }",
        5,
    ),
    (
        "fn T ( mut\nself , _ _\n: ...\n, ) where\n{ ( b'x' , 1 )\n^B\nb ;\n}",
        20,
    ),
    (
        "fn b < > ( .union . , ) ->\n:: r#self\nwhere {\n; { a }\n? r#self ; foo\n;\n}",
        11,
    ),
    (
        "fn foo<\nT, a\n: ( ? :: crate)+'static\n+\n= b > ( : union , ) ( :\nunion , ){}",
        47,
    ),
    (
        "fn default\n< 'static , 'static :\n,\n'b\n: 'b + , > ( self :: T :T\n) { let _\nb : crate ; }",
        74,
    ),
];
