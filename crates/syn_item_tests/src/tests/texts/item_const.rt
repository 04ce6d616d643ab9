//! Texts of constants: a line each, so that others may be added.

/// What is read, with what it prints.
pub const READ: &[(&str, &str)] = &[
    ("const _: A = { 1 };", "const _ : A = { 1 } ;"),
    (
        "pub const A: [u8; 2] = [1, 2];",
        "pub const A : [ u8 ; 2 ] = [ 1 , 2 ] ;",
    ),
    ("const A:::b = 1;", "const A : :: b = 1 ;"),
    ("const X: u8 = [];", "const X : u8 = [ ] ;"),
    ("const X: u8 = 0.a;", "const X : u8 = 0 . a ;"),
    ("const X: u8 = &&&a;", "const X : u8 = & & & a ;"),
    ("const X: u8 = b\"s\";", "const X : u8 = b\"s\" ;"),
    ("const X: u8 = a + b;", "const X : u8 = a + b ;"),
    ("const X: u8 = m![a];", "const X : u8 = m ! [ a ] ;"),
    ("const X: S = f(S {});", "const X : S = f ( S { } ) ;"),
    ("const X: u8 = a && b;", "const X : u8 = a && b ;"),
    ("const X: u8 = a as b;", "const X : u8 = a as b ;"),
    ("const X: S = S { a, };", "const X : S = S { a , } ;"),
    ("const X: u8 = a ? . b;", "const X : u8 = a ? . b ;"),
    ("const X: S = S::<T> {};", "const X : S = S :: < T > { } ;"),
    ("const X: u8 = return.a;", "const X : u8 = return . a ;"),
    ("const X: u8 = break | a;", "const X : u8 = break | a ;"),
    (
        "const X: u8 = #[x] a + b;",
        "const X : u8 = # [ x ] a + b ;",
    ),
    (
        "const X: u8 = if m!{} {};",
        "const X : u8 = if m ! { } { } ;",
    ),
    ("const X: u8 = a << b as c;", "const X : u8 = a << b as c ;"),
    ("const Xx: u81 = _a &= bx;\n", "const Xx : u81 = _a &= bx ;"),
    (
        "pub const AAq: _u8 = 1 + 2;",
        "pub const AAq : _u8 = 1 + 2 ;",
    ),
    (
        "const X: u8 = return return;",
        "const X : u8 = return return ;",
    ),
    (
        "const X: u8 = if return {} {};",
        "const X : u8 = if return { } { } ;",
    ),
    (
        "const X: u8 = a.b.c.d()?[e](f);",
        "const X : u8 = a . b . c . d ( ) ? [ e ] ( f ) ;",
    ),
    (
        "const _X: SSq = if { SSq {} } {};",
        "const _X : SSq = if { SSq { } } { } ;",
    ),
    (
        "pub(super )const\nmacro_rules:raw=raw;",
        "pub ( super ) const macro_rules : raw = raw ;",
    ),
    (
        "const\nA : * mut a =<x as super >::r#self >>=1u8;",
        "const A : * mut a = < x as super > :: r#self >>= 1u8 ;",
    ),
];

/// What is refused, with the byte where.
pub const REFUSED: &[(&str, usize)] = &[
    ("const A<T>: u8 = 1;", 7),
    ("const A: u8 = 1 where A: B;", 16),
    ("", 0),
    ("const X: u8 = _;", 14),
    ("const X: u8 = ..;", 14),
    ("const X: u8 = <A>;", 17),
    ("const X: u8 = -= a;", 15),
    ("const X: u8 = do a;", 14),
    ("const X: u8 = [a; ];", 18),
    ("const X: u8 = a.1e1;", 16),
    ("const X: u8 = [a;1,];", 18),
    ("const X: u8 = a[b c];", 18),
    ("const c : : foo = a ;", 10),
    ("const X: u8 = break 1;", 20),
    ("const X: u8 = async {};", 14),
    ("const X: S = S { #[x] };", 22),
    ("const X: u8 = break - a;", 20),
    ("const X: S = S { a ..c };", 19),
    ("const X: S = S { \"a\": 1 };", 17),
    ("const XXq: u8x = while za;", 25),
    ("const X: u8 = if a {} else;", 26),
    ("const X: S = S { a: 1 b: 2 };", 22),
    ("const Xx: _u8 = 'a1: if _b {};", 21),
    ("const X: S = if <A>::S { a: 1 } {};", 26),
    ("const X: S = if return S { a: 1 } {};", 28),
    ("const zX:  u8x /**/ =  ax /**/ < < zb;\n", 37),
];
