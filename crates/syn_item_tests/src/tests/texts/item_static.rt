//! Texts of statics: a line each, so that others may be added.

/// What is read, with what it prints.
pub const READ: &[(&str, &str)] = &[
    ("static mut A: B = C {};", "static mut A : B = C { } ;"),
    (
        "pub(super) static A: B = -1;",
        "pub ( super ) static A : B = - 1 ;",
    ),
    ("static A: u8 = 1;", "static A : u8 = 1 ;"),
    ("static T : b = S ;", "static T : b = S ;"),
    ("static U : x = T ;", "static U : x = T ;"),
    ("static a : ( ) = ( ) ;", "static a : ( ) = ( ) ;"),
    ("static b : T = 07 ( ) ;", "static b : T = 07 ( ) ;"),
    ("pub static b\n: a = raw ;", "pub static b : a = raw ;"),
    ("static mut A1: u8u8q = 1;", "static mut A1 : u8u8q = 1 ;"),
    (
        "static\na :a= x|=# [ self] a ;",
        "static a : a = x |= # [ self ] a ;",
    ),
    (
        "#[xxq]  static union:\nu8x = 0;",
        "# [ xxq ] static union : u8x = 0 ;",
    ),
    (
        "static mut a\n: ( )\n=\n!\nb as A\n;",
        "static mut a : ( ) = ! b as A ;",
    ),
    (
        "pub(crate) static A: &'static str = \"x\";",
        "pub ( crate ) static A : & 'static str = \"x\" ;",
    ),
    (
        "#\n[ r#fn == false\nb c\"x\" ] static a :a\n= a\n;",
        "# [ r#fn = = false b c\"x\" ] static a : a = a ;",
    ),
    (
        "# [ A ( ) ] pub ( self ) static T : T = \"s\" ;",
        "# [ A ( ) ] pub ( self ) static T : T = \"s\" ;",
    ),
    (
        "static r#fn : b :: T < c , S , A > = a { T } ;",
        "static r#fn : b :: T < c , S , A > = a { T } ;",
    ),
    (
        "pub ( in\nT :: A ) static B : c\n:: self = * { } ;",
        "pub ( in T :: A ) static B : c :: self = * { } ;",
    ),
    (
        "static a\n: ( ) = < a\nas super\n> :: A :: B\n[ a\n] ;",
        "static a : ( ) = < a as super > :: A :: B [ a ] ;",
    ),
    (
        "static mut\nA : ( ) = (\n) [ continue 'a ] .U\n<<\n\"s\"\n;",
        "static mut A : ( ) = ( ) [ continue 'a ] . U << \"s\" ;",
    ),
    (
        "# [ union [ macro_rules ? ] ] static U : r#fn = 1u8 ;",
        "# [ union [ macro_rules ? ] ] static U : r#fn = 1u8 ;",
    ),
    (
        "# [ c :: macro_rules ] static macro_rules :\n( ) = A ? ;",
        "# [ c :: macro_rules ] static macro_rules : ( ) = A ? ;",
    ),
    (
        "pub\n(\nin b\n) static A\n: foo ::\n< >\n= [ A\n( 1.5\n)\n; & 07 ] ;",
        "pub ( in b ) static A : foo :: < > = [ A ( 1.5 ) ; & 07 ] ;",
    ),
    (
        "# [ crate = c\"x\" static\n'a ~ ] static A : ( a ) =\n( c\"x\" ,\ntrue\n)\n;",
        "# [ crate = c\"x\" static 'a ~ ] static A : ( a ) = ( c\"x\" , true ) ;",
    ),
    (
        "# [ raw = 'c' b'x' [ ] ] static b : ( a ) = # [ crate :: A ] if b { } ;",
        "# [ raw = 'c' b'x' [ ] ] static b : ( a ) = # [ crate :: A ] if b { } ;",
    ),
    (
        "static union : [ c < > ; ( foo ) as b ] = loop { # [ foo ] let ( b ) ;} ;",
        "static union : [ c < > ; ( foo ) as b ] = loop { # [ foo ] let ( b ) ; } ;",
    ),
    (
        "#[ a :: a == b'x' 'static\nb\n] pub(\nin A ::a )static\nraw: raw\n=\nA . a\n( U , ) ;",
        "# [ a :: a = = b'x' 'static b ] pub ( in A :: a ) static raw : raw = A . a ( U , ) ;",
    ),
    (
        "static A : :: Self < 'a , > = { } [ ! B . b ( ) ] - 'static : { b } ^= ( A , c\"x\" , ) ;",
        "static A : :: Self < 'a , > = { } [ ! B . b ( ) ] - 'static : { b } ^= ( A , c\"x\" , ) ;",
    ),
];

/// What is refused, with the byte where.
pub const REFUSED: &[(&str, usize)] = &[
    ("static _: u8 = 1;", 7),
    ("", 0),
    ("static mut A;", 12),
    ("static A: u8 = 1", 16),
    ("static A<T>: u8 = 1;", 8),
    ("static AAq: u8u8q = ;", 20),
    ("static ref A: u8 = 1;", 7),
    ("pub static A :\nT = 0\n=\n;", 23),
    ("mut static Ax: u8u8q = 1;", 0),
    ("static mut mut A: u8 = 1;", 11),
    ("unsafe static A1: _u8 = 1;", 0),
    ("static\n_: /**/ _u8 = /**/ 1;", 7),
    ("static T :( ( ) a ) =\n::\nfoo { } ;", 16),
    ("static union : < > = ( # T , 1u8 , A ) ;", 17),
    ("pub ( super ) static A : super = [ A ] # [ A ] raw ;", 39),
    (
        "static b : A < 'b , a < 'c' > , false > = - { b b b } ;",
        48,
    ),
    (
        "pub (\ncrate ) static mut\na : ! = & mut\n< T as :: r#fn > ::Self { b b :'c'\n};",
        67,
    ),
    (
        "static raw : A ( [ if ] , * mut A ) -> a = raw ( [ raw ; A ] , Self ! { } ) ;",
        19,
    ),
    (
        "static b\n: [ :: super\n; a { r#self,\nb } (\"s\" ?, ) ]= [\nb 1u8 ; ! 1u8 (\n)\n? ; A%\nx.1 ; ] ;",
        57,
    ),
    (
        "static T : ( A , b , , ) = for r#fn in # [ :: foo :: Self { x # T ~ } ] 1 { } . T ( 07 , c ) ;",
        21,
    ),
];
