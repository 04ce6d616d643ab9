//! Texts of type aliases: a line each, so that others may be added.

/// What is read, with what it prints.
pub const READ: &[(&str, &str)] = &[
    ("type A where T: B, = C;", "type A where T : B , = C ;"),
    ("type A = B where T: C;", "type A = B where T : C ;"),
    ("type A = B where;", "type A = B ;"),
    (
        "type A<'a, T = u8> = &'a T;",
        "type A < 'a , T = u8 > = & 'a T ;",
    ),
    ("type a = a ;", "type a = a ;"),
    ("type A = (B);", "type A = ( B ) ;"),
    ("type A<> = B;", "type A = B ;"),
    ("type A<T>= B;", "type A < T > = B ;"),
    ("type _A = zB;", "type _A = zB ;"),
    ("type T = self ;", "type T = self ;"),
    ("#[a1] type AAq = !;", "# [ a1 ] type AAq = ! ;"),
    ("type x = ( union ) ;", "type x = ( union ) ;"),
    ("pub type A<T> = B<T>;", "pub type A < T > = B < T > ;"),
    ("type b = B where '_ : ;", "type b = B where '_ : ;"),
    (
        "type A<T> = B where T: C;",
        "type A < T > = B where T : C ;",
    ),
    (
        "#[A[b\"x\"(foo..)]]type x=b;",
        "# [ A [ b\"x\" ( foo .. ) ] ] type x = b ;",
    ),
    ("type A where 'a: 'b + = C;", "type A where 'a : 'b + = C ;"),
    ("type A1 where = zB;\n/* e */\n", "type A1 = zB ;"),
    (
        "type AAq\nwhere  T1: _B + = Cx;",
        "type AAq where T1 : _B + = Cx ;",
    ),
    (
        "type zA<T1> where T1: zC = B1;",
        "type zA < T1 > where T1 : zC = B1 ;",
    ),
    (
        "type T =:: B :: b :: self :: T ;",
        "type T = :: B :: b :: self :: T ;",
    ),
    (
        "pub\n( self)type b <\n>=\n*\nmut [A ;1 ]\n;",
        "pub ( self ) type b = * mut [ A ; 1 ] ;",
    ),
    (
        "#\n[\nunsafe ] type raw =\n[ r#self\n; true ] ;",
        "# [ unsafe ] type raw = [ r#self ; true ] ;",
    ),
    (
        "type T\n< > where =b::\nT < 'b,[ default], >;",
        "type T = b :: T < 'b , [ default ] , > ;",
    ),
    (
        "type b = [ [ b ] ; - a . A ( A , b ) ] where ;",
        "type b = [ [ b ] ; - a . A ( A , b ) ] ;",
    ),
    (
        "pub\n(\nsuper ) type a\nwhere = * mut\n*\nconst\nraw ;",
        "pub ( super ) type a = * mut * const raw ;",
    ),
    (
        "type\nunion\n< 'static :\n'a , const a : c > = & 'b A\n;",
        "type union < 'static : 'a , const a : c > = & 'b A ;",
    ),
    (
        "type\na\n= * mut union ( r#fn\n, foo , macro_rules ) where ;",
        "type a = * mut union ( r#fn , foo , macro_rules ) ;",
    ),
    (
        "type T where A : ( B ) , U : for < > A :: U = [ a ; true ] ;",
        "type T where A : ( B ) , U : for < > A :: U = [ a ; true ] ;",
    ),
    (
        "pub ( crate ) type b < A = foo , T , const A : a = { } , > = b < '_ >;",
        "pub ( crate ) type b < A = foo , T , const A : a = { } , > = b < '_ > ;",
    ),
];

/// What is refused, with the byte where.
pub const REFUSED: &[(&str, usize)] = &[
    ("type A where T: B = C where D: E;", 32),
    ("type A where = U where;", 22),
    ("type A: B = C;", 6),
    ("", 0),
    ("type A;", 6),
    ("type = B1;", 5),
    ("type A = B", 10),
    ("type zA: BBq;", 7),
    ("type  zA == B1;", 10),
    ("type A1<>==\n_B;", 10),
    ("type Ax /**/ =\n;", 15),
    ("type A where T: B;", 17),
    ("type AAq: Bx = CCq;", 8),
    ("type A where = B where;", 22),
    ("type foo < > * = * const ! ;", 13),
    ("pub( :default:a ) type T= A ;", 3),
    ("type union < 'a , > = ( ; A ) ;", 24),
    ("pub ( super in ) type T = x ( ) ;", 4),
    ("type\nB=::A::<'static,foo>A,T<a,=>\n;", 25),
    ("type A1 where _T: CCq = _B where _T: D1;", 39),
    ("type a where = :: x ( ( a a ) , < b > :: B ) ;", 26),
    ("type A where ! : b ( safe :: , union , T ) + = self ;", 29),
    ("type T T < 'static , 'static : 'static + > = [ ! S ] ;", 7),
    (
        "type T = < * const c type as A < T where , '_ > > :: T where ;",
        21,
    ),
    (
        "type a = & ( ) where < b as A :: self > :: safe : , 'b ( ) : 'b ;",
        55,
    ),
    (
        "pub (: crate ) type\nc< A : x+c , '_:\n'b+ 'static , const union: foo ,\n>= A <>where\n;",
        4,
    ),
];
