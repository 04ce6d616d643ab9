//! Texts of trait aliases: a line each, so that others may be added.

/// What is read, with what it prints.
pub const READ: &[(&str, &str)] = &[
    ("trait A = ;", "trait A = ;"),
    ("trait A = B + where;", "trait A = B + ;"),
    (
        "trait A<T> = B<T> + 'a where T: C;",
        "trait A < T > = B < T > + 'a where T : C ;",
    ),
    (
        "trait A = ?B + for<'a> C<'a>;",
        "trait A = ? B + for < 'a > C < 'a > ;",
    ),
    ("trait A=;", "trait A = ;"),
    ("trait A = B;", "trait A = B ;"),
    ("trait _A = ;", "trait _A = ;"),
    ("trait A = 'a;", "trait A = 'a ;"),
    ("trait\nr#fn\n= ;", "trait r#fn = ;"),
    ("trait A<T>= B;", "trait A < T > = B ;"),
    ("trait auto =\n;", "trait auto = ;"),
    ("trait A = B + C;", "trait A = B + C ;"),
    ("trait A = where;", "trait A = ;"),
    ("trait _A = BBq + ;", "trait _A = BBq + ;"),
    ("#[ a=1 'a ] trait T =;", "# [ a = 1 'a ] trait T = ;"),
    ("trait /**/ A1<> =\n?Bx;", "trait A1 = ? Bx ;"),
    ("pub ( self ) trait A =;", "pub ( self ) trait A = ;"),
    ("trait T = ? b + raw where ;", "trait T = ? b + raw ;"),
    (
        "pub(crate\n) trait T = safe ;",
        "pub ( crate ) trait T = safe ;",
    ),
    (
        "trait\na = crate +\n'b +\nwhere\n;",
        "trait a = crate + 'b + ;",
    ),
    (
        "trait zA = (zB) + where Tx: _C,;",
        "trait zA = ( zB ) + where Tx : _C , ;",
    ),
    (
        "pub trait Ax<zT> = _B\nwhere zT: C1;",
        "pub trait Ax < zT > = _B where zT : C1 ;",
    ),
    (
        "trait macro_rules ='static + self ;",
        "trait macro_rules = 'static + self ;",
    ),
    (
        "trait auto <\n'a , # [\nA ]\nb >= where ;",
        "trait auto < 'a , # [ A ] b > = ;",
    ),
    (
        "trait a = ? for\n< 'static\n, '_ :\n'_ + '_ > a\n;",
        "trait a = ? for < 'static , '_ : '_ + '_ > a ;",
    ),
    (
        "# [ A\n== 'c' ]trait S= :: a <b ,'a , a,> ::\nr#fn\n;",
        "# [ A = = 'c' ] trait S = :: a < 'a , b , a , > :: r#fn ;",
    ),
    (
        "trait A = T + for < > c < > :: A < a , c = macro_rules , > + ;",
        "trait A = T + for < > c < > :: A < a , c = macro_rules , > + ;",
    ),
    (
        "# [ :: crate ] pub ( crate ) trait b < b : , 'a : '_ + '_ , > = Self + ;",
        "# [ :: crate ] pub ( crate ) trait b < 'a : '_ + '_ , b , > = Self + ;",
    ),
    (
        "pub ( super ) trait foo = 'static + where for < 'static , 'static > T : 'b ;",
        "pub ( super ) trait foo = 'static + where for < 'static , 'static > T : 'b ;",
    ),
    (
        "pub trait a\n= '_ where b < 'b\n> :\nSelf + union ( a\n, safe ) :: b\n, ( a ) :\n, ;",
        "pub trait a = '_ where b < 'b > : Self + union ( a , safe ) :: b , ( a ) : , ;",
    ),
];

/// What is refused, with the byte where.
pub const REFUSED: &[(&str, usize)] = &[
    ("trait A: B = C;", 7),
    ("unsafe trait A = B;", 0),
    ("", 0),
    ("trait = zB;", 6),
    ("trait T = !", 10),
    ("trait A == B;", 9),
    ("trait Ax = B1", 13),
    ("trait A = + B;", 10),
    ("trait A = B {}", 12),
    ("auto trait A = B;", 0),
    ("unsafe trait Ax = B1;", 0),
    ("trait A where T: B = C;", 8),
    ("trait\nA1: /**/ BBq =  Cx;", 8),
    ("trait\nS = :: Self + ( a\n< , 'b ,\na\n> )\n;", 26),
    ("trait T = T :: raw < 'a , a > + ( T T ) ;", 36),
    ("trait A = : : super :: Self + for < > b + where ;", 10),
    (
        "trait\nb\n< '_\n: ,\nconst union : b >\n= ? a\n+ b where\nU :",
        54,
    ),
    (
        "pub\ntrait macro_rules = ? for < #\n[\n.\n> foo ] 'a > :: T + 'b +\n;",
        36,
    ),
    (
        "pub\n( in U :: Self )\ntrait\ndefault < 'a : ,\nU > = :: a\npub +\n'a + ;",
        55,
    ),
    (
        "trait macro_rules < const c : r#self > = A where T : ? super ::: : b , ;",
        63,
    ),
    (
        "# [\nb ] trait foo = where 'a T '_ + 'b , T : for < 'static :\n'b + > raw\n+ 'a\n;",
        29,
    ),
    (
        "# [ :: ! a ] trait b <const A : b = 07 , const macro_rules : A = 07 , '_ > = where ;",
        7,
    ),
];
