//! Texts of extern crates: a line each, so that others may be added.

/// What is read, with what it prints.
pub const READ: &[(&str, &str)] = &[
    ("extern crate self as _;", "extern crate self as _ ;"),
    ("pub extern crate a;", "pub extern crate a ;"),
    ("extern crate T;", "extern crate T ;"),
    ("extern crate T ;", "extern crate T ;"),
    ("extern crate\nax; ", "extern crate ax ;"),
    ("extern crate foo\n;", "extern crate foo ;"),
    ("extern crate self;", "extern crate self ;"),
    ("extern\ncrate self\n;", "extern crate self ;"),
    ("extern crate self ;", "extern crate self ;"),
    ("extern crate\nunion ;", "extern crate union ;"),
    ("extern crate T as T ;", "extern crate T as T ;"),
    ("extern crate T as a ;", "extern crate T as a ;"),
    ("extern crate za as b1;", "extern crate za as b1 ;"),
    ("extern crate T as raw ;", "extern crate T as raw ;"),
    ("pub extern crate self ;", "pub extern crate self ;"),
    ("pub\nextern crate /**/ _a;", "pub extern crate _a ;"),
    ("pub extern crate U as _ ;", "pub extern crate U as _ ;"),
    ("extern crate r#self as T ;", "extern crate r#self as T ;"),
    ("extern crate za as _; // e", "extern crate za as _ ;"),
    ("# [ U ] extern crate self ;", "# [ U ] extern crate self ;"),
    ("extern crate A as default ;", "extern crate A as default ;"),
    (
        "pub( self) extern\ncrate a\n;",
        "pub ( self ) extern crate a ;",
    ),
    (
        "pub ( crate ) extern crate a ;",
        "pub ( crate ) extern crate a ;",
    ),
    (
        "pub ( super ) extern crate b\n;",
        "pub ( super ) extern crate b ;",
    ),
    (
        "pub( self) extern\ncrate raw as\na;",
        "pub ( self ) extern crate raw as a ;",
    ),
    (
        "pub extern crate\nself as default\n;",
        "pub extern crate self as default ;",
    ),
    (
        "#[macro_use] extern crate a as r#as;",
        "# [ macro_use ] extern crate a as r#as ;",
    ),
    (
        "pub ( crate )\nextern crate\nself as _ ;",
        "pub ( crate ) extern crate self as _ ;",
    ),
];

/// What is refused, with the byte where.
pub const REFUSED: &[(&str, usize)] = &[
    ("extern crate a as 1;", 18),
    ("extern crate a as try;", 18),
    ("", 0),
    ("extern crate;", 12),
    ("extern crate a", 14),
    ("extern crate _;", 13),
    ("extern crate ; b", 13),
    ("extern  crate try;", 14),
    ("extern crate a::b;", 14),
    ("extern \"C\" crate a;", 7),
    ("extern crate crate;", 13),
    ("extern crate super;", 13),
    ("extern crate za as;", 18),
    ("#[x] extern crate _;", 18),
    ("extern crate _ as b;", 13),
    ("extern a A as crate ;", 7),
    ("pub ( - ) T crate S ;", 4),
    ("extern\ncrate A as\n_ ; ;", 22),
    ("extern crate T + as T ;", 15),
    ("extern crate a as self;", 18),
    ("pub extern crate\nas A ;", 17),
    ("unsafe extern crate _a;", 0),
    ("crate extern as r#self ;", 0),
    ("pub extern crate _; // e", 17),
    ("extern crate default self ;", 21),
    ("pub extern crate safe as as S ;", 25),
];
