//! Streams with invisible groups, which are looked through.
use crate::tests::asserts::value;
use std::alloc::Global;
use std::process::Abort;
use syn::canon::Stmts;
use syn::parse::{Parse, parse2};
use syn::print::ToTokens;
use syn::reader::read_tokens;
use syn::token::{Delimiter, StreamBuilder, TokenStream};
use syn::{
    Data, DeriveInput, Error, Expr, Field, Fields, Item, ItemImpl, Result, Stmt, Type, Visibility,
};
use syn_test_support::printed;

/// The stream of these words: `<` and `>` are the delimiters of an invisible group.
pub fn stream(alloc: Global, words: &str) -> Result<TokenStream> {
    let mut out = StreamBuilder::new(alloc);
    for word in words.split(' ') {
        add_word(alloc, word, &mut out)?;
    }
    out.finish()
}

fn add_word(alloc: Global, word: &str, out: &mut StreamBuilder) -> Result<()> {
    let span = syn::Span::call_site();
    match word {
        "<" => out.open(Delimiter::None, span)?,
        ">" => out.close(Delimiter::None, span)?,
        "(" => out.open(Delimiter::Paren, span)?,
        ")" => out.close(Delimiter::Paren, span)?,
        "[" => out.open(Delimiter::Bracket, span)?,
        "]" => out.close(Delimiter::Bracket, span)?,
        "{" => out.open(Delimiter::Brace, span)?,
        "}" => out.close(Delimiter::Brace, span)?,
        _ => out.append(&read_tokens(alloc, word)?)?,
    }
    Ok(())
}

/// What these words are parsed as.
pub fn tree<T: Parse + Drop>(rt: &impl Abort, alloc: Global, words: &str) -> T {
    let tokens = value(rt, stream(alloc, words));
    value(rt, parse2(tokens))
}

/// The text that these words print as a `T`.
fn reprinted<T: Parse + ToTokens + Drop>(alloc: Global, words: &str) -> Result<String> {
    let tree: T = parse2(stream(alloc, words)?)?;
    printed(alloc, &tree)
}

fn assert_prints<T: Parse + ToTokens + Drop>(
    rt: &impl Abort,
    alloc: Global,
    words: &str,
    text: &str,
) {
    let print = value(rt, reprinted::<T>(alloc, words));
    assert!(rt; print.as_str() == text, "{words}");
}

/// Fails where the words are read as a `T`, or memory is refused.
fn assert_refused<T: Parse + Drop>(rt: &impl Abort, alloc: Global, words: &str) {
    let tokens = value(rt, stream(alloc, words));
    assert!(rt; is_syntax_error(parse2::<T>(tokens)), "{words}");
}

fn is_syntax_error<T: Drop>(answer: std::result::Result<T, Error>) -> bool {
    match answer {
        Ok(_tree) => false,
        Err(error) => !error.is_memory(),
    }
}

/// The only field of a struct.
fn only_field(input: &DeriveInput) -> Option<&Field> {
    let Data::Struct(data) = &input.shape else {
        return None;
    };
    if data.fields.len() == 1 {
        data.fields.iter().next()
    } else {
        None
    }
}

/// Whether the only field has no visibility, and a type in an invisible group or another.
fn is_plain(input: &DeriveInput, in_group: bool) -> bool {
    match only_field(input) {
        Some(field) => {
            matches!(field.vis, Visibility::Inherited)
                && matches!(field.ty, Type::Group(_)) == in_group
        }
        None => false,
    }
}

#[test]
fn a_named_field(rt: HostRuntime) {
    let words = "struct S { < > < f > : ( ) }";
    let input: DeriveInput = tree(&rt, rt.alloc(), words);
    assert!(rt; is_plain(&input, false));
    assert_prints::<DeriveInput>(&rt, rt.alloc(), words, "struct S { f : ( ) }");
}

#[test]
fn a_type_in_a_group(rt: HostRuntime) {
    let words = "struct S ( < > < str > ) ;";
    let input: DeriveInput = tree(&rt, rt.alloc(), words);
    assert!(rt; is_plain(&input, true));
    assert_prints::<DeriveInput>(&rt, rt.alloc(), words, "struct S ( str ) ;");
}

#[test]
fn an_empty_group_after_the_last_comma(rt: HostRuntime) {
    let words = "struct S ( u8 , < > ) ;";
    let input: DeriveInput = tree(&rt, rt.alloc(), words);
    assert!(rt; is_plain(&input, false));
    assert_prints::<DeriveInput>(&rt, rt.alloc(), words, "struct S ( u8 , ) ;");
}

#[test]
fn a_visibility_in_a_group(rt: HostRuntime) {
    let input: DeriveInput = tree(&rt, rt.alloc(), "< pub > struct S ;");
    assert!(rt; matches!(input.vis, Visibility::Public(_)));
    assert_prints::<DeriveInput>(&rt, rt.alloc(), "< pub > struct S ;", "pub struct S ;");
}

#[test]
fn an_operand_in_a_group(rt: HostRuntime) {
    let product: Expr = tree(&rt, rt.alloc(), "< 1 + 2 > * 3");
    assert!(rt; has_group_on_the_left(&product));
    assert_prints::<Expr>(&rt, rt.alloc(), "< 1 + 2 > * 3", "1 + 2 * 3");
}

/// As a statement too.
#[test]
fn an_operand_in_a_group_as_a_statement(rt: HostRuntime) {
    let Stmts(statements) = tree(&rt, rt.alloc(), "< 1 + 2 > * 3");
    assert_eq!(rt; statements.len(), 1);
    match &statements[0] {
        Stmt::Expr(product, None) => assert!(rt; has_group_on_the_left(product)),
        _ => assert!(rt; false, "an expression"),
    }
    assert_prints::<Stmts>(&rt, rt.alloc(), "< 1 + 2 > * 3", "1 + 2 * 3");
}

fn has_group_on_the_left(expr: &Expr) -> bool {
    match expr {
        Expr::Binary(product) => matches!(&*product.left, Expr::Group(_)),
        _ => false,
    }
}

#[test]
fn a_statement_in_a_group_is_refused(rt: HostRuntime) {
    assert_refused::<Stmt>(&rt, rt.alloc(), "< let x = 1 ; >");
}

#[test]
fn the_trait_of_an_impl(rt: HostRuntime) {
    let item: ItemImpl = tree(&rt, rt.alloc(), "impl < A > for B { }");
    assert!(rt; item.trait_.is_some());
    assert_prints::<ItemImpl>(&rt, rt.alloc(), "impl < A > for B { }", "impl A for B { }");
}

/// As an item too, and in a module; what a macro holds stays as it is.
#[test]
fn the_trait_of_an_impl_among_items(rt: HostRuntime) {
    let item: Item = tree(&rt, rt.alloc(), "impl < A > for < B > { }");
    assert!(rt; matches!(item, Item::Impl(_)));
    let item: Item = tree(&rt, rt.alloc(), "unsafe impl<T> ! < < A > > for B { }");
    assert!(rt; matches!(item, Item::Impl(_)));
    let item: Item = tree(&rt, rt.alloc(), "m! { impl < A > for B { } }");
    assert!(rt; entries_of_macro(&item) == 8);
}

fn entries_of_macro(item: &Item) -> usize {
    match item {
        Item::Macro(item) => item.mac.tokens.entries().len(),
        _ => 0,
    }
}

/// Items with groups, and their prints.
const ITEMS: &[(&str, &str)] = &[
    ("struct < S > { }", "struct S { }"),
    ("< struct S ; >", "struct S ;"),
    ("struct < S < < ; > > >", "struct S ;"),
    ("fn < f > ( ) < { } >", "fn f ( ) { }"),
    ("use < a > :: < b > ;", "use a :: b ;"),
    ("enum E { < A > , < B = 1 > }", "enum E { A , B = 1 }"),
    ("fn f ( ) { let < x > = 1 ; }", "fn f ( ) { let x = 1 ; }"),
    ("< > impl<T> A { }", "impl < T > A { }"),
    ("impl< < T > >A<T> { }", "impl < T > A < T > { }"),
    ("impl < <T>A > <T> { }", "impl < T > A < T > { }"),
    ("struct S < > where < > { }", "struct S { }"),
    (
        "struct S ( < pub > u8 , < pub (a) > ) ;",
        "struct S ( pub u8 , pub ( a ) ) ;",
    ),
];

#[test]
fn items(rt: HostRuntime) {
    for (words, text) in ITEMS {
        assert_prints::<Item>(&rt, rt.alloc(), words, text);
    }
    assert_refused::<Item>(&rt, rt.alloc(), "struct < 1 > { }");
    assert_refused::<Item>(&rt, rt.alloc(), "< > pub struct S ;");
}

/// Statements with groups, and their prints.
const STATEMENTS: &[(&str, &str)] = &[
    ("< fn f > ( ) { }", "fn f ( ) { }"),
    ("< #[a] > fn f ( ) { }", "# [ a ] fn f ( ) { }"),
    ("< unsafe > fn f ( ) { }", "unsafe fn f ( ) { }"),
    ("< m > ! { }", "m ! { }"),
    ("< a::m! > { }", "a :: m ! { }"),
    ("a < + b ; >", "a + b ;"),
    ("return < > ;", "return ;"),
];

#[test]
fn statements(rt: HostRuntime) {
    for (words, text) in STATEMENTS {
        assert_prints::<Stmt>(&rt, rt.alloc(), words, text);
    }
    for words in [
        "< a + > b ;",
        "< return > !x ;",
        "< > let x = 1 ;",
        "< let > x = 1 ;",
    ] {
        assert_refused::<Stmt>(&rt, rt.alloc(), words);
    }
}

/// Expressions with groups, and their prints.
const EXPRESSIONS: &[(&str, &str)] = &[
    ("a * < * > b", "a * * b"),
    ("& < mut > a", "& mut a"),
    ("< > -a", "- a"),
    ("< #[a] > b", "# [ a ] b"),
    ("a. < b > ( < > )", "a . b ( )"),
    ("'a: < loop { } >", "'a : loop { }"),
];

#[test]
fn expressions(rt: HostRuntime) {
    for (words, text) in EXPRESSIONS {
        assert_prints::<Expr>(&rt, rt.alloc(), words, text);
    }
    for words in [
        "1 * < 2 + > 3",
        "< > a",
        "a + < 'b > : loop { }",
        "f ( < a b > )",
    ] {
        assert_refused::<Expr>(&rt, rt.alloc(), words);
    }
}

/// Types with groups, and their prints.
const TYPES: &[(&str, &str)] = &[
    ("A< < 1 > >::B", "A < 1 > :: B"),
    ("A< < 'a > ,B>", "A < 'a , B >"),
    ("A< < I > =U>", "A < I = U >"),
    ("A< < { 1 } > ,B>", "A < { 1 } , B >"),
    ("& < &A >", "& & A"),
];

#[test]
fn types(rt: HostRuntime) {
    for (words, text) in TYPES {
        assert_prints::<Type>(&rt, rt.alloc(), words, text);
    }
    for words in ["< > A", "& < > &A", "< A > ::B", "< A > =B"] {
        assert_refused::<Type>(&rt, rt.alloc(), words);
    }
}

#[test]
fn an_attribute_that_begins_in_a_group(rt: HostRuntime) {
    let input: DeriveInput = tree(&rt, rt.alloc(), "< # > [a] struct S ( < > u8 ) ;");
    assert!(rt; input.attrs.len() == 1);
}

/// What is kept verbatim keeps its groups.
#[test]
fn tokens_of_a_macro(rt: HostRuntime) {
    let statement: Stmt = tree(&rt, rt.alloc(), "< m > ! { < pub > a }");
    assert!(rt; entries_of_body(&statement) == 4);
}

/// How many entries the body of a macro has that is a statement.
fn entries_of_body(statement: &Stmt) -> usize {
    match statement {
        Stmt::Macro(invocation) => invocation.mac.tokens.entries().len(),
        _ => 0,
    }
}

/// How many groups are nested, and how many stand side by side.
const MANY: usize = 100_000;

/// A struct with so many invisible groups, none with content, nested before its name, and after that side by side.
fn many_groups(alloc: Global) -> Result<TokenStream> {
    let span = syn::Span::call_site();
    let mut out = StreamBuilder::new(alloc);
    out.append(&read_tokens(alloc, "struct")?)?;
    for _group in 0..MANY {
        out.open(Delimiter::None, span)?;
    }
    for _group in 0..MANY {
        out.close(Delimiter::None, span)?;
    }
    out.append(&read_tokens(alloc, "S")?)?;
    for _group in 0..MANY {
        out.open(Delimiter::None, span)?;
        out.close(Delimiter::None, span)?;
    }
    out.append(&read_tokens(alloc, ";")?)?;
    out.finish()
}

#[test]
fn many_groups_without_content(rt: HostRuntime) {
    let tokens = value(&rt, many_groups(rt.alloc()));
    let input: DeriveInput = value(&rt, parse2(tokens));
    let print = value(&rt, printed(rt.alloc(), &input));
    assert!(rt; print.as_str() == "struct S ;");
}
