//! What items keep as tokens, opened, changed and made again: bodies, values, the content of modules, items among statements. And a
//! function over a buffer that reads a body of its own.
use crate::tests::asserts::{assert_equality, assert_printed, tokens_of, tree_of, value};
use std::alloc::Global;
use std::process::Abort;
use syn::deferred::{DeferredBlock, DeferredItem, DeferredItems};
use syn::item::Items;
use syn::parse::{Parse, ParseBuffer};
use syn::token::{self, TokenStream};
use syn::{
    Attribute, Block, Error, Expr, Ident, ImplItemFn, Item, ItemConst, ItemFn, ItemMod, ItemStatic,
    ItemTrait, Result, Span, Stmt, ToTokens, TraitItem,
};

/// What is said where there is no such part.
fn missing() -> Error {
    Error::new(Span::call_site(), "no such part")
}

/// A function whose body has one statement less.
fn shortened(alloc: Global, mut function: ItemFn) -> Result<ItemFn> {
    let mut block: Block = function.block.open()?;
    let _last = block.stmts.pop();
    function.block = DeferredBlock::new(&block, alloc)?;
    Ok(function)
}

#[test]
fn bodies(rt: HostRuntime) {
    let alloc = rt.alloc();
    let function: ItemFn = tree_of(
        &rt,
        alloc,
        "#[a] pub fn f<T>() -> u8 { #![b] let c = 1; c + 2 }",
    );
    let shorter = value(&rt, shortened(alloc, function));
    assert_printed(
        &rt,
        alloc,
        shorter,
        "# [ a ] pub fn f < T > ( ) -> u8 { # ! [ b ] let c = 1 ; }",
    );
}

/// The block of a method.
fn body_of_method(function: &ImplItemFn) -> Result<Block> {
    function.block.open()
}

/// The block of a trait's first member.
fn body_of_default(item: &ItemTrait) -> Result<Block> {
    match item.items.first() {
        Some(TraitItem::Fn(function)) => match &function.default {
            Some(block) => block.open(),
            None => Err(missing()),
        },
        _ => Err(missing()),
    }
}

#[test]
fn bodies_of_members(rt: HostRuntime) {
    let alloc = rt.alloc();
    let method: ImplItemFn = tree_of(&rt, alloc, "default fn f(self) { self.a() }");
    let block = value(&rt, body_of_method(&method));
    assert_printed(&rt, alloc, block, "{ self . a ( ) }");
    let item: ItemTrait = tree_of(&rt, alloc, "trait A { fn f() { loop { break } } }");
    let block = value(&rt, body_of_default(&item));
    assert_printed(&rt, alloc, block, "{ loop { break } }");
}

/// The value of a constant.
fn value_of(item: &ItemConst) -> Result<Expr> {
    item.expr.open()
}

/// The value of a static.
fn value_of_static(item: &ItemStatic) -> Result<Expr> {
    item.expr.open()
}

#[test]
fn values(rt: HostRuntime) {
    let alloc = rt.alloc();
    let item: ItemConst = tree_of(&rt, alloc, "const A: u8 = b(1)? + c;");
    assert_printed(&rt, alloc, value(&rt, value_of(&item)), "b ( 1 ) ? + c");
    let item: ItemStatic = tree_of(&rt, alloc, "static A: u8 = S { b: [1; 2] };");
    let expr = value(&rt, value_of_static(&item));
    assert_printed(&rt, alloc, expr, "S { b : [ 1 ; 2 ] }");
}

/// A module without its last item.
fn without_last(alloc: Global, mut module: ItemMod) -> Result<ItemMod> {
    let Some((_, deferred)) = &mut module.content else {
        return Err(missing());
    };
    let mut items: Items = deferred.open()?;
    let _last = items.0.pop();
    *deferred = DeferredItems::new(&items, alloc)?;
    Ok(module)
}

#[test]
fn modules(rt: HostRuntime) {
    let alloc = rt.alloc();
    let text = "#[a] mod b { #![c] fn d() { 1 } fn e(); struct F; }";
    let module: ItemMod = tree_of(&rt, alloc, text);
    let shorter = value(&rt, without_last(alloc, module));
    assert_printed(
        &rt,
        alloc,
        shorter,
        "# [ a ] mod b { # ! [ c ] fn d ( ) { 1 } fn e ( ) ; }",
    );
}

/// The item that a statement is.
fn item_of(stmt: &Stmt) -> Result<Item> {
    match stmt {
        Stmt::Item(item) => item.open(),
        _ => Err(missing()),
    }
}

/// An item among statements is an item of its kind, or kept verbatim.
#[test]
fn items_of_statements(rt: HostRuntime) {
    let alloc = rt.alloc();
    for (text, want) in [
        ("fn f() { 1 }", "fn f ( ) { 1 }"),
        ("fn f();", "fn f ( ) ;"),
        (
            "macro_rules! m { () => {} }",
            "macro_rules ! m { ( ) => { } }",
        ),
        ("impl<> <T>::B {}", "impl < > < T > :: B { }"),
    ] {
        let stmt: Stmt = tree_of(&rt, alloc, text);
        let item = value(&rt, item_of(&stmt));
        let again = value(&rt, DeferredItem::new(&item, alloc));
        assert_printed(&rt, alloc, item, want);
        assert_equality(&rt, Stmt::Item(again), stmt, true);
    }
}

/// What is in a function of one's own: outer attributes, a name, inner attributes, and statements.
#[derive(Drop)]
struct Own {
    outer: Vec<Attribute>,
    name: Ident,
    inner: Vec<Attribute>,
    stmts: Vec<Stmt>,
}

/// Reads it, as a macro of one's own may.
fn own_function(input: &mut ParseBuffer<'_>) -> Result<Own> {
    let outer = Attribute::parse_outer(input)?;
    let _fn: token::Fn = input.parse()?;
    let name: Ident = input.parse()?;
    let (_braces, mut content) = input.braced()?;
    let inner = Attribute::parse_inner(&mut content)?;
    let stmts = Block::parse_within(&mut content)?;
    content.finish()?;
    Ok(Own {
        outer,
        name,
        inner,
        stmts,
    })
}

#[test]
fn own_functions(rt: HostRuntime) {
    let tokens = tokens_of(&rt, rt.alloc(), "#[a] fn p { #![b] let x = 1; x }");
    let own = value(&rt, own_function(&mut ParseBuffer::new(&tokens)));
    assert_eq!(rt; own.outer.len(), 1);
    assert_eq!(rt; own.name.text(), "p");
    assert_eq!(rt; own.inner.len(), 1);
    assert!(rt; matches!(own.stmts.first(), Some(Stmt::Local(_))));
    assert!(rt; matches!(own.stmts.last(), Some(Stmt::Expr(_, None))));
}

/// An item and an expression in a row.
#[test]
fn items_and_expressions(rt: HostRuntime) {
    let tokens = tokens_of(&rt, rt.alloc(), "fn f() {} f()");
    let stmts = value(&rt, Block::parse_within(&mut ParseBuffer::new(&tokens)));
    assert_eq!(rt; stmts.len(), 2);
    assert!(rt; matches!(&stmts[0], Stmt::Item(_)));
    assert!(rt; matches!(&stmts[1], Stmt::Expr(_, None)));
}

/// What a text prints as a `T`.
fn print_of<T: Parse + ToTokens + Drop>(rt: &impl Abort, alloc: Global, text: &str) -> TokenStream {
    let tree: T = tree_of(rt, alloc, text);
    let mut tokens = TokenStream::new(alloc);
    value(rt, tree.to_tokens(&mut tokens));
    tokens
}

/// Fails where two texts print alike as a `T` and shouldn't, or the other way round.
fn assert_alike<T: Parse + ToTokens + Drop>(
    rt: &impl Abort,
    alloc: Global,
    left: &str,
    right: &str,
    want: bool,
) {
    let alike = print_of::<T>(rt, alloc, left) == print_of::<T>(rt, alloc, right);
    assert!(rt; alike == want, "{left:?} and {right:?}");
}

/// Whether two items print alike, which is whether they have one normal form.
#[test]
fn prints_alike(rt: HostRuntime) {
    let alloc = rt.alloc();
    for (left, right, want) in [
        ("trait T: {}", "trait T {}", true),
        ("struct S<> where ;", "struct S;", true),
        ("struct S<T, 'a>;", "struct S<'a, T,>;", true),
        ("struct S<T, 'a>;", "struct S<'a, T>;", false),
        ("type T where U: A = U;", "type T = U where U: A;", false),
        ("fn f(Foo<T>) {}", "fn f(_: Foo<T>) {}", true),
        ("#[a(x=>y)] struct S;", "#[a(x= >y)] struct S;", false),
        ("struct S(A<>);", "struct S(A);", false),
        ("const trait T<>: {}", "const trait T {}", true),
    ] {
        assert_alike::<Item>(&rt, alloc, left, right, want);
    }
    assert_alike::<TraitItem>(&rt, alloc, "type X: A += B;", "type X: A + = B;", true);
}
