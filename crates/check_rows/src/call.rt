//! What calls read at the front of a text.

use std::alloc::Global;
use std::convert::From;
use std::marker::PhantomData;
use syn::data::Field;
use syn::deferred::{
    DeferredBlock, DeferredConstant, DeferredExpr, DeferredItem, read_deferred_rest,
};
use syn::item::{Item, Receiver, Safety, Signature};
use syn::lower::{Attribute, Path, Type};
use syn::parse::{Parse, ParseBuffer};
use syn::stmt::{Block, Stmt};
use syn::token::{Span, TokenStream};
use syn::{Error, Expr, Pat, Result, ToTokens, TryClone};
use syn_item::sig::foreign_signature;
use syn_pat::parsing::typed_pattern;
use syn_test_support::outline::Outlined;
use syn_tokens::syntactic::compare::Compared;

/// A call that reads a tree at the front of a buffer.
pub(crate) trait Call {
    type Tree: Outlined + TryClone + Compared + PartialEq + Drop;

    fn read(input: &mut ParseBuffer<'_>) -> Result<Self::Tree>;

    /// Adds what the tree prints.
    fn print(tree: &Self::Tree, tokens: &mut TokenStream) -> Result<()>;
}

/// `Field::parse_named`
pub(crate) struct NamedField;

impl Call for NamedField {
    type Tree = Field;

    fn read(input: &mut ParseBuffer<'_>) -> Result<Field> {
        Field::parse_named(input)
    }

    fn print(tree: &Field, tokens: &mut TokenStream) -> Result<()> {
        tree.to_tokens(tokens)
    }
}

/// `Field::parse_unnamed`
pub(crate) struct UnnamedField;

impl Call for UnnamedField {
    type Tree = Field;

    fn read(input: &mut ParseBuffer<'_>) -> Result<Field> {
        Field::parse_unnamed(input)
    }

    fn print(tree: &Field, tokens: &mut TokenStream) -> Result<()> {
        tree.to_tokens(tokens)
    }
}

/// `typed_pattern`
pub(crate) struct TypedPattern;

impl Call for TypedPattern {
    type Tree = Pat;

    fn read(input: &mut ParseBuffer<'_>) -> Result<Pat> {
        Ok(typed_pattern(input)?)
    }

    fn print(tree: &Pat, tokens: &mut TokenStream) -> Result<()> {
        tree.to_tokens(tokens)
    }
}

/// `Path::parse_mod_style`
pub(crate) struct ModStyle;

impl Call for ModStyle {
    type Tree = Path;

    fn read(input: &mut ParseBuffer<'_>) -> Result<Path> {
        Path::parse_mod_style(input)
    }

    fn print(tree: &Path, tokens: &mut TokenStream) -> Result<()> {
        tree.to_tokens(tokens)
    }
}

/// `Attribute::parse_outer`
pub(crate) struct OuterAttributes;

impl Call for OuterAttributes {
    type Tree = Vec<Attribute>;

    fn read(input: &mut ParseBuffer<'_>) -> Result<Vec<Attribute>> {
        Attribute::parse_outer(input)
    }

    fn print(tree: &Vec<Attribute>, tokens: &mut TokenStream) -> Result<()> {
        print_all(tree, tokens)
    }
}

/// `Attribute::parse_inner`
pub(crate) struct InnerAttributes;

impl Call for InnerAttributes {
    type Tree = Vec<Attribute>;

    fn read(input: &mut ParseBuffer<'_>) -> Result<Vec<Attribute>> {
        Attribute::parse_inner(input)
    }

    fn print(tree: &Vec<Attribute>, tokens: &mut TokenStream) -> Result<()> {
        print_all(tree, tokens)
    }
}

/// Adds what attributes print.
fn print_all(attrs: &Vec<Attribute>, tokens: &mut TokenStream) -> Result<()> {
    for attr in attrs {
        attr.to_tokens(tokens)?;
    }
    Ok(())
}

/// `Block::parse_within`
pub(crate) struct WithinBlock;

impl Call for WithinBlock {
    type Tree = Vec<Stmt>;

    fn read(input: &mut ParseBuffer<'_>) -> Result<Vec<Stmt>> {
        Block::parse_within(input)
    }

    fn print(tree: &Vec<Stmt>, tokens: &mut TokenStream) -> Result<()> {
        for stmt in tree {
            stmt.to_tokens(tokens)?;
        }
        Ok(())
    }
}

/// `Deferred::open` of a constant
pub(crate) struct OpenedConstant;

impl Call for OpenedConstant {
    type Tree = Expr;

    fn read(input: &mut ParseBuffer<'_>) -> Result<Expr> {
        let deferred: DeferredConstant = input.parse()?;
        deferred.open()
    }

    fn print(tree: &Expr, tokens: &mut TokenStream) -> Result<()> {
        tree.to_tokens(tokens)
    }
}

/// `read_deferred_rest` of an expression
pub(crate) struct Rest;

impl Call for Rest {
    type Tree = DeferredExpr;

    fn read(input: &mut ParseBuffer<'_>) -> Result<DeferredExpr> {
        Ok(read_deferred_rest(input)?)
    }

    fn print(tree: &DeferredExpr, tokens: &mut TokenStream) -> Result<()> {
        tree.to_tokens(tokens)
    }
}

/// `Deferred::open` of such a rest
pub(crate) struct OpenedRest;

impl Call for OpenedRest {
    type Tree = Expr;

    fn read(input: &mut ParseBuffer<'_>) -> Result<Expr> {
        Rest::read(input)?.open()
    }

    fn print(tree: &Expr, tokens: &mut TokenStream) -> Result<()> {
        tree.to_tokens(tokens)
    }
}

/// `Deferred::open` of the length of an array
pub(crate) struct OpenedLength;

impl Call for OpenedLength {
    type Tree = Expr;

    fn read(input: &mut ParseBuffer<'_>) -> Result<Expr> {
        let ty: Type = input.parse()?;
        match &ty {
            Type::Array(array) => array.len.open(),
            _ => Err(Error::new(Span::call_site(), "no array")),
        }
    }

    fn print(tree: &Expr, tokens: &mut TokenStream) -> Result<()> {
        tree.to_tokens(tokens)
    }
}

/// `foreign_signature`
pub(crate) struct ForeignSignature;

impl Call for ForeignSignature {
    type Tree = Signature;

    fn read(input: &mut ParseBuffer<'_>) -> Result<Signature> {
        Ok(foreign_signature(input)?)
    }

    fn print(tree: &Signature, tokens: &mut TokenStream) -> Result<()> {
        tree.to_tokens(tokens)
    }
}

/// `Signature::receiver`
pub(crate) struct ReceiverOf;

impl Call for ReceiverOf {
    type Tree = Option<Receiver>;

    fn read(input: &mut ParseBuffer<'_>) -> Result<Option<Receiver>> {
        let sig: Signature = input.parse()?;
        match sig.receiver() {
            Some(receiver) => Ok(Some(receiver.try_clone(input.alloc())?)),
            None => Ok(None),
        }
    }

    fn print(tree: &Option<Receiver>, tokens: &mut TokenStream) -> Result<()> {
        tree.to_tokens(tokens)
    }
}

/// `Safety::parse_safe_or_unsafe`
pub(crate) struct EitherSafety;

impl Call for EitherSafety {
    type Tree = Safety;

    fn read(input: &mut ParseBuffer<'_>) -> Result<Safety> {
        Safety::parse_safe_or_unsafe(input)
    }

    fn print(tree: &Safety, tokens: &mut TokenStream) -> Result<()> {
        tree.to_tokens(tokens)
    }
}

/// `Safety::parse_unsafe_only`
pub(crate) struct UnsafeAlone;

impl Call for UnsafeAlone {
    type Tree = Safety;

    fn read(input: &mut ParseBuffer<'_>) -> Result<Safety> {
        Safety::parse_unsafe_only(input)
    }

    fn print(tree: &Safety, tokens: &mut TokenStream) -> Result<()> {
        tree.to_tokens(tokens)
    }
}

/// `Deferred::open` of an item
pub(crate) struct OpenedItem;

impl Call for OpenedItem {
    type Tree = Item;

    fn read(input: &mut ParseBuffer<'_>) -> Result<Item> {
        let deferred: DeferredItem = input.parse()?;
        deferred.open()
    }

    fn print(tree: &Item, tokens: &mut TokenStream) -> Result<()> {
        tree.to_tokens(tokens)
    }
}

/// `DeferredBlock::open`
pub(crate) struct OpenedBlock;

impl Call for OpenedBlock {
    type Tree = Block;

    fn read(input: &mut ParseBuffer<'_>) -> Result<Block> {
        let deferred: DeferredBlock = input.parse()?;
        deferred.open()
    }

    fn print(tree: &Block, tokens: &mut TokenStream) -> Result<()> {
        tree.to_tokens(tokens)
    }
}

/// `U::from` of a `T`
pub(crate) struct Converted<T, U> {
    from: PhantomData<T>,
    into: PhantomData<U>,
}

impl<
    T: Parse + Drop,
    U: From<T> + ToTokens + Outlined + TryClone + Compared + PartialEq + Drop,
> Call for Converted<T, U> {
    type Tree = U;

    fn read(input: &mut ParseBuffer<'_>) -> Result<U> {
        Ok(U::from(input.parse::<T>()?))
    }

    fn print(tree: &U, tokens: &mut TokenStream) -> Result<()> {
        tree.to_tokens(tokens)
    }
}
