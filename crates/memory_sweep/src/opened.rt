//! `open`, of trees that are deferred.

use crate::ends::{Call, End, Run};
use crate::failure::Failure;
use crate::given::{Input, is_stream, printed};
use crate::heap::{refuse, was_refused};
use crate::sweep::sweep;
use crate::tally::Tally;
use crate::ways::{ByItself, InField, Ways};
use std::alloc::Global;
use std::marker::PhantomData;
use syn::canon::Stmts;
use syn::deferred::{
    DeferredBlock, DeferredExpr, DeferredItem, DeferredItems, DeferredStatements,
    read_deferred_rest,
};
use syn::item::{ItemMod, Items};
use syn::parse::ParseBuffer;
use syn::stmt::Block;
use syn::token::TokenStream;
use syn::{Error, Expr, Item, Result, Span, ToTokens};

/// Opens the input as a deferred tree of this type, if there is one.
pub(crate) fn sweep_opened(
    word: &str,
    input: &Input<'_>,
    tally: &mut Tally,
) -> std::result::Result<(), Failure> {
    match word {
        "Block" => opened_as::<DeferredBlock, Block, ByItself>(input, tally),
        "Expr" => opened_as::<DeferredExpr, Expr, ByItself>(input, tally),
        "Item" => opened_as::<DeferredItem, Item, ByItself>(input, tally),
        "ItemMod" => opened_as::<DeferredItems, Items, InField>(input, tally),
        "Stmts" => opened_as::<DeferredStatements, Stmts, InField>(input, tally),
        _ => Ok(()),
    }
}

fn opened_as<D: Opens<T> + Drop, T: ToTokens + Drop, W: Ways<T>>(
    input: &Input<'_>,
    tally: &mut Tally,
) -> std::result::Result<(), Failure> {
    let given: GivenDeferred<D, T> = GivenDeferred::new(input)?;
    sweep::<GivenDeferred<D, T>, Open<W>>(&given, "open", tally)
}

/// A deferred `T`.
trait Opens<T> {
    /// The one at the front of the input.
    fn deferred(input: &mut ParseBuffer<'_>) -> Result<Self>;

    /// The tree that it represents.
    fn opened(&self) -> Result<T>;
}

impl Opens<Block> for DeferredBlock {
    fn deferred(input: &mut ParseBuffer<'_>) -> Result<DeferredBlock> {
        input.parse()
    }

    fn opened(&self) -> Result<Block> {
        self.open()
    }
}

impl Opens<Expr> for DeferredExpr {
    fn deferred(input: &mut ParseBuffer<'_>) -> Result<DeferredExpr> {
        Ok(read_deferred_rest(input)?)
    }

    fn opened(&self) -> Result<Expr> {
        self.open()
    }
}

impl Opens<Item> for DeferredItem {
    fn deferred(input: &mut ParseBuffer<'_>) -> Result<DeferredItem> {
        input.parse()
    }

    fn opened(&self) -> Result<Item> {
        self.open()
    }
}

/// The content of a module.
impl Opens<Items> for DeferredItems {
    fn deferred(input: &mut ParseBuffer<'_>) -> Result<DeferredItems> {
        let module: ItemMod = input.parse()?;
        match module.content {
            Some((_braces, items)) => Ok(items),
            None => Err(Error::new(Span::call_site(), "a module without content")),
        }
    }

    fn opened(&self) -> Result<Items> {
        self.open()
    }
}

impl Opens<Stmts> for DeferredStatements {
    fn deferred(input: &mut ParseBuffer<'_>) -> Result<DeferredStatements> {
        Ok(read_deferred_rest(input)?)
    }

    fn opened(&self) -> Result<Stmts> {
        self.open()
    }
}

/// A deferred tree, the tree that it represents, and what that prints.
#[derive(Drop)]
struct GivenDeferred<D, T> {
    alloc: Global,
    deferred: D,
    tree: T,
    print: TokenStream,
}

impl<D: Opens<T> + Drop, T: ToTokens + Drop> GivenDeferred<D, T> {
    /// What the call on this input is made with. Nothing is refused here.
    fn new(input: &Input<'_>) -> Result<GivenDeferred<D, T>> {
        let alloc = input.alloc;
        let deferred = D::deferred(&mut ParseBuffer::new(input.tokens))?;
        let tree = deferred.opened()?;
        let print = printed(alloc, &tree)?;
        Ok(GivenDeferred {
            alloc,
            deferred,
            tree,
            print,
        })
    }
}

/// `open`
struct Open<W> {
    ways: PhantomData<W>,
}

impl<D: Opens<T> + Drop, T: ToTokens + Drop, W: Ways<T>> Call<GivenDeferred<D, T>> for Open<W> {
    fn once(given: &GivenDeferred<D, T>, number: usize) -> Result<Run> {
        refuse(given.alloc, number);
        let answer = given.deferred.opened();
        let is_refused = was_refused(given.alloc);
        let end = match answer {
            Ok(tree) => {
                let print = printed(given.alloc, &tree)?;
                End::of_answer(W::is_equal(&given.tree, &tree) && is_stream(&given.print, &print))
            }
            Err(error) => End::of_error(&error, true),
        };
        Ok(Run { is_refused, end })
    }
}
