//! Canonical prints, and whether two streams have the same.
ghost use Rattle.syn_answers.specs.Canonical.{CanonicalOutcome, CanonicalOfOutcome, SameFormOutcome, SameFormOfOutcome, StillCanonicalVisible};
ghost use Rattle.syn_tokens.specs.Faults.{IsSyntaxError};

mod wrappers;

pub use crate::lawful::Canonical;
pub use syn_answers::answers::join_items;
pub use syn_item::sig::{SafeOrUnsafe, UnsafeOnly};
use syn_tokens::error::Result;
use syn_tokens::print::ToTokens;
use syn_tokens::stream::TokenStream;
use syn_whole::parse::parse2;
pub use wrappers::{NamedField, Stmts, UnnamedField};

/// The canonical print of what the tokens spell: the print of the tree that the whole stream is read as.
///
/// It is refused as `T`'s parser refuses the stream, at the same place, and where something is left over; else only where
/// memory is. The stream is used up, whatever the result.
///
/// The clause `returned` says the same of the tree that `parse2` returns. Everything accepted before `const` traits and
/// impls is still accepted (`still_derives`), and its print is unchanged where it has none of them (`lift_keeps`).
pub fn canonical<T: Canonical + Drop>(tokens: TokenStream) -> Result<TokenStream>
    ensures canonical { CanonicalOutcome IsSyntaxError T.rule tokens result }
    ensures returned { CanonicalOfOutcome IsSyntaxError T.syntax T.rule tokens result }
    ensures grown { StillCanonicalVisible IsSyntaxError T.rule tokens result }
{
    let alloc = tokens.alloc();
    let tree: T = parse2(tokens)?;
    let mut printed = TokenStream::new(alloc);
    tree.to_tokens(&mut printed)?;
    Ok(printed)
}

/// Whether two streams spell the same, but for spans and for what no print keeps: whether the normal forms of their trees
/// are equal, which is whether their canonical prints are, spans aside.
///
/// It is refused where one of them is no `T`, or where memory is refused. Both streams are used up, whatever the result.
///
/// The clause `returned` says the same of the trees that `parse2` returns.
pub fn same_form<T: Canonical + Drop>(left: TokenStream, right: TokenStream) -> Result<bool>
    ensures same_form { SameFormOutcome IsSyntaxError T.rule left right result }
    ensures returned { SameFormOfOutcome IsSyntaxError T.syntax T.rule left right result }
{
    let alloc = left.alloc();
    let left_tree: T = parse2(left)?;
    let right_tree: T = parse2(right)?;
    let mut left_print = TokenStream::new(alloc);
    let mut right_print = TokenStream::new(alloc);
    left_tree.to_tokens(&mut left_print)?;
    right_tree.to_tokens(&mut right_print)?;
    Ok(left_print == right_print)
}
