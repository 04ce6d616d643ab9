//! Texts of each kind, by tables: what is read prints as its table says, and so does a copy; what is refused is refused at the byte that
//! the table says.
use crate::tests::support::{assert_tree, part};
use std::alloc::Global;
use std::process::Abort;
use syn_item::file::File;
use syn_item::foreign::{ForeignItem, ItemForeignMod};
use syn_item::function::ItemFn;
use syn_item::impls::{ImplItem, ItemImpl};
use syn_item::item::Item;
use syn_item::sig::{FnArg, Receiver, Signature};
use syn_item::simple::{
    ItemConst, ItemExternCrate, ItemMacro, ItemMod, ItemStatic, ItemTraitAlias, ItemType, ItemUse,
};
use syn_item::traits::{ItemTrait, TraitItem};
use syn_item::use_tree::UseTree;
use syn_parse::parse::Parse;
use syn_reader::reader::read_tokens;
use syn_tokens::error::Result;
use syn_tokens::print::ToTokens;
use syn_tokens::syntactic::try_clone::TryClone;
use syn_whole::parse::parse2;

mod file;
mod fn_arg;
mod foreign_item;
mod impl_item;
mod item;
mod item_const;
mod item_extern_crate;
mod item_fn;
mod item_foreign_mod;
mod item_impl;
mod item_macro;
mod item_mod;
mod item_static;
mod item_trait;
mod item_trait_alias;
mod item_type;
mod item_use;
mod receiver;
mod signature;
mod trait_item;
mod use_tree;

/// A text, and what it prints.
type Printed = (&'static str, &'static str);

/// A text, and the byte at which it is refused.
type Refused = (&'static str, usize);

/// What a text is parsed as, or its fault.
fn parsed<T: Parse + Drop>(alloc: Global, text: &str) -> Result<T> {
    parse2(read_tokens(alloc, text)?)
}

/// The byte at which a text is refused as a `T`.
fn refused_at<T: Parse + Drop>(alloc: Global, text: &str) -> Option<usize> {
    match parsed::<T>(alloc, text) {
        Ok(_) => None,
        Err(error) if error.is_memory() => None,
        Err(error) => Some(error.span().start),
    }
}

/// Fails where a text is read, printed or refused in another way than the tables say.
fn assert_texts<T: Parse + ToTokens + TryClone + PartialEq + Drop>(
    rt: &impl Abort,
    alloc: Global,
    read: &[Printed],
    refused: &[Refused],
) {
    for (text, want) in read {
        let tree: T = part(rt, alloc, text);
        assert_tree(rt, alloc, tree, want);
    }
    for (text, want) in refused {
        let found = refused_at::<T>(alloc, text);
        assert!(rt;
            found == Some(*want),
            "{text:?} is refused at {found:?}, and not at {want}"
        );
    }
}

#[test]
fn signatures(rt: HostRuntime) {
    assert_texts::<Signature>(&rt, rt.alloc(), signature::READ, signature::REFUSED);
}

#[test]
fn fn_args(rt: HostRuntime) {
    assert_texts::<FnArg>(&rt, rt.alloc(), fn_arg::READ, fn_arg::REFUSED);
}

#[test]
fn receivers(rt: HostRuntime) {
    assert_texts::<Receiver>(&rt, rt.alloc(), receiver::READ, receiver::REFUSED);
}

#[test]
fn functions(rt: HostRuntime) {
    assert_texts::<ItemFn>(&rt, rt.alloc(), item_fn::READ, item_fn::REFUSED);
}

#[test]
fn constants(rt: HostRuntime) {
    assert_texts::<ItemConst>(&rt, rt.alloc(), item_const::READ, item_const::REFUSED);
}

#[test]
fn statics(rt: HostRuntime) {
    assert_texts::<ItemStatic>(&rt, rt.alloc(), item_static::READ, item_static::REFUSED);
}

#[test]
fn type_aliases(rt: HostRuntime) {
    assert_texts::<ItemType>(&rt, rt.alloc(), item_type::READ, item_type::REFUSED);
}

#[test]
fn uses(rt: HostRuntime) {
    assert_texts::<ItemUse>(&rt, rt.alloc(), item_use::READ, item_use::REFUSED);
}

#[test]
fn use_trees(rt: HostRuntime) {
    assert_texts::<UseTree>(&rt, rt.alloc(), use_tree::READ, use_tree::REFUSED);
}

#[test]
fn extern_crates(rt: HostRuntime) {
    assert_texts::<ItemExternCrate>(
        &rt,
        rt.alloc(),
        item_extern_crate::READ,
        item_extern_crate::REFUSED,
    );
}

#[test]
fn modules(rt: HostRuntime) {
    assert_texts::<ItemMod>(&rt, rt.alloc(), item_mod::READ, item_mod::REFUSED);
}

#[test]
fn macros(rt: HostRuntime) {
    assert_texts::<ItemMacro>(&rt, rt.alloc(), item_macro::READ, item_macro::REFUSED);
}

#[test]
fn trait_aliases(rt: HostRuntime) {
    assert_texts::<ItemTraitAlias>(
        &rt,
        rt.alloc(),
        item_trait_alias::READ,
        item_trait_alias::REFUSED,
    );
}

#[test]
fn items(rt: HostRuntime) {
    assert_texts::<Item>(&rt, rt.alloc(), item::READ, item::REFUSED);
}

#[test]
fn files(rt: HostRuntime) {
    assert_texts::<File>(&rt, rt.alloc(), file::READ, file::REFUSED);
}

#[test]
fn members_of_traits(rt: HostRuntime) {
    assert_texts::<TraitItem>(&rt, rt.alloc(), trait_item::READ, trait_item::REFUSED);
}

#[test]
fn members_of_impls(rt: HostRuntime) {
    assert_texts::<ImplItem>(&rt, rt.alloc(), impl_item::READ, impl_item::REFUSED);
}

#[test]
fn foreign_members(rt: HostRuntime) {
    assert_texts::<ForeignItem>(&rt, rt.alloc(), foreign_item::READ, foreign_item::REFUSED);
}

#[test]
fn traits(rt: HostRuntime) {
    assert_texts::<ItemTrait>(&rt, rt.alloc(), item_trait::READ, item_trait::REFUSED);
}

#[test]
fn impls(rt: HostRuntime) {
    assert_texts::<ItemImpl>(&rt, rt.alloc(), item_impl::READ, item_impl::REFUSED);
}

#[test]
fn foreign_modules(rt: HostRuntime) {
    assert_texts::<ItemForeignMod>(
        &rt,
        rt.alloc(),
        item_foreign_mod::READ,
        item_foreign_mod::REFUSED,
    );
}
