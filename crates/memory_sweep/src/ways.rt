//! How trees are copied and compared.

use std::alloc::Global;
use syn::canon::{NamedField, SafeOrUnsafe, Stmts, UnnamedField, UnsafeOnly};
use syn::item::Items;
use syn::{Result, TryClone};

/// How a `T` is copied and compared.
pub(crate) trait Ways<T> {
    fn copy(tree: &T, alloc: Global) -> Result<T>;

    /// Whether both are equal, spans aside.
    fn is_equal(left: &T, right: &T) -> bool;
}

/// By the traits of the tree itself.
pub(crate) struct ByItself;

impl<T: TryClone + PartialEq + Drop> Ways<T> for ByItself {
    fn copy(tree: &T, alloc: Global) -> Result<T> {
        tree.try_clone(alloc)
    }

    fn is_equal(left: &T, right: &T) -> bool {
        left == right
    }
}

/// By those of what it wraps.
pub(crate) struct InField;

impl Ways<NamedField> for InField {
    fn copy(tree: &NamedField, alloc: Global) -> Result<NamedField> {
        Ok(NamedField(tree.0.try_clone(alloc)?))
    }

    fn is_equal(left: &NamedField, right: &NamedField) -> bool {
        left.0 == right.0
    }
}

impl Ways<UnnamedField> for InField {
    fn copy(tree: &UnnamedField, alloc: Global) -> Result<UnnamedField> {
        Ok(UnnamedField(tree.0.try_clone(alloc)?))
    }

    fn is_equal(left: &UnnamedField, right: &UnnamedField) -> bool {
        left.0 == right.0
    }
}

impl Ways<Stmts> for InField {
    fn copy(tree: &Stmts, alloc: Global) -> Result<Stmts> {
        Ok(Stmts(tree.0.try_clone(alloc)?))
    }

    fn is_equal(left: &Stmts, right: &Stmts) -> bool {
        left.0 == right.0
    }
}

impl Ways<Items> for InField {
    fn copy(tree: &Items, alloc: Global) -> Result<Items> {
        Ok(Items(tree.0.try_clone(alloc)?))
    }

    fn is_equal(left: &Items, right: &Items) -> bool {
        left.0 == right.0
    }
}

impl Ways<SafeOrUnsafe> for InField {
    fn copy(tree: &SafeOrUnsafe, alloc: Global) -> Result<SafeOrUnsafe> {
        Ok(SafeOrUnsafe(tree.0.try_clone(alloc)?))
    }

    fn is_equal(left: &SafeOrUnsafe, right: &SafeOrUnsafe) -> bool {
        left.0 == right.0
    }
}

impl Ways<UnsafeOnly> for InField {
    fn copy(tree: &UnsafeOnly, alloc: Global) -> Result<UnsafeOnly> {
        Ok(UnsafeOnly(tree.0.try_clone(alloc)?))
    }

    fn is_equal(left: &UnsafeOnly, right: &UnsafeOnly) -> bool {
        left.0 == right.0
    }
}
