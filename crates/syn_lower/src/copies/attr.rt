//! Written by tools/kinds.py; edits are lost.
//!
//! Copies of `attr`.

use crate::{AttrStyle, Attribute, MacroDelimiter, Meta, MetaList, MetaNameValue};
use std::alloc::Global;
use syn_tokens::error::Result;
use syn_tokens::syntactic::try_clone::TryClone;

impl TryClone for Attribute {
    fn try_clone(&self, alloc: Global) -> Result<Attribute> {
        Ok(Attribute {
            pound_token: self.pound_token,
            style: self.style,
            bracket_token: self.bracket_token,
            meta: self.meta.try_clone(alloc)?,
        })
    }
}

impl TryClone for AttrStyle {
    fn try_clone(&self, _alloc: Global) -> Result<AttrStyle> {
        Ok(*self)
    }
}

impl TryClone for Meta {
    fn try_clone(&self, alloc: Global) -> Result<Meta> {
        match self {
            Meta::Path(value) => Ok(Meta::Path(value.try_clone(alloc)?)),
            Meta::List(value) => Ok(Meta::List(value.try_clone(alloc)?)),
            Meta::NameValue(value) => Ok(Meta::NameValue(value.try_clone(alloc)?)),
        }
    }
}

impl TryClone for MetaList {
    fn try_clone(&self, alloc: Global) -> Result<MetaList> {
        Ok(MetaList {
            path: self.path.try_clone(alloc)?,
            delimiter: self.delimiter,
            tokens: self.tokens.try_clone(alloc)?,
        })
    }
}

impl TryClone for MetaNameValue {
    fn try_clone(&self, alloc: Global) -> Result<MetaNameValue> {
        Ok(MetaNameValue {
            path: self.path.try_clone(alloc)?,
            eq_token: self.eq_token,
            value: self.value.try_clone(alloc)?,
        })
    }
}

impl TryClone for MacroDelimiter {
    fn try_clone(&self, _alloc: Global) -> Result<MacroDelimiter> {
        Ok(*self)
    }
}
