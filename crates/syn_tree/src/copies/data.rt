//! Written by tools/kinds.py; edits are lost.
//!
//! Copies of `data`.

use crate::data::{Field, FieldModifiers, Fields, FieldsNamed, FieldsUnnamed, Variant};
use std::alloc::Global;
use syn_tokens::error::Result;
use syn_tokens::syntactic::try_clone::TryClone;

impl TryClone for Variant {
    fn try_clone(&self, alloc: Global) -> Result<Variant> {
        Ok(Variant {
            attrs: self.attrs.try_clone(alloc)?,
            ident: self.ident.try_clone(alloc)?,
            fields: self.fields.try_clone(alloc)?,
            discriminant: self.discriminant.try_clone(alloc)?,
        })
    }
}

impl TryClone for Fields {
    fn try_clone(&self, alloc: Global) -> Result<Fields> {
        match self {
            Fields::Named(value) => Ok(Fields::Named(value.try_clone(alloc)?)),
            Fields::Unnamed(value) => Ok(Fields::Unnamed(value.try_clone(alloc)?)),
            Fields::Unit => Ok(Fields::Unit),
        }
    }
}

impl TryClone for FieldsNamed {
    fn try_clone(&self, alloc: Global) -> Result<FieldsNamed> {
        Ok(FieldsNamed {
            brace_token: self.brace_token,
            named: self.named.try_clone(alloc)?,
        })
    }
}

impl TryClone for FieldsUnnamed {
    fn try_clone(&self, alloc: Global) -> Result<FieldsUnnamed> {
        Ok(FieldsUnnamed {
            paren_token: self.paren_token,
            unnamed: self.unnamed.try_clone(alloc)?,
        })
    }
}

impl TryClone for Field {
    fn try_clone(&self, alloc: Global) -> Result<Field> {
        Ok(Field {
            attrs: self.attrs.try_clone(alloc)?,
            vis: self.vis.try_clone(alloc)?,
            modifiers: self.modifiers,
            ident: self.ident.try_clone(alloc)?,
            colon_token: self.colon_token,
            ty: self.ty.try_clone(alloc)?,
            default: self.default.try_clone(alloc)?,
        })
    }
}

impl TryClone for FieldModifiers {
    fn try_clone(&self, _alloc: Global) -> Result<FieldModifiers> {
        Ok(*self)
    }
}
