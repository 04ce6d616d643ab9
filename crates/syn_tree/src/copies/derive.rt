//! Written by tools/kinds.py; edits are lost.
//!
//! Copies of `derive`.

use crate::derive::{Data, DataEnum, DataStruct, DataUnion, DeriveInput};
use std::alloc::Global;
use syn_tokens::error::Result;
use syn_tokens::syntactic::try_clone::TryClone;

impl TryClone for DeriveInput {
    fn try_clone(&self, alloc: Global) -> Result<DeriveInput> {
        Ok(DeriveInput {
            attrs: self.attrs.try_clone(alloc)?,
            vis: self.vis.try_clone(alloc)?,
            ident: self.ident.try_clone(alloc)?,
            generics: self.generics.try_clone(alloc)?,
            shape: self.shape.try_clone(alloc)?,
        })
    }
}

impl TryClone for Data {
    fn try_clone(&self, alloc: Global) -> Result<Data> {
        match self {
            Data::Struct(value) => Ok(Data::Struct(value.try_clone(alloc)?)),
            Data::Enum(value) => Ok(Data::Enum(value.try_clone(alloc)?)),
            Data::Union(value) => Ok(Data::Union(value.try_clone(alloc)?)),
        }
    }
}

impl TryClone for DataStruct {
    fn try_clone(&self, alloc: Global) -> Result<DataStruct> {
        Ok(DataStruct {
            struct_token: self.struct_token,
            fields: self.fields.try_clone(alloc)?,
            semi_token: self.semi_token,
        })
    }
}

impl TryClone for DataEnum {
    fn try_clone(&self, alloc: Global) -> Result<DataEnum> {
        Ok(DataEnum {
            enum_token: self.enum_token,
            brace_token: self.brace_token,
            variants: self.variants.try_clone(alloc)?,
        })
    }
}

impl TryClone for DataUnion {
    fn try_clone(&self, alloc: Global) -> Result<DataUnion> {
        Ok(DataUnion {
            union_token: self.union_token,
            fields: self.fields.try_clone(alloc)?,
        })
    }
}
