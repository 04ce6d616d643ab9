//! Written by tools/kinds.py; edits are lost.
//!
//! Comparisons of `derive`.
ghost use Rattle.syn_grammar.specs.Promises.{itself};
ghost use Rattle.syn_lower.specs.Equality.{IsSame, IsEqual, PrintsAlike};
ghost use Rattle.syn_tokens.specs.Comparison.{same_by, same_equiv, same_per};
ghost use Rattle.syn_tree.specs.Derive.{syntax_of_Data, syntax_of_DataStruct, syntax_of_DataEnum, syntax_of_DataUnion};

use crate::derive::{Data, DataEnum, DataStruct, DataUnion, DeriveInput};
use syn_tokens::syntactic::compare::Compared;

/// Two are equal exactly where they are once every span is 0 to 0.
impl PartialEq for DeriveInput {
    ghost eq = { same_by itself };

    ghost laws = { same_per itself };

    #[tactic(auto, using(syn_lower::proofs::Equality::equals))]
    fn eq(&self, other: &DeriveInput) -> bool
        ensures same { IsSame itself self.now other.now result }
        ensures equal { IsEqual itself self.now other.now result }
        ensures prints { PrintsAlike itself self.now other.now result }
    {
        self.is_same(other)
    }
}

impl Eq for DeriveInput {
    ghost laws = { same_equiv itself };
}

impl Compared for Data {
    fn is_same(&self, other: &Data) -> bool {
        match (self, other) {
            (Data::Struct(a), Data::Struct(b)) => a.is_same(b),
            (Data::Enum(a), Data::Enum(b)) => a.is_same(b),
            (Data::Union(a), Data::Union(b)) => a.is_same(b),
            _ => false,
        }
    }
}

/// Two are equal exactly where they are once every span is 0 to 0.
impl PartialEq for Data {
    ghost eq = { same_by syntax_of_Data };

    ghost laws = { same_per syntax_of_Data };

    #[tactic(auto, using(syn_lower::proofs::Equality::equals))]
    fn eq(&self, other: &Data) -> bool
        ensures same { IsSame syntax_of_Data self.now other.now result }
        ensures equal { IsEqual syntax_of_Data self.now other.now result }
        ensures prints { PrintsAlike syntax_of_Data self.now other.now result }
    {
        self.is_same(other)
    }
}

impl Eq for Data {
    ghost laws = { same_equiv syntax_of_Data };
}

impl Compared for DataStruct {
    fn is_same(&self, other: &DataStruct) -> bool {
        self.struct_token.is_same(&other.struct_token)
            && self.fields.is_same(&other.fields)
            && self.semi_token.is_same(&other.semi_token)
    }
}

/// Two are equal exactly where they are once every span is 0 to 0.
impl PartialEq for DataStruct {
    ghost eq = { same_by syntax_of_DataStruct };

    ghost laws = { same_per syntax_of_DataStruct };

    #[tactic(auto, using(syn_lower::proofs::Equality::equals))]
    fn eq(&self, other: &DataStruct) -> bool
        ensures same { IsSame syntax_of_DataStruct self.now other.now result }
        ensures equal { IsEqual syntax_of_DataStruct self.now other.now result }
        ensures prints { PrintsAlike syntax_of_DataStruct self.now other.now result }
    {
        self.is_same(other)
    }
}

impl Eq for DataStruct {
    ghost laws = { same_equiv syntax_of_DataStruct };
}

impl Compared for DataEnum {
    fn is_same(&self, other: &DataEnum) -> bool {
        self.enum_token.is_same(&other.enum_token) && self.variants.is_same(&other.variants)
    }
}

/// Two are equal exactly where they are once every span is 0 to 0.
impl PartialEq for DataEnum {
    ghost eq = { same_by syntax_of_DataEnum };

    ghost laws = { same_per syntax_of_DataEnum };

    #[tactic(auto, using(syn_lower::proofs::Equality::equals))]
    fn eq(&self, other: &DataEnum) -> bool
        ensures same { IsSame syntax_of_DataEnum self.now other.now result }
        ensures equal { IsEqual syntax_of_DataEnum self.now other.now result }
        ensures prints { PrintsAlike syntax_of_DataEnum self.now other.now result }
    {
        self.is_same(other)
    }
}

impl Eq for DataEnum {
    ghost laws = { same_equiv syntax_of_DataEnum };
}

impl Compared for DataUnion {
    fn is_same(&self, other: &DataUnion) -> bool {
        self.union_token.is_same(&other.union_token) && self.fields.is_same(&other.fields)
    }
}

/// Two are equal exactly where they are once every span is 0 to 0.
impl PartialEq for DataUnion {
    ghost eq = { same_by syntax_of_DataUnion };

    ghost laws = { same_per syntax_of_DataUnion };

    #[tactic(auto, using(syn_lower::proofs::Equality::equals))]
    fn eq(&self, other: &DataUnion) -> bool
        ensures same { IsSame syntax_of_DataUnion self.now other.now result }
        ensures equal { IsEqual syntax_of_DataUnion self.now other.now result }
        ensures prints { PrintsAlike syntax_of_DataUnion self.now other.now result }
    {
        self.is_same(other)
    }
}

impl Eq for DataUnion {
    ghost laws = { same_equiv syntax_of_DataUnion };
}
