//! The fields of a struct or variant, in order and from both ends.
ghost use Rattle.std.specs.Prelude.{◌≡◌, ◌↔◌, ◌<◌, ◌^◌, [], IsTrue, MatchOption, length};
ghost use Rattle.syn_tokens.specs.Lists.{values};
ghost use Rattle.syn_tree.specs.Members.{fields_of};

use crate::data::{Field, Fields};
use syn_tokens::punctuated::Punctuated;
use syn_tokens::punctuated::iterators::{IntoIter, Iter, IterMut};
use syn_tokens::token::Comma;

impl Fields {
    /// The list of fields; none of a unit struct.
    #[tactic(auto, using(crate::proofs::Members::elements_listed))]
    fn list(&self) -> Option<&Punctuated<Field, Comma>>
        ensures { MatchOption result (fields_of self.now ≡ []) (λ list. fields_of self.now ≡ values list.now) }
    {
        match self {
            Fields::Named(fields) => Some(&fields.named),
            Fields::Unnamed(fields) => Some(&fields.unnamed),
            Fields::Unit => None,
        }
    }

    /// The same, to be changed.
    #[tactic(auto, using(crate::proofs::Members::elements_listed))]
    fn list_mut(&mut self) -> Option<&mut Punctuated<Field, Comma>>
        ensures { MatchOption result (fields_of self.old ≡ []) (λ list. fields_of self.old ≡ values list.now) }
    {
        match self {
            Fields::Named(fields) => Some(&mut fields.named),
            Fields::Unnamed(fields) => Some(&mut fields.unnamed),
            Fields::Unit => None,
        }
    }

    /// The fields, in order and from both ends. A unit struct has none.
    pub fn iter(&self) -> Iter<'_, Field, Comma>
        ensures fields { result ≡ fields_of self.now }
        ensures bound { length result < 2 ^ 64 }
    {
        let Some(list) = self.list() else {
            return Iter::default();
        };
        list.iter()
    }

    /// The fields to be changed, in order and from both ends.
    pub fn iter_mut(&mut self) -> IterMut<'_, Field, Comma>
        ensures fields { result ≡ fields_of self.old }
        ensures bound { length result < 2 ^ 64 }
    {
        let Some(list) = self.list_mut() else {
            return IterMut::default();
        };
        list.iter_mut()
    }

    /// How many fields there are.
    #[tactic(auto, using(crate::proofs::Members::elements_listed))]
    pub fn len(&self) -> usize
        ensures { result ≡ length (fields_of self.now) }
    {
        match self {
            Fields::Named(fields) => fields.named.len(),
            Fields::Unnamed(fields) => fields.unnamed.len(),
            Fields::Unit => 0,
        }
    }

    /// Whether there are no fields.
    pub fn is_empty(&self) -> bool
        ensures { IsTrue result ↔ (fields_of self.now ≡ []) }
    {
        self.len() == 0
    }
}

/// The fields, in order and from both ends.
impl IntoIterator for Fields {
    type Item = Field;

    type IntoIter = IntoIter<Field, Comma>;

    ghost into_iter_gives = { λ fields i. i ≡ fields_of fields };

    #[tactic(auto, using(crate::proofs::Members::elements_listed))]
    fn into_iter(self) -> IntoIter<Field, Comma> {
        match self {
            Fields::Named(fields) => fields.named.into_iter(),
            Fields::Unnamed(fields) => fields.unnamed.into_iter(),
            Fields::Unit => IntoIter::default(),
        }
    }
}

impl<'a> IntoIterator for &'a Fields {
    type Item = &'a Field;

    type IntoIter = Iter<'a, Field, Comma>;

    ghost into_iter_gives = { λ fields i. i ≡ fields_of fields.now };

    fn into_iter(self) -> Iter<'a, Field, Comma> {
        self.iter()
    }
}

impl<'a> IntoIterator for &'a mut Fields {
    type Item = &'a mut Field;

    type IntoIter = IterMut<'a, Field, Comma>;

    ghost into_iter_gives = { λ fields i. i ≡ fields_of fields.now };

    fn into_iter(self) -> IterMut<'a, Field, Comma> {
        self.iter_mut()
    }
}
