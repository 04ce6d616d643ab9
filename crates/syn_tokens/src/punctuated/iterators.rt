//! The iterators over the values of a list.
ghost use Rattle.std.specs.Prelude.{◌≡◌, ◌<◌, ◌^◌, [], length};
ghost use Rattle.std.specs.Iterator.{YieldsFirst, YieldsFirstRef, YieldsFirstMut, YieldsLast, YieldsLastRef, YieldsLastMut, item_count};
ghost use Rattle.syn_tokens.specs.Lists.{items_in, values};
ghost use Rattle.std.specs.Vec.Iter.{into_iter_items};

use super::Punctuated;
use std::alloc::AllocError;
use std::marker::Model;
use std::{mem, vec};

/// The values of a list, in order and from both ends.
#[derive(Drop)]
pub struct Iter<'a, T, P> {
    pairs: &'a [(T, P)],
    last: Option<&'a T>,
}

impl<'a, T, P> Model for Iter<'a, T, P> {
    ghost use Rattle.std.specs.Prelude.{List, ◌++◌};
    ghost use Rattle.std.specs.Coded.{coded_list};
    ghost use Rattle.std.specs.Option.{option_copied};
    ghost use Rattle.syn_tokens.specs.Lists.{firsts, listed};

    ghost Value = { List T };

    ghost coded = { coded_list T.code };

    ghost view = { λ i. firsts i.pairs.now ++ listed (option_copied i.last) };
}

/// No values.
impl<'a, T, P> Default for Iter<'a, T, P> {
    ghost is_default = { λ i. i ≡ [] };

    fn default() -> Iter<'a, T, P> {
        Iter {
            pairs: &[],
            last: None,
        }
    }
}

impl<T, P> Punctuated<T, P> {
    /// The values, in order and from both ends.
    pub fn iter(&self) -> Iter<'_, T, P>
        ensures values { result ≡ values self.now }
        ensures bound { length result < 2 ^ 64 }
    {
        Iter {
            pairs: self.inner.as_slice(),
            last: self.trailing_value(),
        }
    }
}

impl<'a, T, P> Iterator for Iter<'a, T, P> {
    type Item = &'a T;

    ghost next_gives = { YieldsFirstRef (λ i. i) };

    ghost remaining = { item_count (λ i. i) };

    fn next(&mut self) -> Option<&'a T> {
        match self.pairs.split_first() {
            Some((first, others)) => {
                self.pairs = others;
                Some(&first.0)
            }
            None => self.last.take(),
        }
    }
}

impl<'a, T, P> DoubleEndedIterator for Iter<'a, T, P> {
    ghost next_back_gives = { YieldsLastRef (λ i. i) };

    fn next_back(&mut self) -> Option<&'a T> {
        if let Some(last) = self.last.take() {
            return Some(last);
        }
        let (last, others) = self.pairs.split_last()?;
        self.pairs = others;
        Some(&last.0)
    }
}

impl<'a, T, P> Clone for Iter<'a, T, P> {
    ghost is_clone = { λ i copy. copy ≡ i };

    ghost is_infallible = { λ _. Unit {0} };

    fn clone(&self) -> Result<Iter<'a, T, P>, AllocError> {
        Ok(Iter {
            pairs: self.pairs,
            last: self.last,
        })
    }
}

impl<'a, T, P> IntoIterator for &'a Punctuated<T, P> {
    type Item = &'a T;

    type IntoIter = Iter<'a, T, P>;

    ghost into_iter_gives = { λ list i. i ≡ values list.now };

    fn into_iter(self) -> Iter<'a, T, P> {
        self.iter()
    }
}

/// Mutable references to the values of a list, in order and from both ends.
#[derive(Drop)]
pub struct IterMut<'a, T, P> {
    pairs: &'a mut [(T, P)],
    last: Option<&'a mut T>,
}

impl<'a, T, P> Model for IterMut<'a, T, P> {
    ghost use Rattle.std.specs.Prelude.{List, ◌++◌};
    ghost use Rattle.std.specs.Coded.{coded_list};
    ghost use Rattle.std.specs.Option.{option_map};
    ghost use Rattle.syn_tokens.specs.Lists.{firsts, listed};

    ghost Value = { List T };

    ghost coded = { coded_list T.code };

    ghost view = { λ i. firsts i.pairs.now ++ listed (option_map (λ t. t.now) i.last) };
}

/// No values.
impl<'a, T, P> Default for IterMut<'a, T, P> {
    ghost is_default = { λ i. i ≡ [] };

    fn default() -> IterMut<'a, T, P> {
        IterMut {
            pairs: &mut [],
            last: None,
        }
    }
}

impl<T, P> Punctuated<T, P> {
    /// Mutable references to the values, in order and from both ends.
    pub fn iter_mut(&mut self) -> IterMut<'_, T, P>
        ensures values { result ≡ values self.old }
        ensures bound { length result < 2 ^ 64 }
    {
        IterMut {
            pairs: self.inner.as_mut_slice(),
            last: match &mut self.last {
                Some(value) => Some(&mut **value),
                None => None,
            },
        }
    }
}

impl<'a, T, P> Iterator for IterMut<'a, T, P> {
    type Item = &'a mut T;

    ghost next_gives = { YieldsFirstMut (λ i. i) };

    ghost remaining = { item_count (λ i. i) };

    fn next(&mut self) -> Option<&'a mut T> {
        match mem::take(&mut self.pairs).split_first_mut() {
            Some((first, others)) => {
                self.pairs = others;
                Some(&mut first.0)
            }
            None => self.last.take(),
        }
    }
}

impl<'a, T, P> DoubleEndedIterator for IterMut<'a, T, P> {
    ghost next_back_gives = { YieldsLastMut (λ i. i) };

    fn next_back(&mut self) -> Option<&'a mut T> {
        if let Some(last) = self.last.take() {
            return Some(last);
        }
        let (last, others) = mem::take(&mut self.pairs).split_last_mut()?;
        self.pairs = others;
        Some(&mut last.0)
    }
}

impl<'a, T, P> IntoIterator for &'a mut Punctuated<T, P> {
    type Item = &'a mut T;

    type IntoIter = IterMut<'a, T, P>;

    ghost into_iter_gives = { λ list i. i ≡ values list.now };

    fn into_iter(self) -> IterMut<'a, T, P> {
        self.iter_mut()
    }
}

/// The values of a consumed list, in order and from both ends.
#[derive(Drop)]
pub struct IntoIter<T, P> {
    /// None in an iterator over no values.
    pairs: Option<vec::IntoIter<(T, P)>>,
    last: Option<T>,
}

impl<T, P> Model for IntoIter<T, P> {
    ghost use Rattle.std.specs.Prelude.{List, ◌++◌};
    ghost use Rattle.std.specs.Coded.{coded_list};
    ghost use Rattle.std.specs.Vec.Iter.{into_iter_items};
    ghost use Rattle.syn_tokens.specs.Lists.{firsts, items_in, listed};

    ghost Value = { List T };

    ghost coded = { coded_list T.code };

    ghost view = { λ i. firsts (items_in into_iter_items i.pairs) ++ listed i.last };
}

/// No values. It allocates nothing.
impl<T, P> Default for IntoIter<T, P> {
    ghost is_default = { λ i. i ≡ [] };

    fn default() -> IntoIter<T, P> {
        IntoIter {
            pairs: None,
            last: None,
        }
    }
}

impl<T: Drop, P: Drop> IntoIterator for Punctuated<T, P> {
    type Item = T;

    type IntoIter = IntoIter<T, P>;

    ghost into_iter_gives = { λ list i. i ≡ values list };

    fn into_iter(self) -> IntoIter<T, P> {
        let Punctuated { inner, last, .. } = self;
        IntoIter {
            pairs: Some(inner.into_iter()),
            last: match last {
                Some(value) => Some(Box::into_inner(value)),
                None => None,
            },
        }
    }
}

/// The first remaining pair.
fn next_pair<X: Drop>(pairs: &mut Option<vec::IntoIter<X>>) -> Option<X>
    ensures { YieldsFirst (items_in into_iter_items) pairs.old result pairs.new }
{
    match pairs {
        Some(pairs) => pairs.next(),
        None => None,
    }
}

/// The last remaining pair.
fn last_pair<X: Drop>(pairs: &mut Option<vec::IntoIter<X>>) -> Option<X>
    ensures { YieldsLast (items_in into_iter_items) pairs.old result pairs.new }
{
    match pairs {
        Some(pairs) => pairs.next_back(),
        None => None,
    }
}

impl<T: Drop, P: Drop> Iterator for IntoIter<T, P> {
    type Item = T;

    ghost next_gives = { YieldsFirst (λ i. i) };

    ghost remaining = { item_count (λ i. i) };

    fn next(&mut self) -> Option<T> {
        match next_pair(&mut self.pairs) {
            Some((value, _)) => Some(value),
            None => self.last.take(),
        }
    }
}

impl<T: Drop, P: Drop> DoubleEndedIterator for IntoIter<T, P> {
    ghost next_back_gives = { YieldsLast (λ i. i) };

    fn next_back(&mut self) -> Option<T> {
        if let Some(last) = self.last.take() {
            return Some(last);
        }
        let (last, _) = last_pair(&mut self.pairs)?;
        Some(last)
    }
}
