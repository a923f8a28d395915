//! A list that contracts see as a list.
ghost use Rattle.std.specs.Prelude.{◌≡◌, [], ◌∷◌, ◌++◌, ◌<◌, ◌↔◌, length, slice_get};
ghost use Rattle.std.specs.Prelude.{IsTrue, IfOk, OnOk, OnErr, OnSome, MatchResult};
ghost use Rattle.std.specs.Option.{option_copied};

use std::alloc::Global;
use std::marker::Model;
use tp_common::memory::Memory;

/// A list of items that contracts see as the list of its items alone: two lists of the same items
/// are equal, whatever room is allocated for each. So a copy can equal its original.
///
/// A type may contain a list of itself, as a value contains a list of values.
#[derive(Debug, Drop)]
pub struct Items<T> {
    items: Vec<T>,
}

impl<T> Model for Items<T> {
    ghost use Rattle.std.specs.Prelude.{List};
    ghost use Rattle.std.specs.Coded.{coded_list};

    ghost Value = { List T };

    ghost coded = { coded_list T.code };

    ghost view = { λ it. it.items.items };
}

impl<T> Items<T> {
    /// An empty list. A later [`Items::push`] allocates from `alloc`.
    pub fn new(alloc: Global) -> Items<T>
        ensures { result ≡ [] }
    {
        Items {
            items: Vec::new(alloc),
        }
    }

    /// The items of a `Vec`, in its order.
    pub fn from_vec(items: Vec<T>) -> Items<T>
        ensures { result ≡ items.items }
    {
        Items { items }
    }

    /// The items, the first at place 0.
    pub fn as_slice(&self) -> &[T]
        ensures { result.now ≡ self.now }
    {
        self.items.as_slice()
    }

    pub fn len(&self) -> usize
        ensures { result ≡ length self.now }
    {
        self.items.len()
    }

    pub fn is_empty(&self) -> bool
        ensures { IsTrue result ↔ (self.now ≡ []) }
    {
        self.items.is_empty()
    }

    /// The item at this place, from 0, or `None` after the last.
    pub fn get(&self, at: usize) -> Option<&T>
        ensures item { option_copied result ≡ slice_get self.now at }
        ensures within { OnSome result (at < length self.now) }
    {
        self.items.get(at)
    }
}

impl<T: Copy> Items<T> {
    /// A copy of these items, in their order.
    pub fn from_slice(alloc: Global, items: &[T]) -> Result<Items<T>, Memory>
        ensures { IfOk result (λ copied. copied ≡ items.now) }
    {
        let items = Vec::from_slice(alloc, items)?;
        Ok(Items { items })
    }
}

impl<T: Drop> Items<T> {
    /// Adds an item at the end.
    pub fn push(&mut self, item: T) -> Result<(), Memory>
        ensures ok { OnOk result (self.new ≡ self.old ++ item ∷ []) }
        ensures err { OnErr result (self.new ≡ self.old) }
    {
        self.items.push(item)?;
        Ok(())
    }

    /// All items, if there are `N`, or else the list as it is.
    pub(crate) fn into_array<const N: usize>(self) -> Result<[T; N], Items<T>>
        ensures { MatchResult result (λ all. all ≡ self) (λ items. items ≡ self) }
    {
        match <[T; N]>::try_from(self.items) {
            Ok(all) => Ok(all),
            Err(items) => Err(Items { items }),
        }
    }
}
