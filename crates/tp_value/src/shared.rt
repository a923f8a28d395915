//! A list with several owners.
ghost use Rattle.std.specs.Prelude.{◌≡◌, ◌*◌, ◌<◌, ◌^◌, IfOk};
ghost use Rattle.std.specs.Mem.{type_size};

use crate::items::Items;
use std::alloc::Global;
use std::fmt;
use std::fmt::Debug;
use std::marker::Model;
use std::sync::Arc;
use tp_common::memory::Memory;

/// Where the items of a list lie: one or two beside the count of owners, so that a record of two
/// fields takes one block of memory instead of two; any others in a block of their own.
#[derive(Drop)]
enum Storage<T> {
    One([T; 1]),
    Two([T; 2]),
    Many(Items<T>),
}

/// A list of items with one or several owners, in any threads. Contracts see it as the list of its
/// items alone. No call changes it, and its last owner drops it. So a copy of the list copies no
/// item: it is one more owner.
///
/// A type may contain a list of itself, as a value contains a list of values. Two items must have
/// less than 2^63 bytes, as those of each type in this repository have.
pub struct Shared<T> {
    storage: Arc<Storage<T>, Global>,
}

impl<T> Model for Shared<T> {
    ghost use Rattle.std.specs.Prelude.{List};
    ghost use Rattle.std.specs.Coded.{coded_list};
    ghost use Rattle.tp_value.specs.SharedItems.{items_of};

    ghost Value = { List T };

    ghost coded = { coded_list T.code };

    ghost view = { λ it. items_of it.storage.value };
}

// A derive couldn't state the condition.
impl<T: Drop> Drop for Shared<T> {
    ghost use Rattle.std.specs.Mem.{FitsInMemory};
    ghost use Rattle.tp_value.specs.contracts.shared.Storage.{the_row as storage};

    fn drop(self)
        requires fits { FitsInMemory (storage T.row) }
    {
        let Self { storage } = self;
        drop(storage);
    }
}

// The items would need the condition of `as_slice`, which `fmt` can't state.
impl<T> Debug for Shared<T> {
    fn fmt<W: fmt::Write>(&self, f: &mut fmt::Formatter<W>) -> fmt::Result {
        f.write_str("Shared")
    }
}

impl<T> Shared<T> {
    /// One more owner of the list. It doesn't allocate: 50 `Memory` only if the list has 2^63 - 1
    /// owners, for which no memory has room.
    pub fn share(&self) -> Result<Shared<T>, Memory>
        ensures { IfOk result (λ other. other ≡ self.now) }
    {
        let storage = Arc::try_clone(&self.storage)?;
        Ok(Shared { storage })
    }

    /// The items, the first at place 0.
    pub fn as_slice(&self) -> &[T]
        requires fits { 2 * type_size T.row < 2 ^ 63 }
        ensures { result.now ≡ self.now }
    {
        match &*self.storage {
            Storage::One(items) => items,
            Storage::Two(items) => items,
            Storage::Many(items) => items.as_slice(),
        }
    }
}

impl<T: Copy + Drop> Shared<T> {
    /// A list of copies of these items, in their order, with one owner.
    pub fn from_slice(alloc: Global, items: &[T]) -> Result<Shared<T>, Memory>
        requires fits { 2 * type_size T.row < 2 ^ 63 }
        ensures { IfOk result (λ copied. copied ≡ items.now) }
    {
        let items = Items::from_slice(alloc, items)?;
        Shared::new(alloc, items)
    }
}

impl<T: Drop> Shared<T> {
    /// The list of these items, with one owner.
    pub fn new(alloc: Global, items: Items<T>) -> Result<Shared<T>, Memory>
        requires fits { 2 * type_size T.row < 2 ^ 63 }
        ensures { IfOk result (λ shared. shared ≡ items) }
    {
        let made = match items.into_array() {
            Ok(one) => Arc::new(alloc, Storage::One(one)),
            Err(items) => match items.into_array() {
                Ok(two) => Arc::new(alloc, Storage::Two(two)),
                Err(items) => Arc::new(alloc, Storage::Many(items)),
            },
        };
        let Ok(storage) = made else {
            return Err(Memory);
        };
        Ok(Shared { storage })
    }
}
