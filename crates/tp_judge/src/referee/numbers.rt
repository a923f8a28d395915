//! Keys, each with a number.
ghost use Rattle.std.specs.Prelude.{◌≡◌, ◌<◌, true, IfOk, OnErr, OnOk, Some, length, slice_get};
ghost use Rattle.indexmap.specs.IndexSet.{insert_key};

use indexmap::IndexSet;
use std::hash::Hash;
use tp_common::memory::Memory;

/// The number of a key by first occurrence, from 0. The key has it from now on.
pub fn number_of<K: Eq + Hash + Drop>(keys: &mut IndexSet<K>, key: K) -> Result<u32, Memory>
    requires { length keys.old.keys < 4294967296 }
    ensures there { IfOk result (λ number. (found : K)
        × (slice_get keys.new.keys number ≡ Some found) × (K.eq key found ≡ true)) }
    ensures keys { OnOk result (keys.new.keys ≡ insert_key K.eq keys.old.keys key) }
    ensures err { OnErr result (keys.new.keys ≡ keys.old.keys) }
{
    let (number, _) = keys.insert_full(key)?;
    Ok(number as u32)
}
