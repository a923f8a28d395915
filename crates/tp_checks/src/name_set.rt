//! Names, each once.
ghost use Rattle.std.specs.Prelude.{◌≡◌, ◌<◌, ◌≤◌, ◌∷◌, ◌++◌, ◌↔◌, [], length, Contains, IfNone, IfSome, OnOk, IsErrOf};
ghost use Rattle.std.specs.Prelude.{IsSome, IsTrue, OnErr, is_some};

use crate::fault::{ModuleFault, ModuleRule, refused};
use indexmap::IndexSet;
use std::alloc::Global;
use std::marker::Model;
use thiserror::Error;
use tp_common::memory::Memory;

/// Why a name was not added.
#[derive(Clone, Copy, Debug, Error)]
pub enum NameFault {
    /// 12 Duplicate: the name is taken.
    #[error("the name is there")]
    Duplicate,
    /// 15 Limit: there are 4,294,967,295 names.
    #[error("too many names")]
    Limit,
    /// 50 Memory: an allocation was refused.
    #[error("out of memory")]
    Memory,
}

/// Names, no two of them equal, numbered from 0 in the order in which they were added. Contracts
/// see the list of them, each as its bytes.
pub struct NameSet<'m> {
    names: IndexSet<&'m str>,
}

impl Drop for NameSet<'_> {
    // Written out, so that what owns one calls this, and proves no drop of what is inside.
    fn drop(self) {
        let NameSet { names } = self;
        drop(names);
    }
}

impl NameFault {
    ghost use Rattle.std.specs.Prelude.{◌≡◌};

    pub fn at(self, line: u32) -> ModuleFault
        ensures duplicate { self ≡ NameFault.Duplicate
            → result ≡ ModuleFault.Refused ModuleRule.Duplicate line }
        ensures limit { self ≡ NameFault.Limit
            → result ≡ ModuleFault.Refused ModuleRule.Limit line }
        ensures memory { self ≡ NameFault.Memory → result ≡ ModuleFault.Memory (record {}) }
    {
        match self {
            NameFault::Duplicate => refused(ModuleRule::Duplicate, line),
            NameFault::Limit => refused(ModuleRule::Limit, line),
            NameFault::Memory => ModuleFault::Memory(Memory),
        }
    }
}

impl<'m> Model for NameSet<'m> {
    ghost use Rattle.std.specs.Prelude.{ℕ, List, map};
    ghost use Rattle.tp_checks.specs.Tables.{IsNumbered};

    ghost Value = { List (List ℕ) };

    ghost view = { λ t. map (λ n. n.now) t.names.keys };

    ghost invariant = { λ t. IsNumbered (map (λ n. n.now) t.names.keys) };
}

impl<'m> NameSet<'m> {
    ghost use Rattle.std.specs.Prelude.{◌≡◌, ◌<◌, ◌≤◌, ◌∷◌, ◌++◌, ◌^◌, ◌↔◌, ◌⊎◌, [], length, Contains, IfErr, IfNone};
    ghost use Rattle.std.specs.Prelude.{IfSome, OnOk, IsErrOf, IsSome, IsTrue, OnErr, is_some};
    ghost use Rattle.tp_checks.specs.Tables.{AreDistinct, IsNumbered, place_of_name};
    ghost use Rattle.tp_checks.specs.Named.{IsAbsent, IsPlace};

    /// A later [`NameSet::add`] allocates from `alloc`.
    pub fn new(alloc: Global) -> NameSet<'m>
        ensures empty { result ≡ [] }
        ensures numbered { IsNumbered result }
        ensures distinct { AreDistinct result }
    {
        NameSet {
            names: IndexSet::new(alloc),
        }
    }

    pub fn len(&self) -> usize
        ensures { result ≡ length self.now }
    {
        self.names.len()
    }

    /// Adds a name, whose number is the number of names before. 12 `Duplicate` if and only if the
    /// name is taken; else 15 `Limit` if there are 4,294,967,295 names. The names are then as
    /// before.
    pub fn add(&mut self, name: &'m str) -> Result<(), NameFault>
        ensures ok { OnOk result (self.new ≡ self.old ++ name.now ∷ []) }
        ensures duplicate { IsErrOf result NameFault.Duplicate ↔ Contains self.old name.now }
        ensures limit { IsErrOf result NameFault.Limit → 4294967295 ≤ length self.old }
        ensures refused { IfErr result (λ fault. (fault ≡ NameFault.Memory)
            ⊎ (IsNumbered (self.old ++ name.now ∷ []) → ⊥)) }
        ensures err { OnErr result (self.new ≡ self.old) }
        ensures numbered { IsNumbered self.new }
        ensures distinct { AreDistinct self.new }
    {
        if self.find(name).is_some() {
            return Err(NameFault::Duplicate);
        }
        if self.names.len() >= u32::MAX as usize {
            return Err(NameFault::Limit);
        }
        let Ok(_) = self.names.insert(name) else {
            return Err(NameFault::Memory);
        };
        Ok(())
    }

    pub fn find(&self, name: &str) -> Option<u32>
        ensures place { result ≡ place_of_name self.now name.now }
        ensures known { IsSome result ↔ Contains self.now name.now }
        ensures there { IfSome result (λ place. IsPlace self.now name.now place) }
        ensures absent { IfNone result (IsAbsent self.now name.now) }
        ensures distinct { AreDistinct self.now }
        ensures few { length self.now < 2 ^ 32 }
    {
        match self.names.get_index_of(name) {
            Some(place) => Some(place as u32),
            None => None,
        }
    }

    pub fn has(&self, name: &str) -> bool
        ensures test { result ≡ is_some (place_of_name self.now name.now) }
        ensures known { IsTrue result ↔ Contains self.now name.now }
    {
        let place = self.find(name);
        place.is_some()
    }
}
