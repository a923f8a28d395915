//! Types.
ghost use Rattle.std.specs.Prelude.{◌≡◌, ◌<◌, ◌∷◌, ◌++◌, ◌↔◌, [], length, slice_get, string_bytes, Contains, IfOk};
ghost use Rattle.std.specs.Prelude.{IsErrOf, IsSome, OnErr};
ghost use Rattle.std.specs.Option.{option_copied};

use crate::items::Items;
use indexmap::IndexMap;
use std::alloc::{AllocFailed, Global};
use std::marker::Model;
use thiserror::Error;

/// A type of values (ES 201 873-1, 6).
#[derive(Clone, Copy, Debug, PartialEq, Eq, Hash)]
pub enum Ty {
    /// `integer`, here with 64 signed bits (6.1.0).
    Integer,
    /// `boolean` (6.1.0).
    Boolean,
    /// `charstring`, here of the characters 32 to 126 (6.1.1).
    Charstring,
    /// The type of this number among the [`Types`]. A number without a definition has no values.
    Named(u32),
}

/// A field of a record type (6.2.1).
#[derive(Drop)]
pub struct Field {
    /// Its name, as the bytes that are written.
    pub name: Items<u8>,
    pub ty: Ty,
}

/// The definition of a named type.
#[derive(Drop)]
pub enum TypeDef {
    /// `record`: these fields, in declared order (6.2.1).
    Record(Items<Field>),
    /// `record of`: any number of elements of this type (6.2.3).
    ListOf(Ty),
}

/// Why a type was not added.
#[derive(Clone, Copy, Debug, PartialEq, Eq, Error)]
pub enum AddFault {
    /// 12 Duplicate: the name is taken.
    #[error("the name is there")]
    Duplicate,
    /// 50 Memory: an allocation was refused.
    #[error("out of memory")]
    Memory,
}

impl<T: Drop> From<AllocFailed<T>> for AddFault {
    ghost use Rattle.std.specs.Prelude.{◌≡◌};
    ghost use Rattle.tp_value.specs.declared.types.AddFault.TheVariants as add_fault;

    ghost from_gives = { λ _ made. made ≡ add_fault.Memory };

    fn from(_refused: AllocFailed<T>) -> AddFault {
        AddFault::Memory
    }
}

/// The named types, numbered from 0 in the order in which they were added. Contracts see the list
/// of their names and definitions. A definition may refer to itself, and to numbers that have no
/// definition yet.
pub struct Types {
    definitions: IndexMap<String, TypeDef>,
}

impl Drop for Types {
    // Written out, so that an owner's drop calls this one, and needs no proof about the fields.
    fn drop(self) {
        let Types { definitions } = self;
        drop(definitions);
    }
}

impl Model for Types {
    ghost use Rattle.std.specs.Prelude.{◌<◌, ◌^◌, ℕ, List, length, map, string_bytes};
    ghost use Rattle.tp_value.specs.declared.types.TypeDef.{TypeDef};

    ghost Value = { List (List ℕ × TypeDef) };

    ghost view = { λ t. map (λ e. (string_bytes e.0, e.1)) t.definitions.entries };

    ghost invariant = { λ t. length t.definitions.entries < 2 ^ 32 };
}

impl Types {
    ghost use Rattle.std.specs.Prelude.{◌≡◌, ◌<◌, ◌∷◌, ◌++◌, ◌↔◌, [], length, slice_get, string_bytes, Contains, IfOk};
    ghost use Rattle.std.specs.Prelude.{IfSome, IsErrOf, IsSome, OnErr};
    ghost use Rattle.std.specs.Option.{option_copied};
    ghost use Rattle.tp_value.specs.Types.{named, names_of_types, type_number};

    /// No types. A later [`Types::add`] allocates from `alloc`.
    pub fn new(alloc: Global) -> Types
        ensures { result ≡ [] }
    {
        Types {
            definitions: IndexMap::new(alloc),
        }
    }

    pub fn len(&self) -> usize
        ensures { result ≡ length self.now }
    {
        self.definitions.len()
    }

    /// Adds a type and returns its number, which is the number of types before. There are fewer
    /// than 4,294,967,295 of them.
    ///
    /// 12 `Duplicate` if and only if the name is taken; the types are then as before.
    pub fn add(&mut self, name: String, definition: TypeDef) -> Result<u32, AddFault>
        requires { length self.old < u32.MAX }
        ensures number { IfOk result (λ number. number ≡ length self.old) }
        ensures ok { IfOk result (λ _.
            self.new ≡ self.old ++ (string_bytes name, definition) ∷ []) }
        ensures duplicate { IsErrOf result AddFault.Duplicate
            ↔ Contains (names_of_types self.old) (string_bytes name) }
        ensures err { OnErr result (self.new ≡ self.old) }
    {
        // An insertion under a name that is taken would replace its definition.
        if self.find(name.as_str()).is_some() {
            return Err(AddFault::Duplicate);
        }
        let number = self.definitions.len() as u32;
        self.definitions.insert(name, definition)?;
        Ok(number)
    }

    /// The number of the type with this name, or `None` if there is none.
    pub fn find(&self, name: &str) -> Option<u32>
        ensures number { result ≡ type_number self.now name.now }
        ensures there { IfSome result (λ number.
            slice_get (names_of_types self.now) number ≡ Some name.now) }
        ensures known { IsSome result ↔ Contains (names_of_types self.now) name.now }
    {
        match self.definitions.get_index_of(name) {
            Some(number) => Some(number as u32),
            None => None,
        }
    }

    /// The name of the type with this number, or `None` if there is none.
    pub fn name(&self, number: u32) -> Option<&str>
        ensures { option_copied result ≡ slice_get (names_of_types self.now) number }
    {
        match self.definitions.get_index(number as usize) {
            Some((name, _)) => Some(name.as_str()),
            None => None,
        }
    }

    /// The definition that a type refers to, or `None` if there is none.
    pub fn definition(&self, ty: Ty) -> Option<&TypeDef>
        ensures { option_copied result ≡ named self.now ty }
    {
        match ty {
            Ty::Named(number) => match self.definitions.get_index(number as usize) {
                Some((_, definition)) => Some(definition),
                None => None,
            },
            Ty::Integer | Ty::Boolean | Ty::Charstring => None,
        }
    }
}
