//! The fields that the entries of a record stand for.
ghost use Rattle.std.specs.Prelude.{◌≡◌, ◌<◌, ◌↔◌, ℕ, List, [], true, IfErr, IfNone, IfOk, IfSome, IsTrue, OnOk};
ghost use Rattle.std.specs.{Prelude.length, Prelude.map, Prelude.slice_get, Prelude.slice_set, Bool.OnFalse};
ghost use Rattle.tp_checks.specs.{Named.IsAbsent, Refused.TellsAt, Tables.AreDistinct};
ghost use Rattle.tp_checks.specs.Placing.{HaveEntries, IsPlacing, IsTable, field_names};

use crate::fault::{ModuleFault, ModuleRule, refused};
use indexmap::IndexSet;
use std::alloc::Global;
use tp_common::memory::Memory;
use tp_tree::message::{TemplateField, ValueField};
use tp_value::types::Field;

/// An entry that names the field of a record that it is for (ES 201 873-1, 6.2.1.1).
pub trait NamedField {
    /// The bytes of its name.
    ghost name: { Self → List ℕ };

    fn name(&self) -> &str
        ensures { result.now ≡ name self.now };
}

impl NamedField for ValueField {
    ghost name = { λ entry. entry.name };

    fn name(&self) -> &str {
        self.name.as_str()
    }
}

impl NamedField for TemplateField {
    ghost name = { λ entry. entry.name };

    fn name(&self) -> &str {
        self.name.as_str()
    }
}

fn is_field(fields: &[Field], place: usize, name: &str) -> bool
    ensures { IsTrue result ↔ (slice_get (field_names fields.now) place ≡ Some name.now) }
{
    match fields.get(place) {
        Some(field) => field.name.as_slice() == name.as_bytes(),
        None => false,
    }
}

/// The names of a record's fields, listed when one is first looked up. So a record whose entries
/// are in declared order needs no table.
struct FieldTable<'f> {
    names: IndexSet<&'f [u8]>,
}

impl Drop for FieldTable<'_> {
    // Written out, so that what owns one calls this, and proves no drop of what is inside.
    fn drop(self) {
        let FieldTable { names } = self;
        drop(names);
    }
}

fn list_names<'f>(table: &mut FieldTable<'f>, fields: &'f [Field]) -> Result<(), ModuleFault>
    requires { table.old.names.keys ≡ [] }
    ensures ok { AreDistinct (field_names fields.now)
        → OnOk result (map (λ n. n.now) table.new.names.keys ≡ field_names fields.now) }
    ensures err { IfErr result (λ fault. fault ≡ ModuleFault.Memory (record {})) }
{
    // A name that occurs twice is listed once.
    for field in fields {
        let Ok(_) = table.names.insert(field.name.as_slice()) else {
            return Err(ModuleFault::Memory(Memory));
        };
    }
    Ok(())
}

fn find_field<'f>(
    fields: &'f [Field],
    table: &mut FieldTable<'f>,
    likely: usize,
    name: &str,
) -> Result<Option<usize>, ModuleFault>
    requires { AreDistinct (field_names fields.now)
        → IsTable fields.now (map (λ n. n.now) table.old.names.keys) }
    ensures found { IfOk result (λ found. IfSome found (λ place.
        slice_get (field_names fields.now) place ≡ Some name.now)) }
    ensures absent { AreDistinct (field_names fields.now)
        → IfOk result (λ found. IfNone found (IsAbsent (field_names fields.now) name.now)) }
    ensures table { AreDistinct (field_names fields.now)
        → OnOk result (IsTable fields.now (map (λ n. n.now) table.new.names.keys)) }
    ensures err { IfErr result (λ fault. fault ≡ ModuleFault.Memory (record {})) }
{
    // Entries in declared order are found at `likely`, without the table.
    if is_field(fields, likely, name) {
        return Ok(Some(likely));
    }
    if table.names.is_empty() {
        list_names(table, fields)?;
    }
    let Some(place) = table.names.get_index_of(name.as_bytes()) else {
        return Ok(None);
    };
    // If two fields have one name, the places of the table are those of other fields.
    if !is_field(fields, place, name) {
        return Ok(None);
    }
    Ok(Some(place))
}

fn occupy(taken: &mut Vec<bool>, place: usize) -> bool
    ensures free { IsTrue result → taken.new.items ≡ slice_set taken.old.items place true }
    ensures taken { OnFalse result (place < length taken.old.items
        → slice_get taken.old.items place ≡ Some true) }
{
    if place < taken.len() && !taken[place] {
        taken[place] = true;
        return true;
    }
    false
}

fn are_all(taken: &[bool]) -> bool
    ensures { IsTrue result ↔ ((k : ℕ) → k < length taken.now → slice_get taken.now k ≡ Some true) }
{
    for place in taken {
        if !*place {
            return false;
        }
    }
    true
}

/// The places of the fields that these entries stand for. 13 `WrongType` at the line if there are
/// more or fewer entries than fields, a name that no field has, or a name given twice.
pub fn field_places<E: NamedField>(
    alloc: Global,
    fields: &[Field],
    entries: &[E],
    line: u32,
) -> Result<Vec<usize>, ModuleFault>
    ensures placed { IfOk result (λ places.
        IsPlacing fields.now (map E.name entries.now) places.items) }
    ensures told { AreDistinct (field_names fields.now) → IfErr result (TellsAt line (λ rule.
        (rule ≡ ModuleRule.WrongType) × (HaveEntries fields.now (map E.name entries.now) → ⊥))) }
{
    if entries.len() != fields.len() {
        return Err(refused(ModuleRule::WrongType, line));
    }
    let mut taken = vec![in alloc; false; fields.len()]?;
    let mut table = FieldTable {
        names: IndexSet::new(alloc),
    };
    let mut places = Vec::with_capacity(alloc, entries.len())?;
    for (index, entry) in entries.iter().enumerate() {
        let found = find_field(fields, &mut table, index, entry.name())?;
        let Some(place) = found else {
            return Err(refused(ModuleRule::WrongType, line));
        };
        if !occupy(&mut taken, place) {
            return Err(refused(ModuleRule::WrongType, line));
        }
        places.push_reserved(place);
    }
    if !are_all(&taken) {
        return Err(refused(ModuleRule::WrongType, line));
    }
    Ok(places)
}
