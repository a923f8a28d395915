//! The types that names stand for, and the message types of a module.
ghost use Rattle.std.specs.Prelude.{◌≡◌, ◌∷◌, ◌++◌, [], ℕ, All, List, IfErr, IfOk, IsSome, OnOk, map, is_some};
ghost use Rattle.std.specs.List.{AllZip, list_all};
ghost use Rattle.tp_checks.specs.{Refused.IsRefusedBy, Tables.IsNumbered, Definitions.name_of, Definitions.type_of};
ghost use Rattle.tp_checks.specs.Rules.{AreSoundTypes, AreTypesKnown, NamesType};
ghost use Rattle.tp_checks.specs.Resolved.{IsField, IsNamedType, IsTypeDef, ty_of};
ghost use Rattle.tp_value.specs.declared.types.TypeDef.{TypeDef};

use crate::fault::{ModuleFault, ModuleRule, refused};
use crate::name_set::NameSet;
use crate::unique_names::defined_name;
use std::alloc::Global;
use tp_common::memory::Memory;
use tp_tree::message::TypeName;
use tp_tree::tree::{Defined, FieldType};
use tp_value::items::Items;
use tp_value::types::{AddFault, Field, Ty, TypeDef, Types};

pub fn resolve(types: &NameSet, name: &TypeName) -> Option<Ty>
    ensures { result ≡ ty_of types.now name.now }
{
    match name {
        TypeName::Integer => Some(Ty::Integer),
        TypeName::Boolean => Some(Ty::Boolean),
        TypeName::Charstring => Some(Ty::Charstring),
        TypeName::Named(name) => match types.find(name.as_str()) {
            Some(number) => Some(Ty::Named(number)),
            None => None,
        },
    }
}

pub fn is_known_type(types: &NameSet, name: &TypeName) -> bool
    ensures { result ≡ is_some (ty_of types.now name.now) }
{
    resolve(types, name).is_some()
}

pub fn are_types(types: &NameSet, names: &[TypeName]) -> bool
    ensures { result ≡ list_all (λ n. is_some (ty_of types.now n)) names.now }
{
    names.iter().all(|name| is_known_type(types, name))
}

fn make_field(
    alloc: Global,
    types: &NameSet,
    field: &FieldType,
    line: u32,
) -> Result<Field, ModuleFault>
    ensures made { IfOk result (IsField types.now field.now) }
    ensures refused { IfErr result (IsRefusedBy (NamesType types.now field.now.type_name)) }
{
    let Some(ty) = resolve(types, &field.type_name) else {
        return Err(refused(ModuleRule::Unknown, line));
    };
    let name = Items::from_slice(alloc, field.name.name.as_str().as_bytes())?;
    Ok(Field { name, ty })
}

fn make_fields(
    alloc: Global,
    types: &NameSet,
    fields: &[FieldType],
    line: u32,
) -> Result<Items<Field>, ModuleFault>
    ensures made { IfOk result (AllZip (IsField types.now) fields.now) }
    ensures refused { IfErr result (
        IsRefusedBy (All (λ f. NamesType types.now f.type_name) fields.now)) }
{
    let mut made = Items::new(alloc);
    for field in fields {
        let one = make_field(alloc, types, field, line)?;
        made.push(one)?;
    }
    Ok(made)
}

fn make_type(
    alloc: Global,
    types: &NameSet,
    defined: &Defined,
    line: u32,
) -> Result<TypeDef, ModuleFault>
    ensures made { IfOk result (IsTypeDef types.now defined.now) }
    ensures refused { IfErr result (
        IsRefusedBy (IsSome (type_of defined.now) × AreTypesKnown types.now defined.now)) }
{
    match defined {
        Defined::Record(record) => {
            let fields = make_fields(alloc, types, record.fields.as_slice(), line)?;
            Ok(TypeDef::Record(fields))
        }
        Defined::List(list) => {
            let Some(element) = resolve(types, &list.element) else {
                return Err(refused(ModuleRule::Unknown, line));
            };
            Ok(TypeDef::ListOf(element))
        }
        // This never happens: `sort` passes only record and record-of types.
        _ => Err(refused(ModuleRule::Unknown, line)),
    }
}

/// The types that are defined, under their own names, in the order of the text. The first
/// definition that breaks a rule is refused at line 0: 11 `Unknown` if the type of a field or of
/// the elements is unknown, or if it is no record or record-of type; 15 `Limit` if there are
/// 4,294,967,295 types before it; 12 `Duplicate` if one of them has its name.
pub fn make_types(
    alloc: Global,
    names: &NameSet,
    definitions: &[&Defined],
) -> Result<Types, ModuleFault>
    ensures made { IfOk result (
        AllZip (IsNamedType names.now) (map (λ x. x.now) definitions.now)) }
    ensures refused { IfErr result (
        IsRefusedBy (AreSoundTypes names.now (map (λ x. x.now) definitions.now))) }
{
    let mut types = Types::new(alloc);
    for defined in definitions {
        add_type(alloc, names, defined, &mut types)?;
    }
    Ok(types)
}

fn add_type(
    alloc: Global,
    names: &NameSet,
    defined: &Defined,
    types: &mut Types,
) -> Result<(), ModuleFault>
    ensures added { OnOk result ((t : List ℕ × TypeDef) × IsNamedType names.now defined.now t
        × (types.new ≡ types.old ++ t ∷ [])) }
    ensures refused { IfErr result (
        IsRefusedBy (IsSome (type_of defined.now) × AreTypesKnown names.now defined.now
        × IsNumbered (map (λ t. t.0) types.old ++ name_of defined.now ∷ []))) }
{
    let definition = make_type(alloc, names, defined, 0)?;
    let name = String::from_str(alloc, defined_name(defined))?;
    // `check_names` has already refused too many names, and equal ones, at their lines.
    if types.len() >= u32::MAX as usize {
        return Err(refused(ModuleRule::Limit, 0));
    }
    match types.add(name, definition) {
        Ok(_) => Ok(()),
        Err(AddFault::Duplicate) => Err(refused(ModuleRule::Duplicate, 0)),
        Err(AddFault::Memory) => Err(ModuleFault::Memory(Memory)),
    }
}
