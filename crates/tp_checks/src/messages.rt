//! Values of messages.
#![tactic(auto, using(crate::proofs::DefinitionLines::values))]

ghost use Rattle.std.specs.Prelude.{◌≡◌, IfErr, IfOk, length};
ghost use Rattle.tp_checks.specs.{Refused.TellsAt, Tables.AreDistinct, Placing.field_names};
ghost use Rattle.tp_checks.specs.Messages.{AreElements, AreFields, AreNamed, IsValue};
ghost use Rattle.tp_checks.specs.BrokenValues.{ElementsBreak, EntriesBreak, FieldsBreak, ValueBreaks};
ghost use Rattle.tp_checks.specs.Scoping.{IsSoundHere, breaks_here, stands_here};

use crate::context::Context;
use crate::fault::ModuleFault;
use crate::placing::field_places;
use crate::plain::{resolve_text, resolve_turn};
use std::alloc::Global;
use tp_play::body::SendValue;
use tp_tree::message::{Value, ValueField};
use tp_value::items::Items;
use tp_value::types::{Field, Ty, TypeDef};

/// Resolves a value of this type. It returns the first fault from left to right, at the line of the
/// context; the number and the names of a record's fields come before their contents. 13
/// `WrongType` for a value of another type, a field that the record doesn't have, or that is
/// missing or given twice, and a variable; 11 `Unknown` for any other name that isn't a loop
/// variable.
#[cycle(value)]
pub fn resolve_value(
    alloc: Global,
    context: &Context,
    ty: Ty,
    value: &Value,
) -> Result<SendValue, ModuleFault>
    ensures stands { IfOk result (stands_here IsValue context.now ty value.now) }
    ensures told { IsSoundHere context.now → IfErr result
        (TellsAt context.now.line (breaks_here ValueBreaks context.now ty value.now)) }
{
    match value {
        Value::Int(number) => {
            context.check_type(ty, Ty::Integer)?;
            // Read, so that it is known to have 64 bits.
            let number = *number;
            Ok(SendValue::Int(number))
        }
        Value::Bool(truth) => {
            context.check_type(ty, Ty::Boolean)?;
            Ok(SendValue::Bool(*truth))
        }
        Value::Text(text) => {
            let text = resolve_text(alloc, context, ty, text.as_slice())?;
            Ok(SendValue::Text(text))
        }
        Value::Name(name) => {
            let place = resolve_turn(context, ty, name.as_str())?;
            Ok(SendValue::Turn(place))
        }
        Value::List(values) => resolve_in_braces(alloc, context, ty, values.as_slice()),
        Value::Record(entries) => {
            let Some(TypeDef::Record(fields)) = context.scope.types.definition(ty) else {
                return Err(context.wrong_type());
            };
            let made = resolve_named(alloc, context, fields.as_slice(), entries.as_slice())?;
            Ok(SendValue::Record(made))
        }
    }
}

#[cycle(value)]
fn resolve_in_braces(
    alloc: Global,
    context: &Context,
    ty: Ty,
    values: &[Value],
) -> Result<SendValue, ModuleFault>
    ensures stands { IfOk result (stands_here IsValue context.now ty (Value.List values.now)) }
    ensures told { IsSoundHere context.now → IfErr result (TellsAt context.now.line
        (breaks_here ValueBreaks context.now ty (Value.List values.now))) }
{
    match context.scope.types.definition(ty) {
        Some(TypeDef::ListOf(element)) => {
            let made = resolve_elements(alloc, context, *element, values)?;
            Ok(SendValue::List(made))
        }
        Some(TypeDef::Record(fields)) => {
            let made = resolve_fields(alloc, context, fields.as_slice(), values)?;
            Ok(SendValue::Record(made))
        }
        None => Err(context.wrong_type()),
    }
}

#[cycle(value)]
fn resolve_elements(
    alloc: Global,
    context: &Context,
    ty: Ty,
    values: &[Value],
) -> Result<Items<SendValue>, ModuleFault>
    ensures stand { IfOk result (stands_here AreElements context.now ty values.now) }
    ensures told { IsSoundHere context.now → IfErr result
        (TellsAt context.now.line (breaks_here ElementsBreak context.now ty values.now)) }
{
    let mut made = Items::new(alloc);
    for value in values {
        let one = resolve_value(alloc, context, ty, value)?;
        made.push(one)?;
    }
    Ok(made)
}

#[cycle(value)]
fn resolve_fields(
    alloc: Global,
    context: &Context,
    fields: &[Field],
    values: &[Value],
) -> Result<Items<SendValue>, ModuleFault>
    ensures stand { IfOk result (stands_here AreFields context.now fields.now values.now) }
    ensures told { IsSoundHere context.now → IfErr result
        (TellsAt context.now.line (breaks_here FieldsBreak context.now fields.now values.now)) }
{
    if fields.len() != values.len() {
        return Err(context.wrong_type());
    }
    let mut made = Items::new(alloc);
    for (index, value) in values.iter().enumerate() {
        let one = resolve_value(alloc, context, fields[index].ty, value)?;
        made.push(one)?;
    }
    Ok(made)
}

#[cycle(value)]
fn resolve_named(
    alloc: Global,
    context: &Context,
    fields: &[Field],
    entries: &[ValueField],
) -> Result<Items<SendValue>, ModuleFault>
    ensures named { IfOk result
        (λ made. stands_here AreNamed context.now entries.now fields.now made) }
    ensures count { IfOk result (λ _. length entries.now ≡ length fields.now) }
    ensures told { IsSoundHere context.now → AreDistinct (field_names fields.now) → IfErr result
        (TellsAt context.now.line (breaks_here EntriesBreak context.now fields.now entries.now)) }
{
    let places = field_places(alloc, fields, entries, context.line)?;
    let mut made = Vec::new(alloc);
    // Any value will do, because each place is written below.
    made.resize_with(fields.len(), || SendValue::Bool(false))?;
    for (index, entry) in entries.iter().enumerate() {
        let place = places[index];
        // It is there: `field_places` has found each place among the fields.
        let Some(field) = fields.get(place) else {
            return Err(context.wrong_type());
        };
        let one = resolve_value(alloc, context, field.ty, &entry.value)?;
        made[place] = one;
    }
    Ok(Items::from_vec(made))
}
