//! Templates of receiving operations.
#![tactic(auto, using(crate::proofs::DefinitionLines::templates))]

ghost use Rattle.std.specs.Prelude.{◌≡◌, ◌≢◌, IfErr, IfOk, OnErr, length, map};
ghost use Rattle.tp_checks.specs.{Refused.TellsAt, Tables.AreDistinct, Placing.field_names};
ghost use Rattle.tp_checks.specs.Messages.{AreElementTemplates, AreFieldTemplates, AreMembers, AreNamedTemplates};
ghost use Rattle.tp_checks.specs.Messages.{IsElementTemplate, IsTemplate, part_of};
ghost use Rattle.tp_checks.specs.BrokenTemplates.{ElementTemplatesBreak, EntryTemplatesBreak, FieldTemplatesBreak};
ghost use Rattle.tp_checks.specs.BrokenTemplates.{ListBreaks, MembersBreak, RangeBreaks, RecordBreaks, TemplateBreaks};
ghost use Rattle.tp_checks.specs.Scoping.{IsSoundHere, breaks_here, stands_here};

use crate::context::Context;
use crate::fault::ModuleFault;
use crate::placing::field_places;
use crate::plain::{resolve_text, resolve_turn};
use std::alloc::Global;
use tp_play::body::{RecvTemplate, SendValue};
use tp_tree::message::{Template, TemplateField};
use tp_value::fitting::are_ordered;
use tp_value::items::Items;
use tp_value::template::PatternPart;
use tp_value::types::{Field, Ty, TypeDef};

fn pattern_part(character: u8) -> PatternPart
    ensures { result ≡ part_of character }
{
    if character == b'?' {
        return PatternPart::One;
    }
    if character == b'*' {
        return PatternPart::AnyOrNone;
    }
    PatternPart::Literal(character)
}

fn parts(alloc: Global, text: &[u8]) -> Result<Items<PatternPart>, ModuleFault>
    ensures parts { IfOk result (λ parts. parts ≡ map part_of text.now) }
    ensures memory { IfErr result (λ fault. fault ≡ ModuleFault.Memory (record {})) }
{
    let mut parts = Items::new(alloc);
    for character in text {
        parts.push(pattern_part(*character))?;
    }
    Ok(parts)
}

fn resolve_number(context: &Context, ty: Ty, number: &i64) -> Result<RecvTemplate, ModuleFault>
    ensures stands { IfOk result (stands_here IsTemplate context.now ty (Template.Int number.now)) }
    ensures told { IfErr result (TellsAt context.now.line
        (breaks_here TemplateBreaks context.now ty (Template.Int number.now))) }
{
    context.check_type(ty, Ty::Integer)?;
    // Read, so that it is known to have 64 bits.
    let number = *number;
    Ok(RecvTemplate::Exact(SendValue::Int(number)))
}

fn resolve_pattern(
    alloc: Global,
    context: &Context,
    ty: Ty,
    text: &[u8],
) -> Result<RecvTemplate, ModuleFault>
    ensures stands { IfOk result
        (stands_here IsTemplate context.now ty (Template.Pattern text.now)) }
    ensures told { IfErr result (TellsAt context.now.line
        (breaks_here TemplateBreaks context.now ty (Template.Pattern text.now))) }
{
    context.check_type(ty, Ty::Charstring)?;
    let made = parts(alloc, text)?;
    Ok(RecvTemplate::Pattern(made))
}

fn resolve_range(
    context: &Context,
    ty: Ty,
    lower: Option<i64>,
    upper: Option<i64>,
) -> Result<RecvTemplate, ModuleFault>
    ensures stands { IfOk result
        (stands_here IsTemplate context.now ty (Template.Range lower upper)) }
    ensures told { IfErr result (TellsAt context.now.line (RangeBreaks ty lower upper)) }
{
    context.check_type(ty, Ty::Integer)?;
    if !are_ordered(lower, upper) {
        return Err(context.wrong_type());
    }
    Ok(RecvTemplate::Range(lower, upper))
}

/// Resolves a template of this type. It returns the first fault from left to right, at the line of
/// the context; the number and the names of a record's fields come before their contents. 13
/// `WrongType` for a template that doesn't fit the type, a lower bound above the upper, a `*` that
/// isn't among the elements of a record of, a field that the record doesn't have, or that is
/// missing or given twice, and a variable; 11 `Unknown` for any other name that isn't a loop
/// variable.
#[cycle(template)]
pub fn resolve_template(
    alloc: Global,
    context: &Context,
    ty: Ty,
    template: &Template,
) -> Result<RecvTemplate, ModuleFault>
    ensures stands { IfOk result (stands_here IsTemplate context.now ty template.now) }
    ensures told { IsSoundHere context.now → IfErr result
        (TellsAt context.now.line (breaks_here TemplateBreaks context.now ty template.now)) }
{
    match template {
        Template::Int(number) => resolve_number(context, ty, number),
        Template::Bool(truth) => {
            context.check_type(ty, Ty::Boolean)?;
            Ok(RecvTemplate::Exact(SendValue::Bool(*truth)))
        }
        Template::Text(text) => {
            let text = resolve_text(alloc, context, ty, text.as_slice())?;
            Ok(RecvTemplate::Exact(SendValue::Text(text)))
        }
        Template::Name(name) => {
            let place = resolve_turn(context, ty, name.as_str())?;
            Ok(RecvTemplate::Exact(SendValue::Turn(place)))
        }
        Template::Any => Ok(RecvTemplate::Any),
        Template::AnyOrNone => Err(context.wrong_type()),
        Template::OneOf(members) => {
            let made = resolve_members(alloc, context, ty, members.as_slice())?;
            Ok(RecvTemplate::OneOf(made))
        }
        Template::Complement(members) => {
            let made = resolve_members(alloc, context, ty, members.as_slice())?;
            Ok(RecvTemplate::NoneOf(made))
        }
        Template::Range(lower, upper) => resolve_range(context, ty, *lower, *upper),
        Template::Pattern(text) => resolve_pattern(alloc, context, ty, text.as_slice()),
        Template::List(members) => resolve_list(alloc, context, ty, members.as_slice()),
        Template::Record(entries) => resolve_record(alloc, context, ty, entries.as_slice()),
    }
}

#[cycle(template)]
fn resolve_list(
    alloc: Global,
    context: &Context,
    ty: Ty,
    members: &[Template],
) -> Result<RecvTemplate, ModuleFault>
    ensures stands { IfOk result
        (stands_here IsTemplate context.now ty (Template.List members.now)) }
    ensures told { IsSoundHere context.now → IfErr result
        (TellsAt context.now.line (breaks_here ListBreaks context.now ty members.now)) }
{
    match context.scope.types.definition(ty) {
        Some(TypeDef::ListOf(element)) => {
            let made = resolve_element_templates(alloc, context, *element, members)?;
            Ok(RecvTemplate::List(made))
        }
        Some(TypeDef::Record(fields)) => {
            let made = resolve_field_templates(alloc, context, fields.as_slice(), members)?;
            Ok(RecvTemplate::Record(made))
        }
        None => Err(context.wrong_type()),
    }
}

#[cycle(template)]
fn resolve_record(
    alloc: Global,
    context: &Context,
    ty: Ty,
    entries: &[TemplateField],
) -> Result<RecvTemplate, ModuleFault>
    ensures stands { IfOk result
        (stands_here IsTemplate context.now ty (Template.Record entries.now)) }
    ensures told { IsSoundHere context.now → IfErr result
        (TellsAt context.now.line (breaks_here RecordBreaks context.now ty entries.now)) }
{
    let Some(TypeDef::Record(fields)) = context.scope.types.definition(ty) else {
        return Err(context.wrong_type());
    };
    let made = resolve_named_templates(alloc, context, fields.as_slice(), entries)?;
    Ok(RecvTemplate::Record(made))
}

#[cycle(template)]
fn resolve_members(
    alloc: Global,
    context: &Context,
    ty: Ty,
    members: &[Template],
) -> Result<Items<RecvTemplate>, ModuleFault>
    ensures stand { IfOk result (stands_here AreMembers context.now ty members.now) }
    ensures told { IsSoundHere context.now → IfErr result
        (TellsAt context.now.line (breaks_here MembersBreak context.now ty members.now)) }
{
    let mut made = Items::new(alloc);
    for member in members {
        let one = resolve_template(alloc, context, ty, member)?;
        made.push(one)?;
    }
    Ok(made)
}

#[cycle(template)]
fn resolve_element_template(
    alloc: Global,
    context: &Context,
    ty: Ty,
    member: &Template,
) -> Result<RecvTemplate, ModuleFault>
    ensures stands { IfOk result (stands_here IsElementTemplate context.now ty member.now) }
    ensures told { IsSoundHere context.now → IfErr result
        (TellsAt context.now.line (breaks_here TemplateBreaks context.now ty member.now)) }
    ensures no_star { OnErr result (member.now ≢ Template.AnyOrNone) }
{
    if let Template::AnyOrNone = member {
        return Ok(RecvTemplate::AnyOrNone);
    }
    resolve_template(alloc, context, ty, member)
}

#[cycle(template)]
fn resolve_element_templates(
    alloc: Global,
    context: &Context,
    ty: Ty,
    members: &[Template],
) -> Result<Items<RecvTemplate>, ModuleFault>
    ensures stand { IfOk result (stands_here AreElementTemplates context.now ty members.now) }
    ensures told { IsSoundHere context.now → IfErr result
        (TellsAt context.now.line (breaks_here ElementTemplatesBreak context.now ty members.now)) }
{
    let mut made = Items::new(alloc);
    for member in members {
        let one = resolve_element_template(alloc, context, ty, member)?;
        made.push(one)?;
    }
    Ok(made)
}

#[cycle(template)]
fn resolve_field_templates(
    alloc: Global,
    context: &Context,
    fields: &[Field],
    members: &[Template],
) -> Result<Items<RecvTemplate>, ModuleFault>
    ensures stand { IfOk result (stands_here AreFieldTemplates context.now fields.now members.now) }
    ensures told { IsSoundHere context.now → IfErr result (TellsAt context.now.line
        (breaks_here FieldTemplatesBreak context.now fields.now members.now)) }
{
    if fields.len() != members.len() {
        return Err(context.wrong_type());
    }
    let mut made = Items::new(alloc);
    for (index, member) in members.iter().enumerate() {
        let one = resolve_template(alloc, context, fields[index].ty, member)?;
        made.push(one)?;
    }
    Ok(made)
}

#[cycle(template)]
fn resolve_named_templates(
    alloc: Global,
    context: &Context,
    fields: &[Field],
    entries: &[TemplateField],
) -> Result<Items<RecvTemplate>, ModuleFault>
    ensures named { IfOk result
        (λ made. stands_here AreNamedTemplates context.now entries.now fields.now made) }
    ensures count { IfOk result (λ _. length entries.now ≡ length fields.now) }
    ensures told { IsSoundHere context.now
        → AreDistinct (field_names fields.now) → IfErr result (TellsAt context.now.line
        (breaks_here EntryTemplatesBreak context.now fields.now entries.now)) }
{
    let places = field_places(alloc, fields, entries, context.line)?;
    let mut made = Vec::new(alloc);
    made.resize_with(fields.len(), || RecvTemplate::Any)?;
    for (index, entry) in entries.iter().enumerate() {
        let place = places[index];
        let Some(field) = fields.get(place) else {
            return Err(context.wrong_type());
        };
        let one = resolve_template(alloc, context, field.ty, &entry.template)?;
        made[place] = one;
    }
    Ok(Items::from_vec(made))
}
