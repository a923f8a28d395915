//! Messages and templates, filled with the values of the loop variables.
ghost use Rattle.std.specs.Prelude.{◌≡◌, ◌≤◌, All, FitsSigned, IfOk, length, map};
ghost use Rattle.std.specs.Int.{w64};
ghost use Rattle.tp_play.specs.Fills.{filled, filled_template, filled_wanted, greatest, needed, needed_by_template};
ghost use Rattle.tp_play.specs.Fills.{needed_by_wanted};
ghost use Rattle.tp_play.specs.Laws.{FitsItsType, HasItsType};

use crate::body::{RecvMsg, RecvTemplate, SendMsg, SendValue};
use std::alloc::Global;
use tp_common::memory::Memory;
use tp_value::items::Items;
use tp_value::message::{Message, MsgTemplate};
use tp_value::shared::Shared;
use tp_value::template::Template;
use tp_value::value::Value;

#[cycle(fill)]
#[tactic(auto, using(crate::proofs::FilledValueEquations::values))]
fn fill_value(alloc: Global, value: &SendValue, turns: &[i64]) -> Result<Value, Memory>
    requires given { needed value.now ≤ length turns.now }
    ensures { IfOk result (λ made. made ≡ filled turns.now value.now) }
{
    match value {
        SendValue::Int(number) => Ok(Value::Int(*number)),
        SendValue::Bool(truth) => Ok(Value::Bool(*truth)),
        SendValue::Text(text) => Ok(Value::Text(text.share()?)),
        SendValue::Turn(place) => Ok(Value::Int(turns[*place])),
        SendValue::Record(fields) => {
            let made = fill_values(alloc, fields.as_slice(), turns)?;
            Ok(Value::Record(Shared::new(alloc, made)?))
        }
        SendValue::List(elements) => {
            let made = fill_values(alloc, elements.as_slice(), turns)?;
            Ok(Value::List(Shared::new(alloc, made)?))
        }
    }
}

#[cycle(fill)]
#[tactic(auto, using(crate::proofs::FilledValueEquations::values))]
fn fill_values(alloc: Global, values: &[SendValue], turns: &[i64]) -> Result<Items<Value>, Memory>
    requires given { greatest (map needed values.now) ≤ length turns.now }
    ensures { IfOk result (λ made. made ≡ map (filled turns.now) values.now) }
{
    let mut made = Vec::with_capacity(alloc, values.len())?;
    for value in values {
        let one = fill_value(alloc, value, turns)?;
        made.push_reserved(one);
    }
    Ok(Items::from_vec(made))
}

fn read_integers(integers: &[i64])
    ensures { All (FitsSigned w64) integers.now }
{
    // Read, so that each integer is known to have 64 bits.
    for place in 0..integers.len() {
        let _integer = integers[place];
    }
}

/// Makes the message of a send. `turns` has the values of the loop variables around it, the
/// outermost first: one for each loop variable in the message (ES 201 873-1, 22.2.1). If the
/// message has its type in some `Types`, whatever the loop variables hold, the result has its type
/// in these.
pub fn fill_message(alloc: Global, message: &SendMsg, turns: &[i64]) -> Result<Message, Memory>
    requires given { needed message.now.value ≤ length turns.now }
    ensures ty { IfOk result (λ made. made.ty ≡ message.now.ty) }
    ensures value { IfOk result (λ made. made.value ≡ filled turns.now message.now.value) }
    ensures typed { IfOk result (HasItsType message.now) }
{
    let value = fill_value(alloc, &message.value, turns)?;
    read_integers(turns);
    Ok(Message {
        ty: message.ty,
        value,
    })
}

#[cycle(template)]
#[tactic(auto, using(crate::proofs::FilledValueEquations::templates))]
fn fill_one(alloc: Global, template: &RecvTemplate, turns: &[i64]) -> Result<Template, Memory>
    requires given { needed_by_template template.now ≤ length turns.now }
    ensures { IfOk result (λ made. made ≡ filled_template turns.now template.now) }
{
    match template {
        RecvTemplate::Exact(value) => {
            let made = fill_value(alloc, value, turns)?;
            Ok(Template::Exact(made))
        }
        RecvTemplate::Any => Ok(Template::Any),
        RecvTemplate::AnyOrNone => Ok(Template::AnyOrNone),
        RecvTemplate::OneOf(members) => {
            let made = fill_all(alloc, members.as_slice(), turns)?;
            Ok(Template::OneOf(made))
        }
        RecvTemplate::NoneOf(members) => {
            let made = fill_all(alloc, members.as_slice(), turns)?;
            Ok(Template::NoneOf(made))
        }
        RecvTemplate::Range(lower, upper) => Ok(Template::Range(*lower, *upper)),
        RecvTemplate::Pattern(parts) => {
            let parts = Items::from_slice(alloc, parts.as_slice())?;
            Ok(Template::Pattern(parts))
        }
        RecvTemplate::Record(members) => {
            let made = fill_all(alloc, members.as_slice(), turns)?;
            Ok(Template::Record(made))
        }
        RecvTemplate::List(members) => {
            let made = fill_all(alloc, members.as_slice(), turns)?;
            Ok(Template::List(made))
        }
    }
}

#[cycle(template)]
#[tactic(auto, using(crate::proofs::FilledValueEquations::templates))]
fn fill_all(
    alloc: Global,
    templates: &[RecvTemplate],
    turns: &[i64],
) -> Result<Items<Template>, Memory>
    requires given { greatest (map needed_by_template templates.now) ≤ length turns.now }
    ensures { IfOk result (λ made. made ≡ map (filled_template turns.now) templates.now) }
{
    let mut made = Vec::with_capacity(alloc, templates.len())?;
    for template in templates {
        let one = fill_one(alloc, template, turns)?;
        made.push_reserved(one);
    }
    Ok(Items::from_vec(made))
}

/// Makes the wanted part of a receiving operation, as [`fill_message`] makes a message (ES 201
/// 873-1, 15 and Annex B). If the template fits its type in some `Types`, whatever the loop
/// variables hold, the result fits its type in these.
pub fn fill_template(alloc: Global, wanted: &RecvMsg, turns: &[i64]) -> Result<MsgTemplate, Memory>
    requires given { needed_by_wanted wanted.now ≤ length turns.now }
    ensures value { IfOk result (λ made. made ≡ filled_wanted turns.now wanted.now) }
    ensures fits { IfOk result (FitsItsType wanted.now) }
{
    match wanted {
        RecvMsg::Any => Ok(MsgTemplate::Any),
        RecvMsg::Of(ty, template) => {
            let made = fill_one(alloc, template, turns)?;
            read_integers(turns);
            Ok(MsgTemplate::Of(*ty, made))
        }
    }
}
