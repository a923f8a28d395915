//! Templates that are the same whatever the loop variables hold.
ghost use Rattle.std.specs.Prelude.{All, IsTrue};
ghost use Rattle.tp_behaviour.specs.Fixed.{IsFixed, IsFixedValue};

use tp_play::body::{RecvTemplate, SendValue};

#[cycle(fixed_value)]
fn is_fixed_value(value: &SendValue) -> bool
    ensures { IsTrue result → IsFixedValue value.now }
{
    match value {
        SendValue::Int(_) => true,
        SendValue::Bool(_) => true,
        SendValue::Text(_) => true,
        SendValue::Turn(_) => false,
        SendValue::Record(fields) => are_fixed_values(fields.as_slice()),
        SendValue::List(elements) => are_fixed_values(elements.as_slice()),
    }
}

#[cycle(fixed_value)]
fn are_fixed_values(values: &[SendValue]) -> bool
    ensures { IsTrue result → All IsFixedValue values.now }
{
    for value in values {
        if !is_fixed_value(value) {
            return false;
        }
    }
    true
}

/// Returns whether no loop variable occurs in a template, so that it is the same in each turn of
/// each loop. The work is linear in the template's size.
#[cycle(fixed_template)]
pub(crate) fn is_fixed(template: &RecvTemplate) -> bool
    ensures { IsTrue result → IsFixed template.now }
{
    match template {
        RecvTemplate::Exact(value) => is_fixed_value(value),
        RecvTemplate::Any => true,
        RecvTemplate::AnyOrNone => true,
        RecvTemplate::OneOf(members) => are_fixed(members.as_slice()),
        RecvTemplate::NoneOf(members) => are_fixed(members.as_slice()),
        RecvTemplate::Range(_, _) => true,
        RecvTemplate::Pattern(_) => true,
        RecvTemplate::Record(members) => are_fixed(members.as_slice()),
        RecvTemplate::List(members) => are_fixed(members.as_slice()),
    }
}

#[cycle(fixed_template)]
fn are_fixed(templates: &[RecvTemplate]) -> bool
    ensures { IsTrue result → All IsFixed templates.now }
{
    for template in templates {
        if !is_fixed(template) {
            return false;
        }
    }
    true
}
