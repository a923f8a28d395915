//! The match of a value with a template.
ghost use Rattle.std.specs.Prelude.{◌≡◌, ◌↔◌, ◌<◌, ◌≤◌, IsTrue, length, drop, []};
ghost use Rattle.tp_value.specs.Cuts.{HasCut, PieceOf};
ghost use Rattle.tp_value.specs.Steps.{StepIs};
ghost use Rattle.tp_value.specs.Matches.{Matches, SomeMatches, FieldsMatch, AtLeast, AtMost, integer_in, charstring_in};
ghost use Rattle.tp_value.specs.Matches.{fields_in, elements_in, is_many as is_many_template};
ghost use Rattle.std.specs.Option.{option_copied};
ghost use Rattle.tp_value.specs.declared.value.Value.TheViews.{out-Value};

use crate::equal::are_equal;
use crate::pattern::text_matches;
use crate::scan::ScanMove;
use crate::template::Template;
use crate::value::Value;

fn is_in_range(lower: Option<i64>, upper: Option<i64>, number: i64) -> bool
    ensures { IsTrue result ↔ (AtLeast lower number × AtMost upper number) }
{
    let above = match lower {
        None => true,
        Some(bound) => bound <= number,
    };
    let below = match upper {
        None => true,
        Some(bound) => number <= bound,
    };
    above && below
}

fn number(value: &Value) -> Option<i64>
    ensures { result ≡ integer_in (out-Value value.now) }
{
    match value {
        // Each variant is named, so that the compiler finds a new one.
        Value::Int(inside) => Some(*inside),
        Value::Bool(_) => None,
        Value::Text(_) => None,
        Value::Record(_) => None,
        Value::List(_) => None,
    }
}

fn text(value: &Value) -> Option<&[u8]>
    ensures { option_copied result ≡ charstring_in (out-Value value.now) }
{
    match value {
        Value::Int(_) => None,
        Value::Bool(_) => None,
        Value::Text(inside) => Some(inside.as_slice()),
        Value::Record(_) => None,
        Value::List(_) => None,
    }
}

fn fields(value: &Value) -> Option<&[Value]>
    ensures { option_copied result ≡ fields_in (out-Value value.now) }
{
    match value {
        Value::Int(_) => None,
        Value::Bool(_) => None,
        Value::Text(_) => None,
        Value::Record(inside) => Some(inside.as_slice()),
        Value::List(_) => None,
    }
}

fn elements(value: &Value) -> Option<&[Value]>
    ensures { option_copied result ≡ elements_in (out-Value value.now) }
{
    match value {
        Value::Int(_) => None,
        Value::Bool(_) => None,
        Value::Text(_) => None,
        Value::Record(_) => None,
        Value::List(inside) => Some(inside.as_slice()),
    }
}

/// Returns whether the value matches the template (ES 201 873-1, 15.7 and B.1). It uses no types.
///
/// The work is linear in the sizes for values and records. For a pattern, or a list with `*`, it is
/// at most the number of parts times the number of characters or elements, with comparisons of
/// elements counted. It calls itself once for each level of nesting.
#[cycle(matches)]
pub fn matches(template: &Template, value: &Value) -> bool
    ensures { IsTrue result ↔ Matches template.now value.now }
{
    match template {
        Template::Exact(wanted) => are_equal(value, wanted),
        Template::Any => true,
        Template::AnyOrNone => false,
        Template::OneOf(members) => some_matches(members.as_slice(), value),
        Template::NoneOf(members) => !some_matches(members.as_slice(), value),
        Template::Range(lower, upper) => match number(value) {
            Some(number) => is_in_range(*lower, *upper, number),
            None => false,
        },
        Template::Pattern(parts) => match text(value) {
            Some(text) => text_matches(parts.as_slice(), text),
            None => false,
        },
        Template::Record(members) => match fields(value) {
            Some(fields) => fields_match(members.as_slice(), fields),
            None => false,
        },
        Template::List(members) => match elements(value) {
            Some(elements) => list_matches(members.as_slice(), elements),
            None => false,
        },
    }
}

#[cycle(matches)]
fn some_matches(members: &[Template], value: &Value) -> bool
    ensures { IsTrue result ↔ SomeMatches Matches members.now value.now }
{
    for member in members {
        if matches(member, value) {
            return true;
        }
    }
    false
}

#[cycle(matches)]
fn fields_match(members: &[Template], fields: &[Value]) -> bool
    ensures { IsTrue result ↔ FieldsMatch Matches members.now fields.now }
{
    if members.len() != fields.len() {
        return false;
    }
    for (index, member) in members.iter().enumerate() {
        if !matches(member, &fields[index]) {
            return false;
        }
    }
    true
}

#[cycle(matches)]
fn list_step(members: &[Template], part: usize, elements: &[Value], at: usize) -> ScanMove
    requires { at < length elements.now }
    ensures { StepIs is_many_template Matches
        (drop part members.now) (drop at elements.now) result }
{
    if part >= members.len() {
        ScanMove::Stuck
    } else if members[part].is_many() {
        ScanMove::AnyOrNone
    } else if matches(&members[part], &elements[at]) {
        ScanMove::One
    } else {
        ScanMove::Stuck
    }
}

fn only_many(members: &[Template], from: usize) -> bool
    requires { from ≤ length members.now }
    ensures { IsTrue result
        ↔ HasCut (λ t. PieceOf (is_many_template t) (Matches t)) (drop from members.now) [] }
{
    for part in from..members.len() {
        // No element is left, and only a `*` matches none.
        if !members[part].is_many() {
            return false;
        }
    }
    true
}

#[cycle(matches)]
fn list_matches(members: &[Template], elements: &[Value]) -> bool
    ensures { IsTrue result
        ↔ HasCut (λ t. PieceOf (is_many_template t) (Matches t)) members.now elements.now }
{
    // It goes from template to template, and if it is stuck goes back to the last `*`, which then
    // takes one element more.
    let mut part = 0;
    let mut at = 0;
    let mut back: Option<(usize, usize)> = None;
    while at < elements.len() {
        match list_step(members, part, elements, at) {
            ScanMove::AnyOrNone => {
                part += 1;
                // A last `*` takes all that is left.
                if part >= members.len() {
                    return true;
                }
                back = Some((part, at));
            }
            ScanMove::One => {
                part += 1;
                at += 1;
            }
            ScanMove::Stuck => {
                let Some((after, from)) = back else {
                    return false;
                };
                part = after;
                at = from + 1;
                back = Some((after, from + 1));
            }
        }
    }
    only_many(members, part)
}
