//! Equality of values.
ghost use Rattle.std.specs.Prelude.{◌≡◌, ◌↔◌, IsTrue};

use crate::value::Value;

/// Returns whether two values are equal: of one kind, with equal contents in the same order. It
/// calls itself once for each level of nesting.
#[cycle(equal)]
pub fn are_equal(left: &Value, right: &Value) -> bool
    ensures { IsTrue result ↔ (left.now ≡ right.now) }
{
    match left {
        Value::Int(number) => match right {
            Value::Int(other) => *number == *other,
            _ => false,
        },
        Value::Bool(truth) => match right {
            Value::Bool(other) => *truth == *other,
            _ => false,
        },
        Value::Text(text) => match right {
            Value::Text(other) => text.as_slice() == other.as_slice(),
            _ => false,
        },
        Value::Record(fields) => match right {
            Value::Record(others) => all_equal(fields.as_slice(), others.as_slice()),
            _ => false,
        },
        Value::List(elements) => match right {
            Value::List(others) => all_equal(elements.as_slice(), others.as_slice()),
            _ => false,
        },
    }
}

#[cycle(equal)]
fn all_equal(left: &[Value], right: &[Value]) -> bool
    ensures { IsTrue result ↔ (left.now ≡ right.now) }
{
    if left.len() != right.len() {
        return false;
    }
    for (index, value) in left.iter().enumerate() {
        if !are_equal(value, &right[index]) {
            return false;
        }
    }
    true
}
