//! Values that have a type.
ghost use Rattle.std.specs.Prelude.{◌↔◌, IsTrue};
ghost use Rattle.tp_value.specs.HasType.{ArePrintable, AllHave, FieldsHave, HasType};

use crate::types::{Field, Ty, TypeDef, Types};
use crate::value::Value;

/// Returns whether all characters are among 32 to 126, those of a charstring (ES 201 873-1, 6.1.1).
pub fn are_printable(text: &[u8]) -> bool
    ensures { IsTrue result ↔ ArePrintable text.now }
{
    for byte in text {
        if *byte < 32 || *byte > 126 {
            return false;
        }
    }
    true
}

/// Returns whether the value has the type (ES 201 873-1, 6). A number that names no type has no
/// values.
///
/// It calls itself once for each level of nesting of the value, however often a type refers to
/// itself.
#[cycle(has_type)]
pub fn has_type(types: &Types, ty: Ty, value: &Value) -> bool
    ensures { IsTrue result ↔ HasType types.now ty value.now }
{
    match value {
        Value::Int(number) => {
            // Read, so that it is known to have 64 bits.
            let _number = *number;
            ty == Ty::Integer
        }
        Value::Bool(_) => ty == Ty::Boolean,
        Value::Text(text) => ty == Ty::Charstring && are_printable(text.as_slice()),
        Value::Record(fields) => match types.definition(ty) {
            Some(TypeDef::Record(declared)) => {
                fields_have(types, declared.as_slice(), fields.as_slice())
            }
            Some(TypeDef::ListOf(_)) | None => false,
        },
        Value::List(elements) => match types.definition(ty) {
            Some(TypeDef::ListOf(inner)) => all_have(types, *inner, elements.as_slice()),
            Some(TypeDef::Record(_)) | None => false,
        },
    }
}

#[cycle(has_type)]
fn fields_have(types: &Types, declared: &[Field], values: &[Value]) -> bool
    ensures { IsTrue result ↔ FieldsHave (λ v t. HasType types.now t v) declared.now values.now }
{
    if declared.len() != values.len() {
        return false;
    }
    for (index, value) in values.iter().enumerate() {
        if !has_type(types, declared[index].ty, value) {
            return false;
        }
    }
    true
}

#[cycle(has_type)]
fn all_have(types: &Types, ty: Ty, values: &[Value]) -> bool
    ensures { IsTrue result ↔ AllHave (λ v t. HasType types.now t v) ty values.now }
{
    for value in values {
        if !has_type(types, ty, value) {
            return false;
        }
    }
    true
}
