//! Templates that fit a type.
ghost use Rattle.std.specs.Prelude.{◌↔◌, IsTrue};
ghost use Rattle.tp_value.specs.HasType.{AllHave, FieldsHave};
ghost use Rattle.tp_value.specs.Matches.{is_many};
ghost use Rattle.tp_value.specs.Fits.{AreOrdered, ElementsFit, Fits};

use crate::template::Template;
use crate::types::{Field, Ty, TypeDef, Types};
use crate::typing::has_type;

/// Returns whether the lower bound of a range is at most the upper, if both are given (ES 201
/// 873-1, B.1.2.5).
pub fn are_ordered(lower: Option<i64>, upper: Option<i64>) -> bool
    ensures { IsTrue result ↔ AreOrdered lower upper }
{
    match lower {
        None => true,
        Some(low) => match upper {
            None => true,
            Some(high) => low <= high,
        },
    }
}

/// Returns whether the template fits the type, so that it may be used where values of the type are
/// matched (ES 201 873-1, 15 and B.1). `*` fits only among the elements of a record of.
///
/// It calls itself once for each level of nesting.
#[cycle(template_fits)]
pub fn template_fits(types: &Types, ty: Ty, template: &Template) -> bool
    ensures { IsTrue result ↔ Fits types.now ty template.now }
{
    match template {
        Template::Exact(value) => has_type(types, ty, value),
        Template::Any => true,
        Template::AnyOrNone => false,
        Template::OneOf(members) => all_fit(types, ty, members.as_slice()),
        Template::NoneOf(members) => all_fit(types, ty, members.as_slice()),
        Template::Range(lower, upper) => ty == Ty::Integer && are_ordered(*lower, *upper),
        Template::Pattern(_) => ty == Ty::Charstring,
        Template::Record(members) => match types.definition(ty) {
            Some(TypeDef::Record(declared)) => {
                fields_fit(types, declared.as_slice(), members.as_slice())
            }
            Some(TypeDef::ListOf(_)) | None => false,
        },
        Template::List(members) => match types.definition(ty) {
            Some(TypeDef::ListOf(inner)) => elements_fit(types, *inner, members.as_slice()),
            Some(TypeDef::Record(_)) | None => false,
        },
    }
}

#[cycle(template_fits)]
fn all_fit(types: &Types, ty: Ty, members: &[Template]) -> bool
    ensures { IsTrue result ↔ AllHave (λ m t. Fits types.now t m) ty members.now }
{
    for member in members {
        if !template_fits(types, ty, member) {
            return false;
        }
    }
    true
}

#[cycle(template_fits)]
fn fields_fit(types: &Types, declared: &[Field], members: &[Template]) -> bool
    ensures { IsTrue result ↔ FieldsHave (λ m t. Fits types.now t m) declared.now members.now }
{
    if declared.len() != members.len() {
        return false;
    }
    for (index, member) in members.iter().enumerate() {
        if !template_fits(types, declared[index].ty, member) {
            return false;
        }
    }
    true
}

#[cycle(template_fits)]
fn elements_fit(types: &Types, ty: Ty, members: &[Template]) -> bool
    ensures { IsTrue result ↔ ElementsFit is_many (λ m t. Fits types.now t m) ty members.now }
{
    for member in members {
        if !member.is_many() && !template_fits(types, ty, member) {
            return false;
        }
    }
    true
}
