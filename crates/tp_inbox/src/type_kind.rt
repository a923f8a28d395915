//! Kinds of types, without the number of a named one.
ghost use Rattle.std.specs.Prelude.{◌≡◌, MatchOption};
ghost use Rattle.tp_inbox.specs.Noted.{IsShortType, type_of};

use tp_value::types::Ty;

#[derive(Clone, Copy, Debug)]
pub enum TypeKind {
    Integer,
    Boolean,
    Charstring,
    Named,
}

/// The kind of a type, and the number of a named one. `None` if that is 65,536 or more.
pub(crate) fn kind_of(ty: Ty) -> Option<(TypeKind, u16)>
    ensures { MatchOption result (¬ IsShortType ty)
        (λ kept. IsShortType ty × (type_of kept.0 kept.1 ≡ ty)) }
{
    match ty {
        Ty::Integer => Some((TypeKind::Integer, 0)),
        Ty::Boolean => Some((TypeKind::Boolean, 0)),
        Ty::Charstring => Some((TypeKind::Charstring, 0)),
        Ty::Named(number) => match u16::try_from(number) {
            Ok(named) => Some((TypeKind::Named, named)),
            Err(_) => None,
        },
    }
}

pub(crate) fn type_of_kind(kind: TypeKind, named: u16) -> Ty
    ensures { result ≡ type_of kind named }
{
    match kind {
        TypeKind::Integer => Ty::Integer,
        TypeKind::Boolean => Ty::Boolean,
        TypeKind::Charstring => Ty::Charstring,
        TypeKind::Named => Ty::Named(named as u32),
    }
}
