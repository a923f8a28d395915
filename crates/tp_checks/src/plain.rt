//! Texts and names of loop variables, in values and in templates.
#![tactic(auto, using(crate::proofs::DefinitionLines::plain))]

ghost use Rattle.std.specs.Prelude.{◌≡◌, IfErr, IfOk, OnOk};
ghost use Rattle.tp_checks.specs.{Named.IsPlace, Named.texts, Refused.TellsAt};
ghost use Rattle.tp_checks.specs.BrokenValues.{ValueNameBreaks, TextBreaks};
ghost use Rattle.tp_value.specs.HasType.{ArePrintable};

use crate::context::Context;
use crate::fault::ModuleFault;
use crate::name::find;
use std::alloc::Global;
use tp_value::shared::Shared;
use tp_value::types::Ty;
use tp_value::typing::are_printable;

/// 13 `WrongType` at the line of the context for another type than `charstring`, and for a
/// character that can't be printed.
pub fn resolve_text(
    alloc: Global,
    context: &Context,
    ty: Ty,
    text: &[u8],
) -> Result<Shared<u8>, ModuleFault>
    ensures text { IfOk result (λ made. made ≡ text.now) }
    ensures charstring { OnOk result (ty ≡ Ty.Charstring) }
    ensures printable { OnOk result (ArePrintable text.now) }
    ensures told { IfErr result (TellsAt context.now.line (TextBreaks ty text.now)) }
{
    context.check_type(ty, Ty::Charstring)?;
    if !are_printable(text) {
        return Err(context.wrong_type());
    }
    let made = Shared::from_slice(alloc, text)?;
    Ok(made)
}

/// The place of a loop variable, which stands for an integer. At the line of the context: 13
/// `WrongType` for a variable, and for another type than `integer`; 11 `Unknown` for any other
/// name.
pub fn resolve_turn(context: &Context, ty: Ty, name: &str) -> Result<usize, ModuleFault>
    ensures place { IfOk result (IsPlace (texts context.now.turns.now) name.now) }
    ensures integer { OnOk result (ty ≡ Ty.Integer) }
    ensures told { IfErr result (TellsAt context.now.line
        (ValueNameBreaks context.now.variables.now (texts context.now.turns.now) ty name.now)) }
{
    let Some(place) = find(context.turns, name) else {
        return Err(context.no_turn(name));
    };
    context.check_type(ty, Ty::Integer)?;
    Ok(place)
}
