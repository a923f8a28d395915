//! Comparison of lists of message types.
ghost use Rattle.std.specs.Prelude.{◌≡◌};
ghost use Rattle.std.specs.Option.{option_copied};
ghost use Rattle.std.specs.List.{list_any};
ghost use Rattle.tp_config.specs.Tests.{are_among};
ghost use Rattle.tp_config.specs.Types.{HaveSame, listed_types, same_type};

use crate::type_list::TypeList;
use tp_value::types::Ty;

fn types_of(list: Option<&TypeList>) -> &[Ty]
    ensures { HaveSame result.now (listed_types (option_copied list.entry)) }
{
    match list {
        Some(list) => list.distinct(),
        None => &[],
    }
}

fn is_among(ty: Ty, these: Option<&TypeList>) -> bool
    ensures { result ≡ list_any (λ other. same_type other ty)
        (listed_types (option_copied these.entry)) }
{
    match these {
        Some(list) => list.has(ty),
        None => false,
    }
}

#[tactic(auto, unfolding(crate::specs::Tests::are_among))]
fn are_all_among(these: &[Ty], those: Option<&TypeList>) -> bool
    ensures { result ≡ are_among these.now (listed_types (option_copied those.entry)) }
{
    these.iter().all(|ty| is_among(*ty, those))
}

/// Looks once at each type of `these`, however often the list has it.
pub(crate) fn are_among(these: Option<&TypeList>, those: Option<&TypeList>) -> bool
    ensures { result
        ≡ are_among (listed_types (option_copied these.entry))
        (listed_types (option_copied those.entry)) }
{
    are_all_among(types_of(these), those)
}
