//! The first three passes of the checks.
ghost use Rattle.std.specs.Prelude.{◌≡◌, ◌≤◌, ◌∷◌, [], All, IfErr, IfOk, OnOk, length, map};
ghost use Rattle.tp_config.specs.Shape.{ports_of};
ghost use Rattle.tp_checks.specs.{Refused.IsRefusedBy, Refused.Tells, Broken.DeclarationsBreak, Broken.ThirdPassBreaks};
ghost use Rattle.tp_checks.specs.{Rules.AreComponentTypesKnown, Rules.HasUniqueNames, Components.variables};
ghost use Rattle.tp_checks.specs.Configuring.{AreOwnPorts, AreSoundVariables, CanSetUp, IsConfigBySetup};
ghost use Rattle.tp_checks.specs.{Defining.IsDefined, Definitions.BeginsAmong, Definitions.test_cases};
ghost use Rattle.tp_checks.specs.{Prepared.IsPreparedOf, Prepared.IsWellDeclared, Starting.AreStarts};
ghost use Rattle.tp_checks.specs.Sorted.{AreComponentsNamed, AreFunctionsNamed, HasSoundDefinitions};
ghost use Rattle.tp_checks.specs.Sorted.{component_types_in, functions_in, in_sorted};
ghost use Rattle.tp_tree.specs.declared.tree.Defined.{Defined};
ghost use Rattle.tp_checks.specs.declared.starts.Starts.{Starts};

use crate::definitions::{Definitions, define};
use crate::fault::ModuleFault;
use crate::prepared::Prepared;
use crate::setup::{SetupResult, set_up};
use crate::sorted::Sorted;
use crate::starting::check_starts;
use crate::starts::Starts;
use crate::unique_names::{CaseAt, check_names};
use std::alloc::Global;
use tp_config::port_type::CompType;
use tp_tree::tree::Module;

fn find_definitions(alloc: Global, parsed: &Module) -> Result<Definitions<'_>, ModuleFault>
    ensures names { OnOk result (HasUniqueNames parsed.now) }
    ensures case { IfOk result (λ d. test_cases parsed.now ≡ d.case.case.now ∷ []) }
    ensures sound { IfOk result (λ d. HasSoundDefinitions parsed.now d.case.case.now) }
    ensures defined { IfOk result (IsDefined parsed.now) }
    ensures begins { IfOk result (λ d.
        BeginsAmong parsed.now.definitions d.case.case.now d.case.line) }
    ensures refused { IfErr result (IsRefusedBy (IsWellDeclared parsed.now)) }
    ensures told { IfErr result (Tells (DeclarationsBreak parsed.now)) }
{
    let case = check_names(alloc, parsed)?;
    define(alloc, parsed, case)
}

#[derive(Drop)]
struct Configured<'m> {
    made: SetupResult<'m>,
    starts: Starts,
}

fn set_up_and_start<'m>(
    alloc: Global,
    sorted: &Sorted<'m>,
    case: CaseAt<'m>,
    components: Vec<CompType>,
) -> Result<Configured<'m>, ModuleFault>
    requires components { AreComponentsNamed sorted.now }
    requires functions { AreFunctionsNamed sorted.now }
    requires few { All (λ t. length t.ports.entries ≤ 64) components.items }
    ensures config { IfOk result (λ c. IsConfigBySetup sorted.now.component_names
        (map ports_of components.items) case.entry.case.now c.made.config) }
    ensures variables { IfOk result (λ c. c.made.variables ≡ variables case.entry.case.now.setups) }
    ensures sound { OnOk result (in_sorted AreSoundVariables sorted.now case.entry.case.now) }
    ensures starts { IfOk result (λ c.
        AreStarts (functions_in sorted.now) case.entry.case.now c.starts) }
    ensures refused { AreOwnPorts (component_types_in sorted.now) (map ports_of components.items)
        → IfErr result (IsRefusedBy
        (in_sorted CanSetUp sorted.now (map ports_of components.items) case.entry.case.now
        × ((starts : Starts) × AreStarts (functions_in sorted.now) case.entry.case.now starts))) }
    ensures told { AreOwnPorts (component_types_in sorted.now) (map ports_of components.items)
        → AreComponentTypesKnown sorted.now.component_names (Defined.TestCase case.entry.case.now)
        → IfErr result (Tells (in_sorted ThirdPassBreaks sorted.now (map ports_of components.items)
        (functions_in sorted.now) case.entry.case.now case.entry.line)) }
{
    let made = set_up(alloc, sorted, case, components)?;
    let starts = check_starts(alloc, sorted, case, &made.variables)?;
    Ok(Configured { made, starts })
}

/// The first three passes: names, definitions, setup and starts. It returns the first fault of the
/// first pass that finds one, with its line: see [`check_names`], [`define`], [`set_up`] and
/// [`check_starts`].
pub fn prepare(alloc: Global, parsed: &Module) -> Result<Prepared<'_>, ModuleFault>
    ensures rules { OnOk result (IsWellDeclared parsed.now) }
    ensures made { IfOk result (IsPreparedOf parsed.now) }
    ensures refused { IfErr result (IsRefusedBy (IsWellDeclared parsed.now)) }
    ensures told { IfErr result (Tells (DeclarationsBreak parsed.now)) }
{
    let Definitions {
        case,
        sorted,
        types,
        component_types,
    } = find_definitions(alloc, parsed)?;
    let configured = set_up_and_start(alloc, &sorted, case, component_types)?;
    Ok(Prepared {
        case,
        sorted,
        types,
        config: configured.made.config,
        variables: configured.made.variables,
        starts: configured.starts,
    })
}
