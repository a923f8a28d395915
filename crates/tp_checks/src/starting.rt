//! The third pass of the checks: the rules for starts.
#![tactic(auto, using(crate::proofs::StartFaultsTold::starts))]

ghost use Rattle.std.specs.Prelude.{◌≡◌, ◌∷◌, ◌++◌, ◌↔◌, [], ◌<◌, ℕ, List, Contains, IfErr, IfNone, IfOk, IfSome};
ghost use Rattle.std.specs.Prelude.{IsSome, IsTrue, None, OnOk, Some, length, map, slice_get};
ghost use Rattle.std.specs.{Option.option_copied, List.AllZip};
ghost use Rattle.tp_checks.specs.{Sorted.AreFunctionsNamed, Sorted.functions_in, Tables.IsNumbered};
ghost use Rattle.tp_checks.specs.Refused.{IsRefusedBy, Tells, TellsAt};
ghost use Rattle.tp_checks.specs.BrokenStarts.{AfterStartsBreaks, ArgumentBreaks, ArgumentsBreak, IsNeverStarted};
ghost use Rattle.tp_checks.specs.BrokenStarts.{StartBreaks, StartBreaksAmong, StartsBreak};
ghost use Rattle.tp_checks.specs.Components.{creations, variables};
ghost use Rattle.tp_checks.specs.Starting.{AreStarts, HasParameterType, IsArgument, IsStartPlace, IsStartOf};
ghost use Rattle.tp_checks.specs.Starting.{component_named, started_names, type_names_of};
ghost use Rattle.tp_tree.specs.declared.tree.Function.{Function};
ghost use Rattle.tp_config.specs.declared.port_type.CompId.{CompId};
ghost use Rattle.tp_checks.specs.declared.starts.{StartedComponent.StartedComponent, Starts.Starts};

use crate::components::{as_creation, variable_component};
use crate::definitions::is_sut;
use crate::fault::{ModuleFault, ModuleRule, refused};
use crate::name_set::{NameFault, NameSet};
use crate::sorted::{Sorted, definition_at};
use crate::starts::{StartedComponent, Starts};
use crate::unique_names::CaseAt;
use std::alloc::Global;
use tp_common::memory::Memory;
use tp_config::port_type::CompId;
use tp_tree::tree::{ComponentName, ComponentStart, Function, Parameter, SetupStatement, TestCase};

fn find_argument(variables: &NameSet, argument: &ComponentName) -> Option<CompId>
    ensures known { IfSome result (IsArgument variables.now argument.now) }
    ensures absent { IsNumbered variables.now
        → IfNone result (component_named variables.now argument.now ≡ None) }
{
    match argument {
        ComponentName::Mtc | ComponentName::SelfComponent => Some(CompId(0)),
        ComponentName::Named(name) => variable_component(variables, name.as_str()),
    }
}

fn type_name_at<'m>(types: &[&'m str], number: u32) -> Option<&'m str>
    ensures { option_copied result ≡ slice_get (map (λ t. t.now) types.now) number }
{
    match types.get(number as usize) {
        Some(name) => Some(*name),
        None => None,
    }
}

fn is_of_type(types: &[&str], comp: CompId, name: &str) -> bool
    ensures { IsTrue result ↔ (slice_get (map (λ t. t.now) types.now) comp.0 ≡ Some name.now) }
{
    match type_name_at(types, comp.0) {
        Some(other) => other == name,
        None => false,
    }
}

fn check_argument(
    variables: &NameSet,
    types: &[&str],
    parameter: &Parameter,
    argument: &ComponentName,
    line: u32,
) -> Result<CompId, ModuleFault>
    ensures known { IfOk result (IsArgument variables.now argument.now) }
    ensures fits { IfOk result (HasParameterType (map (λ t. t.now) types.now) parameter.now) }
    ensures refused { IsNumbered variables.now → IfErr result (IsRefusedBy ((comp : CompId)
        × IsArgument variables.now argument.now comp
        × HasParameterType (map (λ t. t.now) types.now) parameter.now comp)) }
    ensures told { IsNumbered variables.now
        → IfErr result (TellsAt line (ArgumentBreaks variables.now
        (map (λ t. t.now) types.now) parameter.now argument.now)) }
{
    let Some(comp) = find_argument(variables, argument) else {
        return Err(refused(ModuleRule::Unknown, line));
    };
    if !is_of_type(types, comp, parameter.type_name.as_str()) {
        return Err(refused(ModuleRule::WrongType, line));
    }
    Ok(comp)
}

fn check_arguments(
    alloc: Global,
    variables: &NameSet,
    types: &[&str],
    parameters: &[Parameter],
    start: &ComponentStart,
) -> Result<Vec<CompId>, ModuleFault>
    ensures known { IfOk result (λ made.
        AllZip (IsArgument variables.now) start.now.arguments made.items) }
    ensures fits { IfOk result (λ made.
        AllZip (HasParameterType (map (λ t. t.now) types.now)) parameters.now made.items) }
    ensures refused { IsNumbered variables.now → IfErr result (IsRefusedBy ((made : List CompId)
        × AllZip (IsArgument variables.now) start.now.arguments made
        × AllZip (HasParameterType (map (λ t. t.now) types.now)) parameters.now made)) }
    ensures told { IsNumbered variables.now
        → IfErr result (TellsAt start.now.line (ArgumentsBreak variables.now
        (map (λ t. t.now) types.now) parameters.now start.now.arguments)) }
{
    let arguments = start.arguments.as_slice();
    if arguments.len() != parameters.len() {
        return Err(refused(ModuleRule::WrongType, start.line));
    }
    let mut made = Vec::new(alloc);
    for i in 0..arguments.len() {
        let comp = check_argument(variables, types, &parameters[i], &arguments[i], start.line)?;
        made.push(comp)?;
    }
    Ok(made)
}

fn check_start(
    alloc: Global,
    sorted: &Sorted,
    variables: &NameSet,
    types: &[&str],
    start: &ComponentStart,
) -> Result<StartedComponent, ModuleFault>
    requires { AreFunctionsNamed sorted.now }
    ensures start { IfOk result (IsStartOf (functions_in sorted.now) variables.now
        (map (λ t. t.now) types.now) start.now) }
    ensures refused { IsNumbered variables.now
        → IfErr result (IsRefusedBy ((made : StartedComponent)
        × IsStartOf (functions_in sorted.now) variables.now
        (map (λ t. t.now) types.now) start.now made)) }
    ensures told { (started : List (List ℕ)) → IsNumbered variables.now
        → (Contains started start.now.component → ⊥)
        → IfErr result (TellsAt start.now.line (StartBreaks (functions_in sorted.now)
        variables.now (map (λ t. t.now) types.now) started start.now)) }
{
    let line = start.line;
    let Some(comp) = variable_component(variables, start.component.as_str()) else {
        return Err(refused(ModuleRule::Unknown, line));
    };
    let Some(place) = sorted.function_names.find(start.function.as_str()) else {
        return Err(refused(ModuleRule::Unknown, line));
    };
    // Each name has its definition, so this one is there.
    let Some(function) = definition_at(&sorted.functions, place) else {
        return Err(refused(ModuleRule::Unknown, line));
    };
    if is_sut(start.function.as_str()) {
        return Err(refused(ModuleRule::NotInSut, line));
    }
    if !is_of_type(types, comp, function.runs_on.as_str()) {
        return Err(refused(ModuleRule::WrongType, line));
    }
    let arguments = check_arguments(
        alloc,
        variables,
        types,
        function.parameters.as_slice(),
        start,
    )?;
    Ok(StartedComponent {
        function: place,
        arguments,
    })
}

fn component_types(alloc: Global, case: &TestCase) -> Result<Vec<&str>, ModuleFault>
    ensures types { IfOk result (λ made. map (λ t. t.now) made.items ≡ type_names_of case.now) }
    ensures refused { IfErr result (λ fault. fault ≡ ModuleFault.Memory (record {})) }
{
    let mut types = Vec::new(alloc);
    // The MTC is component 0; the created ones follow in the order of the text.
    types.push(case.runs_on.as_str())?;
    for setup in case.setups.as_slice() {
        let Some(creation) = as_creation(setup) else {
            continue;
        };
        types.push(creation.type_name.as_str())?;
    }
    Ok(types)
}

fn add_started<'m>(
    variables: &NameSet,
    started: &mut NameSet<'m>,
    start: &'m ComponentStart,
) -> Result<(), ModuleFault>
    ensures added { OnOk result (started.new ≡ started.old ++ start.now.component ∷ []) }
    ensures numbered { OnOk result (IsNumbered started.new) }
    ensures told { (functions : List Function) → (types : List (List ℕ)) → IfErr result (
        TellsAt start.now.line (StartBreaks functions variables.now types started.old start.now)) }
    ensures refused { IfErr result (IsRefusedBy (Contains variables.now start.now.component
        × IsNumbered (started.old ++ start.now.component ∷ []))) }
{
    if !variables.has(start.component.as_str()) {
        return Err(refused(ModuleRule::Unknown, start.line));
    }
    match started.add(start.component.as_str()) {
        Ok(()) => Ok(()),
        Err(NameFault::Duplicate) => Err(refused(ModuleRule::NotStarted, start.line)),
        Err(NameFault::Limit) => Err(refused(ModuleRule::Limit, start.line)),
        Err(NameFault::Memory) => Err(ModuleFault::Memory(Memory)),
    }
}

fn find_starts(
    alloc: Global,
    started: &NameSet,
    setups: &[SetupStatement],
) -> Result<Vec<u32>, ModuleFault>
    ensures places { IfOk result (λ places.
        AllZip (IsStartPlace started.now) (variables setups.now) places.items) }
    ensures refused { IfErr result (IsRefusedBy ((places : List ℕ)
        × AllZip (IsStartPlace started.now) (variables setups.now) places)) }
    ensures told { IfErr result (Tells (λ rule line. (rule ≡ ModuleRule.NotStarted)
        × IsNeverStarted started.now setups.now line)) }
{
    let mut places = Vec::new(alloc);
    for setup in setups {
        let Some(creation) = as_creation(setup) else {
            continue;
        };
        let Some(place) = started.find(creation.name.as_str()) else {
            return Err(refused(ModuleRule::NotStarted, setup.line));
        };
        places.push(place)?;
    }
    Ok(places)
}

fn check_done(case: &TestCase, places: &[u32], line: u32) -> Result<(), ModuleFault>
    ensures done { OnOk result (0 < length places.now → IsSome case.now.all_done) }
    ensures refused { IfErr result (
        IsRefusedBy (0 < length places.now → IsSome case.now.all_done)) }
    ensures told { IfErr result (λ fault. (fault ≡ ModuleFault.Refused ModuleRule.NoDone line)
        × (0 < length places.now) × (case.now.all_done ≡ None)) }
{
    if case.all_done.is_some() || places.is_empty() {
        return Ok(());
    }
    Err(refused(ModuleRule::NoDone, line))
}

fn check_each<'m>(
    alloc: Global,
    sorted: &Sorted,
    variables: &NameSet,
    types: &[&str],
    starts: &'m [ComponentStart],
) -> Result<(NameSet<'m>, Vec<StartedComponent>), ModuleFault>
    requires { AreFunctionsNamed sorted.now }
    ensures started { IfOk result (λ r. AllZip
        (IsStartOf (functions_in sorted.now) variables.now (map (λ t. t.now) types.now))
        starts.now r.1.items) }
    ensures names { IfOk result (λ r. r.0 ≡ started_names starts.now) }
    ensures numbered { IfOk result (λ r. IsNumbered r.0) }
    ensures refused { IsNumbered variables.now
        → IfErr result (IsRefusedBy ((made : List StartedComponent)
        × AllZip (IsStartOf (functions_in sorted.now) variables.now (map (λ t. t.now) types.now))
        starts.now made
        × IsNumbered (started_names starts.now))) }
    ensures told { IsNumbered variables.now
        → IfErr result (Tells (StartBreaksAmong (functions_in sorted.now) variables.now
        (map (λ t. t.now) types.now) starts.now)) }
{
    let mut names = NameSet::new(alloc);
    let mut started = Vec::new(alloc);
    for start in starts {
        add_started(variables, &mut names, start)?;
        let one = check_start(alloc, sorted, variables, types, start)?;
        started.push(one)?;
    }
    Ok((names, started))
}

fn start_all<'m>(
    alloc: Global,
    sorted: &Sorted,
    case: &'m TestCase,
    names: &NameSet,
) -> Result<(NameSet<'m>, Vec<StartedComponent>), ModuleFault>
    requires { AreFunctionsNamed sorted.now }
    ensures started { IfOk result (λ r. AllZip
        (IsStartOf (functions_in sorted.now) names.now (type_names_of case.now))
        case.now.starts r.1.items) }
    ensures names { IfOk result (λ r. r.0 ≡ started_names case.now.starts) }
    ensures numbered { IfOk result (λ r. IsNumbered r.0) }
    ensures refused { IsNumbered names.now
        → IfErr result (IsRefusedBy ((made : List StartedComponent)
        × AllZip (IsStartOf (functions_in sorted.now) names.now (type_names_of case.now))
        case.now.starts made
        × IsNumbered (started_names case.now.starts))) }
    ensures told { IsNumbered names.now
        → IfErr result (Tells (StartBreaksAmong (functions_in sorted.now) names.now
        (type_names_of case.now) case.now.starts)) }
{
    let types = component_types(alloc, case)?;
    check_each(alloc, sorted, names, &types, case.starts.as_slice())
}

fn place_starts(alloc: Global, started: &NameSet, case: CaseAt<'_>) -> Result<Vec<u32>, ModuleFault>
    ensures places { IfOk result (λ places. AllZip (IsStartPlace started.now)
        (variables case.entry.case.now.setups) places.items) }
    ensures done { OnOk result (0 < length (creations case.entry.case.now.setups)
        → IsSome case.entry.case.now.all_done) }
    ensures refused { IfErr result (IsRefusedBy (
        ((places : List ℕ)
        × AllZip (IsStartPlace started.now) (variables case.entry.case.now.setups) places)
        × (0 < length (creations case.entry.case.now.setups)
        → IsSome case.entry.case.now.all_done))) }
    ensures told { IfErr result (Tells (
        AfterStartsBreaks started.now case.entry.case.now case.entry.line)) }
{
    let places = find_starts(alloc, started, case.case.setups.as_slice())?;
    check_done(case.case, &places, case.line)?;
    Ok(places)
}

/// The starts of the third pass. The first start in the order of the text that breaks a rule is
/// refused at its line, in this order: its component, 11 `Unknown`, or 18 `NotStarted` if it was
/// started before; its function, 11, 16 `NotInSut` or 13 `WrongType`; its arguments, each 11 or 13.
/// Then 18 at the line of the first `var` whose component isn't started, and 17 `NoDone` at the
/// line of a test case that lacks `all component.done` at its end.
pub fn check_starts(
    alloc: Global,
    sorted: &Sorted,
    case: CaseAt<'_>,
    names: &NameSet,
) -> Result<Starts, ModuleFault>
    requires named { AreFunctionsNamed sorted.now }
    requires variables { names.now ≡ variables case.case.now.setups }
    ensures starts { IfOk result (AreStarts (functions_in sorted.now) case.entry.case.now) }
    ensures refused { IsNumbered names.now → IfErr result (IsRefusedBy ((starts : Starts)
        × AreStarts (functions_in sorted.now) case.entry.case.now starts)) }
    ensures told { IsNumbered names.now → IfErr result (Tells (
        StartsBreak (functions_in sorted.now) case.entry.case.now case.entry.line)) }
{
    let (started, starts) = start_all(alloc, sorted, case.case, names)?;
    let places = place_starts(alloc, &started, case)?;
    Ok(Starts { starts, places })
}
