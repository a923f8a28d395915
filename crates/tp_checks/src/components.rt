//! The third pass of the checks: the components of the test case.
#![tactic(auto, using(crate::proofs::CreationFaultsTold::creations_told))]

ghost use Rattle.std.specs.Prelude.{◌≡◌, All, ◌<◌, ◌≤◌, ◌+◌, ◌++◌, ◌∷◌, [], List, ℕ, Contains, IfErr, IfNone, IfOk};
ghost use Rattle.std.specs.Prelude.{IfSome, None, OnErr, OnOk, Some, length, map, option_map};
ghost use Rattle.std.specs.Option.{option_copied};
ghost use Rattle.tp_checks.specs.{Tables.AreDistinct, Tables.IsNumbered, Tables.place_of_name, Additions.StopsCreating};
ghost use Rattle.tp_checks.specs.{Refused.IsRefusedBy, Refused.TellsAt, BrokenSetup.CreationBreaks};
ghost use Rattle.tp_checks.specs.Components.{Adds, AddsAll, HaveDistinctPorts, CanAdd, CanAddAll, HasPorts};
ghost use Rattle.tp_checks.specs.Components.{HasSoundVariables, HasStopped, IsSoundVariable, component_number, created, declared_as};
ghost use Rattle.tp_checks.specs.Components.{creation_of, creations, interface, variable_name, variables};
ghost use Rattle.tp_checks.specs.Additions.{AdditionBreaks, AwaitsInterface, HasRoomForVariables, InterfaceBreaks};
ghost use Rattle.tp_checks.specs.Sorted.{AreComponentsNamed, component_types_in};

use crate::config_faults::create_fault_at;
use crate::fault::{ModuleFault, ModuleRule, refused};
use crate::name_set::NameSet;
use crate::sorted::{Sorted, definition_at};
use crate::unique_names::declare_ports;
use std::alloc::Global;
use tp_config::config::Config;
use tp_config::port_type::{CompId, Role};
use tp_tree::tree::{Creation, SetupAction, SetupStatement, TestCase};

#[derive(Clone, Copy)]
pub(crate) struct DeclaredComponent<'a> {
    pub name: &'a str,
    pub type_name: &'a str,
    pub role: Role,
    pub line: u32,
}

/// Returns the component's number. 11 `Unknown` at its line if its type is unknown, then the
/// refusals of [`Config::create`] at that line. A refusal leaves the configuration as it was.
pub(crate) fn add_component(
    alloc: Global,
    config: &mut Config,
    types: &NameSet,
    component: &DeclaredComponent,
) -> Result<CompId, ModuleFault>
    ensures added { OnOk result (
        Adds types.now (declared_as component.now) config.old config.new) }
    ensures number { IfOk result (λ comp. comp.0 ≡ length config.old.components) }
    ensures err { OnErr result (config.new ≡ config.old) }
    ensures refused { IfErr result (IsRefusedBy (
        CanAdd types.now (declared_as component.now) config.old)) }
    ensures told { length types.now ≡ length config.old.types
        → IfErr result (TellsAt component.now.line
        (AdditionBreaks types.now (declared_as component.now) config.old)) }
{
    let Some(kind) = types.find(component.type_name) else {
        return Err(refused(ModuleRule::Unknown, component.line));
    };
    // There is a type for each name, but `create` requires the proof that this test gives.
    if kind as usize >= config.types().len() {
        return Err(refused(ModuleRule::Unknown, component.line));
    }
    let name = String::from_str(alloc, component.name)?;
    match config.create(name, kind, component.role) {
        Ok(comp) => Ok(comp),
        Err(fault) => Err(create_fault_at(fault, component.line)),
    }
}

#[derive(Clone, Copy)]
pub(crate) struct VariableRules<'a, 'm> {
    pub type_names: &'a NameSet<'m>,
    pub port_names: &'a NameSet<'m>,
    pub most: usize,
}

fn check_variable<'m>(
    variables: &mut NameSet<'m>,
    rules: &VariableRules,
    creation: &'m Creation,
    line: u32,
) -> Result<(), ModuleFault>
    ensures added { OnOk result (variables.new ≡ variables.old ++ variable_name creation.now ∷ []) }
    ensures numbered { IsNumbered variables.new }
    ensures no_port { OnOk result (
        Contains rules.now.port_names.now (variable_name creation.now) → ⊥) }
    ensures known { OnOk result (Contains rules.now.type_names.now creation.now.type_name) }
    ensures same { OnOk result (creation.now.type_name ≡ creation.now.created) }
    ensures few { OnOk result (length variables.new ≤ rules.now.most) }
    ensures refused { IfErr result (IsRefusedBy (IsSoundVariable rules.now.type_names.now
        rules.now.port_names.now variables.old rules.now.most creation.now)) }
    ensures told { (others : List (List ℕ)) → length variables.old < 4294967295
        → IfErr result (TellsAt line (CreationBreaks rules.now.type_names.now
        rules.now.port_names.now others variables.old rules.now.most creation.now)) }
{
    if let Err(fault) = variables.add(creation.name.as_str()) {
        return Err(fault.at(line));
    }
    if rules.port_names.has(creation.name.as_str()) {
        return Err(refused(ModuleRule::Duplicate, line));
    }
    if !rules.type_names.has(creation.type_name.as_str()) {
        return Err(refused(ModuleRule::Unknown, line));
    }
    if creation.type_name.as_str() != creation.created.as_str() {
        return Err(refused(ModuleRule::WrongType, line));
    }
    if variables.len() > rules.most {
        return Err(refused(ModuleRule::Limit, line));
    }
    Ok(())
}

/// Where creating the components stopped: the statements before that, and the fault.
#[derive(Drop)]
pub struct StoppedCreation<'m> {
    pub before: &'m [SetupStatement],
    pub fault: ModuleFault,
}

pub(crate) fn as_creation(setup: &SetupStatement) -> Option<&Creation>
    ensures { option_copied result ≡ creation_of setup.now }
{
    match &setup.action {
        SetupAction::Create(creation) => Some(creation),
        SetupAction::Connect(_, _) | SetupAction::Map(_, _) => None,
    }
}

pub(crate) fn variable_component(variables: &NameSet, name: &str) -> Option<CompId>
    ensures known { IfSome result (λ comp.
        option_map (λ k. k + 1) (place_of_name variables.now name.now) ≡ Some comp.0) }
    ensures absent { IsNumbered variables.now
        → IfNone result (place_of_name variables.now name.now ≡ None) }
{
    let Some(place) = variables.find(name) else {
        return None;
    };
    // No table has this many names, but the sum has to fit in 32 bits.
    if place == u32::MAX {
        return None;
    }
    Some(CompId(place + 1))
}

#[derive(Clone, Copy)]
struct CreationAt<'m> {
    line: u32,
    creation: &'m Creation,
}

fn create<'m>(
    alloc: Global,
    config: &mut Config,
    variables: &mut NameSet<'m>,
    rules: &VariableRules,
    at: CreationAt<'m>,
) -> Result<(), ModuleFault>
    ensures added { OnOk result (
        variables.new ≡ variables.old ++ variable_name at.entry.creation.now ∷ []) }
    ensures numbered { IsNumbered variables.new }
    ensures no_port { OnOk result (
        Contains rules.now.port_names.now (variable_name at.entry.creation.now) → ⊥) }
    ensures known { OnOk result (
        Contains rules.now.type_names.now at.entry.creation.now.type_name) }
    ensures same { OnOk result (at.entry.creation.now.type_name ≡ at.entry.creation.now.created) }
    ensures few { OnOk result (length variables.new ≤ rules.now.most) }
    ensures component { OnOk result (
        Adds rules.now.type_names.now (created at.entry.creation.now) config.old config.new) }
    ensures err { OnErr result (config.new ≡ config.old) }
    ensures refused { IfErr result (IsRefusedBy (IsSoundVariable rules.now.type_names.now
        rules.now.port_names.now variables.old rules.now.most at.entry.creation.now
        × CanAdd rules.now.type_names.now (created at.entry.creation.now) config.old)) }
    ensures told { (others : List (List ℕ))
        → HasRoomForVariables rules.now.type_names.now others variables.old rules.now.most
        config.old → IfErr result (TellsAt at.entry.line (CreationBreaks rules.now.type_names.now
        rules.now.port_names.now others variables.old rules.now.most at.entry.creation.now)) }
{
    check_variable(variables, rules, at.creation, at.line)?;
    let component = DeclaredComponent {
        name: at.creation.name.as_str(),
        type_name: at.creation.type_name.as_str(),
        role: Role::Test,
        line: at.line,
    };
    add_component(alloc, config, rules.type_names, &component)?;
    Ok(())
}

/// Creates the components of the setup statements, in the order of the text. It stops at the first
/// that breaks a rule: 12 `Duplicate`, 11 `Unknown`, 13 `WrongType` or 15 `Limit`, at its line, or
/// 50 `Memory`. The components created before it stay.
pub(crate) fn create_components<'m>(
    alloc: Global,
    config: &mut Config,
    rules: &VariableRules,
    setups: &'m [SetupStatement],
) -> Result<(), StoppedCreation<'m>>
    ensures sound { OnOk result (HasSoundVariables rules.now.type_names.now rules.now.port_names.now
        rules.now.most (creations setups.now)) }
    ensures added { OnOk result (AddsAll rules.now.type_names.now
        (map created (creations setups.now)) config.old config.new) }
    ensures stopped { IfErr result (λ stopped. HasStopped rules.now.type_names.now setups.now
        stopped.before.now config.old config.new) }
    ensures refused { IfErr result (λ stopped. IsRefusedBy (HasSoundVariables
        rules.now.type_names.now rules.now.port_names.now rules.now.most (creations setups.now)
        × CanAddAll rules.now.type_names.now (variables setups.now) config.old) stopped.fault) }
    ensures told { (others : List (List ℕ))
        → HasRoomForVariables rules.now.type_names.now others [] rules.now.most config.old
        → IfErr result (λ stopped. StopsCreating rules.now.type_names.now rules.now.port_names.now
        others rules.now.most setups.now stopped.before.now stopped.fault) }
{
    let mut variables = NameSet::new(alloc);
    for (i, setup) in setups.iter().enumerate() {
        let Some(creation) = as_creation(setup) else {
            continue;
        };
        let line = setup.line;
        let at = CreationAt { line, creation };
        if let Err(fault) = create(alloc, config, &mut variables, rules, at) {
            let before = &setups[..i];
            return Err(StoppedCreation { before, fault });
        }
    }
    Ok(())
}

/// The names of the ports of this component type. 11 `Unknown` at the line if there is no such
/// type, then the refusals of [`declare_ports`].
pub(crate) fn ports_of_type<'m>(
    alloc: Global,
    sorted: &Sorted<'m>,
    name: &str,
    line: u32,
) -> Result<NameSet<'m>, ModuleFault>
    requires { AreComponentsNamed sorted.now }
    ensures ports { IfOk result (HasPorts (component_types_in sorted.now) name.now) }
    ensures distinct { AreDistinct sorted.now.component_names }
    ensures refused { HaveDistinctPorts (component_types_in sorted.now) → IfErr result (IsRefusedBy
        ((ports : List (List ℕ)) × HasPorts (component_types_in sorted.now) name.now ports)) }
{
    let Some(place) = sorted.component_names.find(name) else {
        return Err(refused(ModuleRule::Unknown, line));
    };
    // Each name has its definition, so this one is there.
    let Some(component) = definition_at(&sorted.component_types, place) else {
        return Err(refused(ModuleRule::Unknown, line));
    };
    let mut ports = NameSet::new(alloc);
    declare_ports(&mut ports, component.ports.as_slice())?;
    Ok(ports)
}

/// Adds the test system interface, if the test case has a `system` clause, and returns its number.
/// A refusal of [`add_component`], at the line, leaves the configuration as it was.
pub(crate) fn add_interface(
    alloc: Global,
    config: &mut Config,
    types: &NameSet,
    case: &TestCase,
    line: u32,
) -> Result<Option<CompId>, ModuleFault>
    ensures added { OnOk result (AddsAll types.now (interface case.now) config.old config.new) }
    ensures number { IfOk result (λ found. component_number found
        ≡ option_map (λ _. length config.old.components) case.now.system) }
    ensures refused { IfErr result (IsRefusedBy (
        All (λ x. CanAdd types.now x config.old) (interface case.now))) }
    ensures told { AwaitsInterface types.now case.now config.old
        → IfErr result (TellsAt line (InterfaceBreaks case.now config.old)) }
{
    let Some(system) = &case.system else {
        return Ok(None);
    };
    let component = DeclaredComponent {
        name: "system",
        type_name: system.as_str(),
        role: Role::System,
        line,
    };
    let number = add_component(alloc, config, types, &component)?;
    Ok(Some(number))
}
