//! The second pass of the checks: everything that definitions name is defined.
#![tactic(auto, using(crate::proofs::DefinitionFaultsTold::definitions))]

ghost use Rattle.std.specs.Prelude.{◌≡◌, ◌≤◌, ◌↔◌, ℕ, All, Contains, IfErr, IfOk, IfSome, IsTrue, List, OnOk, is_some};
ghost use Rattle.std.specs.{Prelude.length, List.AllZip, List.list_all};
ghost use Rattle.tp_tree.specs.declared.tree.Defined.{Defined};
ghost use Rattle.tp_checks.specs.{Definitions.declared_ports, Refused.IsRefusedBy, Refused.Tells, Refused.TellsAt};
ghost use Rattle.tp_checks.specs.Rules.{AreComponentTypesKnown, CanPlaySystem, HasUniqueNames, IsComponentFault};
ghost use Rattle.tp_checks.specs.Rules.{IsSoundFunction, NamesType, has_known_messages, has_known_parameters};
ghost use Rattle.tp_checks.specs.{Rules.has_known_ports, Rules.sut, Tables.place_of_name, Resolved.IsNamedType};
ghost use Rattle.tp_checks.specs.Sorted.{AreComponentTypesIn, AreSorted, AreSound, ArePortsNamed, HasSoundDefinitions};
ghost use Rattle.tp_checks.specs.{Sorted.IsSortedSound, Sorted.IsSoundIn, Sorted.types_in, Defining.IsDefined};
ghost use Rattle.tp_checks.specs.BrokenDefinitions.{DefinitionBreaks, DefinitionsBreak, DefinitionsOfBreak};

use crate::fault::{ModuleFault, ModuleRule, refused};
use crate::name_set::NameSet;
use crate::ports::{has_room, make_components, make_port_types};
use crate::resolving::{are_types, is_known_type, make_types};
use crate::sorted::{Sorted, sort};
use crate::unique_names::CaseAt;
use std::alloc::Global;
use tp_config::port_type::CompType;
use tp_tree::name::Name;
use tp_tree::tree::{
    ComponentType, Defined, Definition, Direction, FieldType, Function, Module, Parameter,
    PortDeclaration, TestCase,
};
use tp_value::types::Types;

#[derive(Drop)]
pub struct Definitions<'m> {
    pub case: CaseAt<'m>,
    pub sorted: Sorted<'m>,
    /// The record and record-of types, under their own names.
    pub types: Types,
    pub component_types: Vec<CompType>,
}

fn are_fields_known(types: &NameSet, fields: &[FieldType]) -> bool
    ensures { IsTrue result ↔ All (λ f. NamesType types.now f.type_name) fields.now }
{
    fields
        .iter()
        .all(|field| is_known_type(types, &field.type_name))
}

fn are_messages_known(types: &NameSet, directions: &[Direction]) -> bool
    ensures { result ≡ has_known_messages types.now directions.now }
{
    directions
        .iter()
        .all(|direction| are_types(types, direction.types.as_slice()))
}

fn are_ports_known(port_types: &NameSet, ports: &[PortDeclaration]) -> bool
    ensures { result ≡ list_all
        (λ p. is_some (place_of_name port_types.now p.type_name)) ports.now }
{
    ports
        .iter()
        .all(|port| port_types.has(port.type_name.as_str()))
}

fn are_parameters_known(components: &NameSet, parameters: &[Parameter]) -> bool
    ensures { result ≡ list_all
        (λ p. is_some (place_of_name components.now p.type_name)) parameters.now }
{
    parameters
        .iter()
        .all(|parameter| components.has(parameter.type_name.as_str()))
}

fn are_ports_few(ports: &[PortDeclaration]) -> bool
    ensures { IsTrue result ↔ (length (declared_ports ports.now) ≤ 64) }
{
    let mut count = 0;
    for port in ports {
        // Checked at each declaration, so that the sum can't overflow.
        if !has_room(count, port.names.len()) {
            return false;
        }
        count += port.names.len();
    }
    true
}

fn known(is_known: bool, line: u32) -> Result<(), ModuleFault>
    ensures known { OnOk result (IsTrue is_known) }
    ensures refused { IfErr result (λ _. ¬ IsTrue is_known) }
    ensures told { IfErr result (λ fault. fault ≡ ModuleFault.Refused ModuleRule.Unknown line) }
{
    if is_known {
        Ok(())
    } else {
        Err(refused(ModuleRule::Unknown, line))
    }
}

fn check_component(
    port_types: &NameSet,
    component: &ComponentType,
    line: u32,
) -> Result<(), ModuleFault>
    ensures known { OnOk result (IsTrue (has_known_ports port_types.now component.now)) }
    ensures few { OnOk result (length (declared_ports component.now.ports) ≤ 64) }
    ensures refused { IfErr result (IsComponentFault port_types.now component.now line) }
{
    if !are_ports_known(port_types, component.ports.as_slice()) {
        return Err(refused(ModuleRule::Unknown, line));
    }
    if !are_ports_few(component.ports.as_slice()) {
        return Err(refused(ModuleRule::Limit, line));
    }
    Ok(())
}

fn plays_system(system: &Option<Name>, function: &Function) -> bool
    ensures { IsTrue result ↔ CanPlaySystem system.now function.now }
{
    let Some(system) = system else {
        return false;
    };
    function.parameters.is_empty() && function.runs_on.as_str() == system.as_str()
}

fn check_function(
    components: &NameSet,
    system: &Option<Name>,
    function: &Function,
    line: u32,
) -> Result<(), ModuleFault>
    ensures runs_on { OnOk result (Contains components.now function.now.runs_on) }
    ensures parameters { OnOk result (IsTrue (has_known_parameters components.now function.now)) }
    ensures sut { OnOk result (function.now.name ≡ sut → CanPlaySystem system.now function.now) }
    ensures refused { IfErr result (λ _. ¬ IsSoundFunction components.now system.now function.now) }
    ensures told { (types ports : List (List ℕ)) → IfErr result (TellsAt line
        (DefinitionBreaks types ports components.now system.now (Defined.Function function.now))) }
{
    known(components.has(function.runs_on.as_str()), line)?;
    known(
        are_parameters_known(components, function.parameters.as_slice()),
        line,
    )?;
    if is_sut(function.name.as_str()) && !plays_system(system, function) {
        return Err(refused(ModuleRule::NotInSut, line));
    }
    Ok(())
}

pub fn is_sut(name: &str) -> bool
    ensures { IsTrue result ↔ (name.now ≡ sut) }
{
    name == "sut"
}

fn check_case(components: &NameSet, case: &TestCase, line: u32) -> Result<(), ModuleFault>
    ensures runs_on { OnOk result (Contains components.now case.now.runs_on) }
    ensures system { OnOk result (IfSome case.now.system (λ s. Contains components.now s)) }
    ensures refused { IfErr result (λ _.
        ¬ AreComponentTypesKnown components.now (Defined.TestCase case.now)) }
    ensures told { IfErr result (λ fault. fault ≡ ModuleFault.Refused ModuleRule.Unknown line) }
{
    known(components.has(case.runs_on.as_str()), line)?;
    match &case.system {
        None => Ok(()),
        Some(system) => known(components.has(system.as_str()), line),
    }
}

fn check_definition(
    sorted: &Sorted,
    system: &Option<Name>,
    definition: &Definition,
) -> Result<(), ModuleFault>
    ensures sound { OnOk result (IsSoundIn sorted.now system.now definition.now) }
    ensures refused { IfErr result (λ _. ¬ IsSoundIn sorted.now system.now definition.now) }
    ensures told { IfErr result (TellsAt definition.now.line (DefinitionBreaks sorted.now.type_names
        sorted.now.port_names sorted.now.component_names system.now definition.now.defined)) }
{
    let line = definition.line;
    let types = &sorted.type_names;
    let components = &sorted.component_names;
    match &definition.defined {
        Defined::Record(record) => known(are_fields_known(types, record.fields.as_slice()), line),
        Defined::List(list) => known(is_known_type(types, &list.element), line),
        Defined::Port(port) => known(are_messages_known(types, port.directions.as_slice()), line),
        Defined::Component(component) => {
            check_component(&sorted.port_names, component, line)?;
            Ok(())
        }
        Defined::Function(function) => {
            check_function(components, system, function, line)?;
            Ok(())
        }
        Defined::TestCase(case) => check_case(components, case, line),
    }
}

fn check_definitions(
    sorted: &Sorted,
    system: &Option<Name>,
    definitions: &[Definition],
) -> Result<(), ModuleFault>
    ensures sound { OnOk result (AreSound sorted.now system.now definitions.now) }
    ensures refused { IfErr result (λ _. ¬ AreSound sorted.now system.now definitions.now) }
    ensures told { IfErr result (Tells (DefinitionsBreak sorted.now.type_names
        sorted.now.port_names sorted.now.component_names system.now definitions.now)) }
{
    for definition in definitions {
        check_definition(sorted, system, definition)?;
    }
    Ok(())
}

fn sort_sound<'m>(
    alloc: Global,
    parsed: &'m Module,
    case: &TestCase,
) -> Result<Sorted<'m>, ModuleFault>
    ensures sorted { IfOk result (AreSorted parsed.now) }
    ensures sound { OnOk result (HasSoundDefinitions parsed.now case.now) }
    ensures refused { IfErr result (
        IsRefusedBy (HasUniqueNames parsed.now × HasSoundDefinitions parsed.now case.now)) }
    ensures told { HasUniqueNames parsed.now
        → IfErr result (Tells (DefinitionsOfBreak parsed.now case.now)) }
{
    let sorted = sort(alloc, parsed)?;
    check_definitions(&sorted, &case.system, parsed.definitions.as_slice())?;
    Ok(sorted)
}

#[derive(Drop)]
struct MadeTypes {
    types: Types,
    component_types: Vec<CompType>,
}

fn make_component_types(alloc: Global, sorted: &Sorted) -> Result<Vec<CompType>, ModuleFault>
    requires { ArePortsNamed sorted.now }
    ensures components { IfOk result (λ r. AreComponentTypesIn sorted.now r.items) }
    ensures few { IfOk result (λ r. All (λ t. length t.ports.entries ≤ 64) r.items) }
    ensures refused { IfErr result (IsRefusedBy (IsSortedSound sorted.now)) }
{
    let made = make_port_types(alloc, &sorted.type_names, &sorted.port_types)?;
    make_components(alloc, sorted, &made)
}

fn make(alloc: Global, sorted: &Sorted) -> Result<MadeTypes, ModuleFault>
    requires { ArePortsNamed sorted.now }
    ensures types { IfOk result (λ made.
        AllZip (IsNamedType sorted.now.type_names) (types_in sorted.now) made.types) }
    ensures components { IfOk result (λ made.
        AreComponentTypesIn sorted.now made.component_types.items) }
    ensures few { IfOk result (λ made.
        All (λ t. length t.ports.entries ≤ 64) made.component_types.items) }
    ensures refused { IfErr result (IsRefusedBy (IsSortedSound sorted.now)) }
{
    let types = make_types(alloc, &sorted.type_names, &sorted.types)?;
    let component_types = make_component_types(alloc, sorted)?;
    Ok(MadeTypes {
        types,
        component_types,
    })
}

/// The second pass: resolves a module's definitions. It returns the first fault in the order of the
/// text, at the line of the first token of its definition, and within a definition in this order:
/// 11 `Unknown` for a type that isn't there; 15 `Limit` for more than 64 ports; 16 `NotInSut` if
/// the function `sut` has parameters, or doesn't run on the type that a `system` clause names.
pub fn define<'m>(
    alloc: Global,
    parsed: &'m Module,
    case: CaseAt<'m>,
) -> Result<Definitions<'m>, ModuleFault>
    ensures defined { IfOk result (IsDefined parsed.now) }
    ensures sound { OnOk result (HasSoundDefinitions parsed.now case.entry.case.now) }
    ensures case { IfOk result (λ d. d.case.case.now ≡ case.entry.case.now) }
    ensures begins { IfOk result (λ d. d.case.line ≡ case.entry.line) }
    ensures refused { IfErr result (IsRefusedBy (HasUniqueNames parsed.now
        × HasSoundDefinitions parsed.now case.entry.case.now)) }
    ensures told { HasUniqueNames parsed.now
        → IfErr result (Tells (DefinitionsOfBreak parsed.now case.entry.case.now)) }
{
    let sorted = sort_sound(alloc, parsed, case.case)?;
    let MadeTypes {
        types,
        component_types,
    } = make(alloc, &sorted)?;
    Ok(Definitions {
        case,
        sorted,
        types,
        component_types,
    })
}
