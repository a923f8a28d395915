//! The third pass of the checks: the connections and mappings of the test case.
#![tactic(auto, using(crate::proofs::PairFaultsTold::pairs))]

ghost use Rattle.std.specs.Prelude.{◌≡◌, ◌≤◌, ◌++◌, ◌∷◌, [], codes, All, IfErr, IfNone, IfOk, IfSome, None, OnOk};
ghost use Rattle.std.specs.{Prelude.length, Prelude.map, Option.option_map, Option.option_to_list};
ghost use Rattle.tp_checks.specs.{Refused.IsRefusedBy, Refused.Tells, Refused.TellsAt, Tables.IsNumbered};
ghost use Rattle.tp_checks.specs.{Additions.StopsCreating, BrokenSetup.PairsBreak, BrokenSetup.SetupBreaks};
ghost use Rattle.tp_checks.specs.BrokenSetup.{CaseSetupBreaks, ConnectBreaks, EndsBreak, MapBreaks, PairBreaks};
ghost use Rattle.tp_checks.specs.Rules.{AreComponentTypesKnown};
ghost use Rattle.tp_checks.specs.Sorted.{AreComponentsNamed, component_types_in, in_sorted};
ghost use Rattle.tp_checks.specs.Components.{AddsAll, HasSoundVariables, created, creation_of, creations};
ghost use Rattle.tp_checks.specs.Components.{main_component, component_number, variable_name, variables};
ghost use Rattle.tp_checks.specs.Configuring.{AreOwnPorts, AreSoundVariables, CanSetUp, CanSetUpBeside, Connects};
ghost use Rattle.tp_checks.specs.Configuring.{HasFirst, HaveOwnPorts, HavePorts, IsPortOfEnd, IsConfigBySetup, IsStep};
ghost use Rattle.tp_checks.specs.Configuring.{Makes, Maps, end_component_number, most_variables};
ghost use Rattle.tp_config.specs.declared.port_type.PortRef.{PortRef};
ghost use Rattle.tp_config.specs.{Setup.Setup, Setup.empty_setup, Shape.ports_of};
ghost use Rattle.tp_tree.specs.declared.tree.Defined.{Defined};

use crate::components::{
    DeclaredComponent, StoppedCreation, VariableRules, add_component, add_interface,
    create_components, ports_of_type, variable_component,
};
use crate::config_faults::{connect_fault_at, map_fault_at};
use crate::fault::{ModuleFault, ModuleRule, refused};
use crate::name_set::NameSet;
use crate::sorted::Sorted;
use crate::unique_names::CaseAt;
use std::alloc::Global;
use tp_config::config::Config;
use tp_config::port_type::{COMPONENT_LIMIT, CompId, CompType, PortRef, Role};
use tp_tree::tree::{EndComponent, PairEnd, SetupAction, SetupStatement, TestCase};

fn find_end_component(
    known: &NameSet,
    system: Option<CompId>,
    component: &EndComponent,
) -> Option<CompId>
    ensures known { IfSome result (λ comp.
        end_component_number known.now (component_number system) component.now ≡ Some comp.0) }
    ensures absent { IsNumbered known.now → IfNone result (
        end_component_number known.now (component_number system) component.now ≡ None) }
{
    match component {
        EndComponent::Mtc | EndComponent::SelfComponent => Some(CompId(0)),
        EndComponent::System => system,
        EndComponent::Named(name) => variable_component(known, name.as_str()),
    }
}

fn find_end(
    config: &Config,
    known: &NameSet,
    system: Option<CompId>,
    end: &PairEnd,
    line: u32,
) -> Result<PortRef, ModuleFault>
    ensures end { IfOk result (IsPortOfEnd config.now known.now (component_number system) end.now) }
    ensures refused { IsNumbered known.now → IfErr result (IsRefusedBy ((p : PortRef)
        × IsPortOfEnd config.now known.now (component_number system) end.now p)) }
    ensures told { IfErr result (λ fault. fault ≡ ModuleFault.Refused ModuleRule.Unknown line) }
{
    let Some(comp) = find_end_component(known, system, &end.component) else {
        return Err(refused(ModuleRule::Unknown, line));
    };
    let Some(port) = config.port_of(comp, end.port.as_str()) else {
        return Err(refused(ModuleRule::Unknown, line));
    };
    Ok(port)
}

fn find_ends(
    config: &Config,
    known: &NameSet,
    system: Option<CompId>,
    ends: (&PairEnd, &PairEnd),
    line: u32,
) -> Result<(PortRef, PortRef), ModuleFault>
    ensures first { IfOk result (λ ports.
        IsPortOfEnd config.now known.now (component_number system) ends.entry.0.now ports.0) }
    ensures second { IfOk result (λ ports.
        IsPortOfEnd config.now known.now (component_number system) ends.entry.1.now ports.1) }
    ensures refused { IsNumbered known.now → IfErr result (IsRefusedBy (
        (p : PortRef) × (q : PortRef)
        × IsPortOfEnd config.now known.now (component_number system) ends.entry.0.now p
        × IsPortOfEnd config.now known.now (component_number system) ends.entry.1.now q)) }
    ensures told { IsNumbered known.now → IfErr result (TellsAt line (EndsBreak config.now
        known.now (component_number system) ends.entry.0.now ends.entry.1.now)) }
{
    let p = find_end(config, known, system, ends.0, line)?;
    let q = find_end(config, known, system, ends.1, line)?;
    Ok((p, q))
}

fn connect_ends(
    config: &mut Config,
    known: &NameSet,
    system: Option<CompId>,
    ends: (&PairEnd, &PairEnd),
    line: u32,
) -> Result<(), ModuleFault>
    ensures connected { OnOk result (Connects config.old known.now (component_number system)
        ends.entry.0.now ends.entry.1.now config.new) }
    ensures refused { IsNumbered known.now → HaveOwnPorts config.old.types
        → IfErr result (IsRefusedBy ((t : Setup) × Connects config.old known.now
        (component_number system) ends.entry.0.now ends.entry.1.now t)) }
    ensures told { IsNumbered known.now → IfErr result (TellsAt line (ConnectBreaks config.old
        known.now (component_number system) ends.entry.0.now ends.entry.1.now)) }
{
    let (p, q) = find_ends(config, known, system, ends, line)?;
    match config.connect(p, q) {
        Ok(()) => Ok(()),
        Err(fault) => Err(connect_fault_at(fault, line)),
    }
}

fn map_ends(
    config: &mut Config,
    known: &NameSet,
    system: Option<CompId>,
    ends: (&PairEnd, &PairEnd),
    line: u32,
) -> Result<(), ModuleFault>
    ensures mapped { OnOk result (Maps config.old known.now (component_number system)
        ends.entry.0.now ends.entry.1.now config.new) }
    ensures refused { IsNumbered known.now → HaveOwnPorts config.old.types
        → IfErr result (IsRefusedBy ((t : Setup) × Maps config.old known.now
        (component_number system) ends.entry.0.now ends.entry.1.now t)) }
    ensures told { IsNumbered known.now → IfErr result (TellsAt line (MapBreaks config.old
        known.now (component_number system) ends.entry.0.now ends.entry.1.now)) }
{
    let (p, q) = find_ends(config, known, system, ends, line)?;
    match config.map(p, q) {
        Ok(()) => Ok(()),
        Err(fault) => Err(map_fault_at(fault, line)),
    }
}

fn add_setup<'m>(
    config: &mut Config,
    known: &mut NameSet<'m>,
    system: Option<CompId>,
    setup: &'m SetupStatement,
) -> Result<(), ModuleFault>
    ensures step { OnOk result (
        IsStep config.old known.old (component_number system) setup.now.action config.new) }
    ensures known { OnOk result (known.new
        ≡ known.old ++ option_to_list (option_map variable_name (creation_of setup.now))) }
    ensures numbered { IsNumbered known.old → IsNumbered known.new }
    ensures refused { IsNumbered known.old → HaveOwnPorts config.old.types
        → IfErr result (IsRefusedBy (((t : Setup)
        × IsStep config.old known.old (component_number system) setup.now.action t)
        × IsNumbered (known.old
        ++ option_to_list (option_map variable_name (creation_of setup.now))))) }
    ensures told { IsNumbered known.old
        → IsNumbered (known.old
        ++ option_to_list (option_map variable_name (creation_of setup.now)))
        → IfErr result (TellsAt setup.now.line
        (PairBreaks config.old known.old (component_number system) setup.now.action)) }
{
    let line = setup.line;
    match &setup.action {
        SetupAction::Create(creation) => match known.add(creation.name.as_str()) {
            Ok(()) => Ok(()),
            Err(fault) => Err(fault.at(line)),
        },
        SetupAction::Connect(first, second) => {
            connect_ends(config, known, system, (first, second), line)
        }
        SetupAction::Map(first, second) => {
            map_ends(config, known, system, (first, second), line)
        }
    }
}

/// Makes the connections and mappings of the setup statements, in order, in a configuration that
/// has all components, and returns the component variables. It stops at the first statement that
/// breaks a rule, at its line: a `var` with 12 `Duplicate`, or 15 `Limit` for more than
/// 4,294,967,295 of them; a `connect` or a `map` with 11 `Unknown`, then the refusals of
/// [`Config::connect`] or [`Config::map`] in their order. The connections and mappings made before
/// it stay.
pub fn connect_all<'m>(
    alloc: Global,
    config: &mut Config,
    system: Option<CompId>,
    setups: &'m [SetupStatement],
) -> Result<NameSet<'m>, ModuleFault>
    ensures known { IfOk result (λ known. known ≡ variables setups.now) }
    ensures makes { OnOk result (Makes (component_number system) config.old setups.now config.new) }
    ensures numbered { IfOk result (λ known. IsNumbered known) }
    ensures refused { HaveOwnPorts config.old.types → IfErr result (IsRefusedBy (((t : Setup)
        × Makes (component_number system) config.old setups.now t)
        × IsNumbered (variables setups.now))) }
    ensures told { IsNumbered (variables setups.now) → IfErr result (
        Tells (PairsBreak (component_number system) config.old setups.now)) }
{
    let mut known = NameSet::new(alloc);
    for setup in setups {
        add_setup(config, &mut known, system, setup)?;
    }
    Ok(known)
}

#[derive(Drop)]
pub struct SetupResult<'m> {
    pub config: Config,
    pub variables: NameSet<'m>,
}

fn most_variables(case: &TestCase) -> usize
    ensures { result ≡ most_variables case.now }
{
    if case.system.is_some() {
        COMPONENT_LIMIT - 2
    } else {
        COMPONENT_LIMIT - 1
    }
}

/// The fault of the setup statements if creating the components was stopped: that of a
/// connection or mapping before the stop, or else the fault that stopped it.
fn first_fault(
    alloc: Global,
    config: &mut Config,
    rules: &VariableRules,
    case: CaseAt<'_>,
    stopped: StoppedCreation<'_>,
) -> ModuleFault
    requires first { HasFirst rules.now.type_names.now case.case.now stopped.before.now config.old }
    requires broken { HavePorts rules.now.type_names.now config.old.types
        → IsRefusedBy (CanSetUpBeside rules.now.type_names.now rules.now.port_names.now
        config.old.types case.case.now) stopped.fault }
    ensures broken { HavePorts rules.now.type_names.now config.old.types
        → IsRefusedBy (CanSetUpBeside rules.now.type_names.now rules.now.port_names.now
        config.old.types case.entry.case.now) result }
    ensures told { HavePorts rules.now.type_names.now config.old.types
        → AreComponentTypesKnown rules.now.type_names.now (Defined.TestCase case.entry.case.now)
        → StopsCreating rules.now.type_names.now rules.now.port_names.now
        (codes "mtc" ∷ []) (most_variables case.entry.case.now) case.entry.case.now.setups
        stopped.entry.before.now stopped.entry.fault
        → Tells (SetupBreaks rules.now.type_names.now rules.now.port_names.now config.old.types
        case.entry.case.now case.entry.line) result }
{
    // The statements before the stop are still executed, because their faults come first.
    let system = match add_interface(alloc, config, rules.type_names, case.case, case.line) {
        Ok(system) => system,
        Err(fault) => return fault,
    };
    match connect_all(alloc, config, system, stopped.before) {
        Ok(_) => stopped.fault,
        Err(fault) => fault,
    }
}

fn create_beside(
    alloc: Global,
    config: &mut Config,
    types: &NameSet,
    ports: &NameSet,
    case: CaseAt<'_>,
) -> Result<(), ModuleFault>
    requires main { AddsAll types.now (main_component case.case.now ∷ [])
        (empty_setup config.old.types) config.old }
    ensures sound { OnOk result (HasSoundVariables types.now ports.now
        (most_variables case.entry.case.now) (creations case.entry.case.now.setups)) }
    ensures added { OnOk result (AddsAll types.now
        (map created (creations case.entry.case.now.setups)) config.old config.new) }
    ensures refused { HavePorts types.now config.old.types → IfErr result (IsRefusedBy (
        CanSetUpBeside types.now ports.now config.old.types case.entry.case.now)) }
    ensures told { HavePorts types.now config.old.types
        → AreComponentTypesKnown types.now (Defined.TestCase case.entry.case.now)
        → IfErr result (Tells
        (SetupBreaks types.now ports.now config.old.types case.entry.case.now case.entry.line)) }
{
    let rules = VariableRules {
        type_names: types,
        port_names: ports,
        most: most_variables(case.case),
    };
    match create_components(alloc, &mut *config, &rules, case.case.setups.as_slice()) {
        Ok(()) => Ok(()),
        Err(stopped) => Err(first_fault(alloc, config, &rules, case, stopped)),
    }
}

fn create_all(
    alloc: Global,
    config: &mut Config,
    sorted: &Sorted,
    case: CaseAt<'_>,
) -> Result<(), ModuleFault>
    requires named { AreComponentsNamed sorted.now }
    requires main { AddsAll sorted.now.component_names (main_component case.case.now ∷ [])
        (empty_setup config.old.types) config.old }
    ensures sound { OnOk result (in_sorted AreSoundVariables sorted.now case.entry.case.now) }
    ensures added { OnOk result (AddsAll sorted.now.component_names
        (map created (creations case.entry.case.now.setups)) config.old config.new) }
    ensures refused { AreOwnPorts (component_types_in sorted.now) config.old.types
        → IfErr result (IsRefusedBy
        (in_sorted CanSetUp sorted.now config.old.types case.entry.case.now)) }
    ensures told { AreOwnPorts (component_types_in sorted.now) config.old.types
        → AreComponentTypesKnown sorted.now.component_names (Defined.TestCase case.entry.case.now)
        → IfErr result (Tells (in_sorted CaseSetupBreaks sorted.now config.old.types
        case.entry.case.now case.entry.line)) }
{
    let runs_on = case.case.runs_on.as_str();
    let ports = ports_of_type(alloc, sorted, runs_on, case.line)?;
    create_beside(alloc, config, &sorted.component_names, &ports, case)
}

fn add_components(
    alloc: Global,
    config: &mut Config,
    sorted: &Sorted,
    case: CaseAt<'_>,
) -> Result<(), ModuleFault>
    requires named { AreComponentsNamed sorted.now }
    requires empty { config.old ≡ empty_setup config.old.types }
    ensures added { OnOk result (AddsAll sorted.now.component_names
        (main_component case.entry.case.now
        ∷ map created (creations case.entry.case.now.setups)) config.old config.new) }
    ensures sound { OnOk result (in_sorted AreSoundVariables sorted.now case.entry.case.now) }
    ensures refused { AreOwnPorts (component_types_in sorted.now) config.old.types
        → IfErr result (IsRefusedBy
        (in_sorted CanSetUp sorted.now config.old.types case.entry.case.now)) }
    ensures told { AreOwnPorts (component_types_in sorted.now) config.old.types
        → AreComponentTypesKnown sorted.now.component_names (Defined.TestCase case.entry.case.now)
        → IfErr result (Tells (in_sorted CaseSetupBreaks sorted.now config.old.types
        case.entry.case.now case.entry.line)) }
{
    let main = DeclaredComponent {
        name: "mtc",
        type_name: case.case.runs_on.as_str(),
        role: Role::Test,
        line: case.line,
    };
    add_component(alloc, &mut *config, &sorted.component_names, &main)?;
    create_all(alloc, config, sorted, case)
}

fn configure<'m>(
    alloc: Global,
    config: &mut Config,
    sorted: &Sorted,
    case: CaseAt<'m>,
) -> Result<NameSet<'m>, ModuleFault>
    requires named { AreComponentsNamed sorted.now }
    requires empty { config.old ≡ empty_setup config.old.types }
    ensures config { OnOk result (IsConfigBySetup sorted.now.component_names config.old.types
        case.entry.case.now config.new) }
    ensures variables { IfOk result (λ known. known ≡ variables case.entry.case.now.setups) }
    ensures numbered { IfOk result (λ known. IsNumbered known) }
    ensures sound { OnOk result (in_sorted AreSoundVariables sorted.now case.entry.case.now) }
    ensures refused { AreOwnPorts (component_types_in sorted.now) config.old.types
        → IfErr result (IsRefusedBy
        (in_sorted CanSetUp sorted.now config.old.types case.entry.case.now)) }
    ensures told { AreOwnPorts (component_types_in sorted.now) config.old.types
        → AreComponentTypesKnown sorted.now.component_names (Defined.TestCase case.entry.case.now)
        → IfErr result (Tells (in_sorted CaseSetupBreaks sorted.now config.old.types
        case.entry.case.now case.entry.line)) }
{
    add_components(alloc, &mut *config, sorted, case)?;
    let types = &sorted.component_names;
    let system = add_interface(alloc, &mut *config, types, case.case, case.line)?;
    connect_all(alloc, config, system, case.case.setups.as_slice())
}

/// The setup statements of the third pass. Each component type has at most 64 ports. 11 `Unknown`
/// at the line of the test case for the types after `runs on` and `system`. Then the first
/// statement in the order of the text that breaks a rule is refused at its line: a `var` with 12
/// `Duplicate`, 11, 13 `WrongType` if its two types differ, or 15 `Limit` for the 65th component,
/// with `mtc` and `system` counted; a `connect` or a `map` as in [`connect_all`].
pub fn set_up<'m>(
    alloc: Global,
    sorted: &Sorted<'m>,
    case: CaseAt<'m>,
    components: Vec<CompType>,
) -> Result<SetupResult<'m>, ModuleFault>
    requires named { AreComponentsNamed sorted.now }
    requires few { All (λ t. length t.ports.entries ≤ 64) components.items }
    ensures config { IfOk result (λ s. IsConfigBySetup sorted.now.component_names
        (map ports_of components.items) case.entry.case.now s.config) }
    ensures variables { IfOk result (λ s. s.variables ≡ variables case.entry.case.now.setups) }
    ensures numbered { IfOk result (λ s. IsNumbered s.variables) }
    ensures sound { OnOk result (in_sorted AreSoundVariables sorted.now case.entry.case.now) }
    ensures refused { AreOwnPorts (component_types_in sorted.now) (map ports_of components.items)
        → IfErr result (IsRefusedBy
        (in_sorted CanSetUp sorted.now (map ports_of components.items) case.entry.case.now)) }
    ensures told { AreOwnPorts (component_types_in sorted.now) (map ports_of components.items)
        → AreComponentTypesKnown sorted.now.component_names (Defined.TestCase case.entry.case.now)
        → IfErr result (Tells (in_sorted CaseSetupBreaks sorted.now
        (map ports_of components.items) case.entry.case.now case.entry.line)) }
{
    let mut config = Config::new(alloc, components);
    let variables = configure(alloc, &mut config, sorted, case)?;
    Ok(SetupResult { config, variables })
}
