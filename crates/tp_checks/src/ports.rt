//! The component types of a module, with the types that their ports receive and send.
ghost use Rattle.std.specs.Prelude.{◌≡◌, ◌+◌, ◌≤◌, ◌↔◌, ◌++◌, ◌∷◌, [], Contains, IfErr, IfNone, IfOk, IfSome, IsTrue};
ghost use Rattle.std.specs.Prelude.{OnOk, All, length, map, slice_get};
ghost use Rattle.std.specs.{Option.option_copied, List.AllZip, List.flat_map};
ghost use Rattle.tp_value.specs.declared.types.Ty.{Ty};
ghost use Rattle.tp_config.specs.Shape.{ports_of};
ghost use Rattle.tp_checks.specs.{Refused.IsRefusedBy, Tables.AreDistinct, Definitions.declared};
ghost use Rattle.tp_checks.specs.Rules.{AreMessagesKnown, IsSoundComponent, NamesType};
ghost use Rattle.tp_checks.specs.Resolved.{Appends, IsComponentType, IsMade, IsMadeOf, port_decl, IsPortType};
ghost use Rattle.tp_checks.specs.Resolved.{IsTypeNamed, goes_in, goes_out, received_types, sent_types};
ghost use Rattle.tp_checks.specs.Sorted.{AreComponentTypesIn, HasMade, component_types_in, port_types_in};

use crate::fault::{ModuleFault, ModuleRule, refused};
use crate::name_set::NameSet;
use crate::resolving::resolve;
use crate::sorted::Sorted;
use indexmap::IndexMap;
use std::alloc::Global;
use tp_config::port_type::{CompType, PORT_LIMIT, PortType};
use tp_config::type_list::TypeList;
use tp_tree::message::TypeName;
use tp_tree::tree::{self, ComponentType, DeclaredName, Direction, PortDeclaration, Way};
use tp_value::items::Items;
use tp_value::types::Ty;

fn goes_in(way: Way) -> bool
    ensures { result ≡ goes_in way }
{
    match way {
        Way::In | Way::InOut => true,
        Way::Out => false,
    }
}

fn goes_out(way: Way) -> bool
    ensures { result ≡ goes_out way }
{
    match way {
        Way::Out | Way::InOut => true,
        Way::In => false,
    }
}

fn add_types(types: &NameSet, names: &[TypeName], made: &mut Items<Ty>) -> Result<(), ModuleFault>
    ensures added { OnOk result (Appends types.now names.now made.old made.new) }
    ensures refused { IfErr result (IsRefusedBy (All (NamesType types.now) names.now)) }
{
    for name in names {
        let Some(ty) = resolve(types, name) else {
            // This never happens: `check_definitions` has found all types. So it has no line.
            return Err(refused(ModuleRule::Unknown, 0));
        };
        made.push(ty)?;
    }
    Ok(())
}

fn received_types(
    alloc: Global,
    types: &NameSet,
    directions: &[Direction],
) -> Result<Items<Ty>, ModuleFault>
    ensures made { IfOk result (
        AllZip (IsTypeNamed types.now) (flat_map received_types directions.now)) }
    ensures refused { IfErr result (
        IsRefusedBy (All (λ w. All (NamesType types.now) w.types) directions.now)) }
{
    let mut made = Items::new(alloc);
    for direction in directions {
        if !goes_in(direction.way) {
            continue;
        }
        add_types(types, direction.types.as_slice(), &mut made)?;
    }
    Ok(made)
}

fn sent_types(
    alloc: Global,
    types: &NameSet,
    directions: &[Direction],
) -> Result<Items<Ty>, ModuleFault>
    ensures made { IfOk result (
        AllZip (IsTypeNamed types.now) (flat_map sent_types directions.now)) }
    ensures refused { IfErr result (
        IsRefusedBy (All (λ w. All (NamesType types.now) w.types) directions.now)) }
{
    let mut made = Items::new(alloc);
    for direction in directions {
        if !goes_out(direction.way) {
            continue;
        }
        add_types(types, direction.types.as_slice(), &mut made)?;
    }
    Ok(made)
}

fn make_port_type(
    alloc: Global,
    types: &NameSet,
    port_type: &tree::PortType,
) -> Result<PortType, ModuleFault>
    ensures made { IfOk result (λ made. IsPortType types.now port_type.now made.ins made.outs) }
    ensures refused { IfErr result (IsRefusedBy (AreMessagesKnown types.now port_type.now)) }
{
    let ins = received_types(alloc, types, port_type.directions.as_slice())?;
    let outs = sent_types(alloc, types, port_type.directions.as_slice())?;
    Ok(PortType {
        ins: TypeList::from_items(alloc, ins)?,
        outs: TypeList::from_items(alloc, outs)?,
    })
}

/// 11 `Unknown` at line 0 if a message type is unknown.
pub fn make_port_types(
    alloc: Global,
    types: &NameSet,
    port_types: &[&tree::PortType],
) -> Result<Vec<PortType>, ModuleFault>
    ensures made { IfOk result (λ made.
        AllZip (IsMade types.now) (map (λ p. p.now) port_types.now) made.items) }
    ensures refused { IfErr result (
        IsRefusedBy (All (AreMessagesKnown types.now) (map (λ p. p.now) port_types.now))) }
{
    let mut made = Vec::new(alloc);
    for port_type in port_types {
        let one = make_port_type(alloc, types, port_type)?;
        made.push(one)?;
    }
    Ok(made)
}

fn share(port_type: &PortType) -> Result<PortType, ModuleFault>
    ensures shared { IfOk result (λ shared.
        (shared.ins ≡ port_type.now.ins) × (shared.outs ≡ port_type.now.outs)) }
    ensures refused { IfErr result (λ fault. fault ≡ ModuleFault.Memory (record {})) }
{
    // All ports of a type share its lists, which are in memory once.
    let ins = port_type.ins.share()?;
    let outs = port_type.outs.share()?;
    Ok(PortType { ins, outs })
}

fn add_port(
    alloc: Global,
    component: &mut CompType,
    name: &DeclaredName,
    port_type: &PortType,
) -> Result<(), ModuleFault>
    ensures added { OnOk result (ports_of component.new
        ≡ ports_of component.old ++ port_decl port_type.now name.now ∷ []) }
    ensures refused { IfErr result (IsRefusedBy (
        AreDistinct (map (λ p. p.name) (ports_of component.old) ++ declared name.now ∷ []))) }
{
    let None = component.ports.get_index_of(name.name.as_str()) else {
        return Err(refused(ModuleRule::Duplicate, name.line));
    };
    let text = String::from_str(alloc, name.name.as_str())?;
    let shared = share(port_type)?;
    component.ports.insert(text, shared)?;
    Ok(())
}

fn add_ports(
    alloc: Global,
    component: &mut CompType,
    names: &[DeclaredName],
    port_type: &PortType,
) -> Result<(), ModuleFault>
    ensures added { OnOk result (ports_of component.new
        ≡ ports_of component.old ++ map (port_decl port_type.now) names.now) }
    ensures refused { IfErr result (IsRefusedBy (
        AreDistinct (map (λ p. p.name) (ports_of component.old) ++ map declared names.now))) }
{
    for name in names {
        add_port(alloc, component, name, port_type)?;
    }
    Ok(())
}

fn made_at(made: &[PortType], place: u32) -> Option<&PortType>
    ensures { option_copied result ≡ slice_get made.now place }
{
    made.get(place as usize)
}

fn find_made<'p>(sorted: &Sorted, made: &'p [PortType], name: &str) -> Option<&'p PortType>
    requires { HasMade sorted.now made.now }
    ensures found { IfSome result (λ found.
        IsMadeOf sorted.now.type_names (port_types_in sorted.now) name.now found.now) }
    ensures unknown { IfNone result (Contains sorted.now.port_names name.now → ⊥) }
{
    let Some(place) = sorted.port_names.find(name) else {
        return None;
    };
    let Some(found) = made_at(made, place) else {
        return None;
    };
    Some(found)
}

pub fn has_room(count: usize, more: usize) -> bool
    requires { count ≤ 64 }
    ensures { IsTrue result ↔ (count + more ≤ 64) }
{
    more <= PORT_LIMIT - count
}

fn make_component(
    alloc: Global,
    sorted: &Sorted,
    made: &[PortType],
    component: &ComponentType,
) -> Result<CompType, ModuleFault>
    requires { HasMade sorted.now made.now }
    ensures ports { IfOk result (
        IsComponentType sorted.now.type_names (port_types_in sorted.now) component.now) }
    ensures few { IfOk result (λ t. length t.ports.entries ≤ 64) }
    ensures refused { IfErr result (
        IsRefusedBy (IsSoundComponent sorted.now.port_names component.now)) }
{
    let mut ports = CompType {
        ports: IndexMap::new(alloc),
    };
    for declaration in component.ports.as_slice() {
        let Some(port_type) = find_made(sorted, made, declaration.type_name.as_str()) else {
            return Err(refused(ModuleRule::Unknown, 0));
        };
        add_ports(alloc, &mut ports, declaration.names.as_slice(), port_type)?;
    }
    if !has_room(0, ports.ports.len()) {
        // This never happens: `check_definitions` has counted the ports.
        return Err(refused(ModuleRule::Limit, 0));
    }
    Ok(ports)
}

/// The component types, in their order; `made` has the port types. The first component type that
/// breaks a rule is refused: 11 `Unknown` at line 0 if the type of a port is unknown, 12
/// `Duplicate` at the line of a port's name that is given twice, 15 `Limit` at line 0 if there are
/// more than 64 ports. 50 `Memory` also means that a list of types can have no more handles.
pub fn make_components(
    alloc: Global,
    sorted: &Sorted,
    made: &[PortType],
) -> Result<Vec<CompType>, ModuleFault>
    requires { HasMade sorted.now made.now }
    ensures components { IfOk result (λ r. AreComponentTypesIn sorted.now r.items) }
    ensures few { IfOk result (λ r. All (λ t. length t.ports.entries ≤ 64) r.items) }
    ensures refused { IfErr result (IsRefusedBy (
        All (IsSoundComponent sorted.now.port_names) (component_types_in sorted.now))) }
{
    let mut components = Vec::new(alloc);
    for component in &sorted.component_types {
        let one = make_component(alloc, sorted, made, component)?;
        components.push(one)?;
    }
    Ok(components)
}
