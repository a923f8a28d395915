//! The components of a configuration, and the partners of their ports.
ghost use Rattle.std.specs.Prelude.{◌≡◌, ◌<◌, ◌++◌, ◌∷◌, [], map, length, option_map, slice_get, IfOk, OnErr, OnOk};
ghost use Rattle.std.specs.Option.{option_copied, option_map_or};
ghost use Rattle.tp_config.specs.Setup.{decl_at, ins, is_system, outs, ports_at};
ghost use Rattle.tp_config.specs.Shape.{links_of, member_of, ports_of, types_of_port_type, types_of_decl};
ghost use Rattle.tp_config.specs.Types.{listed_types};
ghost use Rattle.tp_config.specs.Links.{links_joined, links_at, row, with_links};

use crate::links::Links;
use crate::port_type::{CompId, CompType, PortRef, PortType, Role};
use crate::type_list::TypeList;
use std::alloc::Global;
use tp_common::memory::Memory;
use tp_value::items::Items;

#[derive(Drop)]
pub(crate) struct Component {
    pub(crate) name: String,
    pub(crate) kind: u32,
    pub(crate) role: Role,
    pub(crate) links: Links,
}

pub(crate) fn component_at(components: &[Component], comp: CompId) -> Option<&Component>
    ensures { option_copied result ≡ slice_get components.now comp.0 }
{
    components.get(comp.0 as usize)
}

fn type_at(types: &[CompType], kind: u32) -> Option<&CompType>
    ensures { option_copied result ≡ slice_get types.now kind }
{
    types.get(kind as usize)
}

pub(crate) fn type_in<'a>(
    types: &'a [CompType],
    components: &[Component],
    comp: CompId,
) -> Option<&'a CompType>
    ensures { option_map_or ports_of (option_copied result) []
        ≡ ports_at (map ports_of types.now) (map member_of components.now) comp }
{
    let Some(component) = component_at(components, comp) else {
        return None;
    };
    type_at(types, component.kind)
}

fn port_at(comp_type: &CompType, port: u32) -> Option<&PortType>
    ensures { option_copied result
        ≡ option_map (λ e. e.1) (slice_get comp_type.now.ports.entries port) }
{
    match comp_type.ports.get_index(port as usize) {
        Some((_, port_type)) => Some(port_type),
        None => None,
    }
}

pub(crate) fn is_system(components: &[Component], p: PortRef) -> bool
    ensures { result ≡ is_system (map member_of components.now) p }
{
    match component_at(components, p.comp) {
        Some(component) => component.role.is_system(),
        None => false,
    }
}

fn port_type<'a>(
    types: &'a [CompType],
    components: &[Component],
    p: PortRef,
) -> Option<&'a PortType>
    ensures { let m = map member_of components.now in
        option_map types_of_port_type (option_copied result)
        ≡ option_map types_of_decl (decl_at (map ports_of types.now) m p) }
{
    let Some(comp_type) = type_in(types, components, p.comp) else {
        return None;
    };
    port_at(comp_type, p.port)
}

pub(crate) fn ins<'a>(
    types: &'a [CompType],
    components: &[Component],
    p: PortRef,
) -> Option<&'a TypeList>
    ensures { listed_types (option_copied result)
        ≡ ins (map ports_of types.now) (map member_of components.now) p }
{
    match port_type(types, components, p) {
        Some(port_type) => Some(&port_type.ins),
        None => None,
    }
}

pub(crate) fn outs<'a>(
    types: &'a [CompType],
    components: &[Component],
    p: PortRef,
) -> Option<&'a TypeList>
    ensures { listed_types (option_copied result)
        ≡ outs (map ports_of types.now) (map member_of components.now) p }
{
    match port_type(types, components, p) {
        Some(port_type) => Some(&port_type.outs),
        None => None,
    }
}

pub(crate) fn port_count(types: &[CompType], components: &[Component], comp: CompId) -> usize
    ensures { result
        ≡ length (ports_at (map ports_of types.now) (map member_of components.now) comp) }
{
    match type_in(types, components, comp) {
        Some(comp_type) => comp_type.ports.len(),
        None => 0,
    }
}

pub(crate) fn beside(components: &[Component], p: PortRef) -> &[PortRef]
    ensures { result.now ≡ links_at (map links_of components.now) p }
{
    match component_at(components, p.comp) {
        Some(component) => component.links.at(p.port),
        None => &[],
    }
}

fn put_beside(components: &mut Vec<Component>, p: PortRef, beside: Items<PortRef>)
    requires { p.port < length (row (map links_of components.old.items) p.comp) }
    ensures members { map member_of components.new.items ≡ map member_of components.old.items }
    ensures links { map links_of components.new.items
        ≡ with_links (map links_of components.old.items) p beside }
{
    let component = &mut components[p.comp.0 as usize];
    component.links.set_partners(p.port, beside);
}

fn with_last(alloc: Global, ports: &[PortRef], last: PortRef) -> Result<Items<PortRef>, Memory>
    ensures { IfOk result (λ longer. longer ≡ ports.now ++ last ∷ []) }
{
    let mut longer = Items::from_slice(alloc, ports)?;
    longer.push(last)?;
    Ok(longer)
}

/// Joins two different ports: adds their pair, and appends each to the partners of the other. It
/// makes both lists first, so that nothing has changed if an allocation is refused. A list has at
/// most 64 ports, one for each component.
pub(crate) fn join_ports(
    alloc: Global,
    components: &mut Vec<Component>,
    pairs: &mut Vec<(PortRef, PortRef)>,
    p: PortRef,
    q: PortRef,
) -> Result<(), Memory>
    requires p_in { p.port < length (row (map links_of components.old.items) p.comp) }
    requires q_in { q.port < length (row (map links_of components.old.items) q.comp) }
    ensures pairs { OnOk result (pairs.new.items ≡ pairs.old.items ++ (p, q) ∷ []) }
    ensures members { OnOk result
        (map member_of components.new.items ≡ map member_of components.old.items) }
    ensures links { OnOk result (map links_of components.new.items
        ≡ links_joined (map links_of components.old.items) p q) }
    ensures no_pair { OnErr result (pairs.new.items ≡ pairs.old.items) }
    ensures no_link { OnErr result (components.new.items ≡ components.old.items) }
{
    // Allocations come first: if one is refused, the pairs and both lists are unchanged.
    let beside_p = with_last(alloc, beside(components.as_slice(), p), q)?;
    let beside_q = with_last(alloc, beside(components.as_slice(), q), p)?;
    pairs.push((p, q))?;
    put_beside(components, p, beside_p);
    put_beside(components, q, beside_q);
    Ok(())
}
