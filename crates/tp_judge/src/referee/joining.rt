//! Routes with a section at both ends.
ghost use Rattle.std.specs.Prelude.{◌≡◌, ◌↔◌, ◌<◌, ◌^◌, ℕ, Contains, IfOk, IsTrue, Some, List, length, map, slice_get};
ghost use Rattle.std.specs.Prelude.{true};
ghost use Rattle.tp_judge.specs.Tree.{names_of};
ghost use Rattle.tp_judge.specs.Kept.{Keeps};
ghost use Rattle.tp_judge.specs.Joining.{AreSections, AreJoinedBy, IsJoinedBy};

use crate::referee::components::Components;
use crate::referee::tables::{PortKey, RouteKey};
use crate::referee::tree::Trace;
use std::alloc::Global;
use tp_common::memory::Memory;

/// For each component, whether it has a section: those with one come first.
pub fn sections_of(
    alloc: Global,
    trace: &Trace<'_>,
    components: &Components<'_>,
) -> Result<Vec<bool>, Memory>
    requires small { length components.now < 2 ^ 64 }
    requires kept { Keeps (names_of trace.now) components.now }
    ensures { IfOk result (λ sections. AreSections trace.now components.now sections.items) }
{
    let count = trace.section_count();
    let total = components.len();
    let mut sections = Vec::with_capacity(alloc, total)?;
    for number in 0..total {
        sections.push(number < count)?;
    }
    Ok(sections)
}

pub fn owners_of(alloc: Global, ports: &[PortKey]) -> Result<Vec<u32>, Memory>
    ensures { IfOk result (λ owners. owners.items ≡ map (λ port. port.component) ports.now) }
{
    let owners = ports.iter().map(|port| port.component).collect(alloc)?;
    Ok(owners)
}

fn is_section(sections: &[bool], component: u32) -> bool
    ensures { IsTrue result ↔ (slice_get sections.now component ≡ Some true) }
{
    matches!(sections.get(component as usize), Some(true))
}

fn are_sections(sections: &[bool], one: u32, other: u32) -> bool
    ensures { IsTrue result
        ↔ ((slice_get sections.now one ≡ Some true) × (slice_get sections.now other ≡ Some true)) }
{
    is_section(sections, one) && is_section(sections, other)
}

fn owner_of(owners: &[u32], port: u32) -> Option<u32>
    ensures { result ≡ slice_get owners.now port }
{
    owners.get(port as usize).copied()
}

fn is_joined(route: RouteKey, owners: &[u32], sections: &[bool]) -> bool
    ensures { IsTrue result ↔ IsJoinedBy owners.now sections.now route }
{
    match owner_of(owners, route.port) {
        None => false,
        Some(owner) => are_sections(sections, route.sender, owner),
    }
}

/// For each route, whether both ends have a section.
pub fn joined_of(
    alloc: Global,
    routes: &[RouteKey],
    owners: &[u32],
    sections: &[bool],
) -> Result<Vec<bool>, Memory>
    ensures { IfOk result (λ joined.
        AreJoinedBy owners.now sections.now routes.now joined.items) }
{
    let mut joined = Vec::with_capacity(alloc, routes.len())?;
    for route in routes {
        joined.push(is_joined(*route, owners, sections))?;
    }
    Ok(joined)
}
