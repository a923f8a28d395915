//! Reasons why two ports can't be mapped.
ghost use Rattle.std.specs.Prelude.{◌≡◌, find, map};
ghost use Rattle.tp_config.specs.Shape.{links_of, member_of, ports_of};
ghost use Rattle.tp_config.specs.Causes.{map_order};
ghost use Rattle.tp_config.specs.Tests.{map_directed, map_test};
ghost use Rattle.tp_config.specs.Faults.{map_refusal};

use crate::component::{Component, ins, is_system, outs};
use crate::directions::are_among;
use crate::partners::{is_connected, is_mapped, same_bool};
use crate::port_type::{CompType, PortRef};
use thiserror::Error;
use tp_common::refusal::Refusal;

/// Why two ports were not mapped, in the order in which the causes are checked.
#[derive(Clone, Copy, Debug, PartialEq, Eq, Error)]
pub enum MapFault {
    /// 28 NotSystem: none of them is a port of the test system interface, or both are.
    #[error("not exactly one is a port of the system interface")]
    NotSystem,
    /// 22 Mixed: one of them is connected.
    #[error("one is connected")]
    Mixed,
    /// 23 NotOneToOne: one of them is mapped.
    #[error("one is mapped")]
    NotOneToOne,
    /// 24 MapDirections: the component's port sends a message type that the system's port doesn't
    /// send, or doesn't receive one that the system's port receives.
    #[error("the message types of the two don't fit together")]
    MapDirections,
    /// 50 Memory: an allocation was refused.
    #[error("out of memory")]
    Memory,
}

impl MapFault {
    pub fn refusal(self) -> Refusal
        ensures { result ≡ map_refusal self }
    {
        match self {
            MapFault::NotSystem => Refusal::NotSystem,
            MapFault::Mixed => Refusal::Mixed,
            MapFault::NotOneToOne => Refusal::NotOneToOne,
            MapFault::MapDirections => Refusal::MapDirections,
            MapFault::Memory => Refusal::Memory,
        }
    }
}

fn map_directed(types: &[CompType], components: &[Component], p: PortRef, q: PortRef) -> bool
    ensures { result ≡ map_directed (map ports_of types.now) (map member_of components.now) p q }
{
    let sent = are_among(outs(types, components, p), outs(types, components, q));
    let received = are_among(ins(types, components, q), ins(types, components, p));
    sent && received
}

/// The first cause that holds, apart from memory.
pub(crate) fn map_fault(
    types: &[CompType],
    components: &[Component],
    p: PortRef,
    q: PortRef,
) -> Option<MapFault>
    ensures { let m = map member_of components.now in let links = map links_of components.now in
        result ≡ find (map_test (map ports_of types.now) m links p q) map_order }
{
    let first = is_system(components, p);
    let second = is_system(components, q);
    if same_bool(first, second) {
        return Some(MapFault::NotSystem);
    }
    if is_connected(components, p) || is_connected(components, q) {
        return Some(MapFault::Mixed);
    }
    if is_mapped(components, p) || is_mapped(components, q) {
        return Some(MapFault::NotOneToOne);
    }
    // Exactly one of the two is of the test system interface.
    let (other, system) = if second { (p, q) } else { (q, p) };
    if map_directed(types, components, other, system) {
        None
    } else {
        Some(MapFault::MapDirections)
    }
}
