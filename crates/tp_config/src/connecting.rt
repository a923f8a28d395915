//! Reasons why two ports can't be connected.
ghost use Rattle.std.specs.Prelude.{◌≡◌, find, map};
ghost use Rattle.tp_config.specs.Shape.{links_of, member_of, ports_of};
ghost use Rattle.tp_config.specs.Causes.{connect_order};
ghost use Rattle.tp_config.specs.Tests.{connect_test};
ghost use Rattle.tp_config.specs.Faults.{connect_refusal};

use crate::component::{Component, ins, is_system, outs};
use crate::directions::are_among;
use crate::partners::{has_other, is_beside, is_mapped};
use crate::port_type::{CompType, PortRef};
use thiserror::Error;
use tp_common::refusal::Refusal;

/// Why two ports were not connected, in the order in which the causes are checked.
#[derive(Clone, Copy, Debug, PartialEq, Eq, Error)]
pub enum ConnectFault {
    /// 25 SystemPort: one of them is a port of the test system interface.
    #[error("one is a port of the system interface")]
    SystemPort,
    /// 26 SamePort: they are one port.
    #[error("they are one port")]
    SamePort,
    /// 27 Already: they are connected.
    #[error("they are connected")]
    Already,
    /// 22 Mixed: one of them is mapped.
    #[error("one is mapped")]
    Mixed,
    /// 21 TwoPortsOfOne: one would be connected with two ports of one component.
    #[error("one would be connected with two ports of one component")]
    TwoPortsOfOne,
    /// 20 Directions: one sends a message type that the other doesn't receive.
    #[error("one sends what the other doesn't receive")]
    Directions,
    /// 50 Memory: an allocation was refused.
    #[error("out of memory")]
    Memory,
}

impl ConnectFault {
    pub fn refusal(self) -> Refusal
        ensures { result ≡ connect_refusal self }
    {
        match self {
            ConnectFault::SystemPort => Refusal::SystemPort,
            ConnectFault::SamePort => Refusal::SamePort,
            ConnectFault::Already => Refusal::Already,
            ConnectFault::Mixed => Refusal::Mixed,
            ConnectFault::TwoPortsOfOne => Refusal::TwoPortsOfOne,
            ConnectFault::Directions => Refusal::Directions,
            ConnectFault::Memory => Refusal::Memory,
        }
    }
}

/// The first cause that holds, apart from memory.
pub(crate) fn connect_fault(
    types: &[CompType],
    components: &[Component],
    p: PortRef,
    q: PortRef,
) -> Option<ConnectFault>
    ensures { let m = map member_of components.now in let links = map links_of components.now in
        result ≡ find (connect_test (map ports_of types.now) m links p q) connect_order }
{
    if is_system(components, p) || is_system(components, q) {
        return Some(ConnectFault::SystemPort);
    }
    if p.is(q) {
        return Some(ConnectFault::SamePort);
    }
    if is_beside(components, p, q) {
        return Some(ConnectFault::Already);
    }
    if is_mapped(components, p) || is_mapped(components, q) {
        return Some(ConnectFault::Mixed);
    }
    if has_other(components, p, q) || has_other(components, q, p) {
        return Some(ConnectFault::TwoPortsOfOne);
    }
    let forth = are_among(outs(types, components, p), ins(types, components, q));
    let back = are_among(outs(types, components, q), ins(types, components, p));
    if forth && back {
        None
    } else {
        Some(ConnectFault::Directions)
    }
}
