//! Connections and mappings of a port, by its partners, so that the pairs of other ports aren't
//! looked at.
ghost use Rattle.std.specs.Prelude.{◌≡◌, map};
ghost use Rattle.tp_config.specs.Shape.{links_of, member_of};
ghost use Rattle.tp_config.specs.Tests.{has_other, is_beside, is_connected, is_mapped, same_bool};

use crate::component::{Component, beside, is_system};
use crate::port_type::PortRef;

pub(crate) fn same_bool(a: bool, b: bool) -> bool
    ensures { result ≡ same_bool a b }
{
    if a { b } else { !b }
}

// The definition, unfolded, is the same test of each partner.
#[tactic(auto, unfolding(crate::specs::Tests::is_beside))]
pub(crate) fn is_beside(components: &[Component], p: PortRef, q: PortRef) -> bool
    ensures { result ≡ is_beside (map links_of components.now) p q }
{
    beside(components, p).iter().any(|r| r.is(q))
}

#[tactic(auto, unfolding(crate::specs::Tests::has_other))]
pub(crate) fn has_other(components: &[Component], p: PortRef, q: PortRef) -> bool
    ensures { result ≡ has_other (map links_of components.now) p q }
{
    beside(components, p)
        .iter()
        .any(|r| r.comp.0 == q.comp.0 && !r.is(q))
}

/// A port of the test system interface is never connected, and of two mapped ports exactly one
/// belongs to it. So `p` is connected with a partner if both or neither belong to it.
#[tactic(auto, unfolding(crate::specs::Tests::is_connected))]
pub(crate) fn is_connected(components: &[Component], p: PortRef) -> bool
    ensures { result ≡ is_connected (map member_of components.now) (map links_of components.now) p }
{
    let system = is_system(components, p);
    beside(components, p)
        .iter()
        .any(|r| same_bool(system, is_system(components, *r)))
}

/// The partner of a mapped port belongs to the test system interface if and only if the port
/// doesn't.
#[tactic(auto, unfolding(crate::specs::Tests::is_mapped))]
pub(crate) fn is_mapped(components: &[Component], p: PortRef) -> bool
    ensures { result ≡ is_mapped (map member_of components.now) (map links_of components.now) p }
{
    let system = is_system(components, p);
    beside(components, p)
        .iter()
        .any(|r| !same_bool(system, is_system(components, *r)))
}
