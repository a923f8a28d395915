//! The routes from and to the ports of a configuration.
ghost use Rattle.std.specs.Prelude.{◌≡◌, ◌==◌, ◌++◌, ◌≤◌, find, map, IfOk, MatchResult, OnOk};
ghost use Rattle.tp_config.specs.Routes.{IsRouteOf, RouteCauseOf, route_to};
ghost use Rattle.tp_config.specs.Faults.{route_refusal};
ghost use Rattle.tp_config.specs.Links.{routes_kept};
ghost use Rattle.tp_config.specs.Shape.{links_of};

use crate::component::{Component, beside};
use crate::port_type::{CompId, PortRef, RouteId};
use std::alloc::Global;
use thiserror::Error;
use tp_common::memory::Memory;
use tp_common::refusal::Refusal;

/// Why there is no route for a send.
#[derive(Clone, Copy, Debug, PartialEq, Eq, Error)]
pub enum RouteFault {
    /// 41 NoRoute: the port has no route, or none to the component named.
    #[error("there is no route")]
    NoRoute,
    /// 42 NeedsTo: the port has several routes, and no component is named.
    #[error("there are several routes, and no receiver is named")]
    NeedsTo,
}

impl RouteFault {
    pub fn refusal(self) -> Refusal
        ensures { result ≡ route_refusal self }
    {
        match self {
            RouteFault::NoRoute => Refusal::NoRoute,
            RouteFault::NeedsTo => Refusal::NeedsTo,
        }
    }
}

fn port_beside(ports: &[PortRef], comp: CompId) -> Option<PortRef>
    ensures { result ≡ find (λ r. r.comp.0 == comp.0) ports.now }
{
    ports.iter().copied().find(|r| r.comp.0 == comp.0)
}

pub(crate) fn routes_out(
    alloc: Global,
    p: PortRef,
    beside: &[PortRef],
) -> Result<Vec<RouteId>, Memory>
    ensures { IfOk result (λ v. v.items ≡ map (route_to p) beside.now) }
{
    let routes = beside
        .iter()
        .map(|q| RouteId {
            source: p.comp,
            to: *q,
        })
        .collect(alloc)?;
    Ok(routes)
}

/// The only route from `p`, which has these partners, or the one to the component `to`.
pub(crate) fn choose_route(
    p: PortRef,
    beside: &[PortRef],
    to: Option<CompId>,
) -> Result<RouteId, RouteFault>
    ensures source { IfOk result (λ r. r.source ≡ p.comp) }
    ensures route { MatchResult result
        (λ r. IsRouteOf (map (route_to p) beside.now) to r)
        (λ fault. RouteCauseOf (map (route_to p) beside.now) to fault) }
{
    match to {
        Some(comp) => match port_beside(beside, comp) {
            Some(q) => Ok(RouteId {
                source: p.comp,
                to: q,
            }),
            None => Err(RouteFault::NoRoute),
        },
        None => match beside {
            [] => Err(RouteFault::NoRoute),
            [q] => Ok(RouteId {
                source: p.comp,
                to: *q,
            }),
            _ => Err(RouteFault::NeedsTo),
        },
    }
}

fn add_routes_to(routes: &mut Vec<RouteId>, p: PortRef, beside: &[PortRef]) -> Result<(), Memory>
    ensures { OnOk result
        (routes.new.items ≡ routes.old.items ++ map (λ q. route_to q p) beside.now) }
{
    for q in beside {
        routes.push(RouteId {
            source: q.comp,
            to: p,
        })?;
    }
    Ok(())
}

pub(crate) fn routes_in(
    alloc: Global,
    components: &[Component],
    comp: CompId,
    count: usize,
) -> Result<Vec<RouteId>, Memory>
    requires { count ≤ 64 }
    ensures { IfOk result (λ v. v.items ≡ routes_kept (map links_of components.now) comp count) }
{
    let mut routes = Vec::new(alloc);
    for port in 0..count {
        let p = PortRef {
            comp,
            port: port as u32,
        };
        add_routes_to(&mut routes, p, beside(components, p))?;
    }
    Ok(routes)
}
