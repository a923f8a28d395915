//! The number of messages put on each route into an inbox.
ghost use Rattle.std.specs.Prelude.{◌≡◌, ℕ, All, AllPairs, Contains, IfOk, OnOk, Some, map};
ghost use Rattle.indexmap.specs.IndexMap.{get};
ghost use Rattle.tp_config.specs.declared.port_type.RouteId.{RouteId as Route};
ghost use Rattle.tp_inbox.specs.Ledgers.{SenderLedger};
ghost use Rattle.tp_inbox.specs.Places.{KeepsOtherRoutes, route_eq};
ghost use Rattle.tp_behaviour.specs.Outboxes.{routes_of};
ghost use Rattle.tp_exec.specs.ReturnedSenders.{AreFiledOf, IsCounted, ShareNone};

use indexmap::IndexMap;
use std::alloc::Global;
use tp_common::memory::Memory;
use tp_config::port_type::RouteId;
use tp_inbox::sender::Sender;

fn file(counts: &mut IndexMap<RouteId, u64>, sender: &Sender) -> Result<(), Memory>
    ensures filed { OnOk result (AreFiledOf counts.new sender.now) }
    ensures others { OnOk result (KeepsOtherRoutes sender.now.routes counts.old counts.new) }
{
    for way in 0..sender.ways() {
        counts.insert(sender.route(way), sender.count(way))?;
    }
    Ok(())
}

fn file_all(alloc: Global, senders: &[Sender]) -> Result<IndexMap<RouteId, u64>, Memory>
    requires { AllPairs ShareNone senders.now }
    ensures { IfOk result (λ counts. All (AreFiledOf counts) senders.now) }
{
    let mut counts = IndexMap::new(alloc);
    for sender in senders {
        file(&mut counts, sender)?;
    }
    Ok(counts)
}

fn count_on(counts: &IndexMap<RouteId, u64>, route: RouteId) -> u64
    requires { (n : ℕ) × (get route_eq counts.now route ≡ Some n) }
    ensures { get route_eq counts.now route ≡ Some result }
{
    match counts.get(&route) {
        Some(count) => *count,
        // There is one of each of these routes, by the condition.
        None => unreachable!(),
    }
}

fn in_order(
    alloc: Global,
    counts: &IndexMap<RouteId, u64>,
    routes: Vec<RouteId>,
) -> Result<Vec<(RouteId, u64)>, Memory>
    requires { All (λ r. (n : ℕ) × (get route_eq counts.now r ≡ Some n)) routes.items }
    ensures routes { IfOk result (λ all. map (λ n. n.0) all.items ≡ routes.items) }
    ensures counts { IfOk result (λ all.
        All (λ n. get route_eq counts.now n.0 ≡ Some n.1) all.items) }
{
    let mut all = Vec::new(alloc);
    for route in routes {
        all.push((route, count_on(counts, route)))?;
    }
    Ok(all)
}

pub(crate) fn count_all(
    alloc: Global,
    routes: Vec<RouteId>,
    senders: &[Sender],
) -> Result<Vec<(RouteId, u64)>, Memory>
    requires apart { AllPairs ShareNone senders.now }
    requires theirs { All (Contains (routes_of senders.now)) routes.items }
    ensures routes { IfOk result (λ all. map (λ n. n.0) all.items ≡ routes.items) }
    ensures counted { IfOk result (λ all. (s : SenderLedger) (r : Route) →
        Contains senders.now s → Contains s.routes r → Contains routes.items r
        → IsCounted all.items s r) }
{
    let counts = file_all(alloc, senders)?;
    let all = in_order(alloc, &counts, routes)?;
    Ok(all)
}
