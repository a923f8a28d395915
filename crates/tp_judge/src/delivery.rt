//! The rule on delivery: all routes.
ghost use Rattle.std.specs.Prelude.{◌≡◌, ◌↔◌, ◌<◌, [], All, IfOk, MatchOption, length};
ghost use Rattle.tp_judge.specs.Delivered.{Delivered, IsDeliveredAt, IsRoutePlace, IsUnlawfulOn};
ghost use Rattle.tp_judge.specs.Lawful.{AreWithin};
ghost use Rattle.tp_judge.specs.RouteRows.{AreRouteRows};
ghost use Rattle.tp_judge.specs.ToldOf.{AreToldOfRoutes};

use crate::gathering::gather_rows;
use crate::line::{By, IndexedLine};
use crate::place::UnlawfulPlace;
use crate::routes::route_place;
use crate::trace::IndexedTrace;
use std::alloc::Global;
use tp_common::memory::Memory;

#[derive(Drop)]
pub(crate) struct RouteRows<'t> {
    pub(crate) sent: Vec<Vec<&'t IndexedLine>>,
    pub(crate) came: Vec<Vec<&'t IndexedLine>>,
}

pub(crate) fn gather_routes<'t>(
    alloc: Global,
    trace: &'t IndexedTrace,
) -> Result<RouteRows<'t>, Memory>
    requires { AreWithin trace.now }
    ensures { IfOk result (AreRouteRows trace.now) }
{
    let routes = trace.joined.len();
    let sent = gather_rows(alloc, &trace.lines, By::Sent, routes)?;
    let came = gather_rows(alloc, &trace.lines, By::Came, routes)?;
    Ok(RouteRows { sent, came })
}

fn place_on(trace: &IndexedTrace, rows: &RouteRows<'_>, route: usize) -> Option<UnlawfulPlace>
    requires rows { AreRouteRows trace.now rows.now }
    requires route { route < length trace.now.joined.items }
    ensures { MatchOption result (IsDeliveredAt trace.now route) (IsUnlawfulOn trace.now route) }
{
    if !trace.joined[route] {
        return None;
    }
    route_place(&rows.sent[route], &rows.came[route])
}

pub(crate) fn route_places(
    alloc: Global,
    trace: &IndexedTrace,
    rows: &RouteRows<'_>,
) -> Result<Vec<UnlawfulPlace>, Memory>
    requires { AreRouteRows trace.now rows.now }
    ensures lawful { IfOk result (λ places. (places.items ≡ []) ↔ Delivered trace.now) }
    ensures told { IfOk result (λ places. All (IsRoutePlace trace.now) places.items) }
    ensures all { IfOk result (λ places. AreToldOfRoutes trace.now places.items) }
{
    let mut places = Vec::new(alloc);
    for route in 0..trace.joined.len() {
        let found = place_on(trace, rows, route);
        match found {
            None => {}
            Some(place) => places.push(place)?,
        }
    }
    Ok(places)
}
