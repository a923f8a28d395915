//! All three rules.
ghost use Rattle.std.specs.Prelude.{◌≡◌, ◌↔◌, [], All, IfOk, OnOk};
ghost use Rattle.std.specs.List.Sorted.{IsPermutation};
ghost use Rattle.tp_judge.specs.Judged.{AreInOrder, IsLawful, IsOrderly, IsOrderPlace, IsUnlawfulPlace};
ghost use Rattle.tp_judge.specs.Lawful.{AreWithin};
ghost use Rattle.tp_judge.specs.ToldOf.{AreToldOf, AreToldOfOrder};

use crate::circles::circle_place;
use crate::delivery::{gather_routes, route_places};
use crate::place::UnlawfulPlace;
use crate::ports::port_places;
use crate::trace::IndexedTrace;
use std::alloc::Global;
use tp_common::memory::Memory;

fn order_places(alloc: Global, trace: &IndexedTrace) -> Result<Vec<UnlawfulPlace>, Memory>
    requires { AreWithin trace.now }
    ensures lawful { IfOk result (λ places. (places.items ≡ []) ↔ IsOrderly trace.now) }
    ensures told { IfOk result (λ places. All (IsOrderPlace trace.now) places.items) }
    ensures all { IfOk result (λ places. AreToldOfOrder trace.now places.items) }
{
    let rows = gather_routes(alloc, trace)?;
    let mut places = route_places(alloc, trace, &rows)?;
    // The search for a circle needs lawful routes.
    if !places.is_empty() {
        return Ok(places);
    }
    let found = circle_place(alloc, trace, &rows)?;
    match found {
        None => Ok(places),
        Some(place) => {
            places.push(place)?;
            Ok(places)
        }
    }
}

fn put_in_order(places: &mut Vec<UnlawfulPlace>) -> Result<(), Memory>
    ensures sorted { OnOk result (AreInOrder places.new.items) }
    ensures same { OnOk result (IsPermutation places.old.items places.new.items) }
{
    // A stable sort: places of one line keep their order.
    places.sort_by_key(|place| place.line)?;
    Ok(())
}

/// The places at which a trace isn't lawful, in the order of their lines: the first of each
/// unlawful port and route, and if all routes are lawful, one of a circle, if there is any.
pub fn judge(alloc: Global, trace: &IndexedTrace) -> Result<Vec<UnlawfulPlace>, Memory>
    requires { AreWithin trace.now }
    ensures lawful { IfOk result (λ places. (places.items ≡ []) ↔ IsLawful trace.now) }
    ensures told { IfOk result (λ places. All (IsUnlawfulPlace trace.now) places.items) }
    ensures all { IfOk result (λ places. AreToldOf trace.now places.items) }
    ensures sorted { IfOk result (λ places. AreInOrder places.items) }
{
    let mut places = port_places(alloc, trace)?;
    let mut order = order_places(alloc, trace)?;
    places.append(&mut order)?;
    put_in_order(&mut places)?;
    Ok(places)
}
