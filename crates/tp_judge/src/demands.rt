//! The demands on an order of the lines: which line happens before which.
ghost use Rattle.std.specs.Prelude.{◌≡◌, ◌++◌, ◌<◌, IfOk, OnOk, drop, length};
ghost use Rattle.tp_judge.specs.Demands.{demands_of, from_each, pairs, route_demands, section_demands};
ghost use Rattle.tp_judge.specs.LinesByNumber.{AreGathered, lines_at};
ghost use Rattle.tp_judge.specs.Lawful.{AreWithin};
ghost use Rattle.tp_judge.specs.RouteRows.{AreRouteRows};

use crate::delivery::RouteRows;
use crate::demand::Demand;
use crate::gathering::gather_rows;
use crate::line::{By, IndexedLine};
use crate::trace::IndexedTrace;
use std::alloc::Global;
use tp_common::memory::Memory;

fn add_pairs(
    demands: &mut Vec<Demand>,
    before: &[&IndexedLine],
    after: &[&IndexedLine],
) -> Result<(), Memory>
    ensures { OnOk result (demands.new.items
        ≡ demands.old.items ++ pairs (lines_at before.now) (lines_at after.now)) }
{
    let count = before.len().min(after.len());
    for place in 0..count {
        demands.push(Demand {
            before: before[place].number as usize,
            after: after[place].number as usize,
        })?;
    }
    Ok(())
}

fn add_section(demands: &mut Vec<Demand>, row: &[&IndexedLine]) -> Result<(), Memory>
    ensures { OnOk result (demands.new.items
        ≡ demands.old.items ++ pairs (lines_at row.now) (drop 1 (lines_at row.now))) }
{
    match row.split_first() {
        None => Ok(()),
        // Each line with the next one of its section: the row beside itself, one further.
        Some((_, rest)) => add_pairs(demands, row, rest),
    }
}

fn add_route(
    demands: &mut Vec<Demand>,
    trace: &IndexedTrace,
    rows: &RouteRows<'_>,
    route: usize,
) -> Result<(), Memory>
    requires rows { AreRouteRows trace.now rows.now }
    requires route { route < length trace.now.joined.items }
    ensures { OnOk result (demands.new.items ≡ demands.old.items ++ route_demands trace.now route) }
{
    if !trace.joined[route] {
        return Ok(());
    }
    add_pairs(demands, &rows.sent[route], &rows.came[route])
}

fn sections_in_order(alloc: Global, trace: &IndexedTrace) -> Result<Vec<Demand>, Memory>
    requires { AreWithin trace.now }
    ensures { IfOk result (λ demands. demands.items
        ≡ from_each (section_demands trace.now) trace.now.components) }
{
    let rows = gather_rows(alloc, &trace.lines, By::Component, trace.components)?;
    let mut demands = Vec::new(alloc);
    for component in 0..trace.components {
        add_section(&mut demands, &rows[component])?;
    }
    Ok(demands)
}

pub(crate) fn make_demands(
    alloc: Global,
    trace: &IndexedTrace,
    rows: &RouteRows<'_>,
) -> Result<Vec<Demand>, Memory>
    requires within { AreWithin trace.now }
    requires rows { AreRouteRows trace.now rows.now }
    ensures { IfOk result (λ demands. demands.items ≡ demands_of trace.now) }
{
    // The clause lists the sections before the routes.
    let mut demands = sections_in_order(alloc, trace)?;
    for route in 0..trace.joined.len() {
        add_route(&mut demands, trace, rows, route)?;
    }
    Ok(demands)
}
