//! Checks whether everything happens in the order of the text, as in many traces. The check doesn't
//! allocate; a search for an order takes 48 bytes for each line.
ghost use Rattle.std.specs.Prelude.{◌≡◌, ◌<◌, ℕ, IsTrue, length};
ghost use Rattle.tp_judge.specs.Before.{NoCircle};
ghost use Rattle.tp_judge.specs.Delivered.{Delivered};
ghost use Rattle.tp_judge.specs.LinesByNumber.{lines_at};
ghost use Rattle.tp_judge.specs.RouteRows.{AreRouteRows};
ghost use Rattle.tp_judge.specs.TextOrder.{AreAscending, AreSentFirst, StandBefore};

use crate::delivery::RouteRows;
use crate::line::IndexedLine;
use crate::trace::IndexedTrace;

fn are_ascending(lines: &[IndexedLine]) -> bool
    ensures { IsTrue result → AreAscending lines.now }
{
    // 64 bits, because one more than a line's number may need 33.
    let mut next = 0u64;
    for line in lines {
        let number = u64::from(line.number);
        if number < next {
            return false;
        }
        next = number + 1;
    }
    true
}

fn stand_before(before: &[&IndexedLine], after: &[&IndexedLine]) -> bool
    ensures { IsTrue result → StandBefore (lines_at before.now) (lines_at after.now) }
{
    let count = before.len().min(after.len());
    for place in 0..count {
        if before[place].number >= after[place].number {
            return false;
        }
    }
    true
}

fn is_sent_first(trace: &IndexedTrace, rows: &RouteRows<'_>, route: usize) -> bool
    requires rows { AreRouteRows trace.now rows.now }
    requires route { route < length trace.now.joined.items }
    ensures { IsTrue result → AreSentFirst trace.now route }
{
    if !trace.joined[route] {
        return true;
    }
    stand_before(&rows.sent[route], &rows.came[route])
}

fn are_sent_first(trace: &IndexedTrace, rows: &RouteRows<'_>) -> bool
    requires { AreRouteRows trace.now rows.now }
    ensures { IsTrue result
        → (route : ℕ) → route < length trace.now.joined.items → AreSentFirst trace.now route }
{
    for route in 0..trace.joined.len() {
        if !is_sent_first(trace, rows, route) {
            return false;
        }
    }
    true
}

/// Returns true only if each line comes after everything that happens before it. Then no line
/// happens before itself.
pub(crate) fn stands_in_order(trace: &IndexedTrace, rows: &RouteRows<'_>) -> bool
    requires delivered { Delivered trace.now }
    requires rows { AreRouteRows trace.now rows.now }
    ensures { IsTrue result → NoCircle trace.now }
{
    if !are_ascending(&trace.lines) {
        return false;
    }
    are_sent_first(trace, rows)
}
