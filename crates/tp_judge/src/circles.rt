//! The rule on circles.
ghost use Rattle.std.specs.Prelude.{◌<◌, IfOk, MatchOption, length};
ghost use Rattle.tp_judge.specs.Before.{NoCircle};
ghost use Rattle.tp_judge.specs.Circles.{IsCirclePlace};
ghost use Rattle.tp_judge.specs.Delivered.{Delivered};
ghost use Rattle.tp_judge.specs.Lawful.{AreWithin};
ghost use Rattle.tp_judge.specs.OneRun.{IsLeastOf};
ghost use Rattle.tp_judge.specs.RouteRows.{AreRouteRows};

use crate::answer::Answer;
use crate::delivery::RouteRows;
use crate::demands::make_demands;
use crate::order::order_or_circle;
use crate::place::{Rule, UnlawfulPlace};
use crate::text_order::stands_in_order;
use crate::trace::IndexedTrace;
use std::alloc::Global;
use tp_common::memory::Memory;

pub(crate) fn least(xs: &[usize]) -> usize
    requires { 0 < length xs.now }
    ensures { IsLeastOf xs.now result }
{
    let mut least = xs[0];
    for x in xs {
        if *x < least {
            least = *x;
        }
    }
    least
}

/// A line that happens before itself, if there is one: of the circle found, the first in the order
/// of the text. The trace's routes are lawful.
pub(crate) fn circle_place(
    alloc: Global,
    trace: &IndexedTrace,
    rows: &RouteRows<'_>,
) -> Result<Option<UnlawfulPlace>, Memory>
    requires within { AreWithin trace.now }
    requires delivered { Delivered trace.now }
    requires rows { AreRouteRows trace.now rows.now }
    ensures { IfOk result (λ place.
        MatchOption place (NoCircle trace.now) (IsCirclePlace trace.now)) }
{
    // A text that is such an order itself needs no demands.
    if stands_in_order(trace, rows) {
        return Ok(None);
    }
    let demands = make_demands(alloc, trace, rows)?;
    match order_or_circle(alloc, trace.numbers, &demands)? {
        Answer::Ordered(_) => Ok(None),
        Answer::Circle(circle) => Ok(Some(UnlawfulPlace {
            line: least(&circle) as u32,
            rule: Rule::Circle,
        })),
    }
}
