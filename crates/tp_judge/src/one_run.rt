//! Decides whether a trace is one run.
ghost use Rattle.std.specs.Prelude.{IfOk};
ghost use Rattle.tp_judge.specs.Delivered.{Delivered};
ghost use Rattle.tp_judge.specs.Lawful.{AreLinesRouted, AreWithin};
ghost use Rattle.tp_judge.specs.OneRun.{IsOneRunAnswer};

use crate::circles::least;
use crate::one_order::{search_order, unfinished};
use crate::progress::Search;
use crate::sections::trace_histories;
use crate::stuck::demand_circle;
use crate::trace::IndexedTrace;
use std::alloc::Global;
use tp_common::memory::Memory;

/// The result of the search for one order of everything that the components did, with each message
/// in its queue as soon as it is sent.
#[derive(Clone, Copy)]
pub enum OneRun {
    OneRun,
    /// There is none, because some message took its time. The number is that of a line on a circle
    /// of the demands on an order: the first of the circle in the order of the text.
    Delayed(u32),
}

/// Decides whether a trace whose routes are lawful is one run (ES 201 873-4), in time linear in the
/// numbers of its lines, components and routes. Its numbers are below its counts, and each line's
/// port is the one at the end of its route.
pub fn one_run(alloc: Global, trace: &IndexedTrace) -> Result<OneRun, Memory>
    requires within { AreWithin trace.now }
    requires routed { AreLinesRouted trace.now }
    requires delivered { Delivered trace.now }
    ensures { IfOk result (IsOneRunAnswer trace.now) }
{
    let histories = trace_histories(alloc, trace)?;
    let Search {
        progress,
        mut cursors,
    } = search_order(alloc, &histories)?;
    match unfinished(&histories, &progress) {
        None => Ok(OneRun::OneRun),
        Some(c) => {
            let circle = demand_circle(alloc, &histories, &progress, &mut cursors, c)?;
            Ok(OneRun::Delayed(trace.lines[least(&circle)].number))
        }
    }
}
