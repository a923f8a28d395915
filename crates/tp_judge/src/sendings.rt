//! The places at which the messages of each route were sent.
ghost use Rattle.std.specs.Prelude.{IfOk, length};
ghost use Rattle.tp_judge.specs.Delivered.{Delivered};
ghost use Rattle.tp_judge.specs.Lawful.{AreLinesRouted, AreWithin};
ghost use Rattle.tp_judge.specs.OneRun.{IsSentAt};
ghost use Rattle.tp_judge.specs.Sendings.{AreSendingRows, HasCome};

use crate::gathering::empty_rows;
use crate::line::{By, Mention};
use crate::trace::IndexedTrace;
use std::alloc::Global;
use tp_common::memory::Memory;

pub(crate) fn gather_sendings(
    alloc: Global,
    trace: &IndexedTrace,
) -> Result<Vec<Vec<usize>>, Memory>
    requires { AreWithin trace.now }
    ensures { IfOk result (λ rows.
        AreSendingRows trace.now (length trace.now.lines.items) rows.items) }
{
    let mut rows = empty_rows(alloc, trace.joined.len())?;
    for (place, line) in trace.lines.iter().enumerate() {
        if let Some(route) = line.key(By::Sent) {
            rows[route as usize].push(place)?;
        }
    }
    Ok(rows)
}

pub(crate) fn sending_place(trace: &IndexedTrace, rows: &[Vec<usize>], mention: Mention) -> usize
    requires routed { AreLinesRouted trace.now }
    requires delivered { Delivered trace.now }
    requires rows { AreSendingRows trace.now (length trace.now.lines.items) rows.now }
    requires come { HasCome trace.now mention }
    ensures { IsSentAt trace.now result mention }
{
    rows[mention.route as usize][mention.parcel.number as usize]
}
