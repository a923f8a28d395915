//! The ruling on the text of a trace.
ghost use Rattle.std.specs.Prelude.{IfErr, IfOk};
ghost use Rattle.tp_judge.specs.Faults.{IsFaultOf};
ghost use Rattle.tp_judge.specs.Lawful.{AreLinesRouted, AreWithin};
ghost use Rattle.tp_judge.specs.Rulings.{IsNumberedText, IsRulingOf, IsRulingOn};

use crate::judging::judge;
use crate::one_run::{OneRun, one_run};
use crate::place::UnlawfulPlace;
use crate::referee::numbering::number_trace;
use crate::referee::reading::{TraceFault, read_trace};
use crate::trace::IndexedTrace;
use std::alloc::Global;
use tp_common::memory::Memory;

#[derive(Drop)]
pub enum Ruling {
    Lawful(OneRun),
    /// It isn't lawful at these places, one or more, in the order of their lines.
    Unlawful(Vec<UnlawfulPlace>),
}

fn ruling_on(alloc: Global, trace: &IndexedTrace) -> Result<Ruling, Memory>
    requires within { AreWithin trace.now }
    requires routed { AreLinesRouted trace.now }
    ensures { IfOk result (IsRulingOn trace.now) }
{
    let places = judge(alloc, trace)?;
    if places.is_empty() {
        let run = one_run(alloc, trace)?;
        return Ok(Ruling::Lawful(run));
    }
    Ok(Ruling::Unlawful(places))
}

fn number_text(alloc: Global, text: &[u8]) -> Result<IndexedTrace, TraceFault>
    ensures numbered { IfOk result (IsNumberedText text.now) }
    ensures within { IfOk result AreWithin }
    ensures routed { IfOk result AreLinesRouted }
    ensures fault { IfErr result (IsFaultOf text.now) }
{
    let trace = read_trace(alloc, text)?;
    let numbered = number_trace(alloc, &trace)?;
    Ok(numbered)
}

/// Returns whether a text is a lawful trace, and where it isn't. It refuses what [`read_trace`]
/// refuses. The time is linear in the text, except for sorting the places, and unless its names
/// were chosen to collide in a table: the seed of the hashes is fixed.
pub fn referee(alloc: Global, text: &[u8]) -> Result<Ruling, TraceFault>
    ensures ruling { IfOk result (IsRulingOf text.now) }
    ensures fault { IfErr result (IsFaultOf text.now) }
{
    // A call of its own: the tables of the text are gone before the trace is judged.
    let trace = number_text(alloc, text)?;
    let ruling = ruling_on(alloc, &trace)?;
    Ok(ruling)
}
