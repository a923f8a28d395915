//! The reader of a trace's text.
ghost use Rattle.std.specs.Prelude.{◌≡◌, ◌+◌, ◌<◌, ◌≤◌, ◌==◌, ◌↔◌, IsErrOf, IfErr, IfOk, MatchOption, length, count_by};
ghost use Rattle.tp_common.specs.Cutting.{IsFrontOf, IsLeftOf};
ghost use Rattle.tp_judge.specs.LineTexts.{Told, Spells};
ghost use Rattle.tp_judge.specs.Tree.{BadLinesStayBad, IsTraceOf, SaysOneAtMost, MayStandAt, told_of};
ghost use Rattle.tp_judge.specs.Spans.{IsSpanOf, span_text};
ghost use Rattle.tp_judge.specs.Faults.{IsFaultOf, Notes, TakesPlace};

use crate::referee::form::{TracePosition, may_stand, place_after};
use crate::referee::line::Line;
use crate::referee::read::trace_line;
use crate::referee::tree::{Span, Trace};
use crate::referee::words::NumberedWords;
use std::alloc::{AllocError, AllocFailed, Global};
use thiserror::Error;
use tp_common::cut::first_line;
use tp_common::memory::Memory;

/// The maximum number of bytes of a trace: 256 MiB.
pub const TRACE_LIMIT: usize = 268_435_456;

/// Why a text can't be read as a trace.
#[derive(Clone, Copy, Debug, Error)]
pub enum TraceFault {
    /// 1 BadLine: the line of this number, from 1, is the first with another form than a trace has.
    #[error("line {0} is no line of a trace")]
    BadLine(u64),
    /// 15 Limit: the text has more than [`TRACE_LIMIT`] bytes.
    #[error("the text has more than {TRACE_LIMIT} bytes")]
    Limit,
    /// 50 Memory: an allocation was refused.
    #[error("out of memory")]
    Memory,
}

impl From<Memory> for TraceFault {
    ghost use Rattle.std.specs.Prelude.{◌≡◌};
    ghost use Rattle.tp_judge.specs.declared.referee.reading.TraceFault.TheVariants as trace_fault;

    ghost from_gives = { λ _ fault. fault ≡ trace_fault.Memory };

    fn from(_refused: Memory) -> TraceFault {
        TraceFault::Memory
    }
}

impl From<AllocError> for TraceFault {
    ghost use Rattle.std.specs.Prelude.{◌≡◌};
    ghost use Rattle.tp_judge.specs.declared.referee.reading.TraceFault.TheVariants as trace_fault;

    ghost from_gives = { λ _ fault. fault ≡ trace_fault.Memory };

    fn from(_refused: AllocError) -> TraceFault {
        TraceFault::Memory
    }
}

impl<T: Drop> From<AllocFailed<T>> for TraceFault {
    ghost use Rattle.std.specs.Prelude.{◌≡◌};
    ghost use Rattle.tp_judge.specs.declared.referee.reading.TraceFault.TheVariants as trace_fault;

    ghost from_gives = { λ _ fault. fault ≡ trace_fault.Memory };

    fn from(_refused: AllocFailed<T>) -> TraceFault {
        TraceFault::Memory
    }
}

fn room_for(text: &[u8]) -> usize
    requires { length text.now ≤ 268435456 }
    ensures { result ≡ count_by (λ byte. byte == 10) text.now + 1 }
{
    // One more, because the last line may have no line feed.
    text.iter().filter(|byte| **byte == b'\n').count() + 1
}

fn span_of(text: &[u8], rest: &[u8], line: &[u8]) -> Span
    requires size { length text.now ≤ 268435456 }
    requires left { IsLeftOf text.now rest.now }
    requires front { IsFrontOf rest.now line.now }
    ensures piece { span_text text.now result ≡ line.now }
    ensures within { IsSpanOf (length text.now) result }
{
    let start = text.len() - rest.len();
    Span {
        start: start as u32,
        end: (start + line.len()) as u32,
    }
}

fn is_new<'t>(names: &mut NumberedWords<'t>, line: &Line<'t>) -> Result<bool, Memory>
    ensures { IfOk result (λ new. Notes names.old names.new (told_of line.now) new) }
{
    match line {
        Line::Component(name) => names.add(name),
        _ => Ok(true),
    }
}

fn step<'t>(
    names: &mut NumberedWords<'t>,
    place: TracePosition,
    bytes: &'t [u8],
) -> Result<Option<TracePosition>, Memory>
    ensures { IfOk result (λ after. MatchOption after
        ((told : Told) → Spells bytes.now told → MayStandAt place names.old told → ⊥)
        (TakesPlace bytes.now place names.old names.new)) }
{
    let Some(line) = trace_line(bytes) else {
        return Ok(None);
    };
    if !may_stand(place, &line) {
        return Ok(None);
    }
    if !is_new(names, &line)? {
        return Ok(None);
    }
    Ok(Some(place_after(&line)))
}

/// Reads a text as a trace. 15 `Limit` for a text of more than [`TRACE_LIMIT`] bytes, else 1
/// `BadLine` for its first line that isn't valid, or that may not follow those before it.
pub fn read_trace<'t>(alloc: Global, text: &'t [u8]) -> Result<Trace<'t>, TraceFault>
    ensures trace { IfOk result (IsTraceOf text.now) }
    ensures fault { IfErr result (IsFaultOf text.now) }
    ensures limit { IsErrOf result TraceFault.Limit ↔ (268435456 < length text.now) }
{
    if text.len() > TRACE_LIMIT {
        return Err(TraceFault::Limit);
    }
    let mut spans = Vec::with_capacity(alloc, room_for(text))?;
    let mut names = NumberedWords::new(alloc);
    let mut place = TracePosition::Front;
    let mut rest = text;
    while !rest.is_empty() {
        let (bytes, next) = first_line(rest);
        let number = spans.len() as u64 + 1;
        match step(&mut names, place, bytes)? {
            Some(after) => place = after,
            None => return Err(TraceFault::BadLine(number)),
        }
        spans.push(span_of(text, rest, bytes))?;
        rest = next;
    }
    Ok(Trace::of(text, spans, names))
}

/// A text is at most one list of lines, and so one trace. This is a law without work.
pub fn says_one_at_most()
    ensures { SaysOneAtMost }
{}

/// A line that [`read_trace`] refuses is bad whatever follows it, so that no trace is refused. This
/// is a law without work.
pub fn bad_lines_stay_bad()
    ensures { BadLinesStayBad }
{}
