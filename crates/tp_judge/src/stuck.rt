//! The circle of demands where the search for one order of the lines of a trace is stuck.
ghost use Rattle.std.specs.Prelude.{◌<◌, ◌≤◌, ℕ, All, IfOk, length, slice_index};
ghost use Rattle.tp_judge.specs.Greedy.{MaySend};
ghost use Rattle.tp_judge.specs.OneRun.{IsDemandCircle, IsDemanded, IsOwnAt, IsSentAt};
ghost use Rattle.tp_judge.specs.Stuck.{HasCursors, HasRows, HoldsBack, IsDue, IsAhead, IsNextOwn};
ghost use Rattle.tp_judge.specs.Stuck.{IsStuckAt, kinds_in};

use crate::circle::back_from;
use crate::histories::Histories;
use crate::kind::EntryKind;
use crate::line::Mention;
use crate::one_order::next_message;
use crate::progress::{ArrivalCursor, OrderProgress};
use crate::sections::TraceHistories;
use crate::sendings::{gather_sendings, sending_place};
use crate::trace::IndexedTrace;
use std::alloc::Global;
use tp_common::memory::Memory;

/// The first line between the two, or else the last one, with which the component did something
/// itself.
fn next_own(trace: &IndexedTrace, component: u32, from: usize, to: usize) -> usize
    requires own { IsOwnAt trace.now component to }
    requires order { from ≤ to }
    ensures { IsNextOwn trace.now component from result }
{
    for place in from..to {
        let line = trace.lines[place];
        if line.component == component && line.act.is_own() {
            return place;
        }
    }
    to
}

/// A line ahead that comes before the sending of this message: the sending of the next message that
/// comes to the same component, or if it is this one, the component's last look before it comes.
fn before_sending(
    histories: &TraceHistories<'_>,
    rows: &[Vec<usize>],
    progress: &OrderProgress,
    cursors: &mut Vec<ArrivalCursor>,
    to: usize,
    message: Mention,
) -> usize
    requires stuck { IsStuckAt histories.now progress.now }
    requires rows { HasRows histories.now rows.now }
    requires cursors { HasCursors histories.now progress.now cursors.old.items }
    requires due { IsDue histories.now progress.now to message }
    requires held { MaySend (kinds_in histories.now) (slice_index progress.now.places.items)
        (slice_index progress.now.sent.items) message to → ⊥ }
    ensures cursors { HasCursors histories.now progress.now cursors.new.items }
    ensures ahead { IsAhead histories.now progress.now result }
    ensures demanded { (sending : ℕ) → IsSentAt histories.now.trace.now sending message
        → IsDemanded histories.now.trace.now result sending }
{
    // The message itself is still to come, so there is a next one.
    let Some(next) = next_message(histories, progress, &mut *cursors, to) else {
        unreachable!()
    };
    if !histories.is_same(next, message) {
        return sending_place(histories.trace, rows, next);
    }
    cursors[to].after - 1
}

/// A line ahead that comes before the next one with which the component did something itself.
fn before_next_own(
    histories: &TraceHistories<'_>,
    rows: &[Vec<usize>],
    progress: &OrderProgress,
    cursors: &mut Vec<ArrivalCursor>,
    c: usize,
) -> usize
    requires stuck { IsStuckAt histories.now progress.now }
    requires rows { HasRows histories.now rows.now }
    requires cursors { HasCursors histories.now progress.now cursors.old.items }
    requires within { c < length histories.now.sections.items }
    requires unfinished { slice_index progress.now.places.items c
        < length (kinds_in histories.now c) }
    ensures cursors { HasCursors histories.now progress.now cursors.new.items }
    ensures holds { HoldsBack histories.now progress.now result c }
{
    match histories.kind(c, progress.places[c]) {
        EntryKind::Came(message) => sending_place(histories.trace, rows, message),
        EntryKind::Sent(to, message) => {
            before_sending(histories, rows, progress, cursors, to as usize, message)
        }
        // The search passes these without waiting, so it is never stuck at one.
        EntryKind::Looked | EntryKind::Quiet | EntryKind::Nothing => unreachable!(),
    }
}

/// A line ahead that comes before this one, which is ahead too.
fn before_line(
    histories: &TraceHistories<'_>,
    rows: &[Vec<usize>],
    progress: &OrderProgress,
    cursors: &mut Vec<ArrivalCursor>,
    place: usize,
) -> usize
    requires stuck { IsStuckAt histories.now progress.now }
    requires rows { HasRows histories.now rows.now }
    requires cursors { HasCursors histories.now progress.now cursors.old.items }
    requires ahead { IsAhead histories.now progress.now place }
    ensures cursors { HasCursors histories.now progress.now cursors.new.items }
    ensures ahead { IsAhead histories.now progress.now result }
    ensures demanded { IsDemanded histories.now.trace.now result place }
{
    let line = histories.trace.lines[place];
    let c = line.component as usize;
    let from = progress.places[c];
    let own = next_own(histories.trace, line.component, from, place);
    if own < place {
        return own;
    }
    before_next_own(histories, rows, progress, cursors, c)
}

/// A circle of demands on an order of the lines, if the search for one is stuck in the history of
/// component `c`.
pub(crate) fn demand_circle(
    alloc: Global,
    histories: &TraceHistories<'_>,
    progress: &OrderProgress,
    cursors: &mut Vec<ArrivalCursor>,
    c: usize,
) -> Result<Vec<usize>, Memory>
    requires stuck { IsStuckAt histories.now progress.now }
    requires cursors { HasCursors histories.now progress.now cursors.old.items }
    requires within { c < length histories.now.sections.items }
    requires unfinished { slice_index progress.now.places.items c
        < length (kinds_in histories.now c) }
    ensures below { IfOk result (λ circle.
        All (λ x. x < length histories.now.trace.now.lines.items) circle.items) }
    ensures circle { IfOk result (λ circle.
        IsDemandCircle histories.now.trace.now circle.items) }
{
    let rows = gather_sendings(alloc, histories.trace)?;
    // For each line one more than its place in the path, and 0 for one that isn't there.
    let mut places = vec![in alloc; 0; histories.trace.lines.len()]?;
    let mut path = Vec::new(alloc);
    let mut x = before_next_own(histories, &rows, progress, &mut *cursors, c);
    // Only lines ahead are visited, and these are finitely many, so one is reached again.
    while places[x] == 0 {
        path.push(x)?;
        places[x] = path.len();
        x = before_line(histories, &rows, progress, &mut *cursors, x);
    }
    Ok(back_from(alloc, &path, places[x] - 1)?)
}
