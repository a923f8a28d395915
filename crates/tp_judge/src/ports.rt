//! The rule on ports.
ghost use Rattle.std.specs.Prelude.{◌≡◌, ◌↔◌, ◌<◌, [], All, IfOk, IsTrue, MatchOption, Some, length, slice_get};
ghost use Rattle.tp_queue.specs.Queues.{AtHistory};
ghost use Rattle.tp_judge.specs.LinesByNumber.{lines_at};
ghost use Rattle.tp_judge.specs.Lawful.{AreWithin, IsCloserNumber, IsCloserOf, IsLawfulAt, IsLawfulPort};
ghost use Rattle.tp_judge.specs.Lawful.{IsLeftBroken, IsPortPlace, IsToldLeft, IsUnlawfulAt};
ghost use Rattle.tp_judge.specs.Lawful.{IsUnlawfulPort, LawfulPorts};
ghost use Rattle.tp_judge.specs.PortRows.{AreClosers, ArePortRows};
ghost use Rattle.tp_judge.specs.Lines.{envelope_of};
ghost use Rattle.tp_judge.specs.ToldOf.{AreToldOfPorts};

use crate::gathering::gather_rows;
use crate::line::{Act, By, IndexedLine, Mention, MessageId};
use crate::place::{Rule, UnlawfulPlace};
use crate::replaying::{Replayed, is_env, replay};
use crate::trace::IndexedTrace;
use std::alloc::Global;
use tp_common::memory::Memory;
use tp_queue::queue::Queue;

fn is_queued(queue: &Queue<MessageId>, place: u64, mention: Mention) -> bool
    ensures { IsTrue result ↔ (slice_get queue.now.entries place ≡ Some (envelope_of mention)) }
{
    match queue.queued_at(place) {
        None => false,
        Some(env) => is_env(env, mention),
    }
}

/// The line at which a message is reported that isn't listed as left: the first that says that the
/// component ended, or the last if none does.
fn closer_number(closing: &[&IndexedLine]) -> u32
    requires { 0 < length closing.now }
    ensures { IsCloserNumber (lines_at closing.now) result }
{
    for line in closing {
        if let Act::End = line.act {
            return line.number;
        }
    }
    closing[closing.len() - 1].number
}

fn closer_of(closing: &[&IndexedLine]) -> Option<u32>
    ensures { IsCloserOf (lines_at closing.now) result }
{
    if closing.is_empty() {
        return None;
    }
    Some(closer_number(closing))
}

fn closers_of(alloc: Global, closing: &[Vec<&IndexedLine>]) -> Result<Vec<Option<u32>>, Memory>
    ensures { IfOk result (λ closers. AreClosers closing.now closers.items) }
{
    // Once for each component, and not again for each of its ports.
    let mut closers = Vec::with_capacity(alloc, closing.len())?;
    for row in closing {
        closers.push(closer_of(row))?;
    }
    Ok(closers)
}

fn left_place(
    queue: &Queue<MessageId>,
    left: &[&IndexedLine],
    closing: &[&IndexedLine],
    closer: Option<u32>,
) -> Option<UnlawfulPlace>
    requires { IsCloserOf (lines_at closing.now) closer }
    ensures { AtHistory queue.now (λ h. MatchOption result
        (IsToldLeft h (lines_at left.now) (lines_at closing.now))
        (IsLeftBroken h (lines_at left.now) (lines_at closing.now))) }
{
    // An open section need not say what is left.
    let Some(closer) = closer else {
        return None;
    };
    // Only the clauses mention these lines.
    let _ = closing;
    let count = queue.queued_len();
    let mut told = 0u64;
    for line in left {
        if let Act::Left(mention) = line.act {
            if !is_queued(queue, told, mention) {
                return Some(UnlawfulPlace {
                    line: line.number,
                    rule: Rule::Left,
                });
            }
            told += 1;
        }
    }
    if told < count {
        return Some(UnlawfulPlace {
            line: closer,
            rule: Rule::Left,
        });
    }
    None
}

fn port_place(
    alloc: Global,
    events: &[&IndexedLine],
    left: &[&IndexedLine],
    closing: &[&IndexedLine],
    closer: Option<u32>,
) -> Result<Option<UnlawfulPlace>, Memory>
    requires { IsCloserOf (lines_at closing.now) closer }
    ensures { IfOk result (λ place. MatchOption place
        (IsLawfulPort (lines_at events.now) (lines_at left.now) (lines_at closing.now))
        (IsUnlawfulPort (lines_at events.now) (lines_at left.now) (lines_at closing.now))) }
{
    match replay(alloc, events)? {
        Replayed::Unlawful(place) => Ok(Some(place)),
        Replayed::Lawful(queue) => Ok(left_place(&queue, left, closing, closer)),
    }
}

#[derive(Drop)]
struct PortRows<'t> {
    events: Vec<Vec<&'t IndexedLine>>,
    left: Vec<Vec<&'t IndexedLine>>,
    closing: Vec<Vec<&'t IndexedLine>>,
    closers: Vec<Option<u32>>,
}

fn gather_ports<'t>(alloc: Global, trace: &'t IndexedTrace) -> Result<PortRows<'t>, Memory>
    requires { AreWithin trace.now }
    ensures { IfOk result (ArePortRows trace.now) }
{
    let ports = trace.owners.len();
    let events = gather_rows(alloc, &trace.lines, By::Port, ports)?;
    let left = gather_rows(alloc, &trace.lines, By::Left, ports)?;
    let closing = gather_rows(alloc, &trace.lines, By::Closing, trace.components)?;
    let closers = closers_of(alloc, &closing)?;
    Ok(PortRows {
        events,
        left,
        closing,
        closers,
    })
}

fn place_at(
    alloc: Global,
    trace: &IndexedTrace,
    rows: &PortRows<'_>,
    port: usize,
) -> Result<Option<UnlawfulPlace>, Memory>
    requires within { AreWithin trace.now }
    requires rows { ArePortRows trace.now rows.now }
    requires port { port < length trace.now.owners.items }
    ensures { IfOk result (λ place.
        MatchOption place (IsLawfulAt trace.now port) (IsUnlawfulAt trace.now port)) }
{
    let owner = trace.owners[port] as usize;
    port_place(
        alloc,
        &rows.events[port],
        &rows.left[port],
        &rows.closing[owner],
        rows.closers[owner],
    )
}

pub(crate) fn port_places(alloc: Global, trace: &IndexedTrace) -> Result<Vec<UnlawfulPlace>, Memory>
    requires { AreWithin trace.now }
    ensures lawful { IfOk result (λ places. (places.items ≡ []) ↔ LawfulPorts trace.now) }
    ensures told { IfOk result (λ places. All (IsPortPlace trace.now) places.items) }
    ensures all { IfOk result (λ places. AreToldOfPorts trace.now places.items) }
{
    let rows = gather_ports(alloc, trace)?;
    let mut places = Vec::new(alloc);
    for port in 0..trace.owners.len() {
        let found = place_at(alloc, trace, &rows, port)?;
        match found {
            None => {}
            Some(place) => places.push(place)?,
        }
    }
    Ok(places)
}
