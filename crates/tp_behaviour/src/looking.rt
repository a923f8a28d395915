//! The look of a behaviour before it acts on its ports.
ghost use Rattle.std.specs.Prelude.{◌≡◌, ◌<◌, All, IfOk, IfSome, IsTrue, OnOk};
ghost use Rattle.tp_inbox.specs.Desks.{NamesNoPort};
ghost use Rattle.tp_inbox.specs.Routed.{AreArrivals};
ghost use Rattle.tp_behaviour.specs.Fresh.{HasOwn, LooksAtPorts};
ghost use Rattle.tp_behaviour.specs.Moments.{moments};
ghost use Rattle.tp_behaviour.specs.LookOutcomes.{AddsEntry, Saw, SawEarly};
ghost use Rattle.tp_behaviour.specs.Workers.{IsConsistent, IsPlain, KeepsInboxes, role_of};
ghost use Rattle.tp_behaviour.specs.Views.{all_viewed};

use crate::choice::{GuardView, LookResult, snapshot};
use crate::execution::Execution;
use crate::gate::Gate;
use crate::task::Task;
use crate::worker::Worker;
use std::sync::Wait;
use tp_common::memory::Memory;
use tp_inbox::desk::Desk;
use tp_inbox::entry::Entry;

/// So many messages are moved at once if a look needs one of them. Few, so that they are still in
/// the processor's cache when they are taken.
const FEW_MESSAGES: u64 = 256;

fn drain<R: Wait>(rt: &R, task: &Task<'_>, worker: &mut Worker, most: u64) -> Result<(), Memory>
    requires { IsConsistent (role_of task.now) worker.old }
    ensures consistent { OnOk result (IsConsistent (role_of task.now) worker.new) }
    ensures same { OnOk result (KeepsInboxes worker.old worker.new) }
    ensures ports { OnOk result (worker.new.desk.ports ≡ worker.old.desk.ports) }
    ensures trace { OnOk result (moments worker.new.desk.log ≡ moments worker.old.desk.log) }
    ensures routed { OnOk result
        (AreArrivals worker.new.owner.inbox.routes worker.new.owner.drained) }
{
    worker.owner.drain_some(rt, &mut worker.desk, most)?;
    Ok(())
}

/// Moves what has arrived in the inbox to the ports, until everything that the component has sent
/// to itself is there.
pub(crate) fn look_in<R: Wait>(rt: &R, task: &Task<'_>, worker: &mut Worker) -> Result<(), Memory>
    requires consistent { IsConsistent (role_of task.now) worker.old }
    ensures consistent { OnOk result (IsConsistent (role_of task.now) worker.new) }
    ensures same { OnOk result (KeepsInboxes worker.old worker.new) }
    ensures ports { OnOk result (worker.new.desk.ports ≡ worker.old.desk.ports) }
    ensures trace { OnOk result (moments worker.new.desk.log ≡ moments worker.old.desk.log) }
    ensures own { OnOk result (HasOwn task.now.comp worker.new.desk.log) }
{
    for _ in rt.forever() {
        drain(rt, task, &mut *worker, u64::MAX)?;
        if worker.outbox.is_level(&worker.owner) {
            return Ok(());
        }
    }
    // The loop ends by a return alone.
    unreachable!()
}

/// Notes an action of the behaviour itself other than a send.
pub(crate) fn note(task: &Task<'_>, worker: &mut Worker, entry: Entry) -> Result<(), Memory>
    requires consistent { IsConsistent (role_of task.now) worker.old }
    requires noted { NamesNoPort entry }
    requires plain { IsPlain entry }
    requires own { LooksAtPorts entry → HasOwn task.now.comp worker.old.desk.log }
    ensures consistent { OnOk result (IsConsistent (role_of task.now) worker.new) }
    ensures same { OnOk result (KeepsInboxes worker.old worker.new) }
    ensures ports { OnOk result (worker.new.desk.ports ≡ worker.old.desk.ports) }
    ensures trace { OnOk result (AddsEntry worker.old.desk entry worker.new.desk) }
{
    // Only the clauses need the task: they name the configuration and the component.
    let _task = task;
    let Ok(()) = worker.desk.note(entry) else {
        return Err(Memory);
    };
    Ok(())
}

/// The port of all branches, or `None` if they are at several.
fn common_port(desk: &Desk, guards: &[GuardView<'_>]) -> Option<u32>
    requires { All (λ g. g.port < desk.now.ports) guards.now }
    ensures { IfSome result (λ port. port < desk.now.ports) }
{
    // Contracts alone speak of the desk.
    let _desk = desk;
    let port = guards.first()?.port;
    for guard in guards {
        if guard.port != port {
            return None;
        }
    }
    Some(port)
}

/// Moves some of what has arrived, unless this port offers a message already.
fn offer<R: Wait>(rt: &R, task: &Task<'_>, worker: &mut Worker, port: u32) -> Result<(), Memory>
    requires consistent { IsConsistent (role_of task.now) worker.old }
    requires within { port < worker.old.desk.ports }
    ensures consistent { OnOk result (IsConsistent (role_of task.now) worker.new) }
    ensures same { OnOk result (KeepsInboxes worker.old worker.new) }
    ensures ports { OnOk result (worker.new.desk.ports ≡ worker.old.desk.ports) }
    ensures trace { OnOk result (moments worker.new.desk.log ≡ moments worker.old.desk.log) }
{
    if worker.desk.queue(port).ahead() > 0 {
        return Ok(());
    }
    drain(rt, task, &mut *worker, FEW_MESSAGES)
}

/// Returns whether this port offers a message, and all that the component has sent to itself has
/// arrived.
fn is_served(task: &Task<'_>, worker: &Worker, port: u32) -> bool
    requires consistent { IsConsistent (role_of task.now) worker.now }
    requires within { port < worker.now.desk.ports }
    ensures { IsTrue result → HasOwn task.now.comp worker.now.desk.log }
{
    // Contracts alone speak of the task.
    let _task = task;
    if worker.desk.queue(port).ahead() == 0 {
        return false;
    }
    // It is current, as before: for its clause.
    worker.owner.is_current(&worker.desk) && worker.outbox.is_level(&worker.owner)
}

/// Tries the branches from the top (20.2).
fn try_branches<G: Gate>(
    gate: &G,
    task: &Task<'_>,
    worker: &mut Worker,
    guards: &[GuardView<'_>],
) -> Result<LookResult, Memory>
    requires consistent { IsConsistent (role_of task.now) worker.old }
    requires within { All (λ g. g.port < worker.old.desk.ports) guards.now }
    requires own { HasOwn task.now.comp worker.old.desk.log }
    ensures consistent { OnOk result (IsConsistent (role_of task.now) worker.new) }
    ensures same { OnOk result (KeepsInboxes worker.old worker.new) }
    ensures ports { OnOk result (worker.new.desk.ports ≡ worker.old.desk.ports) }
    ensures saw { IfOk result (λ look. Saw task.now.comp (all_viewed guards.now) look
        worker.old.desk.log worker.new.desk.log) }
{
    let look = snapshot(gate, &mut worker.desk, guards)?;
    Ok(look)
}

/// Looks at branches that are at one port before all that has arrived is moved: once the port
/// offers a message, none of them sees a later one. `Nothing` if they choose and discard nothing,
/// if they are at several ports, and if the component has sent something and didn't find its inbox
/// empty since: after a sending, one order of all that the components do can have a look only where
/// all that was put before is there.
fn look_early<R: Wait, G: Gate>(
    execution: &Execution<'_, R, G>,
    worker: &mut Worker,
    guards: &[GuardView<'_>],
) -> Result<LookResult, Memory>
    requires consistent { IsConsistent (role_of execution.now.task.now) worker.old }
    requires within { All (λ g. g.port < worker.old.desk.ports) guards.now }
    ensures consistent { OnOk result (IsConsistent (role_of execution.now.task.now) worker.new) }
    ensures same { OnOk result (KeepsInboxes worker.old worker.new) }
    ensures ports { OnOk result (worker.new.desk.ports ≡ worker.old.desk.ports) }
    ensures saw { IfOk result (λ look.
        SawEarly execution.now.task.now.comp (all_viewed guards.now) look
        worker.old.desk.log worker.new.desk.log) }
{
    let (gate, task) = (execution.gate, execution.task);
    if gate.always_drains() || !worker.owner.is_current(&worker.desk) {
        return Ok(LookResult::Nothing);
    }
    let Some(port) = common_port(&worker.desk, guards) else {
        return Ok(LookResult::Nothing);
    };
    offer(execution.rt, task, &mut *worker, port)?;
    if !is_served(task, &*worker, port) {
        return Ok(LookResult::Nothing);
    }
    let early = try_branches(gate, task, &mut *worker, guards)?;
    Ok(early)
}

/// Moves what has arrived to the ports, if a look can see it, and tries the branches.
pub(crate) fn look_at_branches<R: Wait, G: Gate>(
    execution: &Execution<'_, R, G>,
    worker: &mut Worker,
    guards: &[GuardView<'_>],
) -> Result<LookResult, Memory>
    requires consistent { IsConsistent (role_of execution.now.task.now) worker.old }
    requires within { All (λ g. g.port < worker.old.desk.ports) guards.now }
    ensures consistent { OnOk result (IsConsistent (role_of execution.now.task.now) worker.new) }
    ensures same { OnOk result (KeepsInboxes worker.old worker.new) }
    ensures ports { OnOk result (worker.new.desk.ports ≡ worker.old.desk.ports) }
    ensures saw { IfOk result (λ look.
        Saw execution.now.task.now.comp (all_viewed guards.now) look
        worker.old.desk.log worker.new.desk.log) }
{
    match look_early(execution, &mut *worker, guards)? {
        LookResult::Nothing => {}
        look => return Ok(look),
    }
    look_in(execution.rt, execution.task, &mut *worker)?;
    let look = try_branches(execution.gate, execution.task, &mut *worker, guards)?;
    Ok(look)
}
