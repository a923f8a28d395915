//! The choice of an `alt`.
ghost use Rattle.std.specs.Prelude.{◌<◌, All, IfOk, OnOk};
ghost use Rattle.tp_behaviour.specs.LookOutcomes.{Chose, TraceGrew};
ghost use Rattle.tp_behaviour.specs.Workers.{IsConsistent, KeepsInboxes, role_of};
ghost use Rattle.tp_behaviour.specs.Views.{all_viewed};

use crate::choice::{GuardView, LookResult};
use crate::execution::Execution;
use crate::gate::Gate;
use crate::looking::{look_at_branches, note};
use crate::task::Task;
use crate::worker::Worker;
use std::sync::Wait;
use tp_common::memory::Memory;
use tp_floor::notifier::Woken;
use tp_inbox::entry::Entry;
use tp_inbox::owner::Owner;

/// What an `alt` goes on with.
#[derive(Clone, Copy)]
pub enum Choice {
    /// The branch at this place, with the message in the last entry of the history.
    Branch(usize),
    Else,
    Waits,
}

/// Waits until something is put into the inbox, or until nothing can be; returns which of the two.
/// If all behaviours wait, it closes all inboxes.
fn wait_for_more<R: Wait>(rt: &R, task: &Task<'_>, owner: &Owner) -> bool {
    match owner.wait(rt) {
        Woken::Arrived => false,
        Woken::Closed => true,
        Woken::Last => {
            for closer in task.closers {
                closer.close(rt);
            }
            true
        }
    }
}

/// Executes an `alt` up to the choice of a branch (ES 201 873-1, 20.2). It looks at the branches
/// until one or `[else]` is chosen, or until nothing can arrive any more.
pub(crate) fn choose<R: Wait, G: Gate>(
    execution: &Execution<'_, R, G>,
    worker: &mut Worker,
    guards: &[GuardView<'_>],
    has_else: bool,
) -> Result<Choice, Memory>
    requires consistent { IsConsistent (role_of execution.now.task.now) worker.old }
    requires within { All (λ g. g.port < worker.old.desk.ports) guards.now }
    ensures consistent { OnOk result (IsConsistent (role_of execution.now.task.now) worker.new) }
    ensures same { OnOk result (KeepsInboxes worker.old worker.new) }
    ensures chose { IfOk result (λ choice.
        TraceGrew (Chose (all_viewed guards.now) has_else worker.new.desk.log choice)
        worker.old.desk.log worker.new.desk.log) }
{
    let mut last = false;
    for _ in execution.rt.forever() {
        match look_at_branches(execution, &mut *worker, guards)? {
            LookResult::Taken(branch) => return Ok(Choice::Branch(branch)),
            LookResult::Discarded => {}
            LookResult::Nothing => {
                if has_else {
                    note(execution.task, &mut *worker, Entry::Else)?;
                    return Ok(Choice::Else);
                }
                if last {
                    return Ok(Choice::Waits);
                }
                // If nothing more can come, it looks once more: something may have come before.
                last = wait_for_more(execution.rt, execution.task, &worker.owner);
            }
        }
    }
    // The loop ends by a return alone.
    unreachable!()
}
