//! The block that an `alt` goes on with.
ghost use Rattle.std.specs.Prelude.{◌≡◌, ◌<◌, IfOk, IfSome, IsSome, OnOk, length};
ghost use Rattle.tp_play.specs.Playable.{CanEnterAll};
ghost use Rattle.tp_inbox.specs.History.{last_chosen};
ghost use Rattle.tp_behaviour.specs.Lasting.{AreLastingBranches};
ghost use Rattle.tp_behaviour.specs.Outcomes.{HoldsAsDeclared, depth_of, stage_at};
ghost use Rattle.tp_behaviour.specs.PartOutcomes.{Decided, IsEntered, IsDecisionOf, RestsWithin};
ghost use Rattle.tp_behaviour.specs.Workers.{IsConsistent, KeepsInboxes, role_of};

use crate::choice::Guard;
use crate::choosing::{Choice, choose};
use crate::execution::Execution;
use crate::gate::Gate;
use crate::lasting::Alt;
use crate::receiving::{fill_guards, redirect, view_guards};
use crate::task::Task;
use crate::worker::{Frame, Worker};
use std::sync::Wait;
use tp_common::memory::Memory;
use tp_inbox::desk::Desk;
use tp_play::body::ResolvedBranch;

/// The block that follows an `alt`, if there is one.
#[derive(Drop)]
pub enum Decision {
    Branch(usize),
    Else,
    Waits(Vec<Guard>),
}

/// Stores what the branch at this place just took or found in the variables that it names (22.2.2).
fn enter(
    task: &Task<'_>,
    desk: &Desk,
    frame: &mut Frame,
    branches: &[ResolvedBranch],
    place: usize,
) -> Result<(), Memory>
    requires there { place < length branches.now }
    requires held { HoldsAsDeclared task.now frame.old }
    requires can { CanEnterAll (stage_at task.now) (depth_of frame.old) branches.now }
    requires chosen { IsSome (last_chosen desk.now.log) }
    ensures held { OnOk result (HoldsAsDeclared task.now frame.new) }
    ensures turns { OnOk result (frame.new.turns.items ≡ frame.old.turns.items) }
    ensures set { OnOk result (IfSome (last_chosen desk.now.log) (λ e.
        IsEntered branches.now place e frame.old.variables.items frame.new.variables.items)) }
{
    redirect(task, desk, &mut *frame, &branches[place].receiving)?;
    Ok(())
}

/// Executes an `alt` up to the block that it goes on with (ES 201 873-1, 20.2).
pub(crate) fn decide<R: Wait, G: Gate>(
    execution: &Execution<'_, R, G>,
    worker: &mut Worker,
    frame: &mut Frame,
    alt: Alt<'_>,
) -> Result<Decision, Memory>
    requires consistent { IsConsistent (role_of execution.now.task.now) worker.old }
    requires held { HoldsAsDeclared execution.now.task.now frame.old }
    requires can { CanEnterAll
        (stage_at execution.now.task.now) (depth_of frame.old) alt.branches.now }
    requires lasting { AreLastingBranches alt.branches.now alt.lasting.now }
    ensures consistent { OnOk result (IsConsistent (role_of execution.now.task.now) worker.new) }
    ensures same { OnOk result (KeepsInboxes worker.old worker.new) }
    ensures held { OnOk result (HoldsAsDeclared execution.now.task.now frame.new) }
    ensures turns { OnOk result (frame.new.turns.items ≡ frame.old.turns.items) }
    ensures decided { IfOk result (λ decision.
        Decided execution.now.task.now alt.entry.branches.now alt.entry.has_else decision
        worker.old frame.old worker.new frame.new) }
    ensures there { IfOk result (IsDecisionOf alt.entry.branches.now) }
    ensures within { IfOk result (RestsWithin worker.old.desk.ports) }
{
    let views = view_guards(execution.task, &*frame, alt.branches, alt.lasting)?;
    match choose(execution, &mut *worker, views.as_slice(), alt.has_else)? {
        Choice::Branch(place) => {
            enter(
                execution.task,
                &worker.desk,
                &mut *frame,
                alt.branches,
                place,
            )?;
            Ok(Decision::Branch(place))
        }
        Choice::Else => Ok(Decision::Else),
        Choice::Waits => {
            let guards = fill_guards(execution.task, &*frame, alt.branches)?;
            Ok(Decision::Waits(guards))
        }
    }
}
