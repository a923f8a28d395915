//! Receiving operations of a behaviour.
ghost use Rattle.std.specs.Prelude.{◌≡◌, ◌<◌, ◌≤◌, IfOk, IfSome, IsSome, OnOk, length};
ghost use Rattle.std.specs.Option.{option_map};
ghost use Rattle.std.specs.List.{slice_index_or};
ghost use Rattle.tp_play.specs.declared.body.ResolvedStatement.TheVariants as statement;
ghost use Rattle.tp_play.specs.Playable.{CanEnterAll, CanExpect, CanReceive};
ghost use Rattle.tp_inbox.specs.History.{last_chosen};
ghost use Rattle.tp_behaviour.specs.declared.held.Held.TheVariants as held;
ghost use Rattle.tp_behaviour.specs.Held.{guard_of, redirected, set_to};
ghost use Rattle.tp_behaviour.specs.Lasting.{AreLastingBranches, IsWantedAlways};
ghost use Rattle.tp_behaviour.specs.Outcomes.{HoldsAsDeclared, Stepped, WaitsWithin, depth_of, stage_at};
ghost use Rattle.tp_behaviour.specs.Paths.{guards_of};
ghost use Rattle.tp_behaviour.specs.Workers.{IsConsistent, KeepsInboxes, role_of, values_of};
ghost use Rattle.tp_behaviour.specs.Views.{all_viewed, template_in, viewed};
ghost use Rattle.tp_play.specs.Fills.{filled_wanted, needed_by_wanted};

use crate::choice::{Guard, GuardView, TemplateView};
use crate::choosing::{Choice, choose};
use crate::execution::Execution;
use crate::gate::Gate;
use crate::held::Held;
use crate::lasting::Lasting;
use crate::outcome::Outcome;
use crate::task::Task;
use crate::worker::{Frame, Worker};
use std::alloc::Global;
use std::sync::Wait;
use tp_common::memory::Memory;
use tp_config::port_type::CompId;
use tp_inbox::desk::Desk;
use tp_inbox::noted::NotedEnvelope;
use tp_play::body::{Receiving, RecvMsg, ResolvedBranch};
use tp_play::fill::fill_template;
use tp_value::message::{Message, MsgTemplate};

fn expected_sender(task: &Task<'_>, place: Option<usize>) -> Option<u32>
    requires { CanExpect (stage_at task.now) place }
    ensures { result ≡ option_map (λ k. slice_index_or (role_of task.now).references k 0) place }
{
    match place {
        Some(place) => Some(task.behaviour.references[place].0),
        None => None,
    }
}

fn view_template<'t>(
    alloc: Global,
    wanted: &RecvMsg,
    lasting: &'t Option<MsgTemplate>,
    turns: &[i64],
) -> Result<TemplateView<'t>, Memory>
    requires given { needed_by_wanted wanted.now ≤ length turns.now }
    requires lasting { IsWantedAlways wanted.now lasting.now }
    ensures { IfOk result (λ view. template_in view ≡ filled_wanted turns.now wanted.now) }
{
    // It is filled only if it isn't a lasting one.
    match lasting {
        Some(template) => Ok(TemplateView::Lasting(template)),
        None => {
            let made = fill_template(alloc, wanted, turns)?;
            Ok(TemplateView::Filled(Box::new(alloc, made)?))
        }
    }
}

// A call would copy the view once more for each receiving operation.
#[inline(always)]
fn view_guard<'t>(
    task: &Task<'_>,
    frame: &Frame,
    receiving: &Receiving,
    lasting: &'t Option<MsgTemplate>,
) -> Result<GuardView<'t>, Memory>
    requires can { CanReceive (stage_at task.now) (depth_of frame.now) receiving.now }
    requires lasting { IsWantedAlways receiving.now.wanted lasting.now }
    ensures { IfOk result (λ guard.
        viewed guard ≡ guard_of (role_of task.now) (values_of frame.now) receiving.now) }
{
    let turns = frame.turns.as_slice();
    let wanted = view_template(task.alloc, &receiving.wanted, lasting, turns)?;
    Ok(GuardView {
        port: receiving.port,
        kind: receiving.kind,
        wanted,
        sender: expected_sender(task, receiving.sender),
    })
}

pub(crate) fn view_guards<'t>(
    task: &Task<'_>,
    frame: &Frame,
    branches: &[ResolvedBranch],
    lasting: &'t [Lasting],
) -> Result<Vec<GuardView<'t>>, Memory>
    requires can { CanEnterAll (stage_at task.now) (depth_of frame.now) branches.now }
    requires lasting { AreLastingBranches branches.now lasting.now }
    ensures { IfOk result (λ guards.
        all_viewed guards.items ≡ guards_of (role_of task.now) (values_of frame.now) branches.now) }
{
    let mut guards = Vec::new(task.alloc);
    for (place, branch) in branches.iter().enumerate() {
        let guard = view_guard(task, frame, &branch.receiving, &lasting[place].wanted)?;
        guards.push(guard)?;
    }
    Ok(guards)
}

fn fill_guard(task: &Task<'_>, frame: &Frame, receiving: &Receiving) -> Result<Guard, Memory>
    requires { CanReceive (stage_at task.now) (depth_of frame.now) receiving.now }
    ensures { IfOk result (λ guard.
        guard ≡ guard_of (role_of task.now) (values_of frame.now) receiving.now) }
{
    let wanted = fill_template(task.alloc, &receiving.wanted, frame.turns.as_slice())?;
    Ok(Guard {
        port: receiving.port,
        kind: receiving.kind,
        wanted,
        sender: expected_sender(task, receiving.sender),
    })
}

pub(crate) fn fill_guards(
    task: &Task<'_>,
    frame: &Frame,
    branches: &[ResolvedBranch],
) -> Result<Vec<Guard>, Memory>
    requires { CanEnterAll (stage_at task.now) (depth_of frame.now) branches.now }
    ensures { IfOk result (λ guards.
        guards.items ≡ guards_of (role_of task.now) (values_of frame.now) branches.now) }
{
    let mut guards = Vec::new(task.alloc);
    for branch in branches {
        let guard = fill_guard(task, frame, &branch.receiving)?;
        guards.push(guard)?;
    }
    Ok(guards)
}

// Most operations redirect nothing: inlined, this and `keep_message` cost them only a test.
#[inline(always)]
fn keep(variables: &mut Vec<Option<Held>>, place: Option<usize>, held: Held)
    requires { IfSome place (λ k. k < length variables.old.items) }
    ensures { variables.new.items ≡ set_to place held variables.old.items }
{
    if let Some(place) = place {
        variables[place] = Some(held);
    }
}

/// Copies the message into the variable at this place, if an operation names one.
#[inline(always)]
fn keep_message(
    alloc: Global,
    variables: &mut Vec<Option<Held>>,
    place: Option<usize>,
    env: &NotedEnvelope,
) -> Result<(), Memory>
    requires { IfSome place (λ k. k < length variables.old.items) }
    ensures { OnOk result
        (variables.new.items ≡ set_to place (held.Value env.now.msg) variables.old.items) }
{
    if let Some(place) = place {
        let value = env.value().copy(alloc)?;
        variables[place] = Some(Held::Value(Message {
            ty: env.ty(),
            value,
        }));
    }
    Ok(())
}

/// Stores what was just taken or found in the variables that the operation names: first the value,
/// then the sender (ES 201 873-1, 22.2.2).
#[inline(always)]
pub(crate) fn redirect(
    task: &Task<'_>,
    desk: &Desk,
    frame: &mut Frame,
    receiving: &Receiving,
) -> Result<(), Memory>
    requires can { CanReceive (stage_at task.now) (depth_of frame.old) receiving.now }
    requires held { HoldsAsDeclared task.now frame.old }
    requires chosen { IsSome (last_chosen desk.now.log) }
    ensures turns { OnOk result (frame.new.turns.items ≡ frame.old.turns.items) }
    ensures set { OnOk result (IfSome (last_chosen desk.now.log) (λ e.
        frame.new.variables.items ≡ redirected receiving.now e frame.old.variables.items)) }
    ensures held { OnOk result (HoldsAsDeclared task.now frame.new) }
{
    let Some(env) = desk.last_chosen() else {
        // The last entry took or found one, by the condition.
        unreachable!()
    };
    let sender = Held::Component(CompId(env.sender()));
    keep_message(task.alloc, &mut frame.variables, receiving.value_to, env)?;
    keep(&mut frame.variables, receiving.sender_to, sender);
    Ok(())
}

/// Executes a receiving operation that stands alone (22.2.2 to 22.2.4).
pub(crate) fn receive<R: Wait, G: Gate>(
    execution: &Execution<'_, R, G>,
    worker: &mut Worker,
    frame: &mut Frame,
    receiving: &Receiving,
    lasting: &Option<MsgTemplate>,
    outcome: &mut Outcome,
) -> Result<(), Memory>
    requires consistent { IsConsistent (role_of execution.now.task.now) worker.old }
    requires held { HoldsAsDeclared execution.now.task.now frame.old }
    requires can { CanReceive (stage_at execution.now.task.now) (depth_of frame.old) receiving.now }
    requires lasting { IsWantedAlways receiving.now.wanted lasting.now }
    requires goes_on { outcome.old ≡ Outcome.Done }
    ensures consistent { OnOk result (IsConsistent (role_of execution.now.task.now) worker.new) }
    ensures same { OnOk result (KeepsInboxes worker.old worker.new) }
    ensures held { OnOk result (HoldsAsDeclared execution.now.task.now frame.new) }
    ensures turns { OnOk result (frame.new.turns.items ≡ frame.old.turns.items) }
    ensures ended { OnOk result
        (Stepped execution.now.task.now (statement.Receive receiving.now) outcome.new
        worker.old frame.old worker.new frame.new) }
    ensures within { OnOk result (WaitsWithin worker.old.desk.ports outcome.new) }
{
    let view = view_guard(execution.task, &*frame, receiving, lasting)?;
    match choose(execution, &mut *worker, &[view], false)? {
        Choice::Branch(_) => {
            redirect(execution.task, &worker.desk, &mut *frame, receiving)?;
            Ok(())
        }
        Choice::Waits => {
            let guard = fill_guard(execution.task, &*frame, receiving)?;
            let mut guards = Vec::with_capacity(execution.task.alloc, 1)?;
            guards.push_reserved(guard);
            *outcome = Outcome::Waiting(guards);
            Ok(())
        }
        // There is no `[else]` beside it.
        Choice::Else => unreachable!(),
    }
}
