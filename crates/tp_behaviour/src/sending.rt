//! The sends of a behaviour.
ghost use Rattle.std.specs.Prelude.{◌≡◌, ◌++◌, ◌∷◌, [], ℕ, All, Contains, IfOk, OnOk, length};
ghost use Rattle.std.specs.List.{AllZip};
ghost use Rattle.tp_play.specs.declared.body.Receiver.TheVariants as receiver;
ghost use Rattle.tp_play.specs.declared.body.ResolvedStatement.TheVariants as statement;
ghost use Rattle.tp_play.specs.Playable.{CanSend};
ghost use Rattle.tp_behaviour.specs.BehaviourEnds.{IsFailure};
ghost use Rattle.tp_behaviour.specs.Held.{IsNamed, IsSentAs};
ghost use Rattle.tp_behaviour.specs.Outboxes.{routes_of};
ghost use Rattle.tp_behaviour.specs.Outcomes.{HoldsAsDeclared, Stepped, WaitsWithin};
ghost use Rattle.tp_behaviour.specs.Outcomes.{depth_of, stage_at};
ghost use Rattle.tp_behaviour.specs.Paths.{IsSentOn, IsStarted};
ghost use Rattle.tp_behaviour.specs.LookOutcomes.{AddsEntry, TraceGrew};
ghost use Rattle.tp_behaviour.specs.Sends.{CanName, SendsAt, next_sent};
ghost use Rattle.tp_behaviour.specs.Workers.{IsConsistent, KeepsInboxes, role_of, values_of};

use crate::execution::Execution;
use crate::gate::Gate;
use crate::looking::note;
use crate::outcome::Outcome;
use crate::task::Task;
use crate::values::{message_of, named_of};
use crate::worker::{Frame, Worker};
use std::sync::Wait;
use tp_common::memory::Memory;
use tp_common::payload::Payload;
use tp_config::port_type::{CompId, PortRef, RouteId};
use tp_config::routes::RouteFault;
use tp_inbox::entry::Entry;
use tp_inbox::send_fault::SendFault;
use tp_play::body::{Receiver, SendOperation};
use tp_value::message::Message;

fn fail(
    task: &Task<'_>,
    worker: &mut Worker,
    frame: &Frame,
    sending: &SendOperation,
    fault: SendFault,
) -> Result<Option<SendFault>, Memory>
    requires consistent { IsConsistent (role_of task.now) worker.old }
    requires cause { IsFailure (role_of task.now) (values_of frame.now) sending.now
        worker.old.desk.log fault }
    ensures consistent { OnOk result (IsConsistent (role_of task.now) worker.new) }
    ensures same { OnOk result (KeepsInboxes worker.old worker.new) }
    ensures sends { IfOk result (SendsAt task.now frame.now sending.now worker.old worker.new) }
{
    // Contracts alone speak of these two.
    let (_frame, _sending) = (frame, sending);
    note(task, &mut *worker, Entry::Failed(fault))?;
    Ok(Some(fault))
}

fn send_on<R: Wait, G: Gate>(
    execution: &Execution<'_, R, G>,
    worker: &mut Worker,
    route: RouteId,
    message: Message,
) -> Result<(), Memory>
    requires consistent { IsConsistent (role_of execution.now.task.now) worker.old }
    requires known { Contains (routes_of worker.old.outbox) route }
    ensures consistent { OnOk result (IsConsistent (role_of execution.now.task.now) worker.new) }
    ensures same { OnOk result (KeepsInboxes worker.old worker.new) }
    ensures log { OnOk result (worker.new.desk.log
        ≡ worker.old.desk.log ++ next_sent route message worker.old.desk.log ∷ []) }
    ensures trace { OnOk result (AddsEntry worker.old.desk
        (next_sent route message worker.old.desk.log) worker.new.desk) }
{
    let rt = execution.rt;
    let Ok(()) = worker.outbox.send(rt, &mut worker.desk, route, message) else {
        return Err(Memory);
    };
    Ok(())
}

fn send_to<R: Wait, G: Gate>(
    execution: &Execution<'_, R, G>,
    worker: &mut Worker,
    frame: &Frame,
    sending: &SendOperation,
    message: Message,
    named: Option<CompId>,
) -> Result<Option<SendFault>, Memory>
    requires consistent { IsConsistent (role_of execution.now.task.now) worker.old }
    requires started { IsStarted worker.old.desk.log sending.now.port }
    requires sent { IsSentAs (values_of frame.now) sending.now.sent message }
    requires named { IsNamed
        (role_of execution.now.task.now) (values_of frame.now) sending.now.to named }
    ensures consistent { OnOk result (IsConsistent (role_of execution.now.task.now) worker.new) }
    ensures same { OnOk result (KeepsInboxes worker.old worker.new) }
    ensures sends { IfOk result
        (SendsAt execution.now.task.now frame.now sending.now worker.old worker.new) }
{
    let port = PortRef {
        comp: execution.task.comp,
        port: sending.port,
    };
    match execution.task.config.route(port, named) {
        Ok(route) => {
            send_on(execution, &mut *worker, route, message)?;
            Ok(None)
        }
        Err(fault) => fail(
            execution.task,
            &mut *worker,
            frame,
            sending,
            SendFault::Unrouted(fault),
        ),
    }
}

fn send_on_each<R: Wait, G: Gate>(
    execution: &Execution<'_, R, G>,
    worker: &mut Worker,
    routes: &[RouteId],
    message: &Message,
) -> Result<(), Memory>
    requires consistent { IsConsistent (role_of execution.now.task.now) worker.old }
    requires known { All (Contains (routes_of worker.old.outbox)) routes.now }
    ensures consistent { OnOk result (IsConsistent (role_of execution.now.task.now) worker.new) }
    ensures same { OnOk result (KeepsInboxes worker.old worker.new) }
    ensures each { OnOk result ((port : ℕ) → IsStarted worker.old.desk.log port
        → TraceGrew (AllZip (IsSentOn port message.now) routes.now)
        worker.old.desk.log worker.new.desk.log) }
{
    for route in routes {
        let copy = message.copy(execution.task.alloc)?;
        send_on(execution, &mut *worker, *route, copy)?;
    }
    Ok(())
}

/// Sends on each route of the port, in the order of the connections (22.2.1, `to all component`).
/// If there is none, the behaviour ends with 41 `NoRoute`, which is returned.
fn send_to_all<R: Wait, G: Gate>(
    execution: &Execution<'_, R, G>,
    worker: &mut Worker,
    frame: &Frame,
    sending: &SendOperation,
    message: &Message,
) -> Result<Option<SendFault>, Memory>
    requires consistent { IsConsistent (role_of execution.now.task.now) worker.old }
    requires started { IsStarted worker.old.desk.log sending.now.port }
    requires sent { IsSentAs (values_of frame.now) sending.now.sent message.now }
    requires all { sending.now.to ≡ receiver.All }
    ensures consistent { OnOk result (IsConsistent (role_of execution.now.task.now) worker.new) }
    ensures same { OnOk result (KeepsInboxes worker.old worker.new) }
    ensures sends { IfOk result
        (SendsAt execution.now.task.now frame.now sending.now worker.old worker.new) }
{
    let port = PortRef {
        comp: execution.task.comp,
        port: sending.port,
    };
    let routes = execution.task.config.routes_from(port)?;
    if routes.is_empty() {
        let no_route = SendFault::Unrouted(RouteFault::NoRoute);
        return fail(execution.task, &mut *worker, frame, sending, no_route);
    }
    send_on_each(execution, &mut *worker, routes.as_slice(), message)?;
    Ok(None)
}

fn send_to_one<R: Wait, G: Gate>(
    execution: &Execution<'_, R, G>,
    worker: &mut Worker,
    frame: &Frame,
    sending: &SendOperation,
    message: Message,
) -> Result<Option<SendFault>, Memory>
    requires consistent { IsConsistent (role_of execution.now.task.now) worker.old }
    requires started { IsStarted worker.old.desk.log sending.now.port }
    requires sent { IsSentAs (values_of frame.now) sending.now.sent message }
    requires names { CanName frame.now.variables.items
        (length execution.now.task.now.behaviour.references.now) sending.now.to }
    ensures consistent { OnOk result (IsConsistent (role_of execution.now.task.now) worker.new) }
    ensures same { OnOk result (KeepsInboxes worker.old worker.new) }
    ensures sends { IfOk result
        (SendsAt execution.now.task.now frame.now sending.now worker.old worker.new) }
{
    match named_of(execution.task, frame, sending.to) {
        Some(named) => send_to(execution, &mut *worker, frame, sending, message, named),
        None => {
            let unset_receiver = SendFault::UnsetVariable;
            fail(execution.task, &mut *worker, frame, sending, unset_receiver)
        }
    }
}

fn send_started<R: Wait, G: Gate>(
    execution: &Execution<'_, R, G>,
    worker: &mut Worker,
    frame: &Frame,
    sending: &SendOperation,
) -> Result<Option<SendFault>, Memory>
    requires consistent { IsConsistent (role_of execution.now.task.now) worker.old }
    requires started { IsStarted worker.old.desk.log sending.now.port }
    requires held { HoldsAsDeclared execution.now.task.now frame.now }
    requires can { CanSend (stage_at execution.now.task.now) (depth_of frame.now) sending.now }
    ensures consistent { OnOk result (IsConsistent (role_of execution.now.task.now) worker.new) }
    ensures same { OnOk result (KeepsInboxes worker.old worker.new) }
    ensures sends { IfOk result
        (SendsAt execution.now.task.now frame.now sending.now worker.old worker.new) }
{
    // Filled before a route is looked for: 43 comes before 41 and 42.
    let Some(message) = message_of(execution.task.alloc, frame, &sending.sent)? else {
        let unset_message = SendFault::UnsetVariable;
        return fail(execution.task, &mut *worker, frame, sending, unset_message);
    };
    match sending.to {
        Receiver::All => send_to_all(execution, &mut *worker, frame, sending, &message),
        _ => send_to_one(execution, &mut *worker, frame, sending, message),
    }
}

/// Executes a send (ES 201 873-1, 22.2.1), and returns the fault that ends the behaviour, if there
/// is one: 40 `NotSending` if the port isn't started; else 43 `UnsetVariable` if a variable of the
/// send isn't set; else 41 `NoRoute` if there is no route, or none to the component named, or 42
/// `NeedsTo` if there are several and no component is named.
fn send<R: Wait, G: Gate>(
    execution: &Execution<'_, R, G>,
    worker: &mut Worker,
    frame: &Frame,
    sending: &SendOperation,
) -> Result<Option<SendFault>, Memory>
    requires consistent { IsConsistent (role_of execution.now.task.now) worker.old }
    requires held { HoldsAsDeclared execution.now.task.now frame.now }
    requires can { CanSend (stage_at execution.now.task.now) (depth_of frame.now) sending.now }
    ensures consistent { OnOk result (IsConsistent (role_of execution.now.task.now) worker.new) }
    ensures same { OnOk result (KeepsInboxes worker.old worker.new) }
    ensures sends { IfOk result
        (SendsAt execution.now.task.now frame.now sending.now worker.old worker.new) }
{
    if worker.desk.queue(sending.port).may_send() {
        send_started(execution, &mut *worker, frame, sending)
    } else {
        fail(
            execution.task,
            &mut *worker,
            frame,
            sending,
            SendFault::NotSending,
        )
    }
}

/// Executes a send as a statement, and stores the fault that ends the behaviour, if there is one.
pub(crate) fn play_send<R: Wait, G: Gate>(
    execution: &Execution<'_, R, G>,
    worker: &mut Worker,
    frame: &Frame,
    sending: &SendOperation,
    outcome: &mut Outcome,
) -> Result<(), Memory>
    requires consistent { IsConsistent (role_of execution.now.task.now) worker.old }
    requires held { HoldsAsDeclared execution.now.task.now frame.now }
    requires can { CanSend (stage_at execution.now.task.now) (depth_of frame.now) sending.now }
    requires goes_on { outcome.old ≡ Outcome.Done }
    ensures consistent { OnOk result (IsConsistent (role_of execution.now.task.now) worker.new) }
    ensures same { OnOk result (KeepsInboxes worker.old worker.new) }
    ensures ended { OnOk result
        (Stepped execution.now.task.now (statement.Send sending.now) outcome.new
        worker.old frame.now worker.new frame.now) }
    ensures within { OnOk result (WaitsWithin worker.old.desk.ports outcome.new) }
{
    match send(execution, &mut *worker, frame, sending)? {
        None => Ok(()),
        Some(fault) => {
            *outcome = Outcome::Error(fault);
            Ok(())
        }
    }
}
