//! Actions of a behaviour on its ports and its verdict.
ghost use Rattle.std.specs.Prelude.{◌≡◌, ◌<◌, OnOk};
ghost use Rattle.tp_play.specs.declared.body.ResolvedStatement.TheVariants as statement;
ghost use Rattle.tp_inbox.specs.Desks.{adding};
ghost use Rattle.tp_behaviour.specs.Fresh.{HasOwn};
ghost use Rattle.tp_behaviour.specs.Paths.{operated};
ghost use Rattle.tp_behaviour.specs.LookOutcomes.{AddsEntry, Carries};
ghost use Rattle.tp_behaviour.specs.Workers.{IsConsistent, KeepsInboxes, role_of};

use crate::execution::Execution;
use crate::gate::Gate;
use crate::looking::{look_in, note};
use crate::task::Task;
use crate::worker::Worker;
use std::sync::Wait;
use tp_common::memory::Memory;
use tp_common::operation::PortOperation;
use tp_inbox::desk::Desk;
use tp_inbox::entry::Entry;
use tp_value::verdict::Verdict;

/// Executes `setverdict` (ES 201 873-1, 24.2).
pub(crate) fn set_verdict(
    task: &Task<'_>,
    worker: &mut Worker,
    verdict: Verdict,
) -> Result<(), Memory>
    requires { IsConsistent (role_of task.now) worker.old }
    ensures consistent { OnOk result (IsConsistent (role_of task.now) worker.new) }
    ensures same { OnOk result (KeepsInboxes worker.old worker.new) }
    ensures stepped { OnOk result
        (Carries (role_of task.now) (statement.SetVerdict verdict)
        worker.old.desk worker.new.desk) }
{
    note(task, &mut *worker, Entry::Verdict(verdict))?;
    Ok(())
}

fn operate(desk: &mut Desk, port: u32, operation: PortOperation) -> Result<(), Memory>
    requires { port < desk.old.ports }
    ensures { OnOk result (desk.new ≡ adding desk.old (operated operation port)) }
{
    match operation {
        PortOperation::Start => {
            desk.start(port)?;
        }
        PortOperation::Stop => desk.stop(port)?,
        PortOperation::Halt => {
            desk.halt(port)?;
        }
        PortOperation::Clear => {
            desk.clear(port)?;
        }
    }
    Ok(())
}

fn operate_at<G: Gate>(
    gate: &G,
    task: &Task<'_>,
    worker: &mut Worker,
    port: u32,
    operation: PortOperation,
) -> Result<(), Memory>
    requires consistent { IsConsistent (role_of task.now) worker.old }
    requires within { port < worker.old.desk.ports }
    requires own { HasOwn task.now.comp worker.old.desk.log }
    ensures consistent { OnOk result (IsConsistent (role_of task.now) worker.new) }
    ensures same { OnOk result (KeepsInboxes worker.old worker.new) }
    ensures own { OnOk result (HasOwn task.now.comp worker.new.desk.log) }
    ensures added { OnOk result
        (worker.new.desk ≡ adding worker.old.desk (operated operation port)) }
    ensures trace { OnOk result (
        AddsEntry worker.old.desk (operated operation port) worker.new.desk) }
{
    // Everything that the component has sent to itself arrives first.
    gate.inside(task.comp, port);
    operate(&mut worker.desk, port, operation)?;
    Ok(())
}

/// Executes an operation on one port (22.5).
pub(crate) fn control<R: Wait, G: Gate>(
    execution: &Execution<'_, R, G>,
    worker: &mut Worker,
    port: u32,
    operation: PortOperation,
) -> Result<(), Memory>
    requires consistent { IsConsistent (role_of execution.now.task.now) worker.old }
    requires within { port < worker.old.desk.ports }
    ensures consistent { OnOk result (IsConsistent (role_of execution.now.task.now) worker.new) }
    ensures same { OnOk result (KeepsInboxes worker.old worker.new) }
    ensures stepped { OnOk result
        (Carries (role_of execution.now.task.now) (statement.Control port operation)
        worker.old.desk worker.new.desk) }
{
    look_in(execution.rt, execution.task, &mut *worker)?;
    operate_at(
        execution.gate,
        execution.task,
        &mut *worker,
        port,
        operation,
    )?;
    Ok(())
}

/// Executes an operation on all ports, in their order (22.5). What arrives meanwhile is seen
/// afterwards.
pub(crate) fn all_ports<R: Wait, G: Gate>(
    execution: &Execution<'_, R, G>,
    worker: &mut Worker,
    operation: PortOperation,
) -> Result<(), Memory>
    requires { IsConsistent (role_of execution.now.task.now) worker.old }
    ensures consistent { OnOk result (IsConsistent (role_of execution.now.task.now) worker.new) }
    ensures same { OnOk result (KeepsInboxes worker.old worker.new) }
    ensures stepped { OnOk result
        (Carries (role_of execution.now.task.now) (statement.AllPorts operation)
        worker.old.desk worker.new.desk) }
{
    look_in(execution.rt, execution.task, &mut *worker)?;
    // A component of a configuration has at most 64 ports.
    let _lawful = execution.task.config.len();
    for port in 0..worker.desk.port_count() {
        operate_at(
            execution.gate,
            execution.task,
            &mut *worker,
            port as u32,
            operation,
        )?;
    }
    Ok(())
}
