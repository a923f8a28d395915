//! A whole behaviour.
ghost use Rattle.std.specs.Prelude.{◌≡◌, [], IfOk, OnOk};
ghost use Rattle.tp_behaviour.specs.Held.{unset};
ghost use Rattle.tp_behaviour.specs.Moments.{moments};
ghost use Rattle.tp_behaviour.specs.Outcomes.{CanBehave, HasEnded, WaitsWithin};
ghost use Rattle.tp_behaviour.specs.Workers.{IsConsistent, KeepsInboxes, role_of};

use crate::execution::Execution;
use crate::gate::Gate;
use crate::lasting::{Block, lasting_block};
use crate::outcome::Outcome;
use crate::statements::execute;
use crate::task::Task;
use crate::worker::{Frame, Worker};
use std::sync::Wait;
use tp_common::memory::Memory;

/// The variables are declared, each by a statement, and none is set (ES 201 873-1, 11.1).
fn begin<G: Gate>(gate: &G, task: &Task<'_>) -> Result<Frame, Memory>
    ensures turns { IfOk result (λ frame. frame.turns.items ≡ []) }
    ensures variables { IfOk result (λ frame.
        frame.variables.items ≡ unset task.now.behaviour.body.now) }
{
    let mut variables = Vec::new(task.alloc);
    let mut steps: u64 = 0;
    for _variable in task.behaviour.body.variables.as_slice() {
        gate.before(task.comp, steps);
        // A body has fewer variables than 2^64, which needn't be shown.
        steps = steps.wrapping_add(1);
        variables.push(None)?;
    }
    Ok(Frame {
        turns: Vec::new(task.alloc),
        variables,
        steps,
    })
}

/// Executes the body of a behaviour to its end. The worker has done nothing yet.
pub fn behave<R: Wait, G: Gate>(
    rt: &R,
    gate: &G,
    task: &Task<'_>,
    worker: &mut Worker,
) -> Result<Outcome, Memory>
    requires consistent { IsConsistent (role_of task.now) worker.old }
    requires begun { moments worker.old.desk.log ≡ [] }
    requires can { CanBehave task.now }
    ensures consistent { OnOk result (IsConsistent (role_of task.now) worker.new) }
    ensures same { OnOk result (KeepsInboxes worker.old worker.new) }
    ensures ended { IfOk result (λ o.
        HasEnded (role_of task.now) task.now.behaviour.body.now o worker.new.desk.log) }
    ensures within { IfOk result (WaitsWithin worker.new.desk.ports) }
{
    let mut frame = begin(gate, task)?;
    let statements = task.behaviour.body.statements.as_slice();
    let lasting = lasting_block(task.alloc, statements)?;
    let block = Block {
        statements,
        lasting: lasting.as_slice(),
    };
    let execution = Execution { rt, gate, task };
    let mut outcome = Outcome::Done;
    execute(&execution, &mut *worker, &mut frame, block, &mut outcome)?;
    Ok(outcome)
}
