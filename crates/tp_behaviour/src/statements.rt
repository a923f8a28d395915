//! The statements of a behaviour, one after the other.
ghost use Rattle.std.specs.Prelude.{◌≡◌, ◌<◌, ◌+◌, ◌++◌, ◌∷◌, [], OnOk, length};
ghost use Rattle.tp_play.specs.Playable.{CanEnterAll, CanPlay, CanPlayAll};
ghost use Rattle.tp_play.specs.Sizes.{turns_between};
ghost use Rattle.tp_behaviour.specs.Lasting.{AreLasting, AreLastingBranches, IsLasting};
ghost use Rattle.tp_behaviour.specs.Outcomes.{Executed, HoldsAsDeclared, Stepped, WaitsWithin, depth_of, stage_at};
ghost use Rattle.tp_behaviour.specs.PartOutcomes.{ExecutedAt, ExecutedIn, Turned};
ghost use Rattle.tp_behaviour.specs.Workers.{IsConsistent, KeepsInboxes, role_of};

use crate::acting::{all_ports, control, set_verdict};
use crate::deciding::{Decision, decide};
use crate::execution::Execution;
use crate::gate::Gate;
use crate::lasting::{Alt, Block, Lasting};
use crate::outcome::Outcome;
use crate::receiving::receive;
use crate::sending::play_send;
use crate::worker::{Frame, Worker};
use std::ops::Range;
use std::sync::Wait;
use tp_common::memory::Memory;
use tp_play::body::{ResolvedBranch, ResolvedStatement};
use tp_value::items::Items;

/// Executes the statements of a block in order (ES 201 873-1, 19 to 24), up to one that stops the
/// behaviour: `outcome` then says why. It isn't returned, because a result is copied at each call.
#[cycle(statements)]
pub(crate) fn execute<R: Wait, G: Gate>(
    execution: &Execution<'_, R, G>,
    worker: &mut Worker,
    frame: &mut Frame,
    block: Block<'_>,
    outcome: &mut Outcome,
) -> Result<(), Memory>
    requires consistent { IsConsistent (role_of execution.now.task.now) worker.old }
    requires held { HoldsAsDeclared execution.now.task.now frame.old }
    requires can { CanPlayAll
        (stage_at execution.now.task.now) (depth_of frame.old) block.statements.now }
    requires lasting { AreLasting block.statements.now block.lasting.now }
    requires goes_on { outcome.old ≡ Outcome.Done }
    ensures consistent { OnOk result (IsConsistent (role_of execution.now.task.now) worker.new) }
    ensures same { OnOk result (KeepsInboxes worker.old worker.new) }
    ensures held { OnOk result (HoldsAsDeclared execution.now.task.now frame.new) }
    ensures turns { OnOk result (frame.new.turns.items ≡ frame.old.turns.items) }
    ensures ended { OnOk result
        (Executed execution.now.task.now block.entry.statements.now outcome.new
        worker.old frame.old worker.new frame.new) }
    ensures within { OnOk result (WaitsWithin worker.old.desk.ports outcome.new) }
{
    for (place, statement) in block.statements.iter().enumerate() {
        execution.gate.before(execution.task.comp, frame.steps);
        // No run comes to 2^64 steps, so that this needn't be shown.
        frame.steps = frame.steps.wrapping_add(1);
        let lasting = &block.lasting[place];
        step(execution, worker, frame, statement, lasting, outcome)?;
        match outcome {
            Outcome::Done => {}
            _ => return Ok(()),
        }
    }
    Ok(())
}

#[cycle(statements)]
fn step<R: Wait, G: Gate>(
    execution: &Execution<'_, R, G>,
    worker: &mut Worker,
    frame: &mut Frame,
    statement: &ResolvedStatement,
    lasting: &Lasting,
    outcome: &mut Outcome,
) -> Result<(), Memory>
    requires consistent { IsConsistent (role_of execution.now.task.now) worker.old }
    requires held { HoldsAsDeclared execution.now.task.now frame.old }
    requires can { CanPlay (stage_at execution.now.task.now) (depth_of frame.old) statement.now }
    requires lasting { IsLasting statement.now lasting.now }
    requires goes_on { outcome.old ≡ Outcome.Done }
    ensures consistent { OnOk result (IsConsistent (role_of execution.now.task.now) worker.new) }
    ensures same { OnOk result (KeepsInboxes worker.old worker.new) }
    ensures held { OnOk result (HoldsAsDeclared execution.now.task.now frame.new) }
    ensures turns { OnOk result (frame.new.turns.items ≡ frame.old.turns.items) }
    ensures ended { OnOk result
        (Stepped execution.now.task.now statement.now outcome.new
        worker.old frame.old worker.new frame.new) }
    ensures within { OnOk result (WaitsWithin worker.old.desk.ports outcome.new) }
{
    match statement {
        ResolvedStatement::Send(sending) => {
            play_send(execution, worker, frame, sending, outcome)
        }
        ResolvedStatement::Receive(receiving) => {
            let wanted = &lasting.wanted;
            receive(execution, worker, frame, receiving, wanted, outcome)
        }
        ResolvedStatement::Control(port, operation) => {
            control(execution, worker, *port, *operation)
        }
        ResolvedStatement::AllPorts(operation) => all_ports(execution, worker, *operation),
        ResolvedStatement::SetVerdict(verdict) => set_verdict(execution.task, worker, *verdict),
        ResolvedStatement::Alt(branches, otherwise) => {
            play_alt(
                execution, worker, frame, branches, otherwise, lasting, outcome,
            )
        }
        ResolvedStatement::For(first, bound, block) => {
            let block = Block {
                statements: block.as_slice(),
                lasting: lasting.block.as_slice(),
            };
            turns(execution, worker, frame, *first..*bound, block, outcome)
        }
    }
}

/// Executes an `alt`, and the block of what it chooses (20.2).
#[cycle(statements)]
fn play_alt<R: Wait, G: Gate>(
    execution: &Execution<'_, R, G>,
    worker: &mut Worker,
    frame: &mut Frame,
    branches: &Items<ResolvedBranch>,
    otherwise: &Option<Items<ResolvedStatement>>,
    lasting: &Lasting,
    outcome: &mut Outcome,
) -> Result<(), Memory>
    requires consistent { IsConsistent (role_of execution.now.task.now) worker.old }
    requires held { HoldsAsDeclared execution.now.task.now frame.old }
    requires can { CanPlay (stage_at execution.now.task.now) (depth_of frame.old)
        (ResolvedStatement.Alt branches.now otherwise.now) }
    requires lasting { IsLasting (ResolvedStatement.Alt branches.now otherwise.now) lasting.now }
    requires goes_on { outcome.old ≡ Outcome.Done }
    ensures consistent { OnOk result (IsConsistent (role_of execution.now.task.now) worker.new) }
    ensures same { OnOk result (KeepsInboxes worker.old worker.new) }
    ensures held { OnOk result (HoldsAsDeclared execution.now.task.now frame.new) }
    ensures turns { OnOk result (frame.new.turns.items ≡ frame.old.turns.items) }
    ensures ended { OnOk result (Stepped execution.now.task.now
        (ResolvedStatement.Alt branches.now otherwise.now) outcome.new
        worker.old frame.old worker.new frame.new) }
    ensures within { OnOk result (WaitsWithin worker.old.desk.ports outcome.new) }
{
    let alt = Alt {
        branches: branches.as_slice(),
        has_else: otherwise.is_some(),
        lasting: lasting.branches.as_slice(),
    };
    match decide(execution, worker, frame, alt)? {
        Decision::Branch(place) => branch(execution, worker, frame, alt, place, outcome),
        Decision::Else => match otherwise {
            Some(block) => {
                let block = Block {
                    statements: block.as_slice(),
                    lasting: lasting.block.as_slice(),
                };
                execute(execution, worker, frame, block, outcome)
            }
            // It is chosen only where there is one.
            None => unreachable!(),
        },
        Decision::Waits(guards) => {
            *outcome = Outcome::Waiting(guards);
            Ok(())
        }
    }
}

/// Executes the block of the branch at this place of an `alt` (20.2).
#[cycle(statements)]
fn branch<R: Wait, G: Gate>(
    execution: &Execution<'_, R, G>,
    worker: &mut Worker,
    frame: &mut Frame,
    alt: Alt<'_>,
    place: usize,
    outcome: &mut Outcome,
) -> Result<(), Memory>
    requires within { place < length alt.branches.now }
    requires consistent { IsConsistent (role_of execution.now.task.now) worker.old }
    requires held { HoldsAsDeclared execution.now.task.now frame.old }
    requires can { CanEnterAll
        (stage_at execution.now.task.now) (depth_of frame.old) alt.branches.now }
    requires lasting { AreLastingBranches alt.branches.now alt.lasting.now }
    requires goes_on { outcome.old ≡ Outcome.Done }
    ensures consistent { OnOk result (IsConsistent (role_of execution.now.task.now) worker.new) }
    ensures same { OnOk result (KeepsInboxes worker.old worker.new) }
    ensures held { OnOk result (HoldsAsDeclared execution.now.task.now frame.new) }
    ensures turns { OnOk result (frame.new.turns.items ≡ frame.old.turns.items) }
    ensures ended { OnOk result
        (ExecutedAt execution.now.task.now alt.entry.branches.now place outcome.new
        worker.old frame.old worker.new frame.new) }
    ensures within { OnOk result (WaitsWithin worker.old.desk.ports outcome.new) }
{
    let block = Block {
        statements: alt.branches[place].block.as_slice(),
        lasting: alt.lasting[place].block.as_slice(),
    };
    execute(execution, worker, frame, block, outcome)
}

/// Executes a block once for each value of a loop variable, from the first one up to the bound,
/// which is excluded (19.4).
#[cycle(statements)]
fn turns<R: Wait, G: Gate>(
    execution: &Execution<'_, R, G>,
    worker: &mut Worker,
    frame: &mut Frame,
    values: Range<i64>,
    block: Block<'_>,
    outcome: &mut Outcome,
) -> Result<(), Memory>
    requires consistent { IsConsistent (role_of execution.now.task.now) worker.old }
    requires held { HoldsAsDeclared execution.now.task.now frame.old }
    requires can { CanPlayAll
        (stage_at execution.now.task.now) (depth_of frame.old + 1) block.statements.now }
    requires lasting { AreLasting block.statements.now block.lasting.now }
    requires goes_on { outcome.old ≡ Outcome.Done }
    ensures consistent { OnOk result (IsConsistent (role_of execution.now.task.now) worker.new) }
    ensures same { OnOk result (KeepsInboxes worker.old worker.new) }
    ensures held { OnOk result (HoldsAsDeclared execution.now.task.now frame.new) }
    ensures turns { OnOk result (frame.new.turns.items ≡ frame.old.turns.items) }
    ensures ended { OnOk result
        (Turned execution.now.task.now values.start block.entry.statements.now
        (turns_between values.start values.end) outcome.new
        worker.old frame.old worker.new frame.new) }
    ensures within { OnOk result (WaitsWithin worker.old.desk.ports outcome.new) }
{
    // There may be more turns of nothing than can be made.
    if block.statements.is_empty() {
        return Ok(());
    }
    for value in values.start..values.end {
        turn(execution, worker, frame, value, block, outcome)?;
        match outcome {
            Outcome::Done => {}
            _ => return Ok(()),
        }
    }
    Ok(())
}

#[cycle(statements)]
fn turn<R: Wait, G: Gate>(
    execution: &Execution<'_, R, G>,
    worker: &mut Worker,
    frame: &mut Frame,
    value: i64,
    block: Block<'_>,
    outcome: &mut Outcome,
) -> Result<(), Memory>
    requires consistent { IsConsistent (role_of execution.now.task.now) worker.old }
    requires held { HoldsAsDeclared execution.now.task.now frame.old }
    requires can { CanPlayAll
        (stage_at execution.now.task.now) (depth_of frame.old + 1) block.statements.now }
    requires lasting { AreLasting block.statements.now block.lasting.now }
    requires goes_on { outcome.old ≡ Outcome.Done }
    ensures consistent { OnOk result (IsConsistent (role_of execution.now.task.now) worker.new) }
    ensures same { OnOk result (KeepsInboxes worker.old worker.new) }
    ensures held { OnOk result (HoldsAsDeclared execution.now.task.now frame.new) }
    ensures turns { OnOk result (frame.new.turns.items ≡ frame.old.turns.items) }
    ensures ended { OnOk result
        (ExecutedIn execution.now.task.now (frame.old.turns.items ++ value ∷ [])
        block.entry.statements.now outcome.new
        worker.old frame.old worker.new frame.new) }
    ensures within { OnOk result (WaitsWithin worker.old.desk.ports outcome.new) }
{
    frame.turns.push(value)?;
    execute(execution, worker, &mut *frame, block, outcome)?;
    frame.turns.pop();
    Ok(())
}
