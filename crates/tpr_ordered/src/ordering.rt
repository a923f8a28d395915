//! A test case that runs in each of some orders.
ghost use Rattle.std.specs.Prelude.{ℕ, List};
ghost use Rattle.tp_common.specs.Watching.{Writes};
ghost use Rattle.tpr_ordered.specs.Ordered.{AreWritten, IsOrderText, IsRunText};

use crate::order_gate::OrderGate;
use crate::orders::{Step, StepOrder};
use std::alloc::Global;
use std::io::Write;
use std::sync::Wait;
use std::thread::Threads;
use tp_common::watched::{Watched, flush, write_bytes};
use tp_exec::fault::{RunFault, write_run_fault};
use tp_exec::run::run;
use tp_play::test_case::TestCase;
use tp_report::telling::Telling;
use tp_report::writing::write_report;

#[derive(Drop)]
pub struct Trial<'t, R> {
    pub rt: &'t R,
    pub alloc: Global,
    pub test_case: &'t TestCase,
    pub patience: u32,
}

fn write_run<R: Threads + Wait + Sync, W: Write>(
    trial: &Trial<'_, R>,
    steps: &[Step],
    writer: &mut Watched<W>,
)
    ensures { (text : List ℕ) × IsRunText trial.now.test_case.now text
        × Writes W.contents writer.old writer.new text }
{
    let components = trial.test_case.components();
    let Ok(gate) = OrderGate::new(trial.alloc, components, steps, trial.patience) else {
        return write_run_fault(writer, RunFault::Memory);
    };
    let outcome = run(trial.rt, trial.alloc, trial.test_case, &gate);
    if !gate.is_held() {
        return write_bytes(b"not held\n", writer);
    }
    match outcome {
        Ok(report) => write_report(trial.test_case, Telling::Report, &report, writer),
        Err(fault) => write_run_fault(writer, fault),
    }
}

fn write_order<R: Threads + Wait + Sync, W: Write>(
    trial: &Trial<'_, R>,
    order: &StepOrder,
    writer: &mut Watched<W>,
)
    ensures { (text : List ℕ) × IsOrderText trial.now.test_case.now order.now text
        × Writes W.contents writer.old writer.new text }
{
    write_bytes(b"order ", writer);
    write_bytes(order.line.as_str().as_bytes(), writer);
    write_bytes(b"\n", writer);
    write_run(trial, order.steps.as_slice(), writer);
    write_bytes(b"\n", writer);
    // Before the next run, which may wait forever.
    flush(writer);
}

/// Runs the test case once in each of these orders, one run after the other, and writes for each
/// the line `order NAMES`, the report as mode `run` of `tpr` prints it, and an empty line. The
/// report is replaced by `not held` if the gate gave up after the trial's `patience` turns that
/// yield, or by the line of the fault because of which there is none. If the writer fails, no
/// further order is run, and a front of the text of those that were run is written. It may wait
/// forever.
pub fn write_orders<R: Threads + Wait + Sync, W: Write>(
    trial: &Trial<'_, R>,
    orders: &[StepOrder],
    writer: &mut Watched<W>,
)
    ensures { AreWritten W.contents trial.now.test_case.now orders.now writer.old writer.new }
{
    for order in orders {
        if writer.has_failed() {
            return;
        }
        write_order(trial, order, writer);
    }
}
