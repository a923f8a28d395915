//! A run.
ghost use Rattle.std.specs.Prelude.{◌≡◌, IfErr, IfOk, length};
ghost use Rattle.tp_exec.specs.Delivery.{IsReportOf};
ghost use Rattle.tp_exec.specs.OneOrder.{IsInOneOrder};
ghost use Rattle.tp_exec.specs.CausalOrder.{NoCircle, NoneOvertakes};
ghost use Rattle.tp_exec.specs.Reporting.{IsRunFault, living_below};
ghost use Rattle.tp_report.specs.Reports.{IsReportable};

use crate::fault::RunFault;
use crate::inboxes::make_workers;
use crate::reporting::make_report;
use crate::settling::settle_all;
use crate::threads::{RunContext, play_all};
use std::alloc::Global;
use std::sync::Wait;
use std::thread::Threads;
use tp_behaviour::gate::Gate;
use tp_floor::floor::Floor;
use tp_play::test_case::TestCase;
use tp_report::report::Report;

fn count_living(test_case: &TestCase) -> u32
    ensures { result ≡ living_below test_case.now (length test_case.now.config.components) }
{
    let mut living = 0;
    for number in 0..test_case.components() {
        if test_case.body(test_case.component(number)).is_some() {
            // A component without a body never leaves, so it must not be counted.
            living += 1;
        }
    }
    living
}

/// Executes the test case and returns the report of what happened.
///
/// 51 `NoThread` if a thread was refused; else 50 `Memory` if an allocation was refused before all
/// messages had arrived; else 61 `Restless` if a behaviour waits although one of its branches is
/// open in its final queues; else 50 `Memory` if memory for the report or its order was refused;
/// else 62 `NoOrder` if no one order of everything that the components did gives what each did and
/// saw.
pub fn run<R: Threads + Wait + Sync, G: Gate>(
    rt: &R,
    alloc: Global,
    test_case: &TestCase,
    gate: &G,
) -> Result<Report, RunFault>
    ensures report { IfOk result (IsReportOf test_case.now) }
    ensures one_order { IfOk result IsInOneOrder }
    ensures no_circle { IfOk result NoCircle }
    ensures overtaking { IfOk result NoneOvertakes }
    ensures text { IfOk result (IsReportable test_case.now.config) }
    ensures fault { IfErr result (IsRunFault test_case.now) }
{
    let Ok(floor) = Floor::new(alloc, count_living(test_case)) else {
        return Err(RunFault::Memory);
    };
    let Ok((workers, closers)) = make_workers(alloc, test_case.config(), &floor) else {
        return Err(RunFault::Memory);
    };
    let context = RunContext {
        alloc,
        floor,
        closers,
    };
    let played = play_all(rt, gate, test_case, &context, workers)?;
    let Ok(ended) = settle_all(rt, alloc, test_case.config(), played) else {
        return Err(RunFault::Memory);
    };
    make_report(alloc, test_case, ended)
}
