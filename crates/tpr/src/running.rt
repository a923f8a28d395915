//! Modes `run` and `trace`.
ghost use Rattle.tp_exec.specs.Faults.{run_fault_text};
ghost use Rattle.tpr.specs.Handed.{IsAnswered, IsJust};
ghost use Rattle.tpr.specs.Ran.{IsAnswerBy, IsRunAnswer, IsRunOf, IsTraceAnswer};

use crate::checking::{answer_check_fault, check_script};
use crate::modes::{ANSWERED, FAULTED, status_if_written};
use std::alloc::Global;
use std::io::{Read, Write};
use std::mem;
use std::sync::Wait;
use std::thread::Threads;
use tp_common::watched::Watched;
use tp_exec::fault::{RunFault, write_run_fault};
use tp_exec::gate::Gate;
use tp_exec::run::run;
use tp_play::test_case::TestCase;
use tp_report::telling::Telling;
use tp_report::writing::write_report;

fn answer_run_fault<W: Write>(writer: &mut Watched<W>, fault: RunFault) -> Option<u8>
    ensures { IsAnswered W.contents (IsJust (run_fault_text fault) 3) writer.old writer.new result }
{
    write_run_fault(writer, fault);
    status_if_written(writer, FAULTED)
}

fn answer_test_case<T: Threads + Wait + Sync, W: Write, G: Gate>(
    rt: &T,
    alloc: Global,
    test_case: &TestCase,
    telling: Telling,
    writer: &mut Watched<W>,
    gate: &G,
) -> Option<u8>
    ensures { IsAnswered W.contents (IsRunOf telling test_case.now)
        writer.old writer.new result }
{
    match run(rt, alloc, test_case, gate) {
        Ok(report) => {
            write_report(test_case, telling, &report, writer);
            // The process ends after this, and dropping a long history takes a tenth of a run.
            mem::forget(report);
            status_if_written(writer, ANSWERED)
        }
        Err(fault) => answer_run_fault(writer, fault),
    }
}

fn answer_told<T: Threads + Wait + Sync, R: Read, W: Write, G: Gate>(
    rt: &T,
    alloc: Global,
    reader: &mut Watched<R>,
    telling: Telling,
    writer: &mut Watched<W>,
    gate: &G,
) -> Option<u8>
    ensures { IsAnswered W.contents (IsAnswerBy telling R.remaining reader.old reader.new)
        writer.old writer.new result }
{
    match check_script(alloc, reader) {
        Err(fault) => answer_check_fault(writer, fault),
        Ok(test_case) => answer_test_case(rt, alloc, &test_case, telling, writer, gate),
    }
}

/// Reads and checks a script, and runs its test case. Prints its report, whatever its verdict; or
/// the line of its first fault; or that of the fault because of which [`run`] returns no report.
///
/// The status is 0 if the report was printed, and 3 if there is none: `fault 51 NoThread`, `fault
/// 61 Restless`, `fault 62 NoOrder`. If the script isn't accepted, it is that of
/// [`answer_check`](crate::checking::answer_check). It may wait forever.
pub fn answer_run<T: Threads + Wait + Sync, R: Read, W: Write, G: Gate>(
    rt: &T,
    alloc: Global,
    reader: &mut Watched<R>,
    writer: &mut Watched<W>,
    gate: &G,
) -> Option<u8>
    ensures { IsAnswered W.contents (IsRunAnswer R.remaining reader.old reader.new)
        writer.old writer.new result }
{
    answer_told(rt, alloc, reader, Telling::Report, writer, gate)
}

/// Reads and checks a script, and runs its test case, as [`answer_run`] does, but prints the trace
/// of the run: its report with the arrivals, each as a line `came PORT SENDER NUMBER MESSAGE` at
/// its place in the history of the component where it arrived.
///
/// The status, the lines of faults, and what is printed if the writer fails are those of
/// [`answer_run`]. It may wait forever.
pub fn answer_trace<T: Threads + Wait + Sync, R: Read, W: Write, G: Gate>(
    rt: &T,
    alloc: Global,
    reader: &mut Watched<R>,
    writer: &mut Watched<W>,
    gate: &G,
) -> Option<u8>
    ensures { IsAnswered W.contents (IsTraceAnswer R.remaining reader.old reader.new)
        writer.old writer.new result }
{
    answer_told(rt, alloc, reader, Telling::Trace, writer, gate)
}
