//! Mode `judge`.
ghost use Rattle.std.specs.Prelude.{◌≡◌, IfErr, IfOk, IfSome};
ghost use Rattle.tp_common.specs.Watching.{HasFailed, Writes, reader_left};
ghost use Rattle.tp_judge.specs.RulingTexts.{ruling_status, ruling_text};
ghost use Rattle.tp_judge.specs.Rulings.{IsRulingOf};
ghost use Rattle.tpr.specs.Handed.{IsAnswered, IsJust};
ghost use Rattle.tpr.specs.Judged.{HasJudgeFault, IsJudgeAnswer, judge_fault_status, judge_fault_text};

use crate::modes::{
    ANSWERED, FAULTED, REFUSED, status_if_written, write_memory, write_refused, write_unread,
};
use std::alloc::Global;
use std::io::{Read, Write};
use tp_common::refusal::Refusal;
use tp_common::text::{ReadFault, read_within};
use tp_common::watched::Watched;
use tp_judge::referee::reading::{TRACE_LIMIT, TraceFault};
use tp_judge::referee::ruling::{Ruling, referee};
use tp_judge::referee::writing::write_ruling;

/// Why a text isn't judged.
#[derive(Clone, Copy)]
pub enum JudgeFault {
    /// 2 Read: the reader returned an error.
    Read,
    /// The text isn't a trace, or memory was refused.
    Trace(TraceFault),
}

impl From<ReadFault> for JudgeFault {
    ghost use Rattle.std.specs.Prelude.{◌≡◌};
    ghost use Rattle.tpr.specs.Judged.{judge_fault_of};

    ghost from_gives = { λ read fault. fault ≡ judge_fault_of read };

    fn from(read: ReadFault) -> JudgeFault {
        match read {
            ReadFault::Read => JudgeFault::Read,
            ReadFault::Limit => JudgeFault::Trace(TraceFault::Limit),
            ReadFault::Memory => JudgeFault::Trace(TraceFault::Memory),
        }
    }
}

fn judge_text<R: Read>(alloc: Global, reader: &mut Watched<R>) -> Result<Ruling, JudgeFault>
    ensures ruling { IfOk result (λ ruling.
        IfSome (reader_left R.remaining reader.old) (λ text. IsRulingOf text ruling)) }
    ensures fault { IfErr result
        (HasJudgeFault (reader_left R.remaining reader.old) (reader_left R.remaining reader.new)) }
    ensures unread { IfErr result (λ f. f ≡ JudgeFault.Read → HasFailed reader.new) }
{
    match read_within(alloc, reader, TRACE_LIMIT as u32) {
        Err(fault) => Err(JudgeFault::from(fault)),
        Ok(text) => match referee(alloc, text.as_slice()) {
            Err(fault) => Err(JudgeFault::Trace(fault)),
            Ok(ruling) => Ok(ruling),
        },
    }
}

fn write_judge_fault<W: Write>(writer: &mut Watched<W>, fault: JudgeFault)
    ensures { Writes W.contents writer.old writer.new (judge_fault_text fault) }
{
    match fault {
        JudgeFault::Read => write_unread(writer),
        JudgeFault::Trace(TraceFault::BadLine(line)) => {
            write_refused(writer, Refusal::BadLine, line)
        }
        JudgeFault::Trace(TraceFault::Limit) => write_refused(writer, Refusal::Limit, 0),
        JudgeFault::Trace(TraceFault::Memory) => write_memory(writer),
    }
}

fn judge_fault_status(fault: JudgeFault) -> u8
    ensures { result ≡ judge_fault_status fault }
{
    match fault {
        JudgeFault::Read | JudgeFault::Trace(TraceFault::BadLine(_) | TraceFault::Limit) => REFUSED,
        JudgeFault::Trace(TraceFault::Memory) => FAULTED,
    }
}

fn answer_judge_fault<W: Write>(writer: &mut Watched<W>, fault: JudgeFault) -> Option<u8>
    ensures { IsAnswered W.contents (IsJust (judge_fault_text fault) (judge_fault_status fault))
        writer.old writer.new result }
{
    write_judge_fault(writer, fault);
    status_if_written(writer, judge_fault_status(fault))
}

fn ruling_status(ruling: &Ruling) -> u8
    ensures { result ≡ ruling_status ruling.now }
{
    match ruling {
        Ruling::Lawful(_) => ANSWERED,
        Ruling::Unlawful(_) => REFUSED,
    }
}

fn answer_ruling<W: Write>(writer: &mut Watched<W>, ruling: &Ruling) -> Option<u8>
    ensures { IsAnswered W.contents (IsJust (ruling_text ruling.now) (ruling_status ruling.now))
        writer.old writer.new result }
{
    write_ruling(writer, ruling);
    status_if_written(writer, ruling_status(ruling))
}

/// Reads and judges a trace, and prints the ruling as [`write_ruling`] writes it: a place for each
/// unlawful port and route, and if all routes are lawful one of a circle, if there is any; or the
/// line of its fault.
///
/// The status is 0 if it is lawful, and 2 if it isn't, or was refused: `refused 2 Read`, `refused 1
/// BadLine line L` or `refused 15 Limit line 0`.
pub fn answer_judge<R: Read, W: Write>(
    alloc: Global,
    reader: &mut Watched<R>,
    writer: &mut Watched<W>,
) -> Option<u8>
    ensures { IsAnswered W.contents (IsJudgeAnswer R.remaining reader.old reader.new)
        writer.old writer.new result }
{
    match judge_text(alloc, reader) {
        Err(fault) => answer_judge_fault(writer, fault),
        Ok(ruling) => answer_ruling(writer, &ruling),
    }
}
