//! Mode `check`.
ghost use Rattle.std.specs.Prelude.{◌≡◌, IfErr, IfOk, IfSome, OnOk};
ghost use Rattle.tp_common.specs.Watching.{HasFailed, Writes, reader_left};
ghost use Rattle.tp_script.specs.Scripts.{IsScriptOf};
ghost use Rattle.tpr.specs.Handed.{IsAnswered, IsJust};
ghost use Rattle.tpr.specs.Checked.{HasCheckFault, IsCheckAnswer, IsRight, accepted_text, check_fault_status};
ghost use Rattle.tpr.specs.Checked.{check_fault_text};

use crate::modes::{
    ANSWERED, FAULTED, REFUSED, status_if_written, write_memory, write_refused, write_unread,
};
use std::alloc::Global;
use std::io::{Read, Write};
use tp_common::memory::Memory;
use tp_common::text::{ReadFault, read_text};
use tp_common::watched::{Watched, write_bytes};
use tp_play::test_case::TestCase;
use tp_script::fault::{ScriptRule, TestCaseFault};
use tp_script::reading::read_script;
use tp_syntax::script_fault::TextRule;

/// Why a script isn't accepted.
#[derive(Clone, Copy)]
pub enum CheckFault {
    /// 2 Read: the reader returned an error.
    Read,
    /// The script breaks a rule, or memory was refused.
    Script(TestCaseFault),
}

impl From<ReadFault> for CheckFault {
    ghost use Rattle.std.specs.Prelude.{◌≡◌};
    ghost use Rattle.tpr.specs.Checked.{check_fault_of};

    ghost from_gives = { λ read fault. fault ≡ check_fault_of read };

    fn from(read: ReadFault) -> CheckFault {
        match read {
            ReadFault::Read => CheckFault::Read,
            ReadFault::Limit => CheckFault::Script(TestCaseFault::Refused {
                rule: ScriptRule::Text(TextRule::Limit),
                line: 0,
            }),
            ReadFault::Memory => CheckFault::Script(TestCaseFault::Memory(Memory)),
        }
    }
}

/// Reads and checks a script, and returns its test case.
pub fn check_script<R: Read>(alloc: Global, reader: &mut Watched<R>) -> Result<TestCase, CheckFault>
    ensures script { IfOk result (λ made.
        IfSome (reader_left R.remaining reader.old) (λ text. IsScriptOf text made)) }
    ensures right { OnOk result (IfSome (reader_left R.remaining reader.old) IsRight) }
    ensures fault { IfErr result
        (HasCheckFault (reader_left R.remaining reader.old) (reader_left R.remaining reader.new)) }
    ensures unread { IfErr result (λ f. f ≡ CheckFault.Read → HasFailed reader.new) }
{
    match read_text(alloc, reader) {
        Err(fault) => Err(CheckFault::from(fault)),
        Ok(text) => match read_script(alloc, text.as_slice()) {
            Err(fault) => Err(CheckFault::Script(fault)),
            Ok(test_case) => Ok(test_case),
        },
    }
}

fn write_check_fault<W: Write>(writer: &mut Watched<W>, fault: CheckFault)
    ensures { Writes W.contents writer.old writer.new (check_fault_text fault) }
{
    match fault {
        CheckFault::Read => write_unread(writer),
        CheckFault::Script(TestCaseFault::Refused { rule, line }) => {
            write_refused(writer, rule.refusal(), line as u64)
        }
        CheckFault::Script(TestCaseFault::Memory(_)) => write_memory(writer),
    }
}

fn check_fault_status(fault: CheckFault) -> u8
    ensures { result ≡ check_fault_status fault }
{
    match fault {
        CheckFault::Read | CheckFault::Script(TestCaseFault::Refused { .. }) => REFUSED,
        CheckFault::Script(TestCaseFault::Memory(_)) => FAULTED,
    }
}

/// Prints the line of a fault, and returns its status. `None` if the writer failed.
pub fn answer_check_fault<W: Write>(writer: &mut Watched<W>, fault: CheckFault) -> Option<u8>
    ensures { IsAnswered W.contents (IsJust (check_fault_text fault) (check_fault_status fault))
        writer.old writer.new result }
{
    write_check_fault(writer, fault);
    status_if_written(writer, check_fault_status(fault))
}

fn answer_accepted<W: Write>(writer: &mut Watched<W>) -> Option<u8>
    ensures { IsAnswered W.contents (IsJust accepted_text 0) writer.old writer.new result }
{
    write_bytes(b"accepted\n", writer);
    status_if_written(writer, ANSWERED)
}

/// Reads and checks a script: prints `accepted`, or the line of its first fault.
///
/// The status is 0 if it is accepted, and 2 if it is refused: `refused 2 Read`, or `refused CODE
/// NAME line L` for a [`ScriptRule`] of [`read_script`].
pub fn answer_check<R: Read, W: Write>(
    alloc: Global,
    reader: &mut Watched<R>,
    writer: &mut Watched<W>,
) -> Option<u8>
    ensures { IsAnswered W.contents (IsCheckAnswer R.remaining reader.old reader.new)
        writer.old writer.new result }
{
    match check_script(alloc, reader) {
        Err(fault) => answer_check_fault(writer, fault),
        Ok(test_case) => {
            // Dropped by one call: at the end of the arm, each part of its drop would need a proof.
            drop(test_case);
            answer_accepted(writer)
        }
    }
}
