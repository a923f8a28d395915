//! A queue file that is read, executed and answered.
ghost use Rattle.std.specs.Prelude.{◌≡◌, ◌<◌, ◌≤◌, ◌↔◌, length, All, IsErrOf, IfErr, IfOk, IfSome, List, MatchOption};
ghost use Rattle.std.specs.Prelude.{OnOk, Some, false, string_bytes};
ghost use Rattle.tp_common.specs.Watching.{HasFailed, reader_left};
ghost use Rattle.tp_common.specs.Cutting.{lines_of};
ghost use Rattle.tp_port.specs.Faults.{HasFault, IsFaultOf, IsRefusedFor, IsReplayed};
ghost use Rattle.tp_port.specs.QueueLine.{IsFirstBad, IsGood, QueueLine, Says};
ghost use Rattle.tp_port.specs.Replay.{queue_text};

use crate::command::command_of;
use crate::engine::Engine;
use std::alloc::Global;
use std::io::{Read, Write};
use thiserror::Error;
use tp_common::cut::first_line;
use tp_common::limit::TEXT_LIMIT;
use tp_common::text::{ReadFault, read_text};
use tp_common::watched::{Watched, write_bytes};

/// Why a queue file was not replayed.
#[derive(Clone, Copy, Debug, PartialEq, Eq, Error)]
pub enum QueueFault {
    /// 1 BadLine: the line of this number, from 1, is the first that isn't valid in a queue file.
    #[error("line {0} is no line of a queue file")]
    BadLine(u64),
    /// 2 Read: the reader returned an error.
    #[error("the text could not be read")]
    Read,
    /// 3 Write: the writer returned an error, or took no byte.
    #[error("the answers could not be written")]
    Write,
    /// 15 Limit: the text has more than [`TEXT_LIMIT`] bytes.
    #[error("the text has more than {TEXT_LIMIT} bytes")]
    Limit,
    /// 50 Memory: an allocation was refused.
    #[error("out of memory")]
    Memory,
}

impl From<ReadFault> for QueueFault {
    ghost use Rattle.std.specs.Prelude.{◌≡◌};
    ghost use Rattle.tp_port.specs.Faults.{fault_of};

    ghost from_gives = { λ read fault. fault ≡ fault_of read };

    fn from(read: ReadFault) -> QueueFault {
        match read {
            ReadFault::Read => QueueFault::Read,
            ReadFault::Limit => QueueFault::Limit,
            ReadFault::Memory => QueueFault::Memory,
        }
    }
}

fn first_bad(text: &[u8]) -> Option<u64>
    ensures { MatchOption result (All IsGood (lines_of text.now)) (IsFirstBad (lines_of text.now)) }
{
    let mut rest = text;
    let mut number = 0;
    while !rest.is_empty() {
        let (line, next) = first_line(rest);
        number += 1;
        match command_of(line) {
            None => return Some(number),
            Some(_) => rest = next,
        }
    }
    None
}

fn refusal_of(text: &[u8]) -> QueueFault
    ensures { IsRefusedFor text.now result }
{
    // A text without a bad line was refused because memory ran out.
    match first_bad(text) {
        Some(number) => QueueFault::BadLine(number),
        None => QueueFault::Memory,
    }
}

fn answers_to(alloc: Global, text: &[u8]) -> Result<String, QueueFault>
    requires { length text.now ≤ 1048576 }
    ensures ok { IfOk result (λ out. (lines : List QueueLine)
        × Says text.now lines × (string_bytes out ≡ queue_text lines)) }
    ensures err { IfErr result (IsRefusedFor text.now) }
{
    let mut engine = Engine::new(alloc);
    let mut rest = text;
    while !rest.is_empty() {
        let (line, next) = first_line(rest);
        let Some(command) = command_of(line) else {
            return Err(refusal_of(text));
        };
        match engine.perform(command) {
            Ok(()) => rest = next,
            // Memory ran out. A bad line, wherever it is, takes precedence.
            Err(_) => return Err(refusal_of(text)),
        }
    }
    match engine.finish() {
        Ok(answers) => Ok(answers),
        Err(_) => Err(refusal_of(text)),
    }
}

/// Executes the lines of a text as a queue file, and writes their answers, and then what is left in
/// the queue.
///
/// It rejects, in this order, 15 `Limit` a text of more than [`TEXT_LIMIT`] bytes, 1 `BadLine` its
/// first invalid line, and 50 `Memory`, each before anything is written. 3 `Write` if the writer
/// has failed, after a front of the answers.
pub fn replay_text<W: Write>(
    alloc: Global,
    text: &[u8],
    writer: &mut Watched<W>,
) -> Result<(), QueueFault>
    ensures written { OnOk result (IsReplayed W.contents (Some text.now) writer.old writer.new) }
    ensures well { OnOk result (writer.new.failed ≡ false) }
    ensures fault { IfErr result (IsFaultOf text.now) }
    ensures limit { IsErrOf result QueueFault.Limit ↔ (1048576 < length text.now) }
    ensures cut { IsErrOf result QueueFault.Write
        → IsReplayed W.contents (Some text.now) writer.old writer.new }
    ensures failed { IsErrOf result QueueFault.Write → HasFailed writer.new }
    ensures unwritten { IfErr result (λ fault.
        (fault ≡ QueueFault.Write → ⊥) → writer.new ≡ writer.old) }
{
    if text.len() > TEXT_LIMIT {
        return Err(QueueFault::Limit);
    }
    match answers_to(alloc, text) {
        Err(fault) => Err(fault),
        Ok(answers) => {
            write_bytes(answers.as_str().as_bytes(), writer);
            if writer.has_failed() {
                return Err(QueueFault::Write);
            }
            Ok(())
        }
    }
}

/// Reads a queue file, executes it, and writes the answers to its lines, and then what is left in
/// the queue.
///
/// It returns the refusals of [`read_text`], and then those of [`replay_text`].
pub fn replay<R: Read, W: Write>(
    alloc: Global,
    reader: &mut Watched<R>,
    writer: &mut Watched<W>,
) -> Result<(), QueueFault>
    ensures written { OnOk result
        (IsReplayed W.contents (reader_left R.remaining reader.old) writer.old writer.new) }
    ensures well { OnOk result (writer.new.failed ≡ false) }
    ensures short { OnOk result
        (IfSome (reader_left R.remaining reader.old) (λ text. length text ≤ 1048576)) }
    ensures fault { IfErr result
        (HasFault (reader_left R.remaining reader.old) (reader_left R.remaining reader.new)) }
    ensures unread { IsErrOf result QueueFault.Read → HasFailed reader.new }
    ensures cut { IsErrOf result QueueFault.Write
        → IsReplayed W.contents (reader_left R.remaining reader.old) writer.old writer.new }
    ensures failed { IsErrOf result QueueFault.Write → HasFailed writer.new }
    ensures unwritten { IfErr result (λ fault.
        (fault ≡ QueueFault.Write → ⊥) → writer.new ≡ writer.old) }
{
    match read_text(alloc, reader) {
        Err(fault) => Err(QueueFault::from(fault)),
        Ok(text) => replay_text(alloc, text.as_slice(), writer),
    }
}
