//! The results of modes, and mode `queue`, over any reader and writer.
ghost use Rattle.std.specs.Prelude.{◌≡◌, [], MatchOption, false};
ghost use Rattle.tp_common.specs.Watching.{HasFailed, Writes};
ghost use Rattle.tpr.specs.Handed.{IsAnswered, IsJust};
ghost use Rattle.tpr.specs.FaultLines.{IsQueueAnswer, fault_status, fault_text, label_text, memory_text, refused_text};
ghost use Rattle.tpr.specs.FaultLines.{unread_text};

use std::alloc::Global;
use std::io::{Read, Write};
use tp_common::refusal::Refusal;
use tp_common::watched::{Watched, flush, write_bytes, write_number};
use tp_port::replay::{QueueFault, replay};

/// The status of a run with an answer.
pub const ANSWERED: u8 = 0;
/// The status of a run whose text was refused.
pub const REFUSED: u8 = 2;
/// The status of a run with a fault: of memory, or of the writer.
pub const FAULTED: u8 = 3;

fn write_label<W: Write>(writer: &mut Watched<W>, refusal: Refusal)
    ensures { Writes W.contents writer.old writer.new (label_text refusal) }
{
    let (number, name) = refusal.label();
    write_number(number as u64, writer);
    write_bytes(b" ", writer);
    write_bytes(name.as_bytes(), writer);
}

pub fn write_refused<W: Write>(writer: &mut Watched<W>, refusal: Refusal, line: u64)
    ensures { Writes W.contents writer.old writer.new (refused_text refusal line) }
{
    write_bytes(b"refused ", writer);
    write_label(writer, refusal);
    write_bytes(b" line ", writer);
    write_number(line, writer);
    write_bytes(b"\n", writer);
}

pub fn write_unread<W: Write>(writer: &mut Watched<W>)
    ensures { Writes W.contents writer.old writer.new unread_text }
{
    write_bytes(b"refused ", writer);
    write_label(writer, Refusal::Read);
    write_bytes(b"\n", writer);
}

pub fn write_memory<W: Write>(writer: &mut Watched<W>)
    ensures { Writes W.contents writer.old writer.new memory_text }
{
    write_bytes(b"fault ", writer);
    write_label(writer, Refusal::Memory);
    write_bytes(b"\n", writer);
}

fn write_fault<W: Write>(writer: &mut Watched<W>, fault: QueueFault)
    ensures { Writes W.contents writer.old writer.new (fault_text fault) }
{
    match fault {
        QueueFault::BadLine(line) => write_refused(writer, Refusal::BadLine, line),
        QueueFault::Read => write_unread(writer),
        QueueFault::Write => {}
        QueueFault::Limit => write_refused(writer, Refusal::Limit, 0),
        QueueFault::Memory => write_memory(writer),
    }
}

/// The status, if the writer has taken everything written; `None` if it has failed.
pub fn status_if_written<W: Write>(writer: &mut Watched<W>, status: u8) -> Option<u8>
    ensures written { Writes W.contents writer.old writer.new [] }
    ensures told { MatchOption result (HasFailed writer.new)
        (λ s. (s ≡ status) × (writer.new.failed ≡ false)) }
{
    // A buffer may fail as late as in this flush, so `has_failed` is called after it.
    flush(writer);
    if writer.has_failed() {
        return None;
    }
    Some(status)
}

fn fault_status(fault: QueueFault) -> u8
    ensures { result ≡ fault_status fault }
{
    match fault {
        QueueFault::BadLine(_) | QueueFault::Read | QueueFault::Limit => REFUSED,
        QueueFault::Write | QueueFault::Memory => FAULTED,
    }
}

/// Prints the line of a fault, if it has one, and returns its status. `None` if the writer failed.
pub fn answer_fault<W: Write>(writer: &mut Watched<W>, fault: QueueFault) -> Option<u8>
    ensures { IsAnswered W.contents (IsJust (fault_text fault) (fault_status fault))
        writer.old writer.new result }
{
    write_fault(writer, fault);
    status_if_written(writer, fault_status(fault))
}

/// Reads a queue file, and prints the answers to its lines and what is left, or the line of its
/// fault. If there is a fault, no answer is printed.
///
/// The status is 0 if the file was answered, and 2 if it was refused: `refused 2 Read`, `refused 1
/// BadLine line L` or `refused 15 Limit line 0`.
pub fn answer_queue<R: Read, W: Write>(
    alloc: Global,
    reader: &mut Watched<R>,
    writer: &mut Watched<W>,
) -> Option<u8>
    ensures { IsAnswered W.contents (IsQueueAnswer R.remaining reader.old reader.new)
        writer.old writer.new result }
{
    match replay(alloc, reader, writer) {
        Ok(()) => status_if_written(writer, ANSWERED),
        Err(fault) => answer_fault(writer, fault),
    }
}
