//! The program `tpr`. Each mode has a function, whose contract says what is read, what is printed,
//! and the status: [`modes`], [`checking`], [`running`], [`judging`], [`deciding`]. Start with
//! `answer`, which calls them. Module [`verdicts`] finds every verdict of a test case.
//!
//! In each mode 50 `Memory` is the line `fault 50 Memory` and the status 3. A mode returns `None`
//! if the writer failed: it has then printed a prefix of one of its answers, and the status is 3.
#![tactic(auto)]

ghost use Rattle.std.specs.Prelude.{◌≡◌};
ghost use Rattle.std.specs.Io.Buffered.{writer_contents};
ghost use Rattle.tp_common.specs.Watching.{reader_left};
ghost use Rattle.tpr.specs.Decided.{IsAlwaysKept};
ghost use Rattle.tpr.specs.FaultLines.{unread_text};
ghost use Rattle.tpr.specs.Handed.{IsAnswered, IsHanded, IsJust};
ghost use Rattle.tpr.specs.Modes.{IsAnswerOf};

mod checking;
mod deciding;
mod handing;
mod judging;
mod line;
mod modes;
mod running;
mod verdicts;

use checking::answer_check;
use deciding::answer_verdicts;
use handing::{FailedWriter, finish};
use judging::answer_judge;
use line::{Mode, line_of};
use modes::{FAULTED, answer_fault, answer_queue};
use running::{answer_run, answer_trace};
use std::env::Env;
use std::fs::File;
use std::io::{BufWriter, ErrorKind, Read, Write};
use std::process::ExitCode;
use std::rt::Files;
use std::sync::Wait;
use std::thread::Threads;
use std::{env, io};
use tp_common::watched::Watched;
use tp_exec::gate::OpenGate;
use tp_port::replay::QueueFault;

/// The status if the words aren't a command line of the program.
const USAGE: u8 = 4;

fn usage<R: Eprint>(rt: &R) -> u8 {
    // If standard error can't be written either, only the status reports this.
    let _ = eprintln!(rt; "usage: tpr MODE [FILE]");
    USAGE
}

/// `None` if the writer failed.
fn answer<T: AllocGlobal + Threads + Wait + Sync, R: Read, W: Write>(
    rt: &T,
    mode: Mode,
    reader: &mut Watched<R>,
    writer: &mut Watched<W>,
) -> Option<u8>
    ensures answer { IsAnswered W.contents (IsAnswerOf mode R.remaining reader.old reader.new)
        writer.old writer.new result }
    ensures always { mode ≡ Mode.Verdicts → IsAnswered W.contents
        (IsAlwaysKept (reader_left R.remaining reader.old)) writer.old writer.new result }
{
    match mode {
        Mode::Queue => answer_queue(rt.alloc(), reader, writer),
        Mode::Check => answer_check(rt.alloc(), reader, writer),
        Mode::Run => answer_run(rt, rt.alloc(), reader, writer, &OpenGate),
        Mode::Trace => answer_trace(rt, rt.alloc(), reader, writer, &OpenGate),
        Mode::Judge => answer_judge(rt.alloc(), reader, writer),
        Mode::Verdicts => answer_verdicts(rt.alloc(), reader, writer),
    }
}

/// Answers in this mode through this buffer. Returns the status, and the writer under the buffer,
/// which has got everything printed. If the buffer or the writer fails, the writer has got a front
/// of an answer.
fn answer_through<T: AllocGlobal + Threads + Wait + Sync, R: Read, W: Write + Drop>(
    rt: &T,
    mode: Mode,
    reader: &mut Watched<R>,
    buffer: BufWriter<W>,
) -> Result<(u8, W), FailedWriter<W>>
    ensures answer { IsHanded W.contents (IsAnswerOf mode R.remaining reader.old reader.new)
        (writer_contents W.contents buffer) result }
    ensures always { mode ≡ Mode.Verdicts
        → IsHanded W.contents (IsAlwaysKept (reader_left R.remaining reader.old))
        (writer_contents W.contents buffer) result }
{
    let mut writer = Watched::new(buffer);
    let status = answer(rt, mode, reader, &mut writer);
    finish(writer, status)
}

fn answer_unread<W: Write + Drop>(buffer: BufWriter<W>) -> Result<(u8, W), FailedWriter<W>>
    ensures { IsHanded W.contents (IsJust unread_text 2) (writer_contents W.contents buffer) result }
{
    let mut writer = Watched::new(buffer);
    let status = answer_fault(&mut writer, QueueFault::Read);
    finish(writer, status)
}

/// The status, if the answer was written. What a failed buffer holds is written nowhere: dropping
/// the buffer would try again.
fn status_of<W: Write + Drop>(answered: Result<(u8, W), FailedWriter<W>>) -> Option<u8> {
    match answered {
        Ok((status, _)) => Some(status),
        Err(FailedWriter::Writer(_)) => None,
        Err(FailedWriter::Buffer(writer)) => {
            let (_, _unwritten) = writer.into_inner().into_parts();
            None
        }
    }
}

fn answer_memory<T: Print>(rt: &T) -> Option<u8> {
    answer_fault(&mut Watched::new(io::writer(rt)), QueueFault::Memory)
}

/// Answers the text of this file, or of standard input if no file is named. `None` if the writer
/// failed; nothing is written after that.
fn answer_file<T>(rt: &T, mode: Mode, file: Option<&str>) -> Option<u8>
where
    T: AllocGlobal + Files + Input + Print + Threads + Wait + Sync,
{
    let Ok(buffer) = BufWriter::new(rt.alloc(), io::writer(rt)) else {
        return answer_memory(rt);
    };
    match file {
        None => status_of(answer_through(rt, mode, &mut Watched::new(rt.reader()), buffer)),
        Some(path) => match File::open(rt, path) {
            Ok(reader) => status_of(answer_through(rt, mode, &mut Watched::new(reader), buffer)),
            Err(_) => status_of(answer_unread(buffer)),
        },
    }
}

fn words_of<R: Env + AllocGlobal>(rt: &R) -> io::Result<Vec<String>> {
    let words = env::args(rt)?.skip(1).collect(rt.alloc())?;
    Ok(words)
}

/// The status is 3 if the writer failed.
fn main(rt: HostRuntime) -> ExitCode {
    let status = match words_of(&rt) {
        Ok(words) => match line_of(words.as_slice()) {
            Some((mode, file)) => answer_file(&rt, mode, file),
            None => Some(usage(&rt)),
        },
        Err(error) if error.kind() == ErrorKind::OutOfMemory => { answer_memory(&rt) }
        Err(_) => Some(usage(&rt)),
    };
    ExitCode::from(status.unwrap_or(FAULTED))
}
