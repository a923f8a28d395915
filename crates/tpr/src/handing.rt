//! The end of an answer: what a buffer still holds goes to its writer.
ghost use Rattle.std.specs.Prelude.{◌≡◌, MatchResult};
ghost use Rattle.std.specs.Io.Buffered.{writer_contents};
ghost use Rattle.std.specs.Io.KnownBytes.{Keeps};
ghost use Rattle.tpr.specs.Handed.{BeginsWith, IsFailed, IsFinished, got_by};

use std::io::{BufWriter, Write};
use tp_common::watched::{Watched, write_bytes};

/// The writer that failed while an answer was written.
#[derive(Drop)]
pub enum FailedWriter<W: Write + Drop> {
    /// The buffer, in the state in which the mode left it.
    Buffer(Watched<BufWriter<W>>),
    /// The writer under the buffer, after the last bytes.
    Writer(Watched<W>),
}

/// Flushes the buffer, and returns the status and the writer, which has got everything. If the
/// writer fails it has got a front, and nothing more is written.
fn hand_on<W: Write + Drop>(buffer: BufWriter<W>, status: u8) -> Result<(u8, W), FailedWriter<W>>
    ensures { MatchResult result
        (λ handed. (handed.0 ≡ status)
        × Keeps (writer_contents W.contents buffer) (W.contents handed.1))
        (λ failed. IsFailed failed
        × BeginsWith (writer_contents W.contents buffer) (got_by W.contents failed)) }
{
    let (inner, held) = buffer.into_parts();
    let mut writer = Watched::new(inner);
    write_bytes(held.as_slice(), &mut writer);
    if writer.has_failed() {
        return Err(FailedWriter::Writer(writer));
    }
    Ok((status, writer.into_inner()))
}

/// Flushes what an answer with this status has left in its buffer. Without a status the buffer has
/// failed, and nothing more is written.
pub fn finish<W: Write + Drop>(
    writer: Watched<BufWriter<W>>,
    status: Option<u8>,
) -> Result<(u8, W), FailedWriter<W>>
    ensures { IsFinished W.contents writer status result }
{
    match status {
        Some(status) => hand_on(writer.into_inner(), status),
        None => Err(FailedWriter::Buffer(writer)),
    }
}
