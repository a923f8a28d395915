//! A reader or a writer that remembers whether it failed, and writes through it.
ghost use Rattle.std.specs.Prelude.{◌≡◌, ◌≢◌, ◌⊎◌, ◌≤◌, [], false, IfErr, IsErr, IsTrue, MatchResult, Ok, length, take};
ghost use Rattle.std.specs.Fmt.{decimal};
ghost use Rattle.std.specs.Io.{ReadsAtMost, WritesAtMost};
ghost use Rattle.std.specs.Io.KnownBytes.{Keeps, ReadConsumes, WriteAppends};
ghost use Rattle.std.specs.IoError.{error_kind};
ghost use Rattle.tp_common.specs.Watching.{HasFailed, Writes};

use itoa::Buffer;
use std::io;
use std::io::{ErrorKind, Read, Write};

/// A reader or a writer, and whether it has failed: it returned an error, or, as a writer, took no
/// byte. An interruption isn't a failure; the caller tries again.
#[derive(Drop)]
pub struct Watched<T> {
    inner: T,
    failed: bool,
}

fn is_interrupted(error: &io::Error) -> bool
    ensures { IsTrue result → error_kind error.now ≡ ErrorKind.Interrupted }
{
    error.kind() == ErrorKind::Interrupted
}

impl<T> Watched<T> {
    pub fn new(inner: T) -> Watched<T>
        ensures inner { result.inner ≡ inner }
        ensures well { result.failed ≡ false }
    {
        Watched {
            inner,
            failed: false,
        }
    }

    pub fn has_failed(&self) -> bool
        ensures { result ≡ self.now.failed }
    {
        self.failed
    }

    /// It counts as failed from now on, because it was interrupted each time.
    pub(crate) fn give_up(&mut self)
        ensures inner { self.new.inner ≡ self.old.inner }
        ensures failed { HasFailed self.new }
    {
        self.failed = true;
    }

    pub fn into_inner(self) -> T
        ensures { result ≡ self.inner }
    {
        let Watched { inner, failed: _ } = self;
        inner
    }
}

impl<R: Read> Read for Watched<R> {
    ghost use Rattle.std.specs.Prelude.{◌≢◌, ◌⊎◌, IfErr};

    ghost remaining = { λ r. R.remaining r.inner };

    fn read(&mut self, buf: &mut [u8]) -> io::Result<usize>
        ensures bound { ReadsAtMost result buf.new }
        ensures bytes { ReadConsumes (R.remaining self.old.inner) (R.remaining self.new.inner)
            result buf.new }
        ensures failed { IfErr result (λ e.
            error_kind e ≢ ErrorKind.Interrupted → HasFailed self.new) }
        ensures only { HasFailed self.new → HasFailed self.old ⊎ IsErr result }
    {
        let result = self.inner.read(buf);
        if let Err(error) = &result {
            if !is_interrupted(error) {
                self.failed = true;
            }
        }
        result
    }
}

impl<W: Write> Write for Watched<W> {
    ghost use Rattle.std.specs.Prelude.{◌≢◌, ◌⊎◌, IfErr, Ok};

    ghost contents = { λ w. W.contents w.inner };

    #[inline(always)]
    fn write(&mut self, buf: &[u8]) -> io::Result<usize>
        ensures bound { WritesAtMost result buf.now }
        ensures bytes { WriteAppends (W.contents self.old.inner) (W.contents self.new.inner)
            result buf.now }
        ensures kept { HasFailed self.old → HasFailed self.new }
        ensures failed { IfErr result (λ e.
            error_kind e ≢ ErrorKind.Interrupted → HasFailed self.new) }
        ensures none { result ≡ Ok 0 → HasFailed self.new }
        ensures only { HasFailed self.new → HasFailed self.old ⊎ (IsErr result ⊎ (result ≡ Ok 0)) }
    {
        let result = self.inner.write(buf);
        match &result {
            // Else `write_rest` would ask such a writer again and again.
            Ok(0) => self.failed = true,
            Ok(_) => {}
            Err(error) => {
                if !is_interrupted(error) {
                    self.failed = true;
                }
            }
        }
        result
    }

    fn flush(&mut self) -> io::Result<()>
        ensures bytes { Keeps (W.contents self.old.inner) (W.contents self.new.inner) }
        ensures kept { HasFailed self.old → HasFailed self.new }
        ensures failed { IsErr result → HasFailed self.new }
        ensures only { HasFailed self.new → HasFailed self.old ⊎ IsErr result }
    {
        let result = self.inner.flush();
        if result.is_err() {
            self.failed = true;
        }
        result
    }
}

// Inlined, because reports are written in many small pieces.
#[inline(always)]
fn write_some<W: Write>(bytes: &[u8], out: &mut Watched<W>) -> usize
    ensures few { result ≤ length bytes.now }
    ensures written { Writes W.contents out.old out.new (take result bytes.now) }
{
    // An empty write is left out: its count of 0 would be a failure.
    if out.failed || bytes.is_empty() {
        return 0;
    }
    match out.write(bytes) {
        Ok(count) => count,
        Err(_) => 0,
    }
}

#[cold]
#[inline(never)]
fn write_rest<W: Write>(bytes: &[u8], out: &mut Watched<W>)
    ensures { Writes W.contents out.old out.new bytes.now }
{
    // A function of its own, so that the usual case of a write is inlined.
    let mut at = 0;
    for _ in 0..u64::MAX {
        if out.failed || at >= bytes.len() {
            return;
        }
        if let Ok(count) = out.write(&bytes[at..]) {
            at += count;
        }
    }
    // It was interrupted 18,446,744,073,709,551,615 times.
    out.give_up();
}

/// Writes these bytes: all of them, or a front of them, and then the writer has failed. If it has
/// failed before, nothing is written. An interrupted write is tried again.
#[inline(always)]
pub fn write_bytes<W: Write>(bytes: &[u8], out: &mut Watched<W>)
    ensures { Writes W.contents out.old out.new bytes.now }
{
    let count = write_some(bytes, out);
    if count < bytes.len() {
        write_rest(&bytes[count..], out);
    }
}

pub fn write_number<W: Write>(number: u64, out: &mut Watched<W>)
    ensures { Writes W.contents out.old out.new (decimal number) }
{
    let mut buffer = Buffer::new();
    write_bytes(buffer.format(number).as_bytes(), out);
}

/// Flushes the writer. If that fails, the writer has failed.
pub fn flush<W: Write>(out: &mut Watched<W>)
    ensures { Writes W.contents out.old out.new [] }
{
    if !out.failed {
        // The writer itself remembers a failure.
        let _ = out.flush();
    }
}
