//! Room for the rest of a line.
ghost use Rattle.std.specs.Prelude.{◌≡◌, [], Ok, IsOk};
ghost use Rattle.std.specs.Io.{WritesAtMost};
ghost use Rattle.std.specs.Io.KnownBytes.{Keeps, WriteAppends};

use std::io;
use std::io::Write;
use std::marker::Model;

/// Room for the rest of most lines.
const ROOM: usize = 192;

/// A writer that takes a text whole or, without room for it, not at all. So the rest of a line, put
/// together here in many small pieces, costs one write. Contracts see it as what it holds.
#[derive(Drop)]
pub struct LineRoom {
    text: [u8; ROOM],
    end: usize,
}

impl Model for LineRoom {
    ghost use Rattle.std.specs.Prelude.{◌≤◌, ℕ, List, take};

    ghost Value = { List ℕ };

    ghost view = { λ r. take r.end r.text };

    ghost invariant = { λ r. r.end ≤ 192 };
}

impl LineRoom {
    pub fn new() -> LineRoom
        ensures { result ≡ [] }
    {
        LineRoom {
            text: [0; ROOM],
            end: 0,
        }
    }

    pub fn text(&self) -> &[u8]
        ensures { result.now ≡ self.now }
    {
        &self.text[..self.end]
    }
}

impl Write for LineRoom {
    ghost use Rattle.std.specs.Prelude.{Some};

    ghost contents = { λ r. Some r };

    // Inlined, because a line has many small pieces.
    #[inline(always)]
    fn write(&mut self, buf: &[u8]) -> io::Result<usize>
        ensures bound { WritesAtMost result buf.now }
        ensures bytes { WriteAppends (Some self.old) (Some self.new) result buf.now }
    {
        if buf.len() > ROOM - self.end {
            return Ok(0);
        }
        let end = self.end + buf.len();
        self.text[self.end..end].copy_from_slice(buf);
        self.end = end;
        Ok(buf.len())
    }

    fn flush(&mut self) -> io::Result<()>
        ensures bytes { Keeps (Some self.old) (Some self.new) }
        ensures ok { IsOk result }
    {
        Ok(())
    }
}
