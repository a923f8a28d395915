//! Writers that fail.
use std::io;
use std::io::{ErrorKind, Write};

/// Takes this many bytes, and then returns an error.
#[derive(Drop)]
pub struct Short {
    pub room: usize,
}

impl Write for Short {
    fn write(&mut self, buf: &[u8]) -> io::Result<usize> {
        if self.room == 0 {
            return Err(io::Error::from(ErrorKind::BrokenPipe));
        }
        let count = buf.len().min(self.room);
        self.room -= count;
        Ok(count)
    }

    fn flush(&mut self) -> io::Result<()> {
        Ok(())
    }
}
