//! Writers that take little, fail or take nothing.

use std::alloc::{AllocError, Global};
use std::io;
use std::io::Write;

/// A writer that keeps what it takes, at most `step` bytes a call and `room` bytes in all. Without room it fails, or takes nothing.
#[derive(Drop)]
pub struct Halting {
    pub taken: Vec<u8>,
    room: usize,
    step: usize,
    fails: bool,
}

impl Halting {
    /// It has memory for all that a test writes.
    pub fn new(
        alloc: Global,
        room: usize,
        step: usize,
        fails: bool,
    ) -> Result<Halting, AllocError> {
        let taken = Vec::with_capacity(alloc, 1_000)?;
        Ok(Halting {
            taken,
            room,
            step,
            fails,
        })
    }
}

impl Write for Halting {
    fn write(&mut self, buf: &[u8]) -> io::Result<usize> {
        let len = buf.len().min(self.step).min(self.room);
        if len == 0 && self.fails {
            return Err(io::Error::from(io::ErrorKind::BrokenPipe));
        }
        self.taken.extend_from_slice(&buf[..len])?;
        self.room -= len;
        Ok(len)
    }

    fn flush(&mut self) -> io::Result<()> {
        Ok(())
    }
}
