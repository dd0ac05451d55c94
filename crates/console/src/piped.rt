use std::io;
use std::io::{ErrorKind, Write};

/// A writer that passes on all that comes to it, and notes whether nobody reads any more what it writes.
#[derive(Drop)]
pub(crate) struct Piped<W> {
    pub to: W,
    /// Whether a write failed since the pipe's reader has ended.
    pub is_closed: bool,
}

impl<W> Piped<W> {
    /// Nothing failed yet.
    pub fn new(to: W) -> Self {
        Piped {
            to,
            is_closed: false,
        }
    }
}

impl<W: Write> Write for Piped<W> {
    ghost contents = { λ w. W.contents w.to };

    fn write(&mut self, buf: &[u8]) -> io::Result<usize> {
        let result = self.to.write(buf);
        if let Err(error) = &result {
            self.is_closed = error.kind() == ErrorKind::BrokenPipe;
        }
        result
    }

    fn flush(&mut self) -> io::Result<()> {
        self.to.flush()
    }
}
