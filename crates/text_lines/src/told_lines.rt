ghost use Rattle.std.specs.Prelude.{◌≡◌};

use crate::how_far::{HowFar, Progress};
use std::io;
use std::io::Write;

/// A writer that passes on all that comes to it, and tells how many lines went out.
#[derive(Drop)]
pub struct ToldLines<W, P> {
    to: W,
    progress: P,
    lines: usize,
}

impl<W: Write, P: Progress> ToldLines<W, P> {
    /// No line went out yet.
    pub fn new(to: W, progress: P) -> Self
        ensures { result.to ≡ to }
    {
        ToldLines {
            to,
            progress,
            lines: 0,
        }
    }

    /// No more goes out.
    pub fn end(&mut self)
        ensures { self.new.to ≡ self.old.to }
    {
        self.progress.end();
    }
}

impl<W: Write, P: Progress> Write for ToldLines<W, P> {
    ghost contents = { λ w. W.contents w.to };

    fn write(&mut self, buf: &[u8]) -> io::Result<usize> {
        let result = self.to.write(buf);
        if let Ok(taken) = &result {
            let lines = buf[..*taken].iter().filter(|byte| **byte == b'\n').count();
            self.lines = self.lines.saturating_add(lines);
            self.progress.tell(HowFar::Written { lines: self.lines });
        }
        result
    }

    fn flush(&mut self) -> io::Result<()> {
        self.to.flush()
    }
}
