//! How far a run is: how many commands are done with, until the first line goes out.

use node::{Gate, OutOfTurns};
use std::io;
use std::io::Write;
use std::sync::Mutex;
use std::sync::atomic::{AtomicU64, Ordering};
use text_lines::{HowFar, Progress};

/// The telling ends, until something is told anew.
fn end<P: Progress>(progress: Option<&Mutex<P>>) {
    if let Some(progress) = progress {
        if let Some(mut progress) = progress.try_lock() {
            progress.end();
        }
    }
}

/// A gate that passes on what it is asked, and tells how many commands are done with.
#[derive(Drop)]
pub struct ToldGate<'a, G, P> {
    gate: &'a G,
    /// None where nobody is told.
    progress: Option<&'a Mutex<P>>,
    done: AtomicU64,
}

impl<'a, G, P> ToldGate<'a, G, P> {
    /// No command is done with yet.
    pub fn new(gate: &'a G, progress: Option<&'a Mutex<P>>) -> Self {
        ToldGate {
            gate,
            progress,
            done: AtomicU64::new(0),
        }
    }
}

impl<G: Gate, P: Progress + Send> Gate for ToldGate<'_, G, P> {
    fn issue(&self, ticket: u64) -> Result<(), OutOfTurns> {
        self.gate.issue(ticket)
    }

    fn pass(&self, resource: usize, ticket: u64) -> Result<(), OutOfTurns> {
        self.gate.pass(resource, ticket)
    }

    /// Where another thread is telling, this one tells nothing.
    fn sent(&self, resource: usize, ticket: u64) -> Result<(), OutOfTurns> {
        if let Some(progress) = self.progress {
            let before = self.done.fetch_add(1, Ordering::SeqCst);
            if let Some(mut progress) = progress.try_lock() {
                let commands = before.saturating_add(1);
                progress.tell(HowFar::Obeyed { commands });
            }
        }
        self.gate.sent(resource, ticket)
    }
}

/// A writer that passes on all that comes to it, once the telling has ended.
#[derive(Drop)]
pub struct UntoldWriter<'a, W, P> {
    to: W,
    progress: Option<&'a Mutex<P>>,
}

impl<'a, W, P> UntoldWriter<'a, W, P> {
    /// Nothing went out yet.
    pub fn new(to: W, progress: Option<&'a Mutex<P>>) -> Self {
        UntoldWriter { to, progress }
    }
}

impl<W: Write, P: Progress> UntoldWriter<'_, W, P> {
    /// No more goes out, and nothing more is told.
    pub fn end(&self) {
        end(self.progress);
    }
}

impl<W: Write, P: Progress> Write for UntoldWriter<'_, W, P> {
    ghost contents = { λ w. W.contents w.to };

    fn write(&mut self, buf: &[u8]) -> io::Result<usize> {
        end(self.progress);
        self.to.write(buf)
    }

    fn flush(&mut self) -> io::Result<()> {
        self.to.flush()
    }
}
