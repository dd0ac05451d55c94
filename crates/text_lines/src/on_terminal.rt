ghost use Rattle.std.specs.Prelude.{◌<◌};

use crate::how_far::{HowFar, Progress};
use std::io;
use std::rt::Clock;
use std::time::Instant;

/// A search is so quick that the clock is looked at only once in so many scans.
const SCANS: u32 = 4_096;

/// Tells on standard error how far a work is, in one line that is written anew, once a second at most.
#[derive(Drop)]
pub struct OnTerminal<'a, R> {
    rt: &'a R,
    begun: Option<Instant>,
    /// How often it was told of scans since the clock was looked at last.
    calls: u32,
    /// How many seconds had passed when the line was written last; 0 where it wasn't.
    seconds: u64,
}

impl<'a, R: Eprint + Clock> OnTerminal<'a, R> {
    /// A work begins. `terminal` is whether standard error is one; else nothing is written.
    pub fn new(rt: &'a R, terminal: bool) -> Self {
        let begun = if terminal {
            Instant::now(rt).ok()
        } else {
            None
        };
        OnTerminal {
            rt,
            begun,
            calls: 0,
            seconds: 0,
        }
    }

    /// Whether the clock is not looked at now.
    fn waits(&mut self, how_far: HowFar) -> bool {
        match how_far {
            HowFar::Searched { .. } => {
                self.calls = self.calls.wrapping_add(1) % SCANS;
                self.calls != 0
            }
            HowFar::Written { .. } | HowFar::Obeyed { .. } => false,
        }
    }

    /// Writes the line, after so many seconds.
    fn write_line(&self, how_far: HowFar, seconds: u64) -> io::Result<()>
        requires { 0 < seconds }
    {
        match how_far {
            HowFar::Searched {
                states,
                to_go,
                scans,
            } => {
                let rate = scans as u64 / seconds;
                eprint!(self.rt; "\r{states} states, {to_go} to go, {rate} scans a second\x1b[K")
            }
            HowFar::Written { lines } => {
                let rate = lines as u64 / seconds;
                eprint!(self.rt; "\r{lines} lines, {rate} a second\x1b[K")
            }
            HowFar::Obeyed { commands } => {
                let rate = commands / seconds;
                eprint!(self.rt; "\r{commands} commands, {rate} a second\x1b[K")
            }
        }
    }
}

impl<R: Eprint + Clock> Progress for OnTerminal<'_, R> {
    fn tell(&mut self, how_far: HowFar) {
        let Some(begun) = self.begun else {
            return;
        };
        if self.waits(how_far) {
            return;
        }
        let Ok(elapsed) = begun.elapsed(self.rt) else {
            return;
        };
        let seconds = elapsed.as_secs();
        if seconds > self.seconds {
            self.seconds = seconds;
            let _ = self.write_line(how_far, seconds);
        }
    }

    fn end(&mut self) {
        if self.seconds > 0 {
            self.seconds = 0;
            let _ = eprint!(self.rt; "\r\x1b[K");
        }
    }
}
