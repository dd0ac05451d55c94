ghost use Rattle.std.specs.Prelude.{None};

use crate::channels::LoopEnds;
use crate::told::Told;
use crate::turn_source::{NoClock, TurnSource};
use cycle::Origin;
use std::rt::Clock;
use std::sync::Wait;
use std::time::{Duration, Instant};

/// A clock, and what the readers of both inputs hand on once it was started.
#[derive(Drop)]
pub struct LiveSource<'a, R> {
    rt: &'a R,
    start: Instant,
    ends: LoopEnds,
}

/// What the clock reads.
fn now<R: Clock>(rt: &R) -> Result<Instant, NoClock> {
    match Instant::now(rt) {
        Ok(now) => Ok(now),
        Err(_) => Err(NoClock),
    }
}

impl<'a, R: Clock> LiveSource<'a, R> {
    /// What goes by this clock.
    pub fn new(rt: &'a R, ends: LoopEnds) -> Result<Self, NoClock> {
        let start = now(rt)?;
        Ok(LiveSource { rt, start, ends })
    }

    /// The instant of a moment, in ms since the start; None where it is never.
    fn instant_of(&self, moment: u64) -> Option<Instant> {
        if moment == u64::MAX {
            return None;
        }
        self.start.checked_add(Duration::from_millis(moment))
    }
}

impl<R: Clock + Wait> TurnSource for LiveSource<'_, R> {
    ghost given = { λ _. None };

    fn start(&mut self) -> Result<(), NoClock> {
        self.start = now(self.rt)?;
        self.ends.neighbours.start(self.rt);
        self.ends.field.start(self.rt);
        Ok(())
    }

    fn reading(&mut self) -> Result<u64, NoClock> {
        let since = now(self.rt)?.saturating_duration_since(self.start);
        Ok(u64::try_from(since.as_millis()).unwrap_or(u64::MAX))
    }

    fn take(&mut self, origin: Origin) -> Option<Told> {
        match origin {
            Origin::Field => self.ends.field.take(self.rt),
            Origin::Neighbours => self.ends.neighbours.take(self.rt),
        }
    }

    fn wait(&mut self, moment: u64) {
        match self.instant_of(moment) {
            Some(instant) => {
                let _ = self.ends.bell.recv_deadline(self.rt, instant);
            }
            None => {
                let _ = self.ends.bell.recv(self.rt);
            }
        }
    }
}
