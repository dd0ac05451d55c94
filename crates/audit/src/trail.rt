ghost use Rattle.std.specs.Prelude.{◌≡◌, ◌+◌, ◌-◌, ◌<◌, if◌then◌else◌};
ghost use Rattle.audit.specs.declared.outcome.Outcome.TheVariants.{Done};
ghost use Rattle.audit.specs.Steps.Following.{HasNoted, IsStopped};

use crate::outcome::Outcome;
use crate::past::Past;

/// How far the lines of a resource were done.
#[derive(Drop)]
pub(crate) struct Trail {
    /// The place of the next line, counted from 0.
    pub at: usize,
    /// The place of the last START that was done; 0 before it.
    pub begun: usize,
    pub past: Past,
    /// What came of the line that was tried last.
    pub last: Outcome,
}

impl Trail {
    /// No line was done.
    pub(crate) fn new(past: Past) -> Trail
        ensures { result ≡ record { at = 0; begun = 0; past = past; last = Done } }
    {
        Trail {
            at: 0,
            begun: 0,
            past,
            last: Outcome::Done,
        }
    }

    /// How many lines the next one stands behind the last START.
    pub(crate) fn ticket(&self) -> u64
        ensures { result ≡ self.now.at - self.now.begun }
    {
        self.at.saturating_sub(self.begun) as u64
    }

    /// Whether the next line can't be done, whatever others do.
    pub(crate) fn is_stopped(&self) -> bool
        ensures { IsStopped self.now.last result }
    {
        match self.last {
            Outcome::Stops(_) => true,
            Outcome::Done | Outcome::Waits(_) => false,
        }
    }

    /// Notes what came of the next line, which is a START or not; whether it was done.
    pub(crate) fn note(&mut self, is_start: bool, outcome: Outcome) -> bool
        requires { self.old.at < 18446744073709551615 }
        ensures { HasNoted is_start outcome self.old self.new result }
    {
        self.last = outcome;
        if outcome != Outcome::Done {
            return false;
        }
        if is_start {
            self.begun = self.at;
        }
        self.at += 1;
        true
    }
}
