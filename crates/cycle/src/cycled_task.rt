ghost use Rattle.std.specs.Prelude.{◌≡◌, ◌<◌, ◌≤◌};
ghost use Rattle.cycle.specs.Cycle.{asked_at, dt_at, due_moments, evaluated_at, is_due, skipped_at, NoneDueBefore};

use crate::asked::Asked;

/// A task of a cycle. Those that are due at one moment go by priority, and then by their place in the resource.
#[derive(Clone, Copy, Debug, PartialEq, Eq, PartialOrd, Ord)]
pub struct CycledTask {
    /// 0 is the highest.
    pub priority: u16,
    /// Its place in the resource.
    pub task: usize,
    /// How many ms are from one due moment to the next.
    pub interval: u32,
    /// Up to which moment its time is counted, in ms since the start: that of its last evaluation.
    pub evaluated: u64,
}

impl CycledTask {
    /// How many due moments it has up to a reading.
    fn due_moments(&self, reading: u64) -> u64
        requires { 0 < self.now.interval }
        ensures { result ≡ due_moments self.now.interval reading }
    {
        reading / u64::from(self.interval)
    }

    /// Whether one of its due moments came since its last evaluation.
    pub(crate) fn is_due(&self, reading: u64) -> bool
        requires { 0 < self.now.interval }
        ensures { result ≡ is_due reading self.now }
    {
        self.due_moments(self.evaluated) < self.due_moments(reading)
    }

    /// The ms since its last evaluation, as many as an evaluation takes.
    fn dt(&self, reading: u64) -> u32
        requires { self.now.evaluated ≤ reading }
        ensures { result ≡ dt_at reading self.now }
    {
        (reading - self.evaluated).min(u64::from(u32::MAX)) as u32
    }

    /// Evaluates it at a reading.
    pub(crate) fn evaluate(&mut self, reading: u64) -> Asked
        requires positive { 0 < self.old.interval }
        requires reached { self.old.evaluated ≤ reading }
        ensures asked { result ≡ asked_at reading self.old }
        ensures evaluated { self.new ≡ evaluated_at reading self.old }
    {
        let dt = self.dt(reading);
        let before = self.due_moments(self.evaluated);
        self.evaluated += u64::from(dt);
        let passed = self.due_moments(self.evaluated).saturating_sub(before);
        Asked {
            task: self.task,
            dt,
            skipped: passed.saturating_sub(1),
        }
    }

    /// Before this moment it isn't due; 18,446,744,073,709,551,615 where it isn't due before that.
    pub(crate) fn next_due(&self) -> u64
        requires { 0 < self.now.interval }
        ensures { NoneDueBefore result self.now }
    {
        let counted = self.evaluated - self.evaluated % u64::from(self.interval);
        counted.saturating_add(u64::from(self.interval))
    }
}
