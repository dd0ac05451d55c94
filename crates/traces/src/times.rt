ghost use Rattle.std.specs.Prelude.{◌≡◌};
ghost use Rattle.traces.specs.Times.{planned, time_of};

use task_codes::Due;

/// When moments begin, in ms from the start.
#[derive(Clone, Copy, Debug)]
pub enum Times<'a> {
    /// Each lasts so many ms.
    Each(u32),
    /// The first one is at 0 ms, each further one at the moment of an entry of a plan up to and with `until`.
    Planned { dues: &'a [Due], until: u32 },
}

impl Times<'_> {
    /// When a moment begins; the end of the last one is when the next one would.
    pub(crate) fn time_of(self, moment: u32) -> u64
        ensures { result ≡ time_of self.entry moment }
    {
        match self {
            Times::Each(step) => u64::from(step) * u64::from(moment),
            Times::Planned { dues, until } => planned(dues, until, moment),
        }
    }
}

/// When a moment begins, where each but the first one is an entry of a plan.
fn planned(dues: &[Due], until: u32, moment: u32) -> u64
    ensures { result ≡ planned dues.now until moment }
{
    if moment == 0 {
        return 0;
    }
    match dues.get((moment - 1) as usize) {
        Some(due) => u64::from(due.moment),
        None => u64::from(until) + 1,
    }
}
