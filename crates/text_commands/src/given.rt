ghost use Rattle.std.specs.Prelude.{◌≡◌, ◌+◌, ◌<◌, ◌^◌};
ghost use Rattle.text_commands.specs.Restarts.{restarts_at, last_restart};

use crate::series::Series;
use std::marker::Model;

/// What is given to the scans of a ladder: what words set, before which scans, counted from 1, it restarts, and which
/// places are kept then.
#[derive(Debug, Drop)]
pub struct Given<'a> {
    pub(crate) rows: &'a [Series<'a>],
    pub(crate) restarts: &'a [usize],
    pub(crate) kept: &'a [usize],
}

impl<'a> Model for Given<'a> {
    ghost use Rattle.text_commands.specs.Restarts.{GivenValue};

    ghost Value = { GivenValue };

    ghost view = { λ g. record { rows = g.rows.now; restarts = g.restarts.now; kept = g.kept.now } };
}

impl<'a> Given<'a> {
    /// Whether there is a restart before scan k, counted from 0.
    pub(crate) fn restarts_at(&self, k: usize) -> bool
        requires { k + 1 < 2 ^ 64 }
        ensures { result ≡ restarts_at self.now k }
    {
        let scan = k + 1;
        self.restarts.iter().any(|restart| *restart == scan)
    }

    /// The scan of the last restart; 0, where there is none.
    pub(crate) fn last_restart(&self) -> usize
        ensures { result ≡ last_restart self.now.restarts }
    {
        let mut last = 0;
        for restart in self.restarts {
            last = last.max(*restart);
        }
        last
    }
}
