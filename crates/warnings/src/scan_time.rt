//! The time between scans.

ghost use Rattle.std.specs.Prelude.{◌≡◌};
ghost use Rattle.warnings.specs.OfPlant.{time_in};

use plant_grammar::is_named;

/// How long after another one each evaluation of a program of a plant comes, by which the timers in its drawing are judged.
#[derive(Clone, Copy, Debug)]
pub struct ScanTime<'a> {
    /// In milliseconds. 0: no timer is judged.
    pub dt: u32,
    /// The name of the program type whose drawing alone is judged, in whatever case; without one those of all are.
    pub program: Option<&'a str>,
}

impl ScanTime<'_> {
    /// The time in milliseconds by which the timers of the program type of this name are judged; 0 where they aren't.
    pub(crate) fn within(self, name: &str) -> u32
        ensures { result ≡ time_in self.entry name.now }
    {
        match self.program {
            Some(program) if !is_named(program, name) => 0,
            _ => self.dt,
        }
    }
}
