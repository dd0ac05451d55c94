ghost use Rattle.std.specs.Prelude.{◌≡◌};
ghost use Rattle.node_loop.specs.Given.{is_closing};
ghost use Rattle.node_loop.specs.Turns.{moment_of};

use cycle::Origin;

/// When a loop ends: once its clock reads `until`, in ms since the start; or where the input `closing` is at its end.
#[derive(Clone, Copy, Debug, PartialEq, Eq)]
pub struct Ending {
    pub until: Option<u32>,
    pub closing: Option<Origin>,
}

impl Ending {
    /// The moment at which it ends; 18,446,744,073,709,551,615 where none is given.
    pub fn moment(self) -> u64
        ensures { result ≡ moment_of self.until }
    {
        match self.until {
            Some(until) => u64::from(until),
            None => u64::MAX,
        }
    }

    /// Whether it ends where an input is at its end.
    pub fn is_closing(self, origin: Origin) -> bool
        ensures { result ≡ is_closing self.closing origin }
    {
        match (self.closing, origin) {
            (Some(Origin::Field), Origin::Field) | (Some(Origin::Neighbours), Origin::Neighbours) =>
                true,
            _ => false,
        }
    }
}
