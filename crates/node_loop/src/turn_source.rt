ghost use Rattle.std.specs.Prelude.{◌≡◌, List, Option, IfOk, OnErr, MatchOption};
ghost use Rattle.node_loop.specs.Given.{Turn, Reads, Takes, with_turn};

use crate::told::Told;
use cycle::Origin;

/// The clock can't be read.
#[derive(Clone, Copy, Debug, PartialEq, Eq)]
pub struct NoClock;

/// What a loop goes by: its clock, and what waits of its inputs.
pub trait TurnSource {
    /// What was given so far, the newest first, where that is known.
    ghost given: { Self → Option (List Turn) };

    /// Starts: the clock counts from now on, and the inputs are read.
    fn start(&mut self) -> Result<(), NoClock>
        ensures { given self.new ≡ given self.old };

    /// What the clock reads, in whole ms since the start.
    fn reading(&mut self) -> Result<u64, NoClock>
        ensures ok { IfOk result (λ ms. given self.new ≡ with_turn (Reads ms) (given self.old)) }
        ensures fault { OnErr result (given self.new ≡ given self.old) };

    /// Takes what waits first of an input, if something does.
    fn take(&mut self, origin: Origin) -> Option<Told>
        ensures { MatchOption result (given self.new ≡ given self.old)
            (λ told. given self.new ≡ with_turn (Takes origin told) (given self.old)) };

    /// Waits until something comes by an input, or until the clock reads this moment; for as long as it takes at
    /// 18,446,744,073,709,551,615.
    fn wait(&mut self, moment: u64)
        ensures { given self.new ≡ given self.old };
}
