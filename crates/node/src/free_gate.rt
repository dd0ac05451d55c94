ghost use Rattle.std.specs.Prelude.{◌≡◌, Ok};

use crate::gate::Gate;
use crate::out_of_turns::OutOfTurns;

/// A gate at which no command waits.
#[derive(Clone, Copy, Debug)]
pub struct FreeGate;

impl Gate for FreeGate {
    fn issue(&self, _ticket: u64) -> Result<(), OutOfTurns>
        ensures { result ≡ Ok tt }
    {
        Ok(())
    }

    fn pass(&self, _resource: usize, _ticket: u64) -> Result<(), OutOfTurns>
        ensures { result ≡ Ok tt }
    {
        Ok(())
    }

    fn sent(&self, _resource: usize, _ticket: u64) -> Result<(), OutOfTurns>
        ensures { result ≡ Ok tt }
    {
        Ok(())
    }
}
