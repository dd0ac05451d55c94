ghost use Rattle.std.specs.Prelude.{◌≡◌, ◌≤◌, Ok};

use crate::gate::Gate;
use crate::out_of_turns::OutOfTurns;
use std::sync::atomic::{AtomicU64, Ordering};
use std::thread;

/// A gate at which a command is issued once the one before it is done with.
#[derive(Drop)]
pub struct PacedGate {
    turns: u64,
    done: AtomicU64,
}

impl PacedGate {
    /// A gate that waits for at most so many turns. A turn is one look and one yield.
    pub fn new(turns: u64) -> PacedGate
        ensures { result.turns ≡ turns }
    {
        PacedGate {
            turns,
            done: AtomicU64::new(0),
        }
    }
}

impl Gate for PacedGate {
    /// Waits until the command before this one is done with.
    fn issue(&self, ticket: u64) -> Result<(), OutOfTurns>
        ensures first { ticket ≤ 1 → result ≡ Ok tt }
    {
        if ticket <= 1 {
            return Ok(());
        }
        for _turn in 0..self.turns {
            if self.done.load(Ordering::SeqCst) >= ticket - 1 {
                return Ok(());
            }
            thread::yield_now();
        }
        Err(OutOfTurns)
    }

    fn pass(&self, _resource: usize, _ticket: u64) -> Result<(), OutOfTurns>
        ensures { result ≡ Ok tt }
    {
        Ok(())
    }

    fn sent(&self, _resource: usize, ticket: u64) -> Result<(), OutOfTurns>
        ensures { result ≡ Ok tt }
    {
        self.done.fetch_max(ticket, Ordering::SeqCst);
        Ok(())
    }
}
