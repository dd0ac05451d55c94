//! Gates that tests choose.

use crate::test_keepers::Meeting;
use node::{Gate, OutOfTurns, PacedGate};
use std::sync::Arc;
use std::sync::atomic::{AtomicBool, AtomicU64, Ordering};
use std::thread;

/// Each of two resources waits in `pass` until the other one is there.
#[derive(Drop)]
pub struct PairGate {
    first: AtomicBool,
    second: AtomicBool,
}

impl PairGate {
    pub fn new() -> PairGate {
        PairGate {
            first: AtomicBool::new(false),
            second: AtomicBool::new(false),
        }
    }
}

/// Looks for a flag, for a number of turns.
pub fn wait_for(flag: &AtomicBool) -> Result<(), OutOfTurns> {
    for _turn in 0..10_000_000 {
        if flag.load(Ordering::SeqCst) {
            return Ok(());
        }
        thread::yield_now();
    }
    Err(OutOfTurns)
}

impl Gate for PairGate {
    fn issue(&self, _ticket: u64) -> Result<(), OutOfTurns> {
        Ok(())
    }

    fn pass(&self, resource: usize, _ticket: u64) -> Result<(), OutOfTurns> {
        if resource == 0 {
            self.first.store(true, Ordering::SeqCst);
            wait_for(&self.second)
        } else {
            self.second.store(true, Ordering::SeqCst);
            wait_for(&self.first)
        }
    }

    fn sent(&self, _resource: usize, _ticket: u64) -> Result<(), OutOfTurns> {
        Ok(())
    }
}

/// A paced gate at which the first command doesn't pass.
#[derive(Drop)]
pub struct ClosedToFirst {
    paced: PacedGate,
}

impl ClosedToFirst {
    pub fn new(turns: u64) -> ClosedToFirst {
        ClosedToFirst {
            paced: PacedGate::new(turns),
        }
    }
}

impl Gate for ClosedToFirst {
    fn issue(&self, ticket: u64) -> Result<(), OutOfTurns> {
        self.paced.issue(ticket)
    }

    fn pass(&self, _resource: usize, ticket: u64) -> Result<(), OutOfTurns> {
        if ticket == 1 { Err(OutOfTurns) } else { Ok(()) }
    }

    fn sent(&self, resource: usize, ticket: u64) -> Result<(), OutOfTurns> {
        self.paced.sent(resource, ticket)
    }
}

/// A gate that never waits, but lets other threads go first 100,000 times before the first command passes.
#[derive(Clone, Copy)]
pub struct SlowFirst;

impl Gate for SlowFirst {
    fn issue(&self, _ticket: u64) -> Result<(), OutOfTurns> {
        Ok(())
    }

    fn pass(&self, _resource: usize, ticket: u64) -> Result<(), OutOfTurns> {
        if ticket == 1 {
            for _turn in 0..100_000 {
                thread::yield_now();
            }
        }
        Ok(())
    }

    fn sent(&self, _resource: usize, _ticket: u64) -> Result<(), OutOfTurns> {
        Ok(())
    }
}

/// A gate that never waits, and at which the first command isn't issued.
#[derive(Clone, Copy)]
pub struct FirstUnissued;

impl Gate for FirstUnissued {
    fn issue(&self, ticket: u64) -> Result<(), OutOfTurns> {
        if ticket == 1 { Err(OutOfTurns) } else { Ok(()) }
    }

    fn pass(&self, _resource: usize, _ticket: u64) -> Result<(), OutOfTurns> {
        Ok(())
    }

    fn sent(&self, _resource: usize, _ticket: u64) -> Result<(), OutOfTurns> {
        Ok(())
    }
}

/// A paced gate that counts how often it is told that a command is done with: in the digit of the command's ticket, of a number to the base 16.
#[derive(Drop)]
pub struct CountingGate {
    paced: PacedGate,
    told: AtomicU64,
}

impl CountingGate {
    pub fn new(turns: u64) -> CountingGate {
        CountingGate {
            paced: PacedGate::new(turns),
            told: AtomicU64::new(0),
        }
    }

    pub fn told(&self) -> u64 {
        self.told.load(Ordering::SeqCst)
    }
}

impl Gate for CountingGate {
    fn issue(&self, ticket: u64) -> Result<(), OutOfTurns> {
        self.paced.issue(ticket)
    }

    fn pass(&self, resource: usize, ticket: u64) -> Result<(), OutOfTurns> {
        self.paced.pass(resource, ticket)
    }

    fn sent(&self, resource: usize, ticket: u64) -> Result<(), OutOfTurns> {
        let mut digit = 1_u64;
        for _place in 0..ticket {
            digit = digit.wrapping_mul(16);
        }
        self.told.fetch_add(digit, Ordering::SeqCst);
        self.paced.sent(resource, ticket)
    }
}

/// A gate at which the second command is issued once the first one's evaluation is being kept, and that tells when the second is done with.
#[derive(Drop)]
pub struct MeetingGate {
    pub meeting: Arc<Meeting>,
}

impl Gate for MeetingGate {
    fn issue(&self, ticket: u64) -> Result<(), OutOfTurns> {
        if ticket == 2 {
            wait_for(&self.meeting.is_keeping)
        } else {
            Ok(())
        }
    }

    fn pass(&self, _resource: usize, _ticket: u64) -> Result<(), OutOfTurns> {
        Ok(())
    }

    fn sent(&self, _resource: usize, ticket: u64) -> Result<(), OutOfTurns> {
        if ticket == 2 {
            self.meeting.is_second_done.store(true, Ordering::SeqCst);
        }
        Ok(())
    }
}
