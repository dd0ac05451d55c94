use std::alloc::AllocError;
use thiserror::Error;

/// Why a schedule isn't done to its end.
#[derive(Clone, Copy, Debug, PartialEq, Eq, Error)]
pub enum SimFault {
    /// This line, counted from 1, is no event, no comment and not blank.
    #[error("{line}: Syntax")]
    Syntax { line: u64 },
    /// The lines can't be written.
    #[error("Write")]
    Write,
    /// There was no memory left.
    #[error("Memory")]
    Memory,
}

impl From<AllocError> for SimFault {
    ghost use Rattle.std.specs.Prelude.{◌≡◌};
    ghost use Rattle.world.specs.declared.sim_fault.SimFault.TheVariants.{Memory};

    ghost from_gives = { λ _ fault. fault ≡ Memory };

    fn from(_fault: AllocError) -> SimFault {
        SimFault::Memory
    }
}
