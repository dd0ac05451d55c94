ghost use Rattle.std.specs.Prelude.{◌≡◌};

use std::alloc::{AllocError, AllocFailed};
use thiserror::Error;

/// Why there is no plan.
#[derive(Clone, Copy, Debug, PartialEq, Eq, Error)]
pub enum PlanFault {
    /// It would have more than 100,000 entries.
    #[error("TooLong")]
    TooLong,
    /// There was no memory left.
    #[error("Memory")]
    Memory,
}

impl From<AllocError> for PlanFault {
    ghost use Rattle.task_codes.specs.declared.plan_fault.PlanFault.TheVariants.{Memory};

    ghost from_gives = { λ _ fault. fault ≡ Memory };

    fn from(_fault: AllocError) -> PlanFault {
        PlanFault::Memory
    }
}

impl<T: Drop> From<AllocFailed<T>> for PlanFault {
    ghost use Rattle.task_codes.specs.declared.plan_fault.PlanFault.TheVariants.{Memory};

    ghost from_gives = { λ _ fault. fault ≡ Memory };

    fn from(_fault: AllocFailed<T>) -> PlanFault {
        PlanFault::Memory
    }
}
