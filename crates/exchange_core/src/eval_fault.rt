use std::alloc::AllocError;
use thiserror::Error;

/// Why a task is not evaluated.
#[derive(Clone, Copy, Debug, PartialEq, Eq, Error)]
pub enum EvalFault {
    /// The resource has no such task.
    #[error("NoSuchTask")]
    NoSuchTask,
    /// The task's last evaluation in this incarnation has the greatest number.
    #[error("NumbersSpent")]
    NumbersSpent,
    /// There was no memory left.
    #[error("Memory")]
    Memory,
}

impl From<AllocError> for EvalFault {
    ghost use Rattle.std.specs.Prelude.{◌≡◌};
    ghost use Rattle.exchange_core.specs.declared.eval_fault.EvalFault.TheVariants.{Memory};

    ghost from_gives = { λ _ fault. fault ≡ Memory };

    fn from(_fault: AllocError) -> EvalFault {
        EvalFault::Memory
    }
}
