use std::alloc::{AllocError, AllocFailed};
use thiserror::Error;

/// Why a text of field inputs is refused.
#[derive(Clone, Copy, Debug, PartialEq, Eq, Error)]
pub enum InputFault {
    /// A word isn't `ADDRESS=VALUE`.
    #[error("Syntax")]
    Syntax,
    /// Each word is one, and an address comes twice.
    #[error("Twice")]
    Twice,
    /// There was no memory left.
    #[error("Memory")]
    Memory,
}

impl From<AllocError> for InputFault {
    ghost use Rattle.std.specs.Prelude.{◌≡◌};
    ghost use Rattle.evaluation.specs.declared.input_fault.InputFault.TheVariants.{Memory};

    ghost from_gives = { λ _ fault. fault ≡ Memory };

    fn from(_fault: AllocError) -> InputFault {
        InputFault::Memory
    }
}

impl<T: Drop> From<AllocFailed<T>> for InputFault {
    ghost use Rattle.std.specs.Prelude.{◌≡◌};
    ghost use Rattle.evaluation.specs.declared.input_fault.InputFault.TheVariants.{Memory};

    ghost from_gives = { λ _ fault. fault ≡ Memory };

    fn from(_fault: AllocFailed<T>) -> InputFault {
        InputFault::Memory
    }
}
