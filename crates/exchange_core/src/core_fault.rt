use std::alloc::AllocError;
use thiserror::Error;

/// Why there is no core.
#[derive(Clone, Copy, Debug, PartialEq, Eq, Error)]
pub enum CoreFault {
    /// The plant has no such resource.
    #[error("NoSuchResource")]
    NoSuchResource,
    /// There was no memory left.
    #[error("Memory")]
    Memory,
}

impl From<AllocError> for CoreFault {
    ghost use Rattle.std.specs.Prelude.{◌≡◌};
    ghost use Rattle.exchange_core.specs.declared.core_fault.CoreFault.TheVariants.{Memory};

    ghost from_gives = { λ _ fault. fault ≡ Memory };

    fn from(_fault: AllocError) -> CoreFault {
        CoreFault::Memory
    }
}
