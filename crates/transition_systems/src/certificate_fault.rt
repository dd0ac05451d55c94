use std::alloc::AllocError;
use thiserror::Error;

/// Why a certificate is not accepted.
#[derive(Clone, Copy, Debug, PartialEq, Eq, Error)]
pub enum CertificateFault {
    /// The parts of the system don't fit together.
    #[error("NotWhole")]
    NotWhole,
    /// A clause names a state bit that the system doesn't have.
    #[error("NoSuchBit")]
    NoSuchBit,
    /// A clause doesn't hold of the first state.
    #[error("NotAtFirst")]
    NotAtFirst,
    /// No step shows a clause of the next state.
    #[error("NotKept")]
    NotKept,
    /// No step shows that a state isn't bad.
    #[error("NotSafe")]
    NotSafe,
    /// A step doesn't follow by its hints.
    #[error("NotFollowing")]
    NotFollowing,
    /// There was no memory left.
    #[error("Memory")]
    Memory,
}

impl From<AllocError> for CertificateFault {
    ghost use Rattle.std.specs.Prelude.{◌≡◌};
    ghost use Rattle.transition_systems.specs.declared.certificate_fault.CertificateFault.TheVariants.{Memory};

    ghost from_gives = { λ _ fault. fault ≡ Memory };

    fn from(_fault: AllocError) -> CertificateFault {
        CertificateFault::Memory
    }
}
