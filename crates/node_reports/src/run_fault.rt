use std::alloc::{AllocError, AllocFailed};
use thiserror::Error;

/// Why a run of threads gives no report. The threads that were started have ended.
#[derive(Clone, Copy, Debug, PartialEq, Eq, Error)]
pub enum RunFault {
    /// There was no memory left.
    #[error("Memory")]
    Memory,
    /// A thread could not be started. Those started before were stopped and joined.
    #[error("Spawn")]
    Spawn,
    /// What a journal made isn't what the book has of its resource, or its first incarnation isn't the book's.
    #[error("BookDisagrees")]
    BookDisagrees,
    /// An entry, or a restart in a journal, answers no command of its resource, or one with other contents; an entry has heard of an incarnation that never was; or a fault is told of no command of its resource, or of one that can't have met it.
    #[error("Stranger")]
    Stranger,
    /// In a journal the ticket of an evaluation made or of a restart isn't above that of the one before.
    #[error("Doubled")]
    Doubled,
    /// A keeper could not raise its incarnation, or tell the retained variables that it kept, before the start.
    #[error("Keeper")]
    Keeper,
}

impl From<AllocError> for RunFault {
    ghost use Rattle.std.specs.Prelude.{◌≡◌};
    ghost use Rattle.node_reports.specs.declared.run_fault.RunFault.TheVariants.{Memory};

    ghost from_gives = { λ _ fault. fault ≡ Memory };

    fn from(_fault: AllocError) -> RunFault {
        RunFault::Memory
    }
}

impl<T: Drop> From<AllocFailed<T>> for RunFault {
    ghost use Rattle.std.specs.Prelude.{◌≡◌};
    ghost use Rattle.node_reports.specs.declared.run_fault.RunFault.TheVariants.{Memory};

    ghost from_gives = { λ _ fault. fault ≡ Memory };

    fn from(_fault: AllocFailed<T>) -> RunFault {
        RunFault::Memory
    }
}
