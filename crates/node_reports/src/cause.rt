use exchange_core::EvalFault;
use thiserror::Error;

/// Why a resource didn't obey a command, or a message of it wasn't sent, or its retained variables weren't kept.
#[derive(Clone, Copy, Debug, PartialEq, Eq, Error)]
pub enum Cause {
    /// The gate's turns were over.
    #[error("OutOfTurns")]
    OutOfTurns,
    /// The resource has no such task.
    #[error("NoSuchTask")]
    NoSuchTask,
    /// The task's last evaluation in this incarnation has the greatest number.
    #[error("NumbersSpent")]
    NumbersSpent,
    /// There was no memory left; or the evaluation stands, and there was none for its retained variables.
    #[error("Memory")]
    Memory,
    /// The evaluation made didn't fit the book.
    #[error("Misfit")]
    Misfit,
    /// The incarnation wasn't raised; or the evaluation stands, and the retained variables weren't kept.
    #[error("Keeper")]
    Keeper,
    /// The command, or the evaluation made by it, wasn't sent, or not to each resource.
    #[error("NotSent")]
    NotSent,
    /// The resource had stopped obeying.
    #[error("Stopped")]
    Stopped,
}

impl From<EvalFault> for Cause {
    ghost use Rattle.std.specs.Prelude.{◌≡◌};
    ghost use Rattle.node_reports.specs.Causes.{cause_of};

    ghost from_gives = { λ found cause. cause ≡ cause_of found };

    fn from(fault: EvalFault) -> Cause {
        match fault {
            EvalFault::NoSuchTask => Cause::NoSuchTask,
            EvalFault::NumbersSpent => Cause::NumbersSpent,
            EvalFault::Memory => Cause::Memory,
        }
    }
}
