use thiserror::Error;

/// Why an event is refused. Of two causes it is the first one here.
#[derive(Clone, Copy, Debug, PartialEq, Eq, Error)]
pub enum WorldFault {
    /// The plant has no such resource.
    #[error("NoSuchResource")]
    NoSuchResource,
    /// The resource has no such task.
    #[error("NoSuchTask")]
    NoSuchTask,
    /// No such message was made.
    #[error("NoSuchMessage")]
    NoSuchMessage,
    /// The task's last evaluation in this incarnation has the greatest number.
    #[error("NumbersSpent")]
    NumbersSpent,
    /// The resource's incarnation is 4,294,967,295.
    #[error("IncarnationsSpent")]
    IncarnationsSpent,
    /// There was no memory left.
    #[error("Memory")]
    Memory,
    /// The resource that is heard of never was in that incarnation. It is looked for after NoSuchResource.
    #[error("NeverHeld")]
    NeverHeld,
}
