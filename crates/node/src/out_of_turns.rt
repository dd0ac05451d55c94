use thiserror::Error;

/// A gate's wait had no turn left.
#[derive(Clone, Copy, Debug, PartialEq, Eq, Error)]
#[error("OutOfTurns")]
pub struct OutOfTurns;
