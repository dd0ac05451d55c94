use crate::needs::Need;
use crate::reason::Reason;

/// What came of a line.
#[derive(Clone, Copy, Debug, PartialEq, Eq)]
pub(crate) enum Outcome {
    /// It was done, or changes nothing.
    Done,
    /// It can be done once this is there.
    Waits(Need),
    /// It can't be done.
    Stops(Reason),
}
