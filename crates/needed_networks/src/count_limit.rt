/// How far the count of a block matters.
#[derive(Clone, Copy, Debug, PartialEq, Eq)]
pub enum CountLimit {
    /// Each count matters.
    Whole,
    /// A count above this one, which is PV of a counter up, is as this one.
    UpTo(i16),
    /// A count below 0 of a counter down is as 0.
    FromZero,
}
