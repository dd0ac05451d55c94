use gate_words::{IntWord, TimeWord};
use gates::Signal;

/// What a block reads in a step, in the order of its pins. Pins that its type doesn't have are ignored.
#[derive(Clone, Copy, Debug)]
pub struct EncodedPins {
    pub first: Signal,
    pub second: Signal,
    pub third: Signal,
    pub fourth: Signal,
    /// PV of a counter.
    pub int: IntWord,
    /// PT of a timer.
    pub time: TimeWord,
}
