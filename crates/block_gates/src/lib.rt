//! The standard function blocks with signals in the place of values: whatever the variables of the gates are, a step leaves
//! and shows what it does of the values that the signals have. In this order: blocks, inputs, outputs, edges, counts,
//! latches, counters, timers, steps, signals.
#![tactic(auto)]

mod counters;
mod counting;
mod edges;
mod instance;
mod latches;
mod outputs;
mod pins;
mod signals;
mod stepping;
mod timers;
mod timing;

pub use gate_words::{IntWord, TimeWord};
pub use instance::{EncodedCounter, EncodedInstance, EncodedTimer, EncodedUpDown};
pub use pins::EncodedPins;
pub use signals::{blocks_are_signals, int_word, time_word};
