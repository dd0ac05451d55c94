//! Numbers as words of signals, the lowest bit first: words of different lengths go together, since the bits that one lacks
//! are FALSE. In this order: bits, numbers, choices, comparisons, sums, differences, lengths, INTs and TIMEs.
#![tactic(auto)]

mod adding;
mod bits;
mod choosing;
mod comparing;
mod differing;
mod int_word;
mod numbers;
mod time_word;

pub use adding::{bounded_sum, sum};
pub use choosing::if_then_else;
pub use comparing::{at_most, equal};
pub use differing::difference;
pub use int_word::IntWord;
pub use numbers::{constant, resized};
pub use time_word::TimeWord;
